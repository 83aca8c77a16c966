//! Messages: importance, flow, form, and the items of name distribution.

use crate::bodies::Body;
use crate::few::Few;
use crate::identity::PortId;
use crate::sequences::Sequence;

/// How important a message is: the more, the longer it is still accepted on a loaded link. (TIPC 2.0 draft.)
#[derive(Clone, Copy, Debug, PartialEq, Eq, PartialOrd, Ord)]
pub enum Importance {
    /// Accepted while fewer than 50 packets wait.
    Low,
    /// Accepted while fewer than 100 packets wait.
    Medium,
    /// Accepted while fewer than 150 packets wait.
    High,
    /// Accepted while fewer than 200 packets wait.
    Critical,
}

/// An ordered stream of messages between two nodes. No order holds between two flows. (This project's profile.)
#[derive(Clone, Copy, Debug, PartialEq, Eq)]
pub enum Flow {
    /// Messages to one node.
    Zero,
    /// Messages to one node on the other link, where load is shared.
    One,
    /// Messages to many nodes on the broadcast link.
    Broadcast,
}

/// The form of a payload message: its message type. (TIPC 2.0 draft.)
#[derive(Clone, Copy, Debug, PartialEq, Eq)]
pub enum Form {
    /// Between two connected ports.
    Connected,
    /// To every port with an overlapping publication.
    Multicast,
    /// To a port that was found by name.
    Named,
    /// To a port by its identity.
    Direct,
}

/// One publication or withdrawal on its way to a peer. (TIPC 2.0 draft, name distributor.)
#[derive(Clone, Copy, Debug, PartialEq, Eq)]
pub struct Item {
    /// The service type.
    pub kind: u32,
    /// The lowest instance.
    pub lower: u32,
    /// The highest instance.
    pub upper: u32,
    /// The port that offers it.
    pub port: u32,
    /// The publication's key.
    pub key: u32,
}

/// Items in order.
pub type ItemList = Few<Item>;

/// A message as one node gives it to another. Fields that a form lacks are 0, except that a named
/// message has `upper` equal to `lower`.
#[derive(Clone, Debug, Drop, PartialEq)]
pub enum Message {
    /// A user's message, or one that was returned to its sender.
    Payload {
        /// How important it is.
        importance: Importance,
        /// Connected, multicast, named or direct.
        form: Form,
        /// The port that sent it.
        from: PortId,
        /// The port that it is for.
        to: PortId,
        /// The service type of a named or multicast message.
        name_kind: u32,
        /// The instance, or the lowest one.
        lower: u32,
        /// The highest instance.
        upper: u32,
        /// Why it was returned: 0 where it wasn't, else 1 no name, 2 no port, 3 no node, 4 overload, 5 shut down.
        code: u8,
        /// Whether it is dropped where it can't be delivered.
        droppable: bool,
        /// The user's bytes, at most 66,000.
        body: Body,
    },
    /// Publications or withdrawals.
    Items {
        /// Whether they are withdrawals.
        withdrawal: bool,
        /// The items, 1 to 70.
        items: ItemList,
    },
}

/// Messages in order.
pub type MessageList = Sequence<Message>;
