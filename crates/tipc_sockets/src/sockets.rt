//! The sockets of one node with its names and subscriptions, and the calls that they take.

ghost use Rattle.std.specs.Prelude.{◌≡◌, ◌≤◌, ◌<◌, ◌+◌, ◌⊎◌, ◌↔◌, ◌&&◌, ℕ, Bool, List, [], ◌∷◌, false, true, Err, Ok, None, Some, count_by, filter, find, fold, length, map, slice_get, unwrap_or, IfErr, IfOk, IfSome, IfNone, IsErr, OnErr, OnOk};
ghost use Rattle.std.specs.List.{list_any};
ghost use Rattle.tipc_types.specs.Address.{IsNodeWord};
ghost use Rattle.tipc_types.specs.declared.message_forms.Message.{Message};
ghost use Rattle.tipc_types.specs.declared.services.Publication.{Publication};
ghost use Rattle.tipc_types.specs.Matching.{closest, covers, overlaps};
ghost use Rattle.tipc_types.specs.Tables.{is_named, is_of, put, without, without_node, IsTable};
ghost use Rattle.tipc_ports.specs.Numbers.{port_number};
ghost use Rattle.tipc_sockets.specs.Fates.{after_fate, fate, has_places, hearers_of, may_wait, refusal, spread_of, surely_waits, with_waiting};
ghost use Rattle.tipc_sockets.specs.Publishing.{closed, is_at, own_publication, published_at, publish_refusal, published, purged, withdrawn};
ghost use Rattle.tipc_topology.specs.Changing.{cancelled, due, ended_at, events_left, is_filter, of_number, passed, subscribed, with_event_taken as taken_from_one, with_kept};
ghost use Rattle.tipc_topology.specs.Watchers.{ticked};
ghost use Rattle.tipc_sockets.specs.SocketTables.{has_port, no_sockets, queue_at, queued, queued_at_each, with_first_taken, with_queues, with_socket, with_watchers, AreSockets};

use crate::fates::{Fate, port_of, unqueued};
use crate::publishing::{
    FIRST_KIND, PublishFault, WithdrawFault, aimed_at, all_at, find_at, has_key, is_any_at, is_of,
    is_offered, lose, lose_those_at, note_added, remove_at, remove_named, remove_node, those_of,
    withdraw_those_at,
};
use crate::queues::{Queue, Queues, copies, may_wait, put, put_each};
use crate::spreading::Spreading;
use std::alloc::Global;
use std::marker::Model;
use tipc_journal::PortList;
use tipc_name_index::NameIndex;
use tipc_name_table::{MOST_PUBLICATIONS, NameFault, Names, Unknown as UnknownName};
use tipc_ports::{MOST_MADE, MOST_PORTS, PortFault, Ports, Unknown};
use tipc_topology::{
    Leaving, SubscriptionNumbers, Topology, TopologyFault, Unknown as UnknownSubscription,
};
use tipc_types::{
    Addr, Event, Form, List, Message, NoMemory, PortId, Publication, Scope, ServiceRange,
    Subscription,
};

/// Why a message isn't queued: the port has no such publication. (TIPC 2.0 draft.)
const NO_NAME: u8 = 1;

/// Why a message isn't queued: the port isn't there. (TIPC 2.0 draft.)
const NO_PORT: u8 = 2;

/// Why a message isn't queued: as many wait at the port as may. (TIPC 2.0 draft.)
const OVERLOAD: u8 = 4;

/// The form in which the names are held.
pub type Table = NameIndex;

/// The sockets of a node in one boot: the publications that it knows, its ports, the messages that wait at each of
/// them, and the subscriptions, which are told of each change of the publications as it is made.
#[derive(Drop)]
pub struct Sockets {
    own: Addr,
    names: Table,
    live: Vec<Publication>,
    ports: Ports,
    made: u32,
    queues: Queues,
    topology: Topology,
    leaving: Leaving,
}

impl Model for Sockets {
    ghost use Rattle.std.specs.Prelude.{◌≡◌, ◌≤◌, length};
    ghost use Rattle.tipc_sockets.specs.SocketTables.{AreSockets, SocketTable};

    ghost Value = { SocketTable };

    ghost view = { λ s. record {
      own = s.own.word;
      names = s.names;
      live = s.live.items;
      ports = s.ports;
      queues = s.queues.entries;
      watchers = s.topology;
    } };

    ghost invariant = { λ s. (s.made ≡ s.ports.made) ×
        AreSockets (record {
          own = s.own.word;
          names = s.names;
          live = s.live.items;
          ports = s.ports;
          queues = s.queues.entries;
          watchers = s.topology;
        }) × (length s.names ≤ s.leaving) };
}

impl Sockets {
    /// The sockets of a node of this boot, before any is made. Nothing is published. Boots are counted from 1.
    pub fn new(alloc: Global, own: Addr, boot: u32) -> Sockets
        requires node { IsNodeWord own.word }
        requires boot { 1 ≤ boot }
        ensures { result ≡ no_sockets own.word boot }
    {
        Sockets {
            own,
            names: Table::new(alloc),
            live: Vec::new(alloc),
            ports: Ports::new(alloc, boot),
            made: 0,
            queues: Queues::new(alloc),
            topology: Topology::new(alloc),
            leaving: Leaving::new(alloc),
        }
    }

    /// Makes a socket with an empty queue, and answers its port: `(boot - 1) mod 4096 * 1048576` and how many were
    /// made with it. (This project's profile.)
    ///
    /// # Errors
    ///
    /// `Full` exactly where 256 ports are there or 1,048,575 were made in this boot; else `NoMemory` where memory
    /// runs out.
    pub fn make(&mut self, alloc: Global) -> Result<u32, PortFault>
        ensures number { IfOk result (λ port. port ≡ port_number self.old.ports.boot (self.old.ports.made + 1)) }
        ensures ok { IfOk result (λ port. self.new ≡ with_socket self.old port) }
        ensures full { (result ≡ Err PortFault.Full) ↔
            ((256 ≤ length self.old.ports.present) ⊎ (1048575 ≤ self.old.ports.made)) }
        ensures err { OnErr result (self.new ≡ self.old) }
    {
        if self.ports.as_slice().len() >= MOST_PORTS || self.made >= MOST_MADE {
            return Err(PortFault::Full);
        }
        let Ok(queue) = Queue::new(alloc) else {
            return Err(PortFault::NoMemory);
        };
        let Ok(()) = self.queues.reserve(1) else {
            return Err(PortFault::NoMemory);
        };
        let port = self.ports.make()?;
        self.made += 1;
        match self.queues.insert(port, queue) {
            Ok(_) => Ok(port),
            Err(_) => unreachable!(),
        }
    }

    /// Whether the port is there.
    pub fn has(&self, port: u32) -> bool
        ensures { result ≡ has_port self.now port }
    {
        self.queues.contains_key(&port)
    }

    /// How many messages wait at a port, 128 at most: 0 where it isn't there.
    pub fn queued(&self, port: u32) -> u32
        ensures count { result ≡ length (unwrap_or (queue_at self.now port) []) }
        ensures most { result ≤ 128 }
    {
        match self.queues.get(&port) {
            Some(queue) => queue.len(),
            None => 0,
        }
    }

    /// Takes the first message that waits at a port: None exactly where none waits. It takes no memory.
    ///
    /// # Errors
    ///
    /// `Unknown` exactly where the port isn't there. It changes nothing.
    pub fn receive(&mut self, port: u32) -> Result<Option<Message>, Unknown>
        ensures first { IfOk result (λ m. m ≡ slice_get (unwrap_or (queue_at self.old port) []) 0) }
        ensures ok { OnOk result (self.new ≡ with_queues self.old (with_first_taken self.old.queues port)) }
        ensures unknown { IsErr result ↔ (has_port self.old port ≡ false) }
        ensures err { OnErr result (self.new ≡ self.old) }
    {
        let Some(queue) = self.queues.get_mut(&port) else {
            return Err(Unknown);
        };
        Ok(queue.take())
    }

    /// Closes a port: its publications are withdrawn, in the order of publishing, and what waits there is dropped. It
    /// takes no memory.
    ///
    /// # Errors
    ///
    /// `Unknown` exactly where the port isn't there. It changes nothing.
    pub fn close(&mut self, port: u32) -> Result<(), Unknown>
        ensures ok { OnOk result (self.new ≡ closed self.old port) }
        ensures unknown { IsErr result ↔ (has_port self.old port ≡ false) }
        ensures err { OnErr result (self.new ≡ self.old) }
    {
        if self.queues.shift_remove(&port).is_none() {
            return Err(Unknown);
        }
        match self.ports.close(port) {
            Ok(()) => {}
            Err(_) => unreachable!(),
        }
        lose_those_at(&mut self.topology, self.live.as_slice(), port);
        withdraw_those_at(&mut self.names, self.live.as_slice(), self.own, port);
        remove_at(&mut self.live, port);
        Ok(())
    }

    /// The own publications, in the order of publishing, and what always holds of a node's sockets.
    pub fn live(&self) -> &[Publication]
        ensures live { result.now ≡ self.now.live }
        ensures sound { AreSockets self.now }
    {
        self.live.as_slice()
    }

    /// The own publications at a port, in the order of publishing.
    pub fn live_at(&self, alloc: Global, port: u32) -> Result<List, NoMemory>
        ensures { IfOk result (λ ps. ps ≡ filter (is_at port) self.now.live) }
    {
        Ok(List::from_vec(all_at(alloc, self.live.as_slice(), port)?))
    }

    /// The own publication of a key at a port: None exactly where the key isn't live there.
    pub fn published_at(&self, port: u32, key: u32) -> Option<Publication>
        ensures { result ≡ published_at self.now port key }
    {
        find_at(self.live.as_slice(), port, key)
    }

    /// Why a publication of a service type and key would be refused at a port, the first that holds: `NoSocket`, the
    /// port isn't there; `Reserved`, the type is below 64; `Duplicate`, the key is live at this node; `Full`, 1,024
    /// own publications are live.
    pub fn publish_refusal(&self, port: u32, kind: u32, key: u32) -> Option<PublishFault>
        ensures { result ≡ publish_refusal self.now port kind key }
    {
        if !self.has(port) {
            return Some(PublishFault::NoSocket);
        }
        if kind < FIRST_KIND {
            return Some(PublishFault::Reserved);
        }
        if has_key(self.live.as_slice(), key) {
            return Some(PublishFault::Duplicate(key));
        }
        if self.live.len() >= MOST_PUBLICATIONS {
            return Some(PublishFault::Full);
        }
        None
    }

    /// Publishes a range at an own port, behind those that are live.
    ///
    /// # Errors
    ///
    /// Exactly what `publish_refusal` says; else `NoMemory` where memory runs out. An error changes nothing.
    pub fn publish_at(
        &mut self,
        port: u32,
        range: ServiceRange,
        scope: Scope,
        key: u32,
    ) -> Result<(), PublishFault>
        ensures ok { OnOk result (self.new ≡ published self.old (own_publication self.old.own port range scope key)) }
        ensures refused { (f : PublishFault) → publish_refusal self.old port range.kind key ≡ Some f → result ≡ Err f }
        ensures cause { IfErr result (λ f. (f ≡ PublishFault.NoMemory) ⊎
            (publish_refusal self.old port range.kind key ≡ Some f)) }
        ensures err { OnErr result (self.new ≡ self.old) }
    {
        if let Some(fault) = self.publish_refusal(port, range.kind(), key) {
            return Err(fault);
        }
        let at = PortId {
            node: self.own,
            port,
        };
        match self.publish(Publication {
            range,
            scope,
            at,
            key,
        }) {
            Ok(()) => Ok(()),
            Err(NameFault::NoMemory) => Err(PublishFault::NoMemory),
            Err(NameFault::Duplicate) => unreachable!(),
            Err(NameFault::Full) => unreachable!(),
        }
    }

    /// Withdraws the own publication of a key at a port. It takes no memory.
    ///
    /// # Errors
    ///
    /// `NoSocket` exactly where the port isn't there; else `Unknown` exactly where the key isn't live at that port.
    /// An error changes nothing.
    pub fn withdraw_at(&mut self, port: u32, key: u32) -> Result<Publication, WithdrawFault>
        ensures ok { IfOk result (λ p. published_at self.old port key ≡ Some p) }
        ensures after { OnOk result (self.new ≡ withdrawn self.old self.old.own key) }
        ensures no_socket { (result ≡ Err WithdrawFault.NoSocket) ↔ (has_port self.old port ≡ false) }
        ensures unknown { (result ≡ Err WithdrawFault.Unknown) ↔
            ((has_port self.old port ≡ true) × (published_at self.old port key ≡ None)) }
        ensures err { OnErr result (self.new ≡ self.old) }
    {
        if !self.has(port) {
            return Err(WithdrawFault::NoSocket);
        }
        let Some(p) = self.published_at(port, key) else {
            return Err(WithdrawFault::Unknown);
        };
        match self.withdraw(self.own, key) {
            Ok(_) => Ok(p),
            Err(_) => unreachable!(),
        }
    }

    /// The publications that a name finds, closest first: the own ones that cover the instance, where there are some,
    /// and else those of all nodes, in order of node, port and key: 32,768 at most. (Order and preference are this
    /// project's profile.)
    pub fn closest(&self, alloc: Global, kind: u32, instance: u32) -> Result<List, NoMemory>
        ensures found { IfOk result (λ ps. ps ≡ closest self.now.own (filter (covers kind instance) self.now.names)) }
        ensures few { IfOk result (λ ps. length ps ≤ 32768) }
    {
        let all = self.names.matches(alloc, kind, instance)?;
        let own = those_of(alloc, all.as_slice(), self.own)?;
        if own.is_empty() {
            return Ok(all);
        }
        Ok(List::from_vec(own))
    }

    /// Why a message isn't queued to the one port that it is for.
    fn refusal(&self, arrived: bool, form: Form, port: u32, kind: u32, instance: u32) -> Option<u8>
        ensures { result ≡ refusal self.now arrived form port kind instance }
    {
        if arrived
            && form == Form::Named
            && !is_offered(self.live.as_slice(), port, kind, instance)
        {
            return Some(NO_NAME);
        }
        match self.queues.get(&port) {
            None => Some(NO_PORT),
            Some(queue) if queue.has_room() => None,
            Some(_) => Some(OVERLOAD),
        }
    }

    /// The ports of these publications that have room, rising.
    fn hearers(&self, alloc: Global, aimed: &[Publication]) -> Result<PortList, NoMemory>
        ensures { IfOk result (λ ports. ports ≡
            filter (λ port. list_any (is_at port) aimed.now && may_wait
            (queue_at self.now port)) self.now.ports.present) }
    {
        let ports = self
            .ports
            .as_slice()
            .iter()
            .copied()
            .filter(|port| is_any_at(aimed, *port) && may_wait(&self.queues, *port))
            .collect(alloc)?;
        Ok(PortList::from_vec(ports))
    }

    /// Queues a message to a port that has room.
    fn queue_to(&mut self, alloc: Global, port: u32, m: Message) -> Result<Fate, NoMemory>
        requires { may_wait (queue_at self.old port) ≡ true }
        ensures fate { IfOk result (λ f. f ≡ Fate.Queued (port ∷ [])) }
        ensures ok { OnOk result (self.new ≡ with_queues self.old (queued m self.old.queues port)) }
        ensures err { OnErr result (self.new ≡ self.old) }
    {
        let mut ports = PortList::new(alloc);
        ports.push(port)?;
        put(&mut self.queues, port, m);
        Ok(Fate::Queued(ports))
    }

    /// What a multicast will make of the sockets: each own port, rising, that has room and a publication that overlaps
    /// the range which it names, of cluster or zone scope where it arrived, will have a copy. Nothing is changed yet:
    /// [`Sockets::spread`] does it. (TIPC 2.0 draft; limits: this project's profile.)
    pub fn spreading(
        &self,
        alloc: Global,
        m: &Message,
        arrived: bool,
    ) -> Result<Spreading, NoMemory>
        ensures { IfOk result (λ s. s ≡ spread_of self.now arrived m.now) }
    {
        let Message::Payload {
            name_kind,
            lower,
            upper,
            ..
        } = m
        else {
            return Ok(Spreading {
                ports: PortList::new(alloc),
                copies: Vec::new(alloc),
            });
        };
        let live = self.live.as_slice();
        let aimed = aimed_at(alloc, live, arrived, *name_kind, *lower, *upper)?;
        let ports = self.hearers(alloc, aimed.as_slice())?;
        let copies = copies(alloc, m, ports.as_slice().len())?;
        Ok(Spreading { ports, copies })
    }

    /// Queues a multicast at each port that hears it, as [`Sockets::spreading`] told when the sockets were as they are,
    /// and answers what becomes of it. It takes no memory.
    pub fn spread(&mut self, spreading: Spreading) -> Fate
        requires { (arrived : Bool) × (m : Message) × (spreading ≡ spread_of self.old arrived m) }
        ensures fate { result ≡ Fate.Queued spreading.ports }
        ensures after { (arrived : Bool) (m : Message) → spreading ≡ spread_of self.old arrived m →
            self.new ≡ after_fate self.old m (Fate.Queued spreading.ports) }
    {
        let Spreading { ports, copies } = spreading;
        put_each(&mut self.queues, ports.as_slice(), copies);
        Fate::Queued(ports)
    }

    /// Queues a multicast at each port that hears it.
    fn spread_now(&mut self, alloc: Global, m: &Message, arrived: bool) -> Result<Fate, NoMemory>
        ensures fate { IfOk result (λ f. f ≡ Fate.Queued (hearers_of self.old arrived m.now)) }
        ensures ok { IfOk result (λ f. self.new ≡ after_fate self.old m.now f) }
        ensures err { OnErr result (self.new ≡ self.old) }
    {
        let spreading = self.spreading(alloc, m, arrived)?;
        Ok(self.spread(spreading))
    }

    /// What becomes of a message that arrived (`arrived`, whatever origin it names), or that the own node sent to
    /// itself. `waiting` is how many packets wait on the active link to its origin, and None without contact. The
    /// first row that fits:
    ///
    /// - a multicast waits at each own port, rising, that has room and a publication that overlaps its range, of
    ///   cluster or zone scope where the message arrived;
    /// - a connected message, and a message of name items, is dropped;
    /// - a message that arrived by name isn't queued (1, no name) where its port has no publication of cluster or
    ///   zone scope that covers the instance;
    /// - it isn't queued where the port isn't there (2, no port), or 128 messages wait there (4, overload);
    /// - else it waits at its port.
    ///
    /// A message that isn't queued is dropped where it is droppable or was returned before. Else it goes back to its
    /// sender: at the own node always, at a peer where fewer than 200 packets wait. (TIPC 2.0 draft; limits and
    /// returns are this project's profile.)
    ///
    /// # Errors
    ///
    /// `NoMemory` where memory runs out for a message that is to wait. Nothing is changed then, but the message is
    /// gone.
    pub fn dispatch(
        &mut self,
        alloc: Global,
        m: Message,
        arrived: bool,
        waiting: Option<u32>,
    ) -> Result<Fate, NoMemory>
        ensures fate { IfOk result (λ f. f ≡ fate self.old arrived waiting m) }
        ensures ok { IfOk result (λ f. self.new ≡ after_fate self.old m f) }
        ensures err { OnErr result (self.new ≡ self.old) }
        ensures not_dropped { OnErr result (fate self.old arrived waiting m ≡ Fate.Dropped → ⊥) }
        ensures not_returned { (r : Message) → OnErr result (fate self.old arrived waiting m ≡ Fate.Returned r → ⊥) }
        ensures not_return_dropped { (count : ℕ) →
            OnErr result (fate self.old arrived waiting m ≡ Fate.ReturnDropped count → ⊥) }
    {
        let Message::Payload {
            form,
            to,
            name_kind,
            lower,
            ..
        } = &m
        else {
            return Ok(Fate::Dropped);
        };
        let (form, port, kind, lower) = (*form, to.port, *name_kind, *lower);
        match form {
            Form::Connected => Ok(Fate::Dropped),
            Form::Multicast => self.spread_now(alloc, &m, arrived),
            Form::Named | Form::Direct => match self.refusal(arrived, form, port, kind, lower) {
                Some(why) => Ok(unqueued(self.own, waiting, why, m)),
                None => self.queue_to(alloc, port, m),
            },
        }
    }

    /// Whether so many messages more may wait at a port: it is there, and has places for them.
    fn has_places(&self, port: u32, count: u32) -> bool
        ensures { result ≡ has_places count (queue_at self.now port) }
    {
        match self.queues.get(&port) {
            Some(queue) => queue.has_places(count),
            None => false,
        }
    }

    /// Whether a message that arrived surely waits at its port, as the last of so many messages that arrived: it is
    /// direct, or by name and its port offers the instance to other nodes; and the port is there and has places for
    /// them all. What becomes of such a message is known before it is there, and takes no memory: see
    /// [`Sockets::put`].
    pub fn surely_waits(&self, m: &Message, count: u32) -> bool
        ensures { result ≡ surely_waits self.now count m.now }
    {
        let Message::Payload {
            form,
            to,
            name_kind,
            lower,
            ..
        } = m
        else {
            return false;
        };
        match form {
            Form::Connected => false,
            Form::Multicast => false,
            Form::Named => {
                is_offered(self.live.as_slice(), to.port, *name_kind, *lower)
                    && self.has_places(to.port, count)
            }
            Form::Direct => self.has_places(to.port, count),
        }
    }

    /// Puts a message that surely waits at its port there. It takes no memory.
    pub fn put(&mut self, m: Message)
        requires { surely_waits self.old 1 m ≡ true }
        ensures { self.new ≡ with_waiting self.old m }
    {
        let at = port_of(&m);
        put(&mut self.queues, at, m);
    }

    /// All publications that are known, in order of node, port and key.
    pub fn names(&self) -> &[Publication]
        ensures { result.now ≡ self.now.names }
    {
        self.names.as_slice()
    }

    /// Makes a subscription and answers its number: 1, 2, 3 and so on in a boot. The publications that are known and
    /// that it watches are told of first, in order of lower, upper, node, port and key; under filter 2 (service) the
    /// first of each distinct range alone, under filter 1 (ports) each.
    ///
    /// # Errors
    ///
    /// `BadRange` exactly where the lower bound is above the upper; else `BadFilter` exactly where the filter is
    /// neither 1 nor 2; else `Full` exactly where 256 subscriptions are there or 4,294,967,295 were made in this boot;
    /// else `NoMemory` where memory runs out. An error changes nothing.
    pub fn subscribe(&mut self, alloc: Global, s: Subscription) -> Result<u32, TopologyFault>
        ensures number { IfOk result (λ number. number ≡ self.old.watchers.made + 1) }
        ensures ok { OnOk result (self.new ≡ with_watchers self.old (subscribed s self.old.names self.old.watchers)) }
        ensures range { (result ≡ Err TopologyFault.BadRange) ↔ (s.upper < s.lower) }
        ensures filter { (result ≡ Err TopologyFault.BadFilter) ↔ ((s.lower ≤ s.upper) × (is_filter s ≡ false)) }
        ensures full { (result ≡ Err TopologyFault.Full) ↔ ((s.lower ≤ s.upper) × (is_filter s ≡ true) ×
            ((256 ≤ length self.old.watchers.kept) ⊎ (4294967295 ≤ self.old.watchers.made))) }
        ensures err { OnErr result (self.new ≡ self.old) }
    {
        self.topology.subscribe(alloc, s, &self.names)
    }

    /// Cancels a subscription, which isn't there any more then. It takes no memory.
    ///
    /// # Errors
    ///
    /// `Unknown` exactly where no subscription of the number is there. It changes nothing.
    pub fn cancel(&mut self, number: u32) -> Result<(), UnknownSubscription>
        ensures ok { OnOk result (self.new ≡ with_watchers self.old (cancelled number self.old.watchers)) }
        ensures unknown { IsErr result ↔ (of_number self.old.watchers number ≡ None) }
        ensures err { OnErr result (self.new ≡ self.old) }
    {
        self.topology.cancel(number)
    }

    /// Takes the first event of a subscription that wasn't taken yet: None exactly where none is left. It takes no
    /// memory.
    ///
    /// # Errors
    ///
    /// `Unknown` exactly where no subscription of the number is there. It changes nothing.
    pub fn next_event(&mut self, number: u32) -> Result<Option<Event>, UnknownSubscription>
        ensures first { IfOk result (λ event. event ≡ slice_get (events_left (of_number self.old.watchers number)) 0) }
        ensures ok { OnOk result (self.new ≡
            with_watchers self.old (with_kept self.old.watchers (taken_from_one number self.old.watchers.kept))) }
        ensures unknown { IsErr result ↔ (of_number self.old.watchers number ≡ None) }
        ensures err { OnErr result (self.new ≡ self.old) }
    {
        self.topology.next_event(number)
    }

    /// The numbers of the subscriptions that time out in the next tick, rising: those of which then as many ticks as
    /// their timeout, and at least one, have passed; the timeout 4,294,967,295 is for ever. They are 256 at most.
    pub fn due(&self, alloc: Global) -> Result<SubscriptionNumbers, NoMemory>
        ensures numbers { IfOk result (λ numbers. numbers ≡ due self.now.watchers.kept) }
        ensures few { IfOk result (λ numbers. length numbers ≤ 256) }
    {
        self.topology.due(alloc)
    }

    /// Lets a tick pass for the subscriptions. Those that are due time out, and are told so as the last of their
    /// events. It takes no memory.
    pub fn pass(&mut self)
        ensures ticked { self.new ≡
            with_watchers self.old (with_kept self.old.watchers (map ticked self.old.watchers.kept)) }
        ensures parts { self.new ≡
            with_watchers self.old (passed (fold (λ t n. ended_at n t) self.old.watchers
            (due self.old.watchers.kept))) }
    {
        self.topology.pass();
    }

    /// The same sockets, with the same names, publications, queues, subscriptions, and number for the next port.
    pub fn copy(&self) -> Result<Sockets, NoMemory>
        ensures { IfOk result (λ copy. copy ≡ self.now) }
    {
        let leaving = self.leaving.another(self.names.as_slice().len())?;
        Ok(Sockets {
            own: self.own,
            names: self.names.copy()?,
            live: self.live.clone()?,
            ports: self.ports.copy()?,
            made: self.made,
            queues: self.queues.clone()?,
            topology: self.topology.copy()?,
            leaving,
        })
    }
}

impl Names for Sockets {
    ghost table = { λ s. s.names };

    fn publish(&mut self, p: Publication) -> Result<(), NameFault>
        requires { IsNodeWord p.at.node.word }
        ensures ok { OnOk result (self.new ≡ published self.old p) }
        ensures duplicate { (result ≡ Err NameFault.Duplicate) ↔
            (list_any (is_named p.at.node.word p.key) self.old.names ≡ true) }
        ensures full { (result ≡ Err NameFault.Full) ↔
            ((list_any (is_named p.at.node.word p.key) self.old.names ≡ false) ×
            (1024 ≤ count_by (is_of p.at.node.word) self.old.names)) }
        ensures err { OnErr result (self.new ≡ self.old) }
        ensures sound { IsTable self.new.names }
    {
        self.names.publish(p)?;
        let count = self.names.as_slice().len();
        match note_added(
            &mut self.live,
            &mut self.topology,
            &mut self.leaving,
            self.own,
            &p,
            count,
        ) {
            Ok(()) => Ok(()),
            Err(_) => {
                let _ = self.names.withdraw(p.at.node, p.key);
                Err(NameFault::NoMemory)
            }
        }
    }

    fn withdraw(&mut self, node: Addr, key: u32) -> Result<Publication, UnknownName>
        ensures ok { IfOk result (λ p. find (is_named node.word key) self.old.names ≡ Some p) }
        ensures after { OnOk result (self.new ≡ withdrawn self.old node.word key) }
        ensures unknown { OnErr result (find (is_named node.word key) self.old.names ≡ None) }
        ensures err { OnErr result (self.new ≡ self.old) }
        ensures sound { IsTable self.new.names }
    {
        let p = self.names.withdraw(node, key)?;
        remove_named(&mut self.live, node, key);
        lose(&mut self.topology, &p);
        Ok(p)
    }

    fn matches(&self, alloc: Global, kind: u32, instance: u32) -> Result<List, NoMemory> {
        self.names.matches(alloc, kind, instance)
    }

    fn overlapping(&self, alloc: Global, range: ServiceRange) -> Result<List, NoMemory> {
        self.names.overlapping(alloc, range)
    }

    fn purge(&mut self, node: Addr)
        ensures all { self.new ≡ purged self.old node.word }
        ensures sound { IsTable self.new.names }
    {
        self.leaving
            .tell(&mut self.topology, self.names.as_slice(), node);
        self.names.purge(node);
        remove_node(&mut self.live, node);
    }
}
