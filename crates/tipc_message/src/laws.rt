//! The law that a message is read back from its packet, for callers.

ghost use Rattle.std.specs.Prelude.{◌≡◌, ℕ, Bool, List, Some};
ghost use Rattle.tipc_types.specs.declared.message_forms.Item.{Item};
ghost use Rattle.tipc_types.specs.declared.message_forms.Message.{Message};
ghost use Rattle.tipc_types.specs.declared.message_forms.Message.TheVariants as message;
ghost use Rattle.tipc_header.specs.Spelling.{Fields};
ghost use Rattle.tipc_message.specs.ItemWords.{AreInWords};
ghost use Rattle.tipc_message.specs.Wire.{message_of, packet_of, IsPayload};

/// The packet in which a node sends a message carries that message: a user's, or one of items.
pub fn messages_are_read_again()
    ensures payload { (own : ℕ) (m : Message) (p : Fields) →
        IsPayload m → packet_of own m ≡ Some p → message_of p ≡ Some m }
    ensures items { (own : ℕ) (withdrawal : Bool) (items : List Item) (p : Fields) →
        AreInWords items → packet_of own (message.Items withdrawal items) ≡ Some p →
        message_of p ≡ Some (message.Items withdrawal items) }
{}
