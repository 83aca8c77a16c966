//! What frames and member sets of the broadcast link mean. The functions do nothing: their contracts are the laws.
ghost use Rattle.tipc_broadcast.specs.Laws.{FramesAreStamped, SetsTellMembers};

/// The frame of a packet under a number is the envelope with boot and member set, and the packet that acknowledges
/// nothing, has this number and comes from this node.
pub fn frames_are_stamped()
    ensures { FramesAreStamped }
{}

/// The bit of a node is set in the member set of a packet exactly where that node is in contact.
pub fn sets_tell_members()
    ensures { SetsTellMembers }
{}
