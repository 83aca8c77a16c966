//! What the calls of a send window mean over positions, for every state of a window. The functions do nothing:
//! their contracts are the laws.
ghost use Rattle.tipc_send_window.specs.Laws.{AcknowledgesByPosition, KeepsOrder, OthersReleaseNothing, ShowsNumbers};

/// An acknowledgement that shows the number of a numbered position, at most 32,000 before the last, releases the
/// packets up to that position, and none where they were acknowledged before.
pub fn acknowledges_by_position()
    ensures { AcknowledgesByPosition }
{}

/// An acknowledgement with a number that no unacknowledged packet has changes nothing.
pub fn others_release_nothing()
    ensures { OthersReleaseNothing }
{}

/// Packets stand in the order of their offers until they are acknowledged: numbering one moves none of them, and
/// an acknowledgement takes away the first ones.
pub fn keeps_order()
    ensures { KeepsOrder }
{}

/// The unacknowledged packets show the numbers of the positions behind the last acknowledged one.
pub fn shows_numbers()
    ensures { ShowsNumbers }
{}
