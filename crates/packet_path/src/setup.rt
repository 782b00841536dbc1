//! What the tracker is set up with.

use nat_setup::rule::Rules;
use room_list::RoomList;

/// Ports, in host order.
pub type Ports = RoomList<u16>;

/// What the tracker is set up with: the rules of translation, in the order in which they are tried, and the
/// ports of servers whose connections have the helper, which reads their payload.
#[derive(Drop)]
pub struct Setup {
    pub rules: Rules,
    pub ftp: Ports,
}
