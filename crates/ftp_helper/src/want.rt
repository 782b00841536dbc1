//! What is expected of an end that a payload names.

ghost use Rattle.std.specs.Prelude.{◌≡◌};
ghost use Rattle.ftp_helper.specs.Want.{want_of};

use crate::payload::NamedEnd;
use expect_table::expectation::Want;
use tuple_core::{Direction, Tuple};

/// What is expected where a payload in this direction of a flow names the end: a connection back to it, from
/// the source to the destination of the opposite direction's tuple, and to the named port. Nothing is expected
/// at a foreign address: one that is named and is not the payload's own source.
pub fn want_of(
    direction: Direction,
    original: &Tuple,
    reply: &Tuple,
    end: &NamedEnd,
) -> Option<Want>
    ensures { result ≡ want_of direction original.now reply.now end.now }
{
    let (here, back) = match direction {
        Direction::Original => (original, reply),
        Direction::Reply => (reply, original),
    };
    match end.address {
        Some(address) if address != here.src => None,
        _ => Some(Want {
            src: back.src,
            dst: back.dst,
            port: end.port,
        }),
    }
}
