//! Which entries a filter selects.

ghost use Rattle.std.specs.Prelude.{◌≡◌};
ghost use Rattle.history_book.specs.Filter.{is_number, is_proto, selects};

use crate::record::Record;
use tuple_core::Proto;

/// What an entry must have: each of these that is named. Addresses and ports are in host order.
#[derive(Clone, Copy)]
pub struct Filter {
    pub proto: Option<Proto>,
    /// The source and the destination of the original tuple.
    pub src: Option<u32>,
    pub dst: Option<u32>,
    /// The source and the destination of the reply tuple.
    pub reply_src: Option<u32>,
    pub reply_dst: Option<u32>,
    /// The source port and the destination port of the original tuple.
    pub sport: Option<u16>,
    pub dport: Option<u16>,
    /// The zone.
    pub zone: Option<u16>,
}

/// Whether no protocol is named, or this one.
pub fn is_proto(named: Option<Proto>, proto: Proto) -> bool
    ensures { result ≡ is_proto named proto }
{
    match named {
        Some(name) => name == proto,
        None => true,
    }
}

/// Whether no address is named, or this one.
fn is_address(named: Option<u32>, address: u32) -> bool
    ensures { result ≡ is_number named address }
{
    match named {
        Some(name) => name == address,
        None => true,
    }
}

/// Whether no port or zone is named, or this one.
pub fn is_number(named: Option<u16>, number: u16) -> bool
    ensures { result ≡ is_number named number }
{
    match named {
        Some(name) => name == number,
        None => true,
    }
}

/// Whether an entry has all that is named.
pub fn selects(filter: &Filter, r: &Record) -> bool
    ensures { result ≡ selects filter.now r.now }
{
    is_proto(filter.proto, r.original.proto)
        && is_address(filter.src, r.original.src)
        && is_address(filter.dst, r.original.dst)
        && is_address(filter.reply_src, r.reply.src)
        && is_address(filter.reply_dst, r.reply.dst)
        && is_number(filter.sport, r.original.a)
        && is_number(filter.dport, r.original.b)
        && is_number(filter.zone, r.original.zone)
}
