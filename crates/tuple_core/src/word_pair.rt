//! Tuples as two words of 64 bits, and back.

ghost use Rattle.std.specs.Prelude.{◌≡◌, ◌≢◌, IfSome, Some, IfNone, true};
ghost use Rattle.tuple_core.specs.Laws.{WordsDetermineTheTuple};
ghost use Rattle.tuple_core.specs.Tuple.{is_valid, number_of};
ghost use Rattle.tuple_core.specs.Words.{words_of};
ghost use Rattle.tuple_core.specs.declared.Proto.{Proto};
ghost use Rattle.tuple_core.specs.declared.Tuple.{Tuple};

use crate::{Proto, Tuple, is_valid};

/// The numbers of the protocols, in their order.
static NUMBERS: [u64; 3] = [1, 6, 17];

/// The number of a protocol in the IP header (RFC 791).
fn number_of(proto: Proto) -> u64
    ensures { result ≡ number_of proto }
{
    // No branch, so that the words of a tuple are reckoned once where two calls in a row ask for them.
    NUMBERS[proto as usize]
}

/// The protocol with this number in the IP header (RFC 791).
fn proto_of(number: u64) -> Option<Proto>
    ensures found { IfSome result (λ proto. number_of proto ≡ number) }
    ensures none { IfNone result ((proto : Proto) → number_of proto ≢ number) }
{
    match number {
        1 => Some(Proto::Icmp),
        6 => Some(Proto::Tcp),
        17 => Some(Proto::Udp),
        _ => None,
    }
}

/// A tuple as two words: its addresses, and its zone and its protocol's number with what tells flows apart.
pub fn words(t: &Tuple) -> [u64; 2]
    ensures { result ≡ words_of t.now }
{
    let Tuple {
        proto,
        zone,
        src,
        dst,
        a,
        b,
    } = *t;
    [
        src as u64 * 0x1_0000_0000 + dst as u64,
        zone as u64 * 0x100_0000_0000
            + number_of(proto) * 0x1_0000_0000
            + a as u64 * 0x1_0000
            + b as u64,
    ]
}

/// The valid tuple that has these words, if there is one.
pub fn of_words(w: [u64; 2]) -> Option<Tuple>
    ensures found { IfSome result (λ t. is_valid t ≡ true) }
    ensures exact { IfSome result (λ t. words_of t ≡ w) }
    ensures none { IfNone result ((t : Tuple) → is_valid t ≡ true → words_of t ≢ w) }
    ensures back { (t : Tuple) → is_valid t ≡ true → words_of t ≡ w → result ≡ Some t }
{
    let [addresses, flow] = w;
    let zone = flow / 0x100_0000_0000;
    if zone >= 0x1_0000 {
        return None;
    }
    let proto = proto_of(flow / 0x1_0000_0000 % 0x100)?;
    let t = Tuple {
        proto,
        zone: zone as u16,
        src: (addresses / 0x1_0000_0000) as u32,
        dst: (addresses % 0x1_0000_0000) as u32,
        a: (flow / 0x1_0000 % 0x1_0000) as u16,
        b: (flow % 0x1_0000) as u16,
    };
    if is_valid(&t) { Some(t) } else { None }
}

/// Two valid tuples with the same words are the same tuple.
pub fn words_determine_the_tuple()
    ensures { WordsDetermineTheTuple }
{}
