//! The reply tuples that a rule allows a flow to have.

ghost use Rattle.std.specs.Prelude.{◌≡◌, ◌==◌, ◌&&◌, ◌||◌, ◌≤◌, ℕ, true};
ghost use Rattle.tuple_core.specs.Tuple.{is_valid};
ghost use Rattle.nat_setup.specs.Reply.{changed_at, is_allowed, is_alike, is_in_range, own_number, reply_with};
ghost use Rattle.nat_setup.specs.Rule.{IsLawfulRule};

use crate::rule::{PortRange, Rule, Side};
use tuple_core::{Proto, Tuple, invert};

/// The number that a flow has in the place that the rule changes: its port on the rule's side, or its
/// identifier of ICMP.
pub fn own_number(rule: &Rule, t: &Tuple) -> u16
    ensures { result ≡ own_number rule.now t.now }
{
    match (rule.side, t.proto) {
        (Side::Destination, Proto::Tcp) => t.b,
        (Side::Destination, Proto::Udp) => t.b,
        (Side::Destination, Proto::Icmp) => t.a,
        (Side::Source, _) => t.a,
    }
}

/// The tuple with another address and number on one side; of ICMP the number is the identifier on either.
fn changed_at(side: Side, t: &Tuple, address: u32, number: u16) -> Tuple
    requires { is_valid t.now ≡ true }
    ensures exact { result ≡ changed_at side t.now t.now.proto address number }
    ensures valid { is_valid result ≡ true }
{
    match (side, t.proto) {
        (Side::Source, _) => Tuple {
            src: address,
            a: number,
            ..*t
        },
        (Side::Destination, Proto::Icmp) => Tuple {
            dst: address,
            a: number,
            ..*t
        },
        (Side::Destination, Proto::Tcp | Proto::Udp) => Tuple {
            dst: address,
            b: number,
            ..*t
        },
    }
}

/// The reply tuple of a flow once it has the rule's address and this number.
pub fn reply_with(rule: &Rule, t: &Tuple, number: u16) -> Tuple
    requires { is_valid t.now ≡ true }
    ensures exact { result ≡ reply_with rule.now t.now number }
    ensures valid { is_valid result ≡ true }
{
    invert(&changed_at(rule.side, t, rule.target, number))
}

/// The ports that are of the same kind as this one.
fn alike(port: u16) -> PortRange
    ensures up { result.low ≤ result.high }
    ensures exact { (number : ℕ) → is_alike port number ≡ is_in_range result.low result.high number }
{
    let (low, high) = if port < 512 {
        (1, 511)
    } else if port < 1024 {
        (600, 1023)
    } else {
        (1024, 65_535)
    };
    PortRange { low, high }
}

/// Numbers among which a rule lets one be chosen: those from the lowest to the highest, and the flow's own
/// one where `keeps_own` says so.
#[derive(Clone, Copy)]
pub struct Choice {
    pub low: u16,
    pub high: u16,
    pub keeps_own: bool,
}

/// The choice that the rule leaves a flow.
pub fn choice_for(rule: &Rule, t: &Tuple) -> Choice
    requires { IsLawfulRule rule.now }
    ensures up { result.low ≤ result.high }
    ensures exact { (number : ℕ) → is_allowed rule.now t.now number
        ≡ (is_in_range result.low result.high number || (result.keeps_own && number == own_number rule.now t.now)) }
{
    let own = own_number(rule, t);
    let (ports, keeps_own) = match (rule.ports, rule.side, t.proto) {
        (Some(ports), _, _) => (ports, false),
        (None, _, Proto::Icmp) => (
            PortRange {
                low: 0,
                high: 65_535,
            },
            false,
        ),
        (None, Side::Source, _) => (alike(own), true),
        (None, Side::Destination, _) => (
            PortRange {
                low: own,
                high: own,
            },
            false,
        ),
    };
    Choice {
        low: ports.low,
        high: ports.high,
        keeps_own,
    }
}
