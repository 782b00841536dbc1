//! A rule, and which flows it is for.

ghost use Rattle.std.specs.Prelude.{◌≡◌, ◌≤◌};
ghost use Rattle.std.specs.List.{AllByRecursion};
ghost use Rattle.nat_setup.specs.Rule.{IsBlock, is_from, is_in_block, IsLawfulRule, matches, rule_for};

use history_book::filter::{is_number, is_proto};
use room_list::RoomList;
use tuple_core::{Proto, Tuple};

/// Which end of a flow a rule changes.
#[derive(Clone, Copy, PartialEq, Eq)]
pub enum Side {
    /// The source, as `snat` does.
    Source,
    /// The destination, as `dnat` does.
    Destination,
}

/// The addresses whose first `length` bits are those of this one, in host order.
#[derive(Clone, Copy)]
pub struct Block {
    pub address: u32,
    /// From 0 to 32.
    pub length: u8,
}

/// Ports from the lowest to the highest, both included.
#[derive(Clone, Copy)]
pub struct PortRange {
    pub low: u16,
    pub high: u16,
}

/// A rule: which flows it is for, and what it puts in the place of an address and a port.
#[derive(Clone, Copy)]
pub struct Rule {
    pub side: Side,
    pub proto: Option<Proto>,
    pub src: Option<Block>,
    pub dst: Option<Block>,
    /// The source port; stands only beside TCP or UDP.
    pub sport: Option<u16>,
    /// The destination port; stands only beside TCP or UDP.
    pub dport: Option<u16>,
    /// The address that it puts in place, in host order.
    pub target: u32,
    /// The ports that it may put in place; they stand only beside TCP or UDP.
    pub ports: Option<PortRange>,
}

/// Rules in the order in which they are tried.
pub type Rules = RoomList<Rule>;

/// Whether an address has the first bits of the block.
fn is_in_block(block: &Block, address: u32) -> bool
    requires { block.now.length ≤ 32 }
    ensures { result ≡ is_in_block block.now address }
{
    let size = 1u64 << (32 - block.length);
    u64::from(block.address) / size == u64::from(address) / size
}

/// Whether the block, where there is one, has the address.
fn is_from(block: &Option<Block>, address: u32) -> bool
    requires { IsBlock block.now }
    ensures { result ≡ is_from block.now address }
{
    match block {
        Some(block) => is_in_block(block, address),
        None => true,
    }
}

/// Whether the rule is for flows with this original tuple.
pub(crate) fn matches(rule: &Rule, t: &Tuple) -> bool
    requires { IsLawfulRule rule.now }
    ensures { result ≡ matches t.now rule.now }
{
    is_proto(rule.proto, t.proto)
        && is_from(&rule.src, t.src)
        && is_from(&rule.dst, t.dst)
        && is_number(rule.sport, t.a)
        && is_number(rule.dport, t.b)
}

/// The first of the rules that is for flows with this original tuple.
pub(crate) fn rule_for(rules: &[Rule], t: &Tuple) -> Option<Rule>
    requires { AllByRecursion IsLawfulRule rules.now }
    ensures { result ≡ rule_for rules.now t.now }
{
    for rule in rules {
        if matches(rule, t) {
            return Some(*rule);
        }
    }
    None
}
