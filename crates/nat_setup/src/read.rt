//! Reads a file of rules.

ghost use Rattle.std.specs.Prelude.{◌≡◌, ◌<◌, ◌≤◌, ◌^◌, ◌++◌, length, option_to_list, IfErr, IfOk, OnOk};
ghost use Rattle.std.specs.List.{AllByRecursion};
ghost use Rattle.file_text.specs.Text.{words_of, words_of_line};
ghost use Rattle.nat_setup.specs.Rule.{IsLawfulRule};
ghost use Rattle.nat_setup.specs.RuleFile.{IsReason, IsRulesFile};
ghost use Rattle.nat_setup.specs.RuleText.{block_of, ended, length_of, line_of, new_rule, ports_of, rule_from, side_of, with_option, with_target};

use crate::laws::rules_are_lawful;
use crate::rule::{Block, PortRange, Rule, Rules, Side};
use file_text::halves::split_once;
use file_text::lines::{first_word, next_line, next_word};
use file_text::numbers::{number, read_address, read_port};
use file_text::options::{has_ports, once, read_proto};
use std::alloc::Global;
use tuple_core::NoMemory;

/// The most rules of a file.
const MOST_RULES: usize = 256;

/// What is wrong with a line.
#[derive(Clone, Copy, PartialEq, Eq)]
pub enum RuleKind {
    /// A word is unknown, missing, repeated or one too many; or ports stand without `-p tcp` and `-p udp`.
    Word,
    /// An address is wrong.
    Address,
    /// A length is wrong.
    Prefix,
    /// A port is wrong, or ports go down.
    Range,
    /// It is the 257th rule.
    TooMany,
}

/// The first fault of a file: on which line, from 1, and what it is.
#[derive(Clone, Copy)]
pub struct RuleFault {
    pub line: u32,
    pub kind: RuleKind,
}

/// Why rules were not read.
#[derive(Clone, Copy)]
pub enum RuleError {
    Fault(RuleFault),
    NoMemory,
}

impl From<NoMemory> for RuleError {
    ghost use Rattle.nat_setup.specs.declared.read.RuleError.{RuleError};

    ghost from_gives = { λ _ error. error ≡ RuleError.NoMemory };

    fn from(_error: NoMemory) -> RuleError {
        RuleError::NoMemory
    }
}

/// Which end a rule of this first word changes.
#[tactic(auto, unfolding(crate::specs::RuleText::side_of))]
fn read_side(word: &[u8]) -> Option<Side>
    ensures { result ≡ side_of word.now }
{
    match word {
        b"snat" => Some(Side::Source),
        b"dnat" => Some(Side::Destination),
        _ => None,
    }
}

/// A length, from 0 to 32.
#[tactic(auto, unfolding(crate::specs::RuleText::length_of))]
fn read_length(text: &[u8]) -> Option<u8>
    ensures { result ≡ length_of text.now }
{
    match number(text, 2, 0, 32) {
        Some(length) => Some(length as u8),
        None => None,
    }
}

/// An address with or without a length.
#[tactic(auto, unfolding(crate::specs::RuleText::block_of))]
fn read_block(text: &[u8]) -> Result<Block, RuleKind>
    ensures { result ≡ block_of text.now }
{
    match split_once(text, b'/') {
        None => {
            let address = read_address(text).ok_or(RuleKind::Address)?;
            Ok(Block {
                address,
                length: 32,
            })
        }
        Some((front, behind)) => {
            let address = read_address(front).ok_or(RuleKind::Address)?;
            let length = read_length(behind).ok_or(RuleKind::Prefix)?;
            Ok(Block { address, length })
        }
    }
}

/// One port, or a low and a high one.
#[tactic(auto, unfolding(crate::specs::RuleText::ports_of))]
fn read_ports(text: &[u8]) -> Result<PortRange, RuleKind>
    ensures { result ≡ ports_of text.now }
{
    match split_once(text, b'-') {
        None => {
            let port = read_port(text, 1).ok_or(RuleKind::Range)?;
            Ok(PortRange {
                low: port,
                high: port,
            })
        }
        Some((front, behind)) => {
            let low = read_port(front, 1).ok_or(RuleKind::Range)?;
            let high = read_port(behind, 1).ok_or(RuleKind::Range)?;
            if low <= high {
                Ok(PortRange { low, high })
            } else {
                Err(RuleKind::Range)
            }
        }
    }
}

/// The rule with an option and its value.
#[tactic(auto, unfolding(crate::specs::RuleText::with_option))]
fn with_option(rule: Rule, name: &[u8], value: &[u8]) -> Result<Rule, RuleKind>
    ensures { result ≡ with_option rule name.now value.now }
{
    if name == b"-p".as_slice() {
        let read = read_proto(value).ok_or(RuleKind::Word);
        let proto = once(rule.proto, read, RuleKind::Word)?;
        Ok(Rule { proto, ..rule })
    } else if name == b"-s".as_slice() {
        let src = once(rule.src, read_block(value), RuleKind::Word)?;
        Ok(Rule { src, ..rule })
    } else if name == b"-d".as_slice() {
        let dst = once(rule.dst, read_block(value), RuleKind::Word)?;
        Ok(Rule { dst, ..rule })
    } else if name == b"--sport".as_slice() {
        let read = read_port(value, 1).ok_or(RuleKind::Range);
        let sport = once(rule.sport, read, RuleKind::Word)?;
        Ok(Rule { sport, ..rule })
    } else if name == b"--dport".as_slice() {
        let read = read_port(value, 1).ok_or(RuleKind::Range);
        let dport = once(rule.dport, read, RuleKind::Word)?;
        Ok(Rule { dport, ..rule })
    } else {
        Err(RuleKind::Word)
    }
}

/// The rule with its target, an address with or without ports.
#[tactic(auto, unfolding(crate::specs::RuleText::with_target))]
fn with_target(rule: Rule, text: &[u8]) -> Result<Rule, RuleKind>
    ensures { result ≡ with_target rule text.now }
{
    match split_once(text, b':') {
        None => {
            let target = read_address(text).ok_or(RuleKind::Address)?;
            Ok(Rule { target, ..rule })
        }
        Some((front, behind)) => {
            let target = read_address(front).ok_or(RuleKind::Address)?;
            let ports = read_ports(behind)?;
            Ok(Rule {
                target,
                ports: Some(ports),
                ..rule
            })
        }
    }
}

/// The rule, where nothing stands behind its target, and ports only beside a protocol that has ports.
fn ended(rule: Rule, rest: &[u8]) -> Result<Rule, RuleKind>
    ensures { result ≡ ended rule (words_of rest.now) }
{
    if next_word(rest).is_some() {
        return Err(RuleKind::Word);
    }
    let portless = rule.sport.is_none() && rule.dport.is_none() && rule.ports.is_none();
    if has_ports(rule.proto) || portless {
        Ok(rule)
    } else {
        Err(RuleKind::Word)
    }
}

/// The rule of a side and the words behind the first.
#[tactic(auto, unfolding(crate::specs::RuleText::rule_from))]
fn read_rule(side: Side, words: &[u8]) -> Result<Rule, RuleKind>
    ensures { result ≡ rule_from (new_rule side) (words_of words.now) }
{
    let mut rule = Rule {
        side,
        proto: None,
        src: None,
        dst: None,
        sport: None,
        dport: None,
        target: 0,
        ports: None,
    };
    let mut rest = words;
    'options: loop {
        let Some((name, behind)) = next_word(rest) else {
            return Err(RuleKind::Word);
        };
        let Some((value, behind)) = next_word(behind) else {
            return Err(RuleKind::Word);
        };
        if name == b"to".as_slice() {
            let rule = with_target(rule, value)?;
            return ended(rule, behind);
        }
        rule = with_option(rule, name, value)?;
        rest = behind;
    }
}

/// The rule of a line, if it says one. Where the file is full, it may not.
#[tactic(auto, unfolding(crate::specs::RuleText::line_of))]
fn read_line(line: &[u8], full: bool) -> Result<Option<Rule>, RuleKind>
    ensures { result ≡ line_of full (words_of_line line.now) }
{
    let Some((first, words)) = first_word(line) else {
        return Ok(None);
    };
    if full {
        return Err(RuleKind::TooMany);
    }
    let side = read_side(first).ok_or(RuleKind::Word)?;
    let rule = read_rule(side, words)?;
    Ok(Some(rule))
}

/// Appends the rule, if there is one.
fn append(rules: &mut Rules, rule: Option<Rule>) -> Result<(), NoMemory>
    ensures { OnOk result (rules.new.items ≡ rules.old.items ++ option_to_list rule) }
{
    if let Some(rule) = rule {
        rules.reserve(1)?;
        rules.push(rule);
    }
    Ok(())
}

/// The rules of a file, in the order of its lines. Its bytes are not copied.
pub fn read_rules(alloc: Global, bytes: &[u8]) -> Result<Rules, RuleError>
    requires { length bytes.now < 2 ^ 32 }
    ensures rules { IfOk result (λ rules. IsRulesFile bytes.now rules.items) }
    ensures reason { IfErr result (IsReason bytes.now) }
    ensures lawful { IfOk result (λ rules. AllByRecursion IsLawfulRule rules.items) }
    ensures few { IfOk result (λ rules. length rules.items ≤ 256) }
{
    rules_are_lawful();
    let mut rules = Rules::new(alloc, 0)?;
    let mut number = 0u32;
    let mut rest = bytes;
    'lines: while !rest.is_empty() {
        number += 1;
        let (line, behind) = next_line(rest);
        let rule = match read_line(line, rules.len() >= MOST_RULES) {
            Ok(rule) => rule,
            Err(kind) => return Err(RuleError::Fault(RuleFault { line: number, kind })),
        };
        append(&mut rules, rule)?;
        rest = behind;
    }
    Ok(rules)
}
