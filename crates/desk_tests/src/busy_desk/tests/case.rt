//! Runs over a busy desk as data, and one call that makes a run and compares.

ghost use Rattle.std.specs.Prelude.{◌≡◌, [], IfOk};
ghost use Rattle.std.specs.List.{AllByRecursion};
ghost use Rattle.nat_setup.specs.Rule.{IsLawfulRule};

use super::super::BusyDesk;
use super::super::stage::{Script, Turn};
use history_book::desk::Desk;
use history_book::report::Verdicts;
use history_book::verdict::{Class, Ftp, Label, Translated, Verdict};
use nat_setup::read::read_rules;
use packet_headers::frame::{Frame, Link};
use packet_path::handle_into::handle_into;
use packet_path::setup::{Ports, Setup};
use std::alloc::Global;
use std::process::Abort;
use std::sync::Wait;
use std::test::Fail;
use tuple_core::{NoMemory, Tuple};

/// A second, in microseconds.
pub const SECOND: u64 = 1_000_000;

/// A moment at which all is expired.
pub const LATE: u64 = 1_000_000_000 * SECOND;

/// What is to become of a packet, where a test tells it.
#[derive(Clone, Copy)]
pub enum Fate {
    Anything,
    Made {
        id: u64,
        at: u64,
    },
    /// Made, and at this point no expectation matched, or one was claimed.
    MadeBeside {
        id: u64,
        at: u64,
        unclaimed: Option<u64>,
    },
    /// Made beside this point, by a rule, with a port from 1024 on that is not its own: that was taken at a point.
    MadeByRule {
        id: u64,
        at: u64,
        unclaimed: Option<u64>,
        own: u16,
        taken_at: u64,
    },
    Passed {
        label: Label,
        id: u64,
        at: u64,
    },
    /// Passed, and its payload led to this.
    PassedWith {
        label: Label,
        id: u64,
        at: u64,
        ftp: Ftp,
    },
    Merged {
        id: u64,
        at: u64,
    },
    Clash {
        id: u64,
        at: u64,
    },
    /// A clash of a flow for which a rule chose this reply tuple, and its own port was not found taken.
    ClashByRule {
        id: u64,
        at: u64,
        reply: Tuple,
    },
    Contended {
        id: u64,
        at: u64,
    },
    NoEntry {
        at: u64,
    },
    NoPort {
        from: u64,
        to: u64,
    },
}

/// A packet and its moment, what is to become of it, and from which on and how many of the pass's own events are its
/// own, where a test tells it.
#[derive(Clone, Copy)]
pub struct Step<'s> {
    pub packet: &'s [u8],
    pub moment: u64,
    pub fate: Fate,
    pub events: Option<(u64, u8)>,
}

/// A run: the rules, whether connections to the port 21 have the helper, what the other pass does, and the packets.
#[derive(Clone, Copy)]
pub struct Case<'c> {
    pub rules: &'c str,
    pub helped: bool,
    pub turns: &'c [Turn],
    pub steps: &'c [Step<'c>],
}

fn is_label(label: Label, expected: Label) -> bool {
    match expected {
        Label::New => matches!(label, Label::New),
        Label::Related => matches!(label, Label::Related),
        Label::Established => matches!(label, Label::Established),
        Label::EstablishedReply => matches!(label, Label::EstablishedReply),
    }
}

fn is_ftp(ftp: Ftp, expected: Ftp) -> bool {
    match expected {
        Ftp::Nothing => matches!(ftp, Ftp::Nothing),
        Ftp::Address => matches!(ftp, Ftp::Address),
        Ftp::Expected { id } => matches!(ftp, Ftp::Expected { id: own } if own == id),
        Ftp::Clash { id, at } => {
            matches!(ftp, Ftp::Clash { id: own, at: point } if own == id && point == at)
        }
        Ftp::Full { at } => matches!(ftp, Ftp::Full { at: point } if point == at),
        Ftp::Gone { at } => matches!(ftp, Ftp::Gone { at: point } if point == at),
    }
}

/// Whether a port from 1024 on was chosen that is not this one, which was taken at this point.
fn is_other_port(translated: Translated, own: u16, taken_at: u64) -> bool {
    match translated {
        Translated::Plain => false,
        Translated::Chosen {
            reply,
            kept_taken_at,
        } => 1024 <= reply.b && reply.b != own && kept_taken_at == Some(taken_at),
    }
}

/// Whether this reply tuple was chosen, and the flow's own port not found taken.
fn is_reply(translated: Translated, expected: Tuple) -> bool {
    match translated {
        Translated::Plain => false,
        Translated::Chosen {
            reply,
            kept_taken_at,
        } => reply == expected && kept_taken_at.is_none(),
    }
}

/// Whether a new entry is as told.
fn is_made(id: u64, at: u64, translated: Translated, unclaimed: Option<u64>, fate: Fate) -> bool {
    match fate {
        Fate::Made { id: i, at: a } => id == i && at == a,
        Fate::MadeBeside {
            id: i,
            at: a,
            unclaimed: u,
        } => id == i && at == a && unclaimed == u,
        Fate::MadeByRule {
            id: i,
            at: a,
            unclaimed: u,
            own,
            taken_at,
        } => id == i && at == a && unclaimed == u && is_other_port(translated, own, taken_at),
        _ => false,
    }
}

/// Whether a packet of an entry is as told.
fn is_passed(label: Label, id: u64, at: u64, ftp: Ftp, fate: Fate) -> bool {
    match fate {
        Fate::Passed {
            label: l,
            id: i,
            at: a,
        } => is_label(label, l) && id == i && at == a,
        Fate::PassedWith {
            label: l,
            id: i,
            at: a,
            ftp: f,
        } => is_label(label, l) && id == i && at == a && is_ftp(ftp, f),
        _ => false,
    }
}

/// Whether a clash is as told.
fn is_clash(id: u64, at: u64, translated: Translated, fate: Fate) -> bool {
    match fate {
        Fate::Clash { id: i, at: a } => id == i && at == a,
        Fate::ClashByRule {
            id: i,
            at: a,
            reply,
        } => id == i && at == a && is_reply(translated, reply),
        _ => false,
    }
}

/// Whether this became of a packet.
fn is_fate(class: Class, fate: Fate) -> bool {
    if let Fate::Anything = fate {
        return true;
    }
    match class {
        Class::Made {
            id,
            at,
            translated,
            unclaimed,
        } => is_made(id, at, translated, unclaimed, fate),
        Class::Passed { label, id, at, ftp } => is_passed(label, id, at, ftp, fate),
        Class::Clash { id, at, translated } => is_clash(id, at, translated, fate),
        Class::Merged { id, at, .. } => {
            matches!(fate, Fate::Merged { id: i, at: a } if id == i && at == a)
        }
        Class::Contended { id, at } => {
            matches!(fate, Fate::Contended { id: i, at: a } if id == i && at == a)
        }
        Class::NoEntry { at } => matches!(fate, Fate::NoEntry { at: a } if at == a),
        Class::NoPort { from, to } => {
            matches!(fate, Fate::NoPort { from: f, to: t } if from == f && to == t)
        }
        _ => false,
    }
}

/// Whether a verdict is as told.
fn is_told(verdict: Verdict, step: &Step<'_>) -> bool {
    let own = match step.events {
        Some((first, made)) => verdict.first == first && verdict.made == made,
        None => true,
    };
    own && is_fate(verdict.class, step.fate)
}

/// A desk whose other pass takes these turns.
fn desk(alloc: Global, turns: &[Turn]) -> Result<BusyDesk, NoMemory>
    ensures held { IfOk result (λ b. b.held ≡ []) }
    ensures owed { IfOk result (λ b. b.owed ≡ []) }
{
    let mut script = Script::new(alloc, 0)?;
    script.append(turns)?;
    BusyDesk::new(alloc, script, 100)
}

/// A tracker that is set up with these rules, and with the helper or without it.
fn set_up<R: Abort + AllocGlobal>(rt: &R, rules: &str, helped: bool) -> Result<Setup, Fail>
    ensures { IfOk result (λ setup. AllByRecursion IsLawfulRule setup.rules.items) }
{
    assert!(rt; rules.len() < 1000);
    let mut ftp = Ports::new(rt.alloc(), 1)?;
    if helped {
        ftp.push(21);
    }
    match read_rules(rt.alloc(), rules.as_bytes()) {
        Ok(rules) => Ok(Setup { rules, ftp }),
        Err(_) => Err(Fail::from("no rules")),
    }
}

/// What becomes of a packet at this moment.
fn handled<R: Wait + Abort + AllocGlobal>(
    rt: &R,
    desk: &mut BusyDesk,
    packet: &[u8],
    moment: u64,
    setup: &Setup,
) -> Result<Verdict, NoMemory>
    requires lawful { AllByRecursion IsLawfulRule setup.now.rules.items }
    requires held { desk.old.held ≡ [] }
    requires owed { desk.old.owed ≡ [] }
    ensures held { desk.new.held ≡ [] }
    ensures owed { desk.new.owed ≡ [] }
{
    assert!(rt; desk.made() < 1000);
    assert!(rt; moment <= LATE);
    assert!(rt; packet.len() < 1000);
    let length = packet.len() as u32;
    let frame = Frame {
        moment,
        start: 0,
        captured: length,
        original: length,
        link: Link::Raw,
    };
    let mut verdicts = Verdicts::new(rt.alloc(), 1)?;
    handle_into(rt, desk, packet, &frame, 0, setup, 0, &mut verdicts)?;
    Ok(verdicts.at(0))
}

/// Asserts that a packet's verdict is as told.
fn step_holds<R: Wait + Abort + AllocGlobal>(
    rt: &R,
    desk: &mut BusyDesk,
    setup: &Setup,
    step: &Step<'_>,
    number: usize,
) -> Result<(), Fail>
    requires lawful { AllByRecursion IsLawfulRule setup.now.rules.items }
    requires held { desk.old.held ≡ [] }
    requires owed { desk.old.owed ≡ [] }
    ensures held { desk.new.held ≡ [] }
    ensures owed { desk.new.owed ≡ [] }
{
    let verdict = handled(rt, desk, step.packet, step.moment, setup)?;
    assert!(rt; is_told(verdict, step), "packet {number}");
    Ok(())
}

/// Asserts that the verdicts of packets are as told.
fn all_hold<R: Wait + Abort + AllocGlobal>(
    rt: &R,
    desk: &mut BusyDesk,
    setup: &Setup,
    steps: &[Step<'_>],
) -> Result<(), Fail>
    requires lawful { AllByRecursion IsLawfulRule setup.now.rules.items }
    requires held { desk.old.held ≡ [] }
    requires owed { desk.old.owed ≡ [] }
{
    'steps: for (number, step) in steps.iter().enumerate() {
        step_holds(rt, desk, setup, step, number)?;
    }
    Ok(())
}

/// Asserts that a run leaves what it is to leave.
pub fn holds<R: Wait + Abort + AllocGlobal>(rt: &R, case: &Case<'_>) -> Result<(), Fail> {
    let setup = set_up(rt, case.rules, case.helped)?;
    let mut desk = desk(rt.alloc(), case.turns)?;
    all_hold(rt, &mut desk, &setup, case.steps)
}
