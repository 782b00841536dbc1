//! All lines of a report: each connection is looked after from its Confirm to its Destroy.

ghost use Rattle.std.specs.Prelude.{◌≡◌, ◌++◌, ℕ, All, IfOk, List, None, OnOk, Some, map, option_to_list};
ghost use Rattle.std.specs.BTreeMap.{get};
ghost use Rattle.std.specs.Option.{option_map};
ghost use Rattle.std.specs.Ordering.{nat_cmp};
ghost use Rattle.history_book.specs.declared.event.Event.TheVariants.{Confirm};
ghost use Rattle.ftp_rewrite.specs.Sent.{LiesInIts, Run, recorded};
ghost use Rattle.ftp_rewrite.specs.Internal.Seen.{Puts, at_id};
ghost use Rattle.ftp_rewrite.specs.Line.{seen};
ghost use Rattle.ftp_rewrite.specs.Rewrites.{after_event, after_item, line_by, line_of_passed, line_touched, passed, rewritten, run_of, session_past, touched};

use crate::asked::asked_by;
use crate::rewrite::{Rewrite, Rewrites};
use crate::sent::{ftp_by, sent_by};
use crate::session::Session;
use history_book::event::{Event, Numbered};
use history_book::record::Record;
use history_book::report::Report;
use packet_headers::frame::Captures;
use std::alloc::Global;
use std::collections::BTreeMap;
use tuple_core::{Direction, NoMemory};

/// The connections that live, by their entries' ids.
type Sessions = BTreeMap<u64, Session>;

/// Puts a session in its place.
fn keep(sessions: &mut Sessions, id: u64, session: Session) -> Result<(), NoMemory>
    ensures { OnOk result (Puts sessions.old sessions.new id (Some session)) }
{
    match sessions.insert(id, session) {
        Ok(_) => Ok(()),
        Err(_) => Err(NoMemory),
    }
}

/// Takes a session out.
fn take_out(sessions: &mut Sessions, id: u64) -> Option<Session>
    ensures value { result ≡ at_id sessions.old id }
    ensures others { Puts sessions.old sessions.new id None }
{
    sessions.remove(&id)
}

/// Looks after the connection of a new entry, where its payload is read.
#[tactic(auto, using(crate::proofs::Sessions::begins, crate::proofs::Sessions::begins_not, crate::proofs::Sessions::begins_none))]
fn begin(
    captures: &Captures,
    sessions: &mut Sessions,
    item: &Numbered,
    subject: &Record,
) -> Result<(), NoMemory>
    requires { All LiesInIts captures.now.items }
    ensures { OnOk result ((run : Run) (q : ℕ) → run.captures ≡ map recorded captures.now.items → at_id sessions.new q
        ≡ after_event run q (at_id sessions.old q) item.now (Confirm subject.now)) }
{
    if !subject.helper {
        return Ok(());
    }
    let Some(sent) = sent_by(captures, item) else {
        return Ok(());
    };
    keep(sessions, subject.id, Session::begin(sent.numbers.seq))
}

/// Lets a packet pass by its connection's session. The line is how it leaves, if there is an edit then.
#[tactic(auto, unfolding(crate::specs::Rewrites::passed))]
fn pass(
    alloc: Global,
    report: &Report,
    captures: &Captures,
    session: &mut Session,
    item: &Numbered,
    id: u64,
    direction: Direction,
) -> Result<Option<Rewrite>, NoMemory>
    requires { All LiesInIts captures.now.items }
    ensures session { OnOk result (session.new
        ≡ session_past session.old (passed (run_of report.now (map recorded captures.now.items)) item.now id direction session.old)) }
    ensures line { IfOk result (λ line. option_map seen line
        ≡ line_of_passed item.now id direction (passed (run_of report.now (map recorded captures.now.items)) item.now id direction session.old)) }
{
    let Some(sent) = sent_by(captures, item) else {
        return Ok(None);
    };
    let Some(ftp) = ftp_by(&report.threads, item, id) else {
        return Ok(None);
    };
    session.meet(direction, sent.numbers.seq);
    let ask = asked_by(&report.history, direction, sent.payload, ftp);
    let text = session.deal(alloc, direction, &sent, ask)?;
    if !session.has_edits() {
        return Ok(None);
    }
    Ok(Some(session.leaving(item, id, direction, &sent, text)))
}

/// Lets a packet pass that an entry accepted.
#[tactic(auto, using(crate::proofs::Sessions::put_back))]
fn touch(
    alloc: Global,
    report: &Report,
    captures: &Captures,
    sessions: &mut Sessions,
    item: &Numbered,
    id: u64,
    direction: Direction,
) -> Result<Option<Rewrite>, NoMemory>
    requires { All LiesInIts captures.now.items }
    ensures sessions { OnOk result (Puts sessions.old sessions.new id
        (touched (run_of report.now (map recorded captures.now.items)) item.now id direction (at_id sessions.old id))) }
    ensures line { IfOk result (λ line. option_map seen line
        ≡ line_touched (run_of report.now (map recorded captures.now.items)) item.now id direction (at_id sessions.old id)) }
{
    let Some(mut session) = take_out(sessions, id) else {
        return Ok(None);
    };
    let line = pass(alloc, report, captures, &mut session, item, id, direction)?;
    keep(sessions, id, session)?;
    Ok(line)
}

/// What one event does to the sessions. The line is how its packet leaves, if it has one.
#[tactic(auto, using(crate::proofs::Sessions::follow_confirm, crate::proofs::Sessions::follow_touch, crate::proofs::Sessions::follow_destroy, crate::proofs::Sessions::line_confirm, crate::proofs::Sessions::line_touch, crate::proofs::Sessions::line_destroy))]
fn follow(
    alloc: Global,
    report: &Report,
    captures: &Captures,
    sessions: &mut Sessions,
    item: &Numbered,
) -> Result<Option<Rewrite>, NoMemory>
    requires { All LiesInIts captures.now.items }
    ensures sessions { OnOk result ((q : ℕ) → at_id sessions.new q
        ≡ after_item (run_of report.now (map recorded captures.now.items)) q (at_id sessions.old q) item.now) }
    ensures line { IfOk result (λ line. option_map seen line
        ≡ line_by (run_of report.now (map recorded captures.now.items)) (at_id sessions.old) item.now) }
{
    match item.event {
        Event::Confirm { subject } => {
            begin(captures, sessions, item, &subject)?;
            Ok(None)
        }
        Event::Touch { id, direction, .. } => {
            touch(alloc, report, captures, sessions, item, id, direction)
        }
        Event::Destroy { id, .. } => {
            take_out(sessions, id);
            Ok(None)
        }
        Event::Expect { .. } => Ok(None),
        Event::Claim { .. } => Ok(None),
        Event::Unexpect { .. } => Ok(None),
    }
}

/// Puts a line behind the others, if there is one.
fn put(lines: &mut Rewrites, line: Option<Rewrite>) -> Result<(), NoMemory>
    ensures { OnOk result (map seen lines.new.items ≡ map seen lines.old.items ++ option_to_list (option_map seen line)) }
{
    if let Some(line) = line {
        lines.reserve(1)?;
        lines.push(line);
    }
    Ok(())
}

/// How each packet of a connection leaves, from its first edit on, of a report on these captures, in the order of the events
/// by which the entries let the packets pass. By its code, memory is in proportion to the lines with their payloads, and to
/// the connections with the helper that live at once.
#[tactic(auto, using(crate::proofs::Sessions::none_yet, crate::proofs::Sessions::one_more, crate::proofs::Sessions::all_lines))]
pub fn rewrites(alloc: Global, report: &Report, captures: &Captures) -> Result<Rewrites, NoMemory>
    requires { All LiesInIts captures.now.items }
    ensures { IfOk result (λ lines. map seen lines.items ≡ rewritten (run_of report.now (map recorded captures.now.items))) }
{
    let mut sessions: Sessions = BTreeMap::new(alloc);
    let mut lines = Rewrites::empty(alloc);
    'items: for index in 0..report.history.len() {
        let item = report.history.at(index);
        let line = follow(alloc, report, captures, &mut sessions, &item)?;
        put(&mut lines, line)?;
    }
    Ok(lines)
}
