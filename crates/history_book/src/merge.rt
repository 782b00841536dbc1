//! The events of several threads as the one history.

ghost use Rattle.std.specs.Prelude.{◌≡◌, ◌+◌, ◌<◌, ◌≤◌, ◌^◌, All, IfOk, drop, length, take};
ghost use Rattle.history_book.specs.Internal.Merging.{AllHavePlaces, AreLayable, HavePlaces, all_named, laid, made_in, named, named_in, threads_named};
ghost use Rattle.history_book.specs.Merge.{AreNumbers, CoverEach, IsMerged, all_notes, spans_of, spans_of_answers, spans_of_verdicts};
ghost use Rattle.history_book.specs.Numbered.{IsNumberedFrom};
ghost use Rattle.history_book.specs.Internal.Order.{IsWithin, in_order, notes_in};

use crate::answer::{Answer, Answers};
use crate::order::{History, Order, Origin};
use crate::report::{Notes, Report, ThreadVerdicts, Verdicts};
use std::alloc::Global;
use tuple_core::NoMemory;

/// What stands in the order until an event is laid there.
const BLANK: Origin = Origin {
    thread: 0,
    note: 0,
    index: 0,
};

/// How many events the lists have.
fn count_events(lists: &[Notes]) -> usize
    requires { length lists.now ≤ 2 ^ 32 }
    ensures all { result ≡ length (all_notes lists.now) }
    ensures few { result < 2 ^ 64 }
{
    let mut total: usize = 0;
    'lists: for notes in lists {
        total += notes.len();
    }
    total
}

/// An order of so many events, none of which is laid yet.
fn blank_order(alloc: Global, total: usize) -> Result<Order, NoMemory>
    ensures { IfOk result (λ order. length order.items ≡ total) }
{
    let mut order = Order::new(alloc, total)?;
    'blanks: for _place in 0..total {
        order.push(BLANK);
    }
    Ok(order)
}

/// Lays `made` events of a thread, from `first` on, as those of the packet or command of this index.
fn lay_span(lists: &[Notes], thread: u32, index: u32, first: usize, made: usize, order: &mut Order)
    requires thread { thread < length lists.now }
    requires span { first + made ≤ length (notes_in lists.now thread) }
    requires placed { HavePlaces (length order.old.items) (notes_in lists.now thread) }
    ensures { in_order lists.now order.new.items
        ≡ laid (named thread index (take made (drop first (notes_in lists.now thread)))) (in_order lists.now order.old.items) }
{
    let notes = &lists[thread as usize];
    prove!(notes.len() <= u32::MAX as usize);
    'notes: for at in first..first + made {
        let number = notes.at(at).number as usize;
        let note = at as u32;
        order.set(
            number,
            Origin {
                thread,
                note,
                index,
            },
        );
    }
}

/// Lays the events of a thread: each verdict has the next of them.
fn lay_thread(lists: &[Notes], thread: u32, verdicts: &Verdicts, order: &mut Order)
    requires thread { thread < length lists.now }
    requires few { length verdicts.now.items < 2 ^ 32 }
    requires covered { made_in (spans_of_verdicts verdicts.now.items) ≡ length (notes_in lists.now thread) }
    requires placed { HavePlaces (length order.old.items) (notes_in lists.now thread) }
    ensures { in_order lists.now order.new.items
        ≡ laid (named_in thread 0 (notes_in lists.now thread) (spans_of_verdicts verdicts.now.items)) (in_order lists.now order.old.items) }
{
    let notes = &lists[thread as usize];
    prove!(notes.len() <= u32::MAX as usize);
    let mut first: usize = 0;
    'verdicts: for index in 0..verdicts.len() {
        let made = usize::from(verdicts.at(index).made);
        lay_span(lists, thread, index as u32, first, made, order);
        first += made;
    }
}

/// Lays the events of the script, which has this number among the threads: each answer has the next of them.
fn lay_script(lists: &[Notes], thread: u32, answers: &[Answer], order: &mut Order)
    requires thread { thread < length lists.now }
    requires few { length answers.now < 2 ^ 32 }
    requires covered { made_in (spans_of_answers answers.now) ≡ length (notes_in lists.now thread) }
    requires placed { HavePlaces (length order.old.items) (notes_in lists.now thread) }
    ensures { in_order lists.now order.new.items
        ≡ laid (named_in thread 0 (notes_in lists.now thread) (spans_of_answers answers.now)) (in_order lists.now order.old.items) }
{
    let notes = &lists[thread as usize];
    prove!(notes.len() <= u32::MAX as usize);
    let mut first: usize = 0;
    'answers: for (index, answer) in answers.iter().enumerate() {
        let made = answer.made as usize;
        lay_span(lists, thread, index as u32, first, made, order);
        first += made;
    }
}

/// Lays the events of each thread, which stand in the list of its number.
fn lay_threads(lists: &[Notes], threads: &[Verdicts], order: &mut Order)
    requires lists { length threads.now ≤ length lists.now }
    requires threads { length threads.now < 2 ^ 32 }
    requires layable { AreLayable (length order.old.items) lists.now threads.now }
    ensures { in_order lists.now order.new.items
        ≡ laid (threads_named 0 lists.now threads.now) (in_order lists.now order.old.items) }
{
    'threads: for (thread, verdicts) in threads.iter().enumerate() {
        lay_thread(lists, thread as u32, verdicts, order);
    }
}

/// Lays the events of each thread and then the script's, which stand in the last list.
fn lay_all(lists: &[Notes], threads: &[Verdicts], answers: &[Answer], order: &mut Order)
    requires lists { length lists.now ≡ length threads.now + 1 }
    requires threads { length threads.now < 2 ^ 32 }
    requires verdicts { All (λ vs. length vs.items < 2 ^ 32) threads.now }
    requires answers { length answers.now < 2 ^ 32 }
    requires spans { CoverEach lists.now (spans_of threads.now answers.now) }
    requires placed { AllHavePlaces (length order.old.items) lists.now }
    ensures { in_order lists.now order.new.items
        ≡ laid (all_named 0 lists.now (spans_of threads.now answers.now)) (in_order lists.now order.old.items) }
{
    lay_threads(lists, threads, order);
    let script = threads.len();
    lay_script(lists, script as u32, answers, order);
}

/// The order of all events by their numbers.
fn order_events(
    alloc: Global,
    lists: &[Notes],
    threads: &[Verdicts],
    answers: &[Answer],
) -> Result<Order, NoMemory>
    requires lists { length lists.now ≡ length threads.now + 1 }
    requires threads { length threads.now < 2 ^ 32 }
    requires verdicts { All (λ vs. length vs.items < 2 ^ 32) threads.now }
    requires answers { length answers.now < 2 ^ 32 }
    requires numbers { AreNumbers (all_notes lists.now) }
    requires spans { CoverEach lists.now (spans_of threads.now answers.now) }
    ensures within { IfOk result (λ order. All (IsWithin lists.now) order.items) }
    ensures merged { IfOk result (λ order.
        IsMerged lists.now (spans_of threads.now answers.now) (in_order lists.now order.items)) }
    ensures numbered { IfOk result (λ order. IsNumberedFrom 0 (in_order lists.now order.items)) }
{
    let mut order = blank_order(alloc, count_events(lists))?;
    lay_all(lists, threads, answers, &mut order);
    Ok(order)
}

/// Lays the events of several threads into the one history, each at its number, with the thread and the index of the
/// packet or command that made it. `lists` has the events of each thread of `threads`, and then those of the
/// script, whose commands `answers` answers.
pub fn merge(
    alloc: Global,
    lists: Vec<Notes>,
    threads: ThreadVerdicts,
    answers: Answers,
    live: u32,
) -> Result<Report, NoMemory>
    requires lists { length lists.items ≡ length threads.items + 1 }
    requires threads { length threads.items < 2 ^ 32 }
    requires verdicts { All (λ vs. length vs.items < 2 ^ 32) threads.items }
    requires answers { length answers.items < 2 ^ 32 }
    requires numbers { AreNumbers (all_notes lists.items) }
    requires spans { CoverEach lists.items (spans_of threads.items answers.items) }
    ensures merged { IfOk result (λ r. IsMerged lists.items (spans_of threads.items answers.items) r.history.items) }
    ensures numbered { IfOk result (λ r. IsNumberedFrom 0 r.history.items) }
    ensures threads { IfOk result (λ r. r.threads ≡ threads) }
    ensures answers { IfOk result (λ r. r.answers ≡ answers) }
    ensures live { IfOk result (λ r. r.live ≡ live) }
{
    let order = order_events(
        alloc,
        lists.as_slice(),
        threads.as_slice(),
        answers.as_slice(),
    )?;
    Ok(Report {
        history: History::of(lists, order),
        live,
        threads,
        answers,
    })
}
