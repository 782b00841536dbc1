//! Desks for the threads of captures, and what they bring back.

ghost use Rattle.std.specs.Prelude.{◌≡◌, ◌+◌, ◌++◌, ◌≤◌, [], All, length, IfOk};
ghost use Rattle.history_book.specs.Places.{HoldsNothing};
ghost use Rattle.history_book.specs.Sight.{IsKnown};
ghost use Rattle.replay_runs.specs.Internal.Jobs.{AreFurther, CanBeReplayed, HasJoined, HasSplit};
ghost use Rattle.replay_runs.specs.Internal.Telling.{ends_in, HandsOut};

use crate::jobs::Job;
use crate::telling::put_back;
use event_listen::sending::Sendings;
use history_book::many_threads::SharedDesk;
use history_book::report::{Notes, ThreadVerdicts, Verdicts};
use packet_headers::frame::Capture;
use std::alloc::Global;
use tuple_core::NoMemory;

/// What the threads of captures leave: the events of each, and its verdicts.
#[derive(Drop)]
pub struct Joined {
    pub lists: Vec<Notes>,
    pub threads: ThreadVerdicts,
}

/// A thread for each capture, with a share of this desk's; the desk keeps one. Each thread has the next end of a line to a
/// listener, if there is any.
pub fn split_off<D: SharedDesk>(
    alloc: Global,
    desk: &mut D,
    captures: &[Capture],
    sendings: &mut Sendings,
) -> Result<Vec<Job<D>>, NoMemory>
    requires captures { All CanBeReplayed captures.now }
    requires shares { (D.sight desk.old).shares ≡ length captures.now + 1 }
    requires few { length captures.now ≤ 63 }
    requires knows { IsKnown (D.sight desk.old) }
    ensures split { IfOk result (λ jobs. HasSplit D.sight captures.now (D.sight desk.old) (D.sight desk.new) jobs.items) }
    ensures handed { IfOk result (λ jobs. HandsOut sendings.old.items jobs.items sendings.new.items) }
{
    let mut jobs = Vec::with_capacity(alloc, captures.len())?;
    'captures: for (worker, capture) in captures.iter().enumerate() {
        let verdicts = Verdicts::new(alloc, capture.frames.len())?;
        jobs.push_reserved(Job {
            desk: desk.split(worker as u32, 1),
            verdicts,
            sending: sendings.take_first(),
            ended: Ok(()),
        });
    }
    Ok(jobs)
}

/// Joins the desks of threads that have ended into this one, and puts their ends of a line behind these.
pub fn join_in<D: SharedDesk>(
    alloc: Global,
    desk: &mut D,
    jobs: Vec<Job<D>>,
    sendings: &mut Sendings,
) -> Result<Joined, NoMemory>
    requires further { AreFurther D.sight (D.sight desk.old).tracker (D.sight desk.old).sizes jobs.items }
    requires empty { HoldsNothing (D.sight desk.old) }
    requires knows { IsKnown (D.sight desk.old) }
    ensures joined { IfOk result (λ joined. HasJoined D.sight jobs.items (D.sight desk.old) (D.sight desk.new) joined.lists.items joined.threads.items) }
    ensures gathered { IfOk result (λ joined. sendings.new.items ≡ sendings.old.items ++ ends_in jobs.items) }
{
    // One more than there are desks, for the events of this one.
    let mut lists = Vec::with_capacity(alloc, jobs.len() + 1)?;
    let mut threads = ThreadVerdicts::new(alloc, jobs.len())?;
    'jobs: for job in jobs {
        let Job {
            desk: other,
            verdicts,
            sending,
            ended,
        } = job;
        ended?;
        put_back(sendings, sending)?;
        let notes = desk.join(other);
        lists.push_reserved(notes);
        threads.push(verdicts);
    }
    Ok(Joined { lists, threads })
}
