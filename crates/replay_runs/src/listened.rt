//! What a listener has heard of the threads of a run.

ghost use Rattle.std.specs.Prelude.{◌≡◌, ◌++◌, List, [], ◌∷◌, length, IfOk, is_some};
ghost use Rattle.history_book.specs.declared.event.Note.{Note};
ghost use Rattle.replay_runs.specs.Heard.{AreHeard, HeardEach};
ghost use Rattle.replay_runs.specs.Run.{items_of};

use event_listen::heard::Heard;
use history_book::report::Notes;
use room_list::RoomList;
use std::alloc::Global;
use tuple_core::NoMemory;

/// What was heard of each thread, and how many events each made before all of them joined: the captures', in order, and
/// then the script's.
#[derive(Drop)]
pub struct Listened {
    pub heard: Heard,
    pub made: RoomList<u64>,
}

/// Counts what was heard beside what these lists have, which the threads of captures made, and the script's thread so many
/// events.
pub(crate) fn counted(
    alloc: Global,
    heard: Option<Heard>,
    lists: &[Notes],
    script: u64,
) -> Result<Option<Listened>, NoMemory>
    ensures heard { (own : List Note) → script ≡ length own → HeardEach (items_of lists.now ++ own ∷ []) heard →
        IfOk result (AreHeard (items_of lists.now ++ own ∷ [])) }
    ensures asked { IfOk result (λ listened. is_some listened ≡ is_some heard) }
{
    let Some(heard) = heard else {
        return Ok(None);
    };
    let mut made = RoomList::new(alloc, lists.len() + 1)?;
    'lists: for list in lists {
        made.push(list.len() as u64);
    }
    made.push(script);
    Ok(Some(Listened { heard, made }))
}
