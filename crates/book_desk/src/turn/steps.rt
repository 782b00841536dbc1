//! The atomic steps on the shared book.
#![tactic(auto)]

ghost use Rattle.std.specs.Prelude.{◌≡◌, ◌+◌, ◌%◌, ◌<◌, ◌≤◌, ◌^◌, [], ◌∷◌, None, Some};
ghost use Rattle.book_desk.specs.declared.book.Book.{Book};
ghost use Rattle.book_desk.specs.Turn.Rule.{IsTable, packed};
ghost use Rattle.book_desk.specs.Internal.Book.{IsSomeBook};
ghost use Rattle.book_desk.specs.Turn.Steps.{CanEnd, CanEndHere, Looks, TakesOrNot, IsLast, TookBook, ended, events_in, further, joined, live_in, shares_left};

use crate::book::Book;
use crate::turn::change::Ending;
use crate::turn::plays::{Cut, Ends, Give, Look, Merge, Shares, Take};
use crate::turn::rule::{TurnSeat, TurnShared, TurnTable};
use std::marker::Brand;
use std::sync::Wait;
use std::thread;

/// Loads the word.
pub fn look(shared: &TurnShared, seat: &mut TurnSeat) -> u64
    requires table { IsTable shared.now.table_id }
    requires seat { seat.old.table_id ≡ shared.now.table_id }
    requires some { 0 < seat.old.me.0.shares }
    requires away { seat.old.me.1 ≡ [] }
    ensures table { seat.new.table_id ≡ seat.old.table_id }
    ensures looks { Looks seat.old.me.0 seat.new.me.0 result }
    ensures away { seat.new.me.1 ≡ [] }
{
    shared.load::<Look>(seat, 0)
}

/// Takes the turn where the word is still this one, in which no pass has it.
fn try_take(shared: &TurnShared, seat: &mut TurnSeat, word: u64) -> bool
    requires table { IsTable shared.now.table_id }
    requires seat { seat.old.table_id ≡ shared.now.table_id }
    requires some { 0 < seat.old.me.0.shares }
    requires away { seat.old.me.1 ≡ [] }
    requires even { word % 2 ≡ 0 }
    requires small { word + 1 < 2 ^ 64 }
    ensures table { seat.new.table_id ≡ seat.old.table_id }
    ensures taken { TakesOrNot result seat.old.me seat.new.me }
{
    shared.compare_exchange::<Take>(seat, 0, word, word + 1) == word
}

/// Takes the book out of its slot.
fn take_out(shared: &TurnShared, seat: &mut TurnSeat) -> Book
    requires seat { seat.old.table_id ≡ shared.now.table_id }
    requires there { (b : Book) × (seat.old.me.1 ≡ (0, Some b) ∷ []) }
    ensures table { seat.new.table_id ≡ seat.old.table_id }
    ensures book { seat.old.me.1 ≡ (0, Some result) ∷ [] }
    ensures out { seat.new.me ≡ (seat.old.me.0, (0, None) ∷ []) }
{
    match shared.exchange(seat, 0, None) {
        Some(book) => book,
        None => unreachable!(),
    }
}

/// Waits for the turn, and takes it and the book.
pub fn take_turn<R: Wait>(rt: &R, shared: &TurnShared, seat: &mut TurnSeat) -> Book
    requires table { IsTable shared.now.table_id }
    requires seat { seat.old.table_id ≡ shared.now.table_id }
    requires some { 0 < seat.old.me.0.shares }
    requires away { seat.old.me.1 ≡ [] }
    ensures table { seat.new.table_id ≡ seat.old.table_id }
    ensures turn { TookBook seat.old.me.0 seat.new.me result }
{
    'turns: for _ in rt.forever() {
        let word = shared.peek(0);
        if word % 2 == 0 && try_take(shared, seat, word) {
            return take_out(shared, seat);
        }
        thread::yield_now();
    }
    unreachable!()
}

/// Ends the turn with this word; the pass picks how.
fn give<J: Ends>(shared: &TurnShared, seat: &mut TurnSeat, word: u64, ending: &Ending)
    requires ending { ending.now ≡ J.ending }
    requires table { IsTable shared.now.table_id }
    requires seat { seat.old.table_id ≡ shared.now.table_id }
    requires ends { CanEndHere J.ending seat.old.me word }
    ensures table { seat.new.table_id ≡ seat.old.table_id }
    ensures ended { seat.new.me ≡ (ended J.ending seat.old.me.0, []) }
{
    let _ending = ending;
    shared.store::<Give<J>>(seat, 0, word);
}

/// The word of this book while no pass has the turn.
fn free_word(book: &Book) -> u64
    requires right { IsSomeBook (λ log. Unit {0}) book.now }
    requires few { book.now.events < 2 ^ 40 }
    ensures { result ≡ packed 0 book.now }
{
    let live = u64::from(book.live());
    2 * (book.events + (1 << 40) * live)
}

/// Puts the book back, and ends the turn so.
pub fn end_turn(shared: &TurnShared, seat: &mut TurnSeat, book: Book, ending: Ending)
    requires table { IsTable shared.now.table_id }
    requires seat { seat.old.table_id ≡ shared.now.table_id }
    requires out { seat.old.me.1 ≡ (0, None) ∷ [] }
    requires ends { CanEnd ending seat.old.me.0 book }
    requires few { book.events < 2 ^ 40 }
    ensures table { seat.new.table_id ≡ seat.old.table_id }
    ensures ended { seat.new.me ≡ (ended ending seat.old.me.0, []) }
{
    let word = free_word(&book);
    let _ = shared.exchange(seat, 0, Some(book));
    give::<Brand>(shared, seat, word, &ending);
}

/// Hands over the last shares to a further pass; the pass picks how many.
fn cut<J: Shares>(shared: &TurnShared, seat: &mut TurnSeat, shares: u32) -> TurnSeat
    requires shares { shares ≡ J.shares }
    requires table { IsTable shared.now.table_id }
    requires seat { seat.old.table_id ≡ shared.now.table_id }
    requires some { 1 ≤ J.shares }
    requires rest { J.shares < seat.old.me.0.shares }
    requires turn { seat.old.me.0.turn ≡ 0 }
    requires away { seat.old.me.1 ≡ [] }
    ensures tables { (seat.new.table_id ≡ seat.old.table_id) × (result.table_id ≡ seat.old.table_id) }
    ensures left { seat.new.me ≡ (shares_left J.shares seat.old.me.0, []) }
    ensures right { result.me ≡ (further J.shares seat.old.me.0, []) }
{
    let _shares = shares;
    shared.split_seat::<Cut<J>>(seat)
}

/// Hands over its last shares, so many, to a further pass.
pub fn split(shared: &TurnShared, seat: &mut TurnSeat, shares: u32) -> TurnSeat
    requires table { IsTable shared.now.table_id }
    requires seat { seat.old.table_id ≡ shared.now.table_id }
    requires some { 1 ≤ shares }
    requires rest { shares < seat.old.me.0.shares }
    requires turn { seat.old.me.0.turn ≡ 0 }
    requires away { seat.old.me.1 ≡ [] }
    ensures tables { (seat.new.table_id ≡ seat.old.table_id) × (result.table_id ≡ seat.old.table_id) }
    ensures left { seat.new.me ≡ (shares_left shares seat.old.me.0, []) }
    ensures right { result.me ≡ (further shares seat.old.me.0, []) }
{
    cut::<Brand>(shared, seat, shares)
}

/// Takes in another pass, which keeps no place.
pub fn merge(shared: &TurnShared, seat: &mut TurnSeat, other: TurnSeat)
    requires table { IsTable shared.now.table_id }
    requires seat { (seat.old.table_id ≡ shared.now.table_id) × (seat.old.me.1 ≡ []) }
    requires other { (other.table_id ≡ shared.now.table_id) × (other.me.1 ≡ []) }
    requires some { (0 < seat.old.me.0.shares) × (0 < other.me.0.shares) }
    requires turns { (seat.old.me.0.turn ≡ 0) × (other.me.0.turn ≡ 0) }
    requires empty { (other.me.0.held ≡ []) × (other.me.0.owed ≡ []) }
    ensures table { seat.new.table_id ≡ seat.old.table_id }
    ensures joined { seat.new.me ≡ (joined seat.old.me.0 other.me.0, []) }
{
    shared.join_seat::<Merge>(seat, other);
}

/// The number of events that the word says.
pub fn events_in(word: u64) -> u64
    ensures { result ≡ events_in word }
{
    word / 2 % (1 << 40)
}

/// The number of live entries that the word says.
pub fn live_in(word: u64) -> u32
    requires { live_in word < 2 ^ 32 }
    ensures { result ≡ live_in word }
{
    (word / 2 / (1 << 40)) as u32
}

/// The book, once no other pass has any share.
pub fn last_book(table: TurnTable, seat: TurnSeat) -> Book
    requires table { IsTable table.shared.table_id }
    requires seat { seat.table_id ≡ table.shared.table_id }
    requires some { 0 < seat.me.0.shares }
    requires turn { seat.me.0.turn ≡ 0 }
    requires all { seat.me.0.shares + seat.me.0.returned ≡ seat.me.0.sizes.passes }
    ensures { IsLast seat.me.0 result }
{
    let mut closed = table.close_with(seat);
    let Some(book) = closed.take(0) else {
        unreachable!()
    };
    closed.free();
    book
}
