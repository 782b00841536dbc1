//! What each step tells its pass.

ghost use Rattle.book_desk.specs.Turn.Steps.{Ends, Loads, Takes, further, joined, shares_left, spent_view};

use crate::book::Book;
use crate::turn::view::TurnView;
use atomic_table::{Join, Play, Split};
use std::marker::{Brand, PhantomData};

/// A load of the word.
pub struct Look;

impl Play<Option<Book>, TurnView> for Look {
    ghost then = { Loads };
}

/// Taking the turn.
pub struct Take;

impl Play<Option<Book>, TurnView> for Take {
    ghost then = { Takes };
}

/// How a turn ends; each call picks it.
pub trait Ends {
    ghost use Rattle.book_desk.specs.declared.turn.change.Ending.{Ending};

    ghost ending: { Ending };
}

impl Ends for Brand {
    ghost use Rattle.book_desk.specs.declared.turn.change.PlaceChange.TheVariants.{Same};
    ghost use Rattle.std.specs.Prelude.{None};

    ghost ending = { record { places = Same; made = None } };
}

/// Giving the turn back.
pub struct Give<J> {
    of: PhantomData<J>,
}

impl<J: Ends> Play<Option<Book>, TurnView> for Give<J> {
    ghost then = { Ends J.ending };
}

/// How many shares are handed over; each call picks it.
pub trait Shares {
    ghost use Rattle.std.specs.Prelude.{ℕ};

    ghost shares: { ℕ };
}

impl Shares for Brand {
    ghost shares = { 0 };
}

/// Handing over shares to a further pass.
pub struct Cut<J> {
    of: PhantomData<J>,
}

impl<J: Shares> Split<TurnView> for Cut<J> {
    ghost left = { shares_left J.shares };

    ghost right = { further J.shares };
}

/// Taking in another pass.
pub struct Merge;

impl Join<TurnView> for Merge {
    ghost both = { joined };

    ghost spent = { spent_view };
}
