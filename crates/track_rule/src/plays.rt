//! What each step tells its pass.

ghost use Rattle.track_rule.specs.Shares.{further, joined, shares_left, spent_view};
ghost use Rattle.track_rule.specs.Steps.{GiveStep, LoadStep, LookStep, LowerStep, OpenStep, RaiseStep, TakeStep};

use crate::slot::Slot;
use crate::view::View;
use atomic_table::{Join, Play, Split};
use std::marker::{Brand, PhantomData};

/// A load of the history word.
pub struct LoadHistory;

impl Play<Slot, View> for LoadHistory {
    ghost then = { LookStep };
}

/// Taking the turn of the free list.
pub struct TakeFree;

impl Play<Slot, View> for TakeFree {
    ghost then = { TakeStep };
}

/// Giving it back.
pub struct GiveFree;

impl Play<Slot, View> for GiveFree {
    ghost then = { GiveStep };
}

/// The first reference to a place.
pub struct OpenRef;

impl Play<Slot, View> for OpenRef {
    ghost then = { OpenStep };
}

/// A load of the references.
pub struct LoadRef;

impl Play<Slot, View> for LoadRef {
    ghost then = { LoadStep };
}

/// One reference more.
pub struct RaiseRef;

impl Play<Slot, View> for RaiseRef {
    ghost then = { RaiseStep };
}

/// One reference less.
pub struct LowerRef;

impl Play<Slot, View> for LowerRef {
    ghost then = { LowerStep };
}

/// How many shares are handed over; each call picks it.
pub trait Counted {
    ghost use Rattle.std.specs.Prelude.{ℕ};

    ghost shares: { ℕ };
}

impl Counted for Brand {
    ghost shares = { 0 };
}

/// Handing over shares to a further pass.
pub struct Cut<J> {
    of: PhantomData<J>,
}

impl<J: Counted> Split<View> for Cut<J> {
    ghost left = { shares_left J.shares };

    ghost right = { further J.shares };
}

/// Taking in another pass.
pub struct Merge;

impl Join<View> for Merge {
    ghost both = { joined };

    ghost spent = { spent_view };
}
