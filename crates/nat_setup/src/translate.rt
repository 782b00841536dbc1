//! The translation of a flow by the rules: a reply tuple that was free.

ghost use Rattle.std.specs.Prelude.{◌≡◌, ◌+◌, ◌≤◌, ◌||◌, false, true, length, Some};
ghost use Rattle.std.specs.List.{AllByRecursion};
ghost use Rattle.tuple_core.specs.Tuple.{is_valid};
ghost use Rattle.history_book.specs.Desk.{SamePlaces};
ghost use Rattle.history_book.specs.Sight.{IsKnown};
ghost use Rattle.history_book.specs.WentOn.{Saw};
ghost use Rattle.nat_setup.specs.Reply.{is_in_range};
ghost use Rattle.nat_setup.specs.Rule.{IsLawfulRule, rule_for};
ghost use Rattle.nat_setup.specs.Internal.Search.{SearchSays, others_of};
ghost use Rattle.nat_setup.specs.Translation.{IsValidFor, TranslateSays};

use crate::reply::{Choice, choice_for, own_number, reply_with};
use crate::rule::{Rule, Rules, rule_for};
use crate::search::{Probe, Search, Stretch, look, search_stretch};
use history_book::desk::Desk;
use history_book::sight_laws::{desks_go_on, seeing_adds_up};
use std::sync::Wait;
use tuple_core::{Tuple, bucket_of};

/// The reply tuple of a new flow. A point is a number of events of the history.
#[derive(Clone, Copy)]
pub enum TranslateOutcome {
    /// No rule is for the flow.
    Plain,
    /// The first rule that is for the flow allows this reply tuple, and nothing was live under it at a
    /// point inside the call. `kept_taken_at` is the point at which the flow's own number was taken; none
    /// where the flow keeps it, or the rule does not allow it.
    Chosen {
        reply: Tuple,
        kept_taken_at: Option<u64>,
    },
    /// Each number that the rule allows was taken at a point between these two.
    NoPort {
        from: u64,
        to: u64,
    },
}

/// Whether the flow's own number is among those of the choice.
fn has_own(choice: &Choice, own: u16) -> bool
    ensures { result ≡ (is_in_range choice.now.low choice.now.high own || choice.now.keeps_own) }
{
    choice.keeps_own || (choice.low <= own && own <= choice.high)
}

/// From where on the numbers of a choice are tried: flows that share their own number begin at others.
fn first_tried(choice: &Choice, t: &Tuple) -> u16
    requires { choice.now.low ≤ choice.now.high }
    ensures low { choice.now.low ≤ result }
    ensures high { result ≤ choice.now.high }
{
    let size = (choice.high - choice.low) as u32 + 1;
    (choice.low as u32 + bucket_of(t, 0, 65_536) % size) as u16
}

/// The number that is tried first: the flow's own one, where the choice has it, else that from which the
/// others are tried.
fn first_number(choice: &Choice, t: &Tuple, own: u16, has_own: bool) -> u16
    requires { choice.now.low ≤ choice.now.high }
    ensures own { has_own ≡ true → result ≡ own }
    ensures above { has_own ≡ false → choice.now.low ≤ result }
    ensures below { has_own ≡ false → result ≤ choice.now.high }
{
    if has_own { own } else { first_tried(choice, t) }
}

/// Looks for a free number in the whole choice but for the number that was tried first, at the point `from`.
fn search_choice<R: Wait, D: Desk>(
    rt: &R,
    desk: &mut D,
    rule: &Rule,
    t: &Tuple,
    choice: &Choice,
    tried: u16,
    from: u64,
) -> Search
    requires valid { is_valid t.now ≡ true }
    requires up { choice.now.low ≤ choice.now.high }
    requires seen { from ≤ length (D.sight desk.old).front }
    requires room { length (D.sight desk.old).held + length (D.sight desk.old).owed ≤ 3 }
    requires knows { IsKnown (D.sight desk.old) }
    ensures says { SearchSays rule.now t.now (others_of choice.now tried from)
        (D.sight desk.old) (D.sight desk.new) result }
    ensures saw { Saw (D.sight desk.old) (D.sight desk.new) }
    ensures same { SamePlaces (D.sight desk.old) (D.sight desk.new) }
    ensures knows { IsKnown (D.sight desk.new) }
{
    desks_go_on();
    let middle = first_tried(choice, t) as u32;
    let upper = Stretch {
        lowest: middle,
        end: choice.high as u32 + 1,
        tried,
        from,
        since: from,
    };
    match search_stretch(rt, desk, rule, t, upper) {
        Search::Found { reply, at } => Search::Found { reply, at },
        Search::AllTaken { to } => {
            let lower = Stretch {
                lowest: choice.low as u32,
                end: middle,
                since: to,
                ..upper
            };
            search_stretch(rt, desk, rule, t, lower)
        }
    }
}

/// Translates a flow by this rule: it keeps its own number where the rule allows that and the reply tuple is
/// free, and else has any other that is.
fn translate_by<R: Wait, D: Desk>(rt: &R, desk: &mut D, rule: &Rule, t: &Tuple) -> TranslateOutcome
    requires lawful { IsLawfulRule rule.now }
    requires valid { is_valid t.now ≡ true }
    requires room { length (D.sight desk.old).held + length (D.sight desk.old).owed ≤ 3 }
    ensures says { TranslateSays (Some rule.now) t.now (D.sight desk.old) (D.sight desk.new) result }
    ensures protocol { IsValidFor t.now result }
    ensures saw { Saw (D.sight desk.old) (D.sight desk.new) }
    ensures same { SamePlaces (D.sight desk.old) (D.sight desk.new) }
    ensures knows { IsKnown (D.sight desk.new) }
{
    desks_go_on();
    let own = own_number(rule, t);
    let choice = choice_for(rule, t);
    let has_own = has_own(&choice, own);
    let tried = first_number(&choice, t, own, has_own);
    let reply = reply_with(rule, t, tried);
    match look(rt, desk, &reply) {
        Probe::Free { .. } => TranslateOutcome::Chosen {
            reply,
            kept_taken_at: None,
        },
        Probe::Taken { at } => match search_choice(rt, desk, rule, t, &choice, tried, at) {
            Search::Found { reply, .. } => TranslateOutcome::Chosen {
                reply,
                kept_taken_at: if has_own { Some(at) } else { None },
            },
            Search::AllTaken { to } => TranslateOutcome::NoPort { from: at, to },
        },
    }
}

/// Finds the reply tuple of a new flow by the first rule that is for it. Makes no event, takes no place, and leaves
/// the places that the desk holds and owes as they were.
pub fn translate<R: Wait, D: Desk>(
    rt: &R,
    desk: &mut D,
    rules: &Rules,
    t: &Tuple,
) -> TranslateOutcome
    requires lawful { AllByRecursion IsLawfulRule rules.now.items }
    requires valid { is_valid t.now ≡ true }
    requires room { length (D.sight desk.old).held + length (D.sight desk.old).owed ≤ 3 }
    ensures says { TranslateSays (rule_for rules.now.items t.now) t.now
        (D.sight desk.old) (D.sight desk.new) result }
    ensures protocol { IsValidFor t.now result }
    ensures saw { Saw (D.sight desk.old) (D.sight desk.new) }
    ensures same { SamePlaces (D.sight desk.old) (D.sight desk.new) }
    ensures knows { IsKnown (D.sight desk.new) }
{
    seeing_adds_up();
    match rule_for(rules.as_slice(), t) {
        Some(rule) => translate_by(rt, desk, &rule, t),
        None => {
            // A desk says what it knows with each answer: here the number of places, which is of no use.
            desk.places();
            TranslateOutcome::Plain
        }
    }
}
