//! What the history word says: how many events there are, in its low 40 bits, and how many entries are live after them.

ghost use Rattle.std.specs.Prelude.{◌≡◌};
ghost use Rattle.track_rule.specs.History.{events_in, live_in};

/// The number of events that the history word says.
#[inline(always)]
pub fn events_in(word: u64) -> u64
    ensures { result ≡ events_in word }
{
    word % (1 << 40)
}

/// The number of live entries that it says.
#[inline(always)]
pub fn live_in(word: u64) -> u32
    ensures { result ≡ live_in word }
{
    (word / (1 << 40)) as u32
}
