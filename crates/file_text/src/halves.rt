//! Text in two parts.

ghost use Rattle.std.specs.Prelude.{◌≡◌, ◌==◌, ◌+◌, ◌∷◌, ◌<◌, [], length, position, take, drop, IfSome, MatchOption, None, Some};
ghost use Rattle.file_text.specs.Text.{halves_at, parts_at};

/// The first place with this byte.
pub(crate) fn place_of(text: &[u8], sign: u8) -> Option<usize>
    ensures exact { result ≡ position (λ b. b == sign) text.now }
    ensures inside { IfSome result (λ at. at < length text.now) }
{
    text.iter().position(|byte| *byte == sign)
}

/// What stands before a place of the text, and what stands behind it.
pub(crate) fn around(text: &[u8], at: usize) -> (&[u8], &[u8])
    requires { at < length text.now }
    ensures front { result.0.now ≡ take at text.now }
    ensures rest { result.1.now ≡ drop (at + 1) text.now }
{
    let (front, _) = text.split_at(at);
    let (_, rest) = text.split_at(at + 1);
    (front, rest)
}

/// What stands before the first byte of this value, and what stands behind it.
#[tactic(auto, using(crate::proofs::Parts::parts_split, crate::proofs::Parts::parts_whole))]
pub fn split_once(text: &[u8], sign: u8) -> Option<(&[u8], &[u8])>
    ensures halves { MatchOption result (halves_at sign text.now ≡ None) (λ x. halves_at sign text.now ≡ Some (x.0.now, x.1.now)) }
    ensures parts { MatchOption result (parts_at sign text.now ≡ text.now ∷ []) (λ x. parts_at sign text.now ≡ x.0.now ∷ parts_at sign x.1.now) }
{
    match place_of(text, sign) {
        Some(at) => Some(around(text, at)),
        None => None,
    }
}
