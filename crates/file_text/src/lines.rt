//! The lines of a file, and the words of a line.

ghost use Rattle.std.specs.Prelude.{◌≡◌, ◌∷◌, ◌<◌, [], length, position, IfSome, MatchOption};
ghost use Rattle.file_text.specs.Text.{is_blank, lines_of, with_word, without_return, words_of, words_of_line};

use crate::halves::{around, place_of};

/// The first place with a blank.
fn place_of_blank(text: &[u8]) -> Option<usize>
    ensures exact { result ≡ position is_blank text.now }
    ensures inside { IfSome result (λ at. at < length text.now) }
{
    text.iter().position(|byte| *byte == b' ' || *byte == b'\t')
}

/// The line without one carriage return at its end.
fn line_text(line: &[u8]) -> &[u8]
    ensures { result.now ≡ without_return line.now }
{
    match line.last() {
        Some(b'\r') => line.split_at(line.len() - 1).0,
        _ => line,
    }
}

/// The first line, and what stands behind it.
#[tactic(auto, using(crate::proofs::Parts::first_line, crate::proofs::Parts::only_line))]
pub fn next_line(bytes: &[u8]) -> (&[u8], &[u8])
    requires { 0 < length bytes.now }
    ensures lines { lines_of bytes.now ≡ result.0.now ∷ lines_of result.1.now }
    ensures less { length result.1.now < length bytes.now }
{
    match place_of(bytes, b'\n') {
        Some(at) => around(bytes, at),
        None => (bytes, bytes.split_at(bytes.len()).1),
    }
}

/// What stands before the first blank, and what stands behind it.
#[tactic(auto, using(crate::proofs::Words::first_word, crate::proofs::Words::only_word))]
fn cut_blank(text: &[u8]) -> (&[u8], &[u8])
    requires { 0 < length text.now }
    ensures words { words_of text.now ≡ with_word result.0.now (words_of result.1.now) }
    ensures less { length result.1.now < length text.now }
{
    match place_of_blank(text) {
        Some(at) => around(text, at),
        None => (text, text.split_at(text.len()).1),
    }
}

/// The first word, and what stands behind it.
pub fn next_word(text: &[u8]) -> Option<(&[u8], &[u8])>
    ensures words { MatchOption result (words_of text.now ≡ []) (λ x. words_of text.now ≡ x.0.now ∷ words_of x.1.now) }
    ensures less { IfSome result (λ x. length x.1.now < length text.now) }
    ensures some { IfSome result (λ x. 0 < length x.0.now) }
{
    let mut rest = text;
    'blanks: while !rest.is_empty() {
        let (word, behind) = cut_blank(rest);
        if !word.is_empty() {
            return Some((word, behind));
        }
        rest = behind;
    }
    None
}

/// The first word that the line says, and what stands behind it. A line without words is skipped, and so is a
/// comment.
#[tactic(auto, unfolding(crate::specs::Text::words_of_line))]
pub fn first_word(line: &[u8]) -> Option<(&[u8], &[u8])>
    ensures { MatchOption result (words_of_line line.now ≡ []) (λ x. words_of_line line.now ≡ x.0.now ∷ words_of x.1.now) }
{
    let (word, behind) = next_word(line_text(line))?;
    if word[0] == b'#' {
        return None;
    }
    Some((word, behind))
}
