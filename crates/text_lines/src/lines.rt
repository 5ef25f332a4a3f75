//! Lines of a text that is read, and their words.

ghost use Rattle.std.specs.Prelude.{◌≡◌, ◌≤◌, ◌<◌, length, map, Ok, Err, IfOk, IfErr, not};
ghost use Rattle.std.specs.List.{list_all, position, position_or_len};
ghost use Rattle.std.specs.Int.{is_in_range};
ghost use Rattle.jp_types.specs.Words.{is_empty};
ghost use Rattle.jp_types.specs.Reading.{Reads};
ghost use Rattle.text_lines.specs.Lines.{is_feed, behind_first, text_words, mode};

use jp_types::cause::Cause;
use jp_types::mode::Mode;
use jp_types::read_command::LineFault;
use jp_types::words::words_of;
use std::alloc::Global;

fn first_feed(input: &[u8]) -> Option<usize>
    ensures { result ≡ position is_feed input.now }
{
    input.iter().position(|c| *c == b'\n')
}

/// How many bytes stand before the first line feed.
#[tactic(auto, using(crate::proofs::Feeds::not_found))]
pub fn first_len(input: &[u8]) -> usize
    ensures value { result ≡ position_or_len is_feed input.now }
    ensures bound { result ≤ length input.now }
{
    match first_feed(input) {
        Some(at) => at,
        None => input.len(),
    }
}

/// What stands behind the first line.
pub fn behind_first(input: &[u8]) -> &[u8]
    ensures value { result.now ≡ behind_first input.now }
    ensures shorter { 0 < length input.now → length result.now < length input.now }
{
    let front = first_len(input);
    if front < input.len() {
        &input[front + 1..]
    } else {
        &input[front..]
    }
}

fn has_bytes(word: &[u8]) -> bool
    ensures { result ≡ not (is_empty word.now) }
{
    match word {
        [] => false,
        [_, ..] => true,
    }
}

fn is_spaced(words: &[&[u8]]) -> bool
    ensures { result ≡ list_all (λ word. not (is_empty word.now)) words.now }
{
    words.iter().all(|word| has_bytes(word))
}

fn is_printable(text: &[u8]) -> bool
    ensures { result ≡ list_all (λ c. is_in_range 32 126 c) text.now }
{
    text.iter().all(|c| 32 <= *c && *c <= 126)
}

/// The words of a line, if it is well formed as text; `ended` tells whether a line feed ends it.
#[tactic(auto, using(crate::proofs::Words::spaced_words, std::proofs::lemmas::Grind::common_steps))]
pub fn text_words(alloc: Global, text: &[u8], ended: bool) -> Result<Vec<&[u8]>, LineFault>
    ensures ok { IfOk result (λ words. text_words (record { text = text.now; ended = ended }) ≡ Ok (map (λ word. word.now) words.items)) }
    ensures err { IfErr result (λ fault. Reads (Err fault) (text_words (record { text = text.now; ended = ended }))) }
{
    let words = words_of(alloc, text)?;
    if ended && is_printable(text) && is_spaced(&words) {
        Ok(words)
    } else {
        Err(LineFault::Cause(Cause::Text))
    }
}

/// The mode that a word names.
pub fn mode(word: &[u8]) -> Result<Mode, Cause>
    ensures { result ≡ mode word.now }
{
    if word == b"viewss".as_slice() {
        Ok(Mode::ViewSs)
    } else if word == b"epochss".as_slice() {
        Ok(Mode::EpochSs)
    } else {
        Err(Cause::BadMode)
    }
}
