//! The lines of a text, and the first word of a line, as slices of it.

ghost use Rattle.std.specs.Prelude.{◌≡◌, ◌≢◌, ◌==◌, ◌<◌, ◌≤◌, ◌^◌, ◌∷◌, [], MatchOption, length, position};
ghost use Rattle.std.specs.Prelude.{slice_index, take};
ghost use Rattle.std.specs.List.{position_or_len};
ghost use Rattle.text_lines.specs.Lines.{last_line, lines_of, words_in};

use memchr::memchr;
use std::simd::prelude::*;

/// How many bytes are compared at once.
const LANES: usize = 8;

/// The first line of a text that is not empty, without its line feed, and what follows it. The last line may lack the
/// line feed.
#[tactic(auto, using(crate::proofs::Cuts::cut_steps))]
pub fn cut_line(text: &[u8]) -> (&[u8], &[u8])
    requires { 0 < length text.now }
    ensures lines { lines_of text.now ≡ result.0.now ∷ lines_of result.1.now }
    ensures shorter { length result.1.now < length text.now }
{
    match line_feed(text) {
        Some(end) => (&text[..end], &text[end + 1..]),
        None => (text, &[]),
    }
}

/// The number of a text's last line, from 1; 1 of an empty text.
pub fn last_line(text: &[u8]) -> u32
    requires { length text.now < 2 ^ 32 }
    ensures { result ≡ last_line text.now }
{
    let mut rest = text;
    let mut count = 0u32;
    while !rest.is_empty() {
        let (_, after) = cut_line(rest);
        rest = after;
        count += 1;
    }
    count.max(1)
}

/// The place of the first line feed.
fn line_feed(text: &[u8]) -> Option<usize>
    ensures { result ≡ position (λ b. b == 10) text.now }
{
    memchr(b'\n', text)
}

/// The first word of a line, and what follows it; None where there is none.
#[tactic(auto, using(crate::proofs::Cuts::word_steps))]
pub(crate) fn cut_word(line: &[u8]) -> Option<(&[u8], &[u8])>
    ensures { MatchOption result (words_in line.now ≡ []) (λ cut. words_in line.now ≡ cut.0.now ∷ words_in cut.1.now) }
{
    let line = without_spaces(line);
    if line.is_empty() {
        return None;
    }
    Some(match space(line) {
        Some(end) => (&line[..end], &line[end + 1..]),
        None => (line, &[]),
    })
}

/// A line without the spaces at its front.
fn without_spaces(line: &[u8]) -> &[u8]
    ensures words { words_in result.now ≡ words_in line.now }
    ensures word { slice_index result.now 0 ≢ 32 }
{
    let mut rest = line;
    while let [b' ', after @ ..] = rest {
        rest = after;
    }
    rest
}

/// The place of the first space. Most words end among the bytes that are compared at once.
#[tactic(auto, using(crate::proofs::Spaces::near))]
fn space(line: &[u8]) -> Option<usize>
    ensures { result ≡ position (λ b. b == 32) line.now }
{
    if line.len() < LANES {
        return space_by_byte(line);
    }
    let before = bytes_before_space(line);
    if before < LANES {
        return Some(before);
    }
    let after = space_by_byte(&line[LANES..])?;
    Some(LANES + after)
}

/// The same, one byte after the other.
fn space_by_byte(line: &[u8]) -> Option<usize>
    ensures { result ≡ position (λ b. b == 32) line.now }
{
    line.iter().position(|b| *b == b' ')
}

/// How many of the bytes that are compared at once come before the first space among them.
fn bytes_before_space(line: &[u8]) -> usize
    requires { LANES ≤ length line.now }
    ensures { result ≡ position_or_len (λ b. b == 32) (take LANES line.now) }
{
    let spaces = u8x8::from_slice(line)
        .simd_eq(u8x8::splat(b' '))
        .to_bitmask();
    if spaces == 0 {
        LANES
    } else {
        spaces.trailing_zeros() as usize
    }
}
