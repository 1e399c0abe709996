//! Reads lines, and keeps at most a bound of each.
ghost use Rattle.std.specs.Prelude.{◌≡◌, ◌+◌, ◌<◌, ◌≤◌, [], ◌∷◌, ◌++◌, length, take, IfOk, OnOk};
ghost use Rattle.im_dialogue.specs.Hearing.{IsLinePart, ReadsLine, ReadsMore};

use crate::line_part::LinePart;
use im_script::MAX_LINE;
use im_text::Reason;
use std::alloc::AllocError;
use std::io::{BufRead, ErrorKind};

/// The most bytes of a line that are kept. It is one more than a line may have, so that a longer line is known to be
/// one.
pub(crate) const KEPT: usize = MAX_LINE + 1;

// Keeps more bytes of a line, up to its bound.
#[tactic(auto, using(crate::proofs::LineLemmas::kept_some))]
fn keep(line: &mut Vec<u8>, part: &[u8]) -> Result<(), AllocError>
    requires few { length line.old.items ≤ KEPT }
    ensures kept { OnOk result (line.new.items ≡ take KEPT (line.old.items ++ part.now)) }
    ensures few { length line.new.items ≤ KEPT }
{
    let room = KEPT - line.len();
    if part.len() <= room {
        line.extend_from_slice(part)
    } else {
        line.extend_from_slice(&part[..room])
    }
}

// Returns how many bytes of a text stand before its first line feed, or all if it has none.
fn line_len(text: &[u8]) -> usize
    ensures bound { result ≤ length text.now }
    ensures part { IsLinePart (take result text.now) }
    ensures feed { result < length text.now → take (result + 1) text.now ≡ take result text.now ++ 10 ∷ [] }
{
    for (at, byte) in text.iter().enumerate() {
        if *byte == b'\n' {
            return at;
        }
    }
    text.len()
}

// Returns what was read of a line, given how many bytes stand before the first line feed, and how many there are.
fn part_read(before: usize, all: usize) -> LinePart
    ensures last { before < all → result ≡ LinePart.Last }
    ensures none { before ≡ all → all ≡ 0 → result ≡ LinePart.None }
    ensures more { before ≡ all → 0 < all → result ≡ LinePart.More }
{
    if before < all {
        LinePart::Last
    } else if all == 0 {
        LinePart::None
    } else {
        LinePart::More
    }
}

// Returns how many bytes are taken then: the line feed too.
fn taken_to(before: usize, all: usize) -> usize
    requires within { before ≤ all }
    ensures last { before < all → result ≡ before + 1 }
    ensures rest { before ≡ all → result ≡ before }
    ensures within { result ≤ all }
{
    if before < all { before + 1 } else { before }
}

/// Returns the reason for an input that can't be read.
pub(crate) fn unread(kind: ErrorKind) -> Reason {
    Reason::Input(kind)
}

// Returns whether a whole line stands in a text behind so many of its bytes.
fn has_line(text: &[u8], taken: usize) -> bool
    requires within { taken ≤ length text.now }
{
    let rest = &text[taken..];
    line_len(rest) < rest.len()
}

// Reads what is there of a line, up to its line feed. Notes whether another whole line is there behind it.
fn read_part<R: BufRead>(
    input: &mut R,
    line: &mut Vec<u8>,
    more: &mut bool,
) -> Result<LinePart, Reason>
    requires few { length line.old.items ≤ KEPT }
    ensures few { length line.new.items ≤ KEPT }
    ensures read { IfOk result (λ part. ReadsMore part (R.remaining input.old) (R.remaining input.new)
        line.old.items line.new.items) }
{
    let text = match input.fill_buf() {
        Ok(text) => text,
        Err(error) => {
            return match error.kind() {
                ErrorKind::Interrupted => Ok(LinePart::More),
                kind => Err(unread(kind)),
            };
        }
    };
    let before = line_len(text);
    if keep(line, &text[..before]).is_err() {
        return Err(Reason::Memory);
    }
    let part = part_read(before, text.len());
    let taken = taken_to(before, text.len());
    *more = has_line(text, taken);
    input.consume(taken);
    Ok(part)
}

/// Reads the next line, without its line feed. If the line is longer than [`MAX_LINE`], it keeps only the first
/// [`KEPT`] bytes, and reads on to the line feed. Returns false at the end of the input. A line that ends without a
/// line feed is no line: what was cut off isn't asked. Notes whether another whole line stands behind it in the
/// reader's buffer, so that reading it doesn't wait.
pub(crate) fn next_line<R: BufRead>(
    input: &mut R,
    line: &mut Vec<u8>,
    more: &mut bool,
) -> Result<bool, Reason>
    ensures few { length line.new.items ≤ KEPT }
    ensures read { IfOk result (λ is_line. ReadsLine is_line (R.remaining input.old) (R.remaining input.new)
        line.new.items) }
{
    line.clear();
    *more = false;
    for _part in 0..u64::MAX {
        match read_part(input, line, more) {
            Ok(LinePart::More) => {}
            Ok(LinePart::Last) => return Ok(true),
            Ok(LinePart::None) => return Ok(false),
            Err(reason) => return Err(reason),
        }
    }
    Err(unread(ErrorKind::Interrupted)) // Each read so far gave a part or nothing.
}
