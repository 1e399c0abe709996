//! How work ends: the lines that were kept back are written, and then the line of a refusal. Whoever serves or runs a
//! script ends so.
ghost use Rattle.std.specs.Prelude.{◌≡◌, ◌≤◌, List, [], ◌∷◌, ◌++◌, OnOk, OnErr, IsOk};
ghost use Rattle.std.specs.Io.KnownBytes.{Keeps};
ghost use Rattle.im_text.specs.declared.said.OutputLine.{OutputLine};
ghost use Rattle.im_text.specs.Said.{IsLast, MayPrint, Output, output, Prints, SaysLast, SaysWhole};

use crate::batches::put_through;
use crate::lines::Lines;
use crate::news::News;
use crate::reasons::Reason;
use crate::said::{OutputLine, Style, add_said};
use im_types::{Observer, Refusal};
use std::alloc::Global;
use std::io::Write;

// Prints a last line after the others, if it can be printed.
fn push_through<W: Write>(lines: &mut Lines, line: OutputLine, out: &mut W)
    ensures { MayPrint (W.contents out.old) lines.old (W.contents out.new) lines.new (line ∷ []) }
{
    match lines.push(out, line) {
        Ok(()) => {
            let _written = lines.flush(out);
        }
        Err(_) => {}
    }
}

// Prints the line of a refusal after the others, if it can be printed.
fn print_refusal<W: Write>(refusal: Refusal, lines: &mut Lines, out: &mut W)
    ensures { (from : Output) (said : List OutputLine) → Prints from (W.contents out.old) lines.old said
        → (last : List OutputLine) × (IsLast last × Prints from (W.contents out.new) lines.new (said ++ last)) }
{
    push_through(lines, OutputLine::Refused(refusal), out)
}

/// Ends work that keeps lines back. If the work is done, writes those lines. If it is refused, tells the observer why
/// and writes the line of the refusal. Returns the status: 0 only if the work is done and all its lines are written,
/// else 1.
pub fn finish<W: Write, N: Observer<News>>(
    done: Result<(), Reason>,
    lines: &mut Lines,
    out: &mut W,
    observer: &mut N,
) -> u8
    ensures status { result ≤ 1 }
    ensures whole { result ≡ 0 → IsOk done × ((from : Output) (said : List OutputLine)
        → Prints from (W.contents out.old) lines.old said
        → SaysWhole from (W.contents out.new, lines.new.faulted) said) }
    ensures last { (from : Output) (said : List OutputLine) → Prints from (W.contents out.old) lines.old said
        → (last : List OutputLine) × (IsLast last × Prints from (W.contents out.new) lines.new (said ++ last)) }
{
    match done {
        Ok(()) => match lines.flush(out) {
            Ok(()) => 0,
            Err(reason) => {
                observer.tell(News::Refused(reason));
                1
            }
        },
        Err(reason) => {
            observer.tell(News::Refused(reason));
            if let Some(refusal) = reason.refusal() {
                print_refusal(refusal, lines, out);
            }
            1
        }
    }
}

/// Prints nothing but the line of a refusal.
pub fn put_refusal<W: Write>(alloc: Global, style: Style, refusal: Refusal, out: &mut W)
    ensures { SaysLast (output style (W.contents out.old)) (W.contents out.new) }
{
    let mut line = String::new(alloc);
    let Ok(()) = add_said(&mut line, style, OutputLine::Refused(refusal)) else {
        return;
    };
    let _written = put_through(out, line.as_str());
}

/// Returns the status of work: 0 if it is done, 1 if it is refused. On a refusal, tells the observer why and prints the
/// line of the refusal.
pub fn end<W: Write, N: Observer<News>>(
    alloc: Global,
    style: Style,
    done: Result<(), Reason>,
    out: &mut W,
    observer: &mut N,
) -> u8
    ensures done { OnOk done (result ≡ 0) }
    ensures refused { OnErr done (result ≡ 1) }
    ensures same { OnOk done (Keeps (W.contents out.old) (W.contents out.new)) }
    ensures last { SaysLast (output style (W.contents out.old)) (W.contents out.new) }
{
    match done {
        Ok(()) => 0,
        Err(reason) => {
            observer.tell(News::Refused(reason));
            if let Some(refusal) = reason.refusal() {
                put_refusal(alloc, style, refusal, out);
            }
            1
        }
    }
}
