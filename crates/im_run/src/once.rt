//! A script that is run once, whatever stopped it before.
ghost use Rattle.std.specs.Prelude.{◌≡◌, ◌≤◌, true, ◌⊎◌, List, ◌++◌};
ghost use Rattle.{im_session.specs.Kept.Kept, im_text.specs.declared.OutputLine.OutputLine};
ghost use Rattle.im_text.specs.Said.{IsLast, Output, output, output_by, Prints, SaysSome};
ghost use Rattle.im_serial.specs.{Once.HasServedNothing, Serving.seen_by};
ghost use Rattle.im_run.specs.Once.{EndsOnce, RunsOnceOn};

use crate::context::RunContext;
use crate::run::{STALLED, run_server};
use crate::script::run_script;
use crate::sheet::{Assignment, Commission};
use crate::tracing::Trace;
use im_disk::Disk;
use im_serial::Server;
use im_serving::{Gate, Host, Standing, Teller};
use im_text::{News, Reason, finish};
use im_types::Observer;
use std::io::Write;

// Prints a refusal behind the lines that are kept back. Returns the status, the session's disk, and whether a line told
// an error.
fn refuse_rest<D: Disk, W: Write, N: Observer<News>>(
    server: Server<D>,
    reason: Reason,
    out: &mut W,
    observer: &mut N,
) -> (u8, D, bool)
    ensures status { result.0 ≡ 1 }
    ensures disk { result.1 ≡ server.session.engine.disk }
    ensures kept { Kept D.Disk server.session }
    ensures last { (from : Output) (text : List OutputLine) → Prints from (W.contents out.old) server.lines text
        → (last : List OutputLine) × IsLast last × SaysSome from (W.contents out.new, result.2) (text ++ last) }
{
    let (session, mut lines) = server.leave();
    let _status = finish(Err(reason), &mut lines, out, observer);
    (1, session.close(), lines.faulted())
}

/// Prints what the memory of a server has of a script, and runs the rest. Returns the status, the session's disk, the
/// trace, and whether a line told an error.
pub(crate) fn run_rest<
    D: Disk + Drop + Send,
    W: Write,
    N: Observer<News>,
    G: Gate + Sync,
    V: Observer<Standing> + Teller + Copy + Send,
    R: Host,
>(
    context: &RunContext<'_, G, V, R>,
    server: Server<D>,
    asked: Commission<'_, '_>,
    out: &mut W,
    observer: &mut N,
) -> (u8, D, Trace, bool)
    requires ready { HasServedNothing (seen_by server (W.contents out.old)) server.bases.items }
    ensures status { (result.0 ≤ 1) ⊎ (result.0 ≡ STALLED) }
    ensures ends { EndsOnce D.Disk asked.entry.planned asked.entry.script.now server.session.start result.1
        (output_by server.lines (W.contents out.old)) (W.contents out.new, result.3) result.2 result.0 }
    ensures recorded { context.now.recorded ≡ true → result.2.recorded ≡ true }
{
    let alloc = context.alloc;
    let mut server = server;
    match server.show_past(alloc, asked.script, out) {
        Ok(()) => {
            let none = Vec::new(alloc);
            server.waited = none; // Those that wait are sent again.
            let asked = Commission {
                script: asked.script,
                style: asked.style,
                once: true,
                planned: asked.planned,
            };
            run_server(context, server, asked, out, observer)
        }
        Err(reason) => {
            let (status, disk, faulted) = refuse_rest(server, reason, out, observer);
            (status, disk, Trace::new(alloc), faulted)
        }
    }
}

/// Runs what the image of a disk doesn't have of a script, and returns what [`run_on`](crate::run_on) does: the n-th
/// request of an element in the script has number n, and the blocks of the setup are element 0's first requests. So a
/// script that was stopped is gone on with by the same call. What it prints goes to `out`, in this order:
///
/// - For each request that the image has, in the script's order: `K.N REPLY`, what is kept for it, or `K.N done` if it
///   was confirmed. These lines are written out before anything is served.
/// - The lines of [`run_on`](crate::run_on), of the requests that are sent: those that the image doesn't have, and
///   those from an element's first one on that waits. The latter are sent again under their numbers, and answered as
///   before, or since. Glances have no number: all of them are made.
///
/// Before anything is printed, the script is compared with what the image has of it, and refused if another script used
/// the image, as [`serial_once_on`](im_serial::serial_once_on) says.
///
/// So at status 0 each request of a part was sent now, or is before its element's first one that waits: confirmed,
/// or kept with its operation. It is seen at the end that each number of the script was used.
/// [`run_over_stops`](crate::run_over_stops) says what any number of such calls comes to.
///
/// If the run is planned, the plan is of all requests of the script's parts, those that aren't sent too, under their
/// numbers. It has to be under way in the memory after the setup, as calls with this script leave it; else nothing more
/// is served, and it is refused with `BadPlan`. At the end the entry that is kept for a request of the plan has its
/// result by the plan, or it waits. If the status is 0, all of the plan was served, and the plan and the blocks alone
/// say what is kept for it, whatever stops came before.
///
/// All else is as [`run_on`](crate::run_on) says. Nothing more is confirmed at the end, so that one more call prints
/// the last replies again.
pub fn run_once_on<
    D: Disk + Drop + Send,
    W: Write,
    N: Observer<News>,
    G: Gate + Sync,
    V: Observer<Standing> + Teller + Copy + Send,
    R: Host,
>(
    context: &RunContext<'_, G, V, R>,
    disk: D,
    asked: Assignment<'_, '_>,
    out: &mut W,
    observer: &mut N,
) -> (u8, D, Trace, bool)
    ensures status { (result.0 ≤ 1) ⊎ (result.0 ≡ STALLED) }
    ensures run { RunsOnceOn D.Disk asked.entry.planned asked.entry.script.now disk result.1
        (output asked.entry.style (W.contents out.old)) (W.contents out.new, result.3) result.2 result.0 }
    ensures recorded { context.now.recorded ≡ true → result.2.recorded ≡ true }
{
    let asked = Commission {
        script: asked.script,
        style: asked.style,
        once: true,
        planned: asked.planned,
    };
    run_script(context, disk, asked, out, observer)
}
