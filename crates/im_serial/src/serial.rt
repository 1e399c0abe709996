//! A script's requests, served one after another.
ghost use Rattle.std.specs.Prelude.{◌≡◌, ◌≤◌, false, [], IsOk};
ghost use Rattle.{im_session.specs.Kept.IsFresh, im_text.specs.Said.output, im_text.specs.Said.output_by};
ghost use Rattle.im_serial.specs.{Begun.KeepsOnce, Serving.seen_by, Serving.SerialOn, Serving.ServedScript};
ghost use Rattle.im_serial.specs.Once.{HasServedNothing, ServedOnce, ServesOnceOn};

use crate::server::{Desk, Server};
use im_disk::Disk;
use im_script::Script;
use im_session::Session;
use im_text::{News, Reason, Style, diagnose, end, finish};
use im_types::Observer;
use std::alloc::Global;
use std::io::Write;

/// A script, and how its lines are said.
#[derive(Clone, Copy)]
pub struct StyledScript<'a> {
    /// The script.
    pub script: &'a Script<'a>,
    /// How its lines are said.
    pub style: Style,
}

/// Serves a script's requests one after another on the image of a disk, prints their answers, and gives the disk back.
/// Returns the status, the disk, and whether a line told an error of the program that asked
/// ([`Lines::faulted`](im_text::Lines::faulted)).
///
/// What it prints goes to `out`, in this order:
///
/// - The line `K.N REPLY` for each request, in order. K is its element and N its number.
/// - `K.N now REPLY` for each request that had to wait, with its entry as last kept.
/// - At last `refused N NAME`, if something was refused. That ends the script.
///
/// The status is 0, or 1 if something was refused: the image, at opening; a request; a block of the setup that can't be
/// made (`BadScript`); the room for what is kept of the script (`NoMemory`); or a write that failed. The observer is
/// told why.
///
/// If an element's window is full, its entries before the first that still waits are confirmed before its next request.
/// The observer is told those that earlier scripts left, before they are confirmed: nobody may have seen them. If a
/// request that waited when the image was opened is answered and still kept at the end, it is told then. Before each
/// request and each confirmation, turns of a checkpoint are taken while there is no room for a command.
///
/// Each line is written whole after its command is on the disk, in batches of at most 4,096 bytes, and the rest at the
/// end. A write that fails ends the script: nothing more is served or written.
///
/// Ensures, in words:
///
/// - `status`: it is 0 or 1.
/// - `served`, an image that isn't opened: a crash leaves nothing that it couldn't leave before. The status is 1, and
///   at most a refusal is printed.
/// - `served`, what was put, with the one command that may be in doubt: the script's first requests, in their order,
///   each with its element's next number, and confirmations. Element 0 asks for the blocks of the setup, and a name
///   stands for the base in its block's answer. With status 0 they are all the script's requests, and none is in doubt.
/// - `served`, what was confirmed: a full window alone, and of it the entries up to the first that isn't answered.
/// - `served`, a crash: a session's record says it of the commands that were put, and of the one in doubt. From the
///   opening on it leaves the memory after a prefix of them. At the end it leaves the memory after all that were put,
///   with or without the one in doubt.
/// - `served`, what was written: a prefix of the lines. First come answers of commands that were put, then `now` lines,
///   then a refusal. A `now` line tells the entry that is kept at the end, or that was kept when it was confirmed. With
///   status 0 all lines are written. It is known of these lines whether one tells an error of the program that asked.
/// - `honest`: the disk was honest at the start, if it is at the end. What `served` says holds of such a disk.
pub fn serial_on<D: Disk, W: Write, N: Observer<News>>(
    alloc: Global,
    disk: D,
    styled: &StyledScript<'_>,
    out: &mut W,
    observer: &mut N,
) -> (u8, D, bool)
    ensures status { result.0 ≤ 1 }
    ensures served { D.honest result.1
        → SerialOn D.Disk styled.now.script.now disk result.1 (output styled.now.style (W.contents out.old))
        (W.contents out.new, result.2) result.0 }
    ensures honest { D.honest result.1 → D.honest disk }
{
    let desk = match Desk::new(alloc, styled.style) {
        Ok(desk) => desk,
        Err(_) => return (
            end(alloc, styled.style, Err(Reason::Memory), out, observer),
            disk,
            false,
        ),
    };
    match Session::open(alloc, disk) {
        Ok(session) => serve_on(alloc, session, desk, styled.script, out, observer),
        Err((refusal, mut disk)) => {
            let reason = diagnose(alloc, &mut disk, refusal);
            let status = end(alloc, styled.style, Err(reason), out, observer);
            (status, disk, false)
        }
    }
}

// Serves a script with a session that has put nothing. Returns the status, the session's disk, and whether a line told
// an error.
fn serve_on<D: Disk, W: Write, N: Observer<News>>(
    alloc: Global,
    session: Session<D>,
    desk: Desk,
    script: &Script<'_>,
    out: &mut W,
    observer: &mut N,
) -> (u8, D, bool)
    requires fresh { IsFresh session }
    requires works { session.engine.failed ≡ false }
    requires pending { desk.lines.batch.pending.items ≡ [] }
    ensures status { result.0 ≤ 1 }
    ensures served { ServedScript D.Disk script.now session.start.disk result.1
        (output_by desk.lines (W.contents out.old)) (W.contents out.new, result.2) result.0 }
{
    let mut server = Server::new(alloc, session, desk);
    let served = server.serve(alloc, script, out, observer);
    server.learn_all(observer);
    let told = server.tell(out);
    let (session, mut lines) = server.leave();
    let status = finish(both(served, told), &mut lines, out, observer);
    // If the disk failed, a refusal was printed: the status is 1 already.
    let failed = session.engine().failed();
    (status_at(failed, status), session.close(), lines.faulted())
}

/// Serves what the image of a disk doesn't have of a script, and gives the disk back: the n-th request of an element in
/// the script has number n. So a script that was stopped is gone on with by the same call. What it prints goes to
/// `out`, in this order:
///
/// - For each request that the image has, in order: `K.N REPLY`, what is kept for it, or `K.N done` if it was
///   confirmed. These lines are written out before anything is served.
/// - The line `K.N REPLY` for each other request, in order.
/// - `K.N now REPLY` for each request whose line says that it waits, with its entry as last kept.
/// - At last `refused N NAME`, if something was refused. That ends the script.
///
/// In the setup of a new image a block stands behind those before it. So a name stands for the sum of their lengths if
/// the image has its block.
///
/// Before anything is printed, the script is compared with what the image has of it, and refused if another script used
/// the image: with `Mismatch` if under one of its numbers another operation is kept, or for a block of the setup
/// another base; with `BadScript` if the window of an element begins behind all its requests. What was confirmed can't
/// be compared.
///
/// All else is as [`serial_on`] says: what it refuses, what is confirmed, when lines are written, what a crash leaves,
/// and the status. The commands that were put are those requests of the script that the image didn't have, in their
/// order, each with its element's next number, and confirmations. If the status is 0, they are all of those.
///
/// So stops may come anywhere, and any number of them. From a new image on, all such runs of one script are together
/// what one run of [`serial_on`] is: its requests were put in their order, each once and with its element's next
/// number, and names stand for the bases that were answered. If the status is 0, they are all its requests.
pub fn serial_once_on<D: Disk, W: Write, N: Observer<News>>(
    alloc: Global,
    disk: D,
    styled: &StyledScript<'_>,
    out: &mut W,
    observer: &mut N,
) -> (u8, D, bool)
    ensures status { result.0 ≤ 1 }
    ensures served { ServesOnceOn D.Disk styled.now.script.now disk result.1
        (output styled.now.style (W.contents out.old)) (W.contents out.new, result.2) result.0 }
    ensures keeps { KeepsOnce D.Disk styled.now.script.now disk result.1 result.0 }
    ensures honest { D.honest result.1 → D.honest disk }
{
    open_and_serve_once(alloc, disk, styled, out, observer)
}

// Opens the image of a disk, and serves what it doesn't have of a script. Returns the status, the disk, and whether a
// line told an error.
fn open_and_serve_once<D: Disk, W: Write, N: Observer<News>>(
    alloc: Global,
    disk: D,
    styled: &StyledScript<'_>,
    out: &mut W,
    observer: &mut N,
) -> (u8, D, bool)
    ensures status { result.0 ≤ 1 }
    ensures served { ServesOnceOn D.Disk styled.now.script.now disk result.1
        (output styled.now.style (W.contents out.old)) (W.contents out.new, result.2) result.0 }
    ensures honest { D.honest result.1 → D.honest disk }
{
    let desk = match Desk::new(alloc, styled.style) {
        Ok(desk) => desk,
        Err(_) => return (
            end(alloc, styled.style, Err(Reason::Memory), out, observer),
            disk,
            false,
        ),
    };
    match Session::open(alloc, disk) {
        Ok(session) => {
            let server = Server::new(alloc, session, desk);
            serve_once_on(alloc, server, styled.script, out, observer)
        }
        Err((refusal, mut disk)) => {
            let why = diagnose(alloc, &mut disk, refusal);
            let status = end(alloc, styled.style, Err(why), out, observer);
            (status, disk, false)
        }
    }
}

// Serves what the session of a server doesn't have of a script. Returns the status, the session's disk, and whether a
// line told an error.
fn serve_once_on<D: Disk, W: Write, N: Observer<News>>(
    alloc: Global,
    mut server: Server<D>,
    script: &Script<'_>,
    out: &mut W,
    observer: &mut N,
) -> (u8, D, bool)
    requires nothing { HasServedNothing (seen_by server (W.contents out.old)) server.bases.items }
    ensures status { result.0 ≤ 1 }
    ensures served { ServedOnce D.Disk script.now server.session.start.disk result.1
        (output_by server.lines (W.contents out.old)) (W.contents out.new, result.2) result.0 }
{
    let served = server.serve_once(alloc, script, out, observer);
    server.learn_all(observer);
    let told = server.tell(out);
    let (session, mut lines) = server.leave();
    let status = finish(both(served, told), &mut lines, out, observer);
    // If the disk failed, a refusal was printed: the status is 1 already.
    let failed = session.engine().failed();
    (status_at(failed, status), session.close(), lines.faulted())
}

/// Returns the first refusal, if there is one: that of what was served, or that of telling it.
pub fn both(served: Result<(), Reason>, told: Result<(), Reason>) -> Result<(), Reason>
    ensures served { IsOk result → IsOk served }
    ensures told { IsOk result → IsOk told }
{
    match served {
        Ok(()) => told,
        Err(reason) => Err(reason),
    }
}

// Returns the status. It is 1 if the disk failed.
fn status_at(failed: bool, status: u8) -> u8
    requires { status ≤ 1 }
    ensures few { result ≤ 1 }
    ensures works { result ≡ 0 → failed ≡ false }
    ensures status { result ≡ 0 → status ≡ 0 }
{
    if failed { 1 } else { status }
}
