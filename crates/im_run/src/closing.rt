//! The end of a run: its lines, its status, and why it ended.
ghost use Rattle.std.specs.Prelude.{◌≡◌, ◌≤◌, false, ◌⊎◌, IsOk};
ghost use Rattle.im_session.specs.Kept.{Kept};
ghost use Rattle.im_run.specs.Running.{Closes, disk_failed, told_as};

use crate::run::STALLED;
use crate::served::Did;
use crate::telling::print_finals;
use im_damage::Damage;
use im_disk::Disk;
use im_serial::both;
use im_session::Session;
use im_text::{Lines, News, Reason, Waited, finish};
use im_types::{Observer, Refusal};
use std::io::Write;

// Returns whether the run ended only because servers wait for each other.
fn is_stalled(done: &Result<(), Reason>) -> bool {
    matches!(done, Err(Reason::Request(_, Refusal::Stalled)))
}

// The reason that a call of the disk failed.
fn disk_failed() -> Reason
    ensures { result ≡ disk_failed }
{
    Reason::Image(Refusal::Device, Damage::Unknown)
}

// Returns the reason that the run ended. If the disk failed, and there is no other reason or only a wait, the disk's
// failure is the reason.
fn with_disk(done: Result<(), Reason>, failed: bool) -> Result<(), Reason>
    ensures done { IsOk result → IsOk done }
{
    if failed && (done.is_ok() || is_stalled(&done)) {
        return Err(disk_failed());
    }
    done
}

/// An observer in front of another one. It tells that a call of the disk failed if a request is refused because it came
/// after that call.
#[derive(Drop)]
struct Behind<'a, N> {
    observer: &'a mut N,
}

impl<N: Observer<News>> Observer<News> for Behind<'_, N> {
    fn tell(&mut self, news: News) {
        self.observer.tell(match news {
            News::Refused(reason) => News::Refused(told_as(reason)),
            other => other,
        });
    }
}

// Returns the reason that the observer is told.
fn told_as(reason: Reason) -> Reason
    ensures { result ≡ told_as reason }
{
    match reason {
        Reason::Request(_, Refusal::Failed) => disk_failed(),
        other => other,
    }
}

// Returns the status. It is 1 if the disk failed.
fn status_of(failed: bool, stalled: bool, status: u8) -> u8
    requires { status ≤ 1 }
    ensures status { (result ≤ 1) ⊎ (result ≡ STALLED) }
    ensures works { (result ≡ 0) ⊎ (result ≡ STALLED) → failed ≡ false }
    ensures done { result ≡ 0 → status ≡ 0 }
{
    if failed {
        1
    } else if stalled {
        STALLED
    } else {
        status
    }
}

/// How the servers of a run ended.
#[derive(Drop)]
pub struct Ending<D: Disk> {
    /// The session.
    pub session: Session<D>,
    /// What was done, by elements, and for each element in order.
    pub did: Vec<Did>,
    /// The requests of earlier scripts that waited when the servers began.
    pub waits: Vec<Waited>,
    /// The refusal, if there is one.
    pub done: Result<(), Reason>,
}

/// Prints the lines of what was done, and the refusal, and closes the session. Returns the status, its disk, and
/// whether a line told an error.
pub fn close<D: Disk, W: Write, N: Observer<News>>(
    ending: Ending<D>,
    mut lines: Lines,
    out: &mut W,
    observer: &mut N,
) -> (u8, D, bool)
    ensures status { (result.0 ≤ 1) ⊎ (result.0 ≡ STALLED) }
    ensures disk { result.1 ≡ ending.session.engine.disk }
    ensures kept { Kept D.Disk ending.session }
    ensures works { (result.0 ≡ 0) ⊎ (result.0 ≡ STALLED) → ending.session.engine.failed ≡ false }
    ensures done { result.0 ≡ 0 → IsOk ending.done }
    ensures printed { Closes (W.contents out.old) lines (W.contents out.new, result.2) ending.session.engine.memory
        ending.did.items result.0 }
{
    let failed = ending.session.engine().failed();
    let ended = with_disk(ending.done, failed);
    let told = print_finals(
        ending.session.memory(),
        ending.did.as_slice(),
        &mut lines,
        out,
    );
    let stalled = is_stalled(&ended);
    let status = finish(both(ended, told), &mut lines, out, &mut Behind { observer });
    (
        status_of(failed, stalled, status),
        ending.session.close(),
        lines.faulted(),
    )
}
