//! Reads that wait for a reader that doesn't wait itself.
ghost use Rattle.std.specs.Prelude.{◌≡◌, ◌≢◌, ◌⊎◌, ◌↔◌, IfSome, IfErr, IsTrue, MatchOption};
ghost use Rattle.std.specs.{Io.KnownBytes.Keeps, Io.KnownBytes.ReadConsumes, Io.ReadsAtMost, IoError.error_kind};

use std::io::{self, ErrorKind, Read};
use std::sync::Wait;
use std::thread::Parker;
use std::time::Duration;

// The pause before a reader that has nothing yet is read again, in milliseconds.
const PAUSE: u64 = 5;

// Returns whether a read with this error may succeed when it is made again.
fn may_pass(kind: ErrorKind) -> bool
    ensures { IsTrue result ↔ ((kind ≡ ErrorKind.WouldBlock) ⊎ (kind ≡ ErrorKind.Interrupted)) }
{
    kind == ErrorKind::WouldBlock || kind == ErrorKind::Interrupted
}

// Reads what is there. Returns `None` if the reader has nothing yet, or was interrupted.
fn read_now<I: Read>(input: &mut I, buf: &mut [u8]) -> Option<io::Result<usize>>
    ensures bound { IfSome result (λ read. ReadsAtMost read buf.new) }
    ensures bytes { MatchOption result (Keeps (I.remaining input.old) (I.remaining input.new))
        (λ read. ReadConsumes (I.remaining input.old) (I.remaining input.new) read buf.new) }
    ensures waits { IfSome result (λ read. IfErr read (λ error.
        (error_kind error ≢ ErrorKind.WouldBlock) × (error_kind error ≢ ErrorKind.Interrupted))) }
{
    match input.read(buf) {
        Ok(count) => Some(Ok(count)),
        Err(error) => {
            if may_pass(error.kind()) {
                None
            } else {
                Some(Err(error))
            }
        }
    }
}

/// Reads, and waits as long as the reader has nothing yet. It sleeps between its reads, and continues after an
/// interruption.
#[tactic(auto, using(crate::proofs::PatientLemmas::reads_on))]
pub(crate) fn read_waiting<R: Wait, I: Read>(
    rt: &R,
    input: &mut I,
    buf: &mut [u8],
) -> io::Result<usize>
    ensures bound { ReadsAtMost result buf.new }
    ensures bytes { ReadConsumes (I.remaining input.old) (I.remaining input.new) result buf.new }
    ensures waits { IfErr result (λ error.
        (error_kind error ≢ ErrorKind.WouldBlock) × (error_kind error ≢ ErrorKind.Interrupted)) }
{
    let bed = Parker::new();
    for _ in rt.forever() {
        if let Some(read) = read_now(input, buf) {
            return read;
        }
        bed.park_timeout(rt, Duration::from_millis(PAUSE)); // Nobody wakes it before.
    }
    unreachable!()
}

/// A reader that waits if the one below has nothing yet, such as standard input that was opened not to block. Its bytes
/// are those of the one below. None of its errors is `WouldBlock` or `Interrupted`.
#[derive(Drop)]
pub struct Patient<R, I> {
    rt: R,
    input: I,
}

impl<R: Wait + Drop, I: Read + Drop> Patient<R, I> {
    /// Makes a reader of the bytes of this one.
    pub fn new(rt: R, input: I) -> Patient<R, I> {
        Patient { rt, input }
    }
}

impl<R: Wait, I: Read> Read for Patient<R, I> {
    ghost use Rattle.im_listening.specs.Patience.{below};

    ghost remaining = { λ patient. I.remaining (below patient) };

    fn read(&mut self, buf: &mut [u8]) -> io::Result<usize>
        ensures bound { ReadsAtMost result buf.new }
        ensures bytes { ReadConsumes (I.remaining (below self.old)) (I.remaining (below self.new)) result buf.new }
        ensures waits { IfErr result (λ error.
            (error_kind error ≢ ErrorKind.WouldBlock) × (error_kind error ≢ ErrorKind.Interrupted)) }
    {
        read_waiting(&self.rt, &mut self.input, buf)
    }
}
