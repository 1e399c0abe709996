//! A reader that listens with a thread.
ghost use Rattle.std.specs.{Prelude.◌≡◌, Prelude.IfSome, Io.KnownBytes.ReadConsumes, Io.ReadsAtMost, Option.ForSome};
ghost use Rattle.im_listening.specs.Lending.{HasBytes};

use crate::Ear;
use crate::delivery::Delivery;
use crate::input_bytes::InputBytes;
use crate::loan::{Loan, hear, lend_first, read_heard};
use crossbeam_channel::{Receiver, Sender, bounded};
use std::alloc::Global;
use std::io::{self, Error, ErrorKind, Read};
use std::sync::Wait;
use std::thread::{self, Threads, yield_now};

// How often this thread yields before the other one is taken to wait for the reader.
const PATIENCE: usize = 4_096;

// The loop of the thread: it waits for a byte of each reader that is lent, until no lender is left.
fn hear_all<R: Wait + Drop, I: Read + Drop, K: InputBytes>(
    rt: R,
    lent: Receiver<Loan<I, K>>,
    give: Sender<Loan<I, K>>,
) {
    for _ in rt.forever() {
        let Ok(mut loan) = lent.recv(&rt) else {
            return;
        };
        hear(&rt, &mut loan);
        if give.send(&rt, loan).is_err() {
            return;
        }
    }
}

// The way to the thread and back.
#[derive(Drop)]
struct Helper<I: Read + Drop, K: InputBytes> {
    lend: Sender<Loan<I, K>>,
    back: Receiver<Loan<I, K>>,
}

// Returns the reader that came back, if so many bytes of it were given. It is the one that was lent, so they were; but
// no contract follows a value through a channel.
fn ours<I: Read + Drop, K: InputBytes>(loan: Loan<I, K>, given: usize) -> Option<Loan<I, K>>
    ensures { IfSome result (λ loan. loan.given ≡ given) }
{
    if loan.given == given {
        Some(loan)
    } else {
        None
    }
}

// Returns the reader, if the thread has just brought it back.
fn brought<R: Wait, I: Read + Drop, K: InputBytes>(
    rt: &R,
    helper: &Helper<I, K>,
    given: usize,
) -> Option<Loan<I, K>>
    ensures { IfSome result (λ loan. loan.given ≡ given) }
{
    match helper.back.try_recv(rt) {
        Ok(loan) => ours(loan, given),
        Err(_) => None,
    }
}

// Returns the reader that was just lent, unless the thread waits.
fn brought_soon<R: Wait, I: Read + Drop, K: InputBytes>(
    rt: &R,
    helper: &Helper<I, K>,
    given: usize,
) -> Option<Loan<I, K>>
    ensures { IfSome result (λ loan. loan.given ≡ given) }
{
    for _time in 0..PATIENCE {
        if let Some(loan) = brought(rt, helper, given) {
            return Some(loan);
        }
        yield_now();
    }
    None
}

// Lends a reader to the thread. Returns it, unless the thread waits.
fn left_here<R: Wait, I: Read + Drop, K: InputBytes>(
    rt: &R,
    helper: &Helper<I, K>,
    loan: Loan<I, K>,
    given: usize,
) -> Option<Loan<I, K>>
    ensures { IfSome result (λ loan. loan.given ≡ given) }
{
    match helper.lend.send(rt, loan) {
        Ok(()) => brought_soon(rt, helper, given),
        Err(refused) => ours(refused.into_inner(), given),
    }
}

/// A reader that can tell whether a read would wait. If it is asked that, a thread of its own waits for the next byte,
/// and has the reader until then. A read waits for the thread, and continues after the byte that it read. A read also
/// waits if the reader has nothing yet and doesn't wait itself.
///
/// Its bytes are those of the reader, in their order. The end of the input is read once; each later read gives it
/// again. The thread keeps no program from ending.
#[derive(Drop)]
pub struct Listener<R, I: Read + Drop, K: InputBytes> {
    rt: R,
    // The reader, unless the thread has it.
    here: Option<Loan<I, K>>,
    helper: Option<Helper<I, K>>,
    // How many bytes were given.
    given: usize,
    ghost same: { ForSome here (λ loan. loan.given ≡ given) },
}

impl<R: Drop, I: Read + Drop, K: InputBytes> Listener<R, I, K> {
    ghost use Rattle.im_listening.specs.Listening.{still_in};

    /// Makes a reader of these bytes. It can't tell whether a read would wait before [`Listener::begin`].
    pub fn new(rt: R, input: I) -> Listener<R, I, K>
        requires whole { HasBytes K.whole (I.remaining input) }
        ensures { still_in result ≡ K.whole }
    {
        Listener {
            rt,
            here: Some(lend_first(input)),
            helper: None,
            given: 0,
        }
    }
}

impl<
    R: Threads + Wait + Copy + Drop + Send + 'static,
    I: Read + Drop + Send + 'static,
    K: InputBytes + Send + 'static,
> Listener<R, I, K> {
    ghost use Rattle.im_listening.specs.Listening.{still_in};

    /// Starts its thread. If there is no memory for the way to it, or the system gives no thread, the reader still
    /// can't tell.
    pub fn begin(&mut self, alloc: Global)
        ensures { still_in self.new ≡ still_in self.old }
    {
        let Ok((lend, lent)) = bounded(alloc, 1) else {
            return;
        };
        let Ok((give, back)) = bounded(alloc, 1) else {
            return;
        };
        let rt = self.rt;
        // The thread isn't joined: a reader that waits for ever would keep the program from ending.
        if thread::spawn(&self.rt, move || hear_all(rt, lent, give)).is_ok() {
            self.helper = Some(Helper { lend, back });
        }
    }
}

impl<R: Wait, I: Read + Drop, K: InputBytes> Listener<R, I, K> {
    // Returns whether the thread has just brought the reader back.
    fn is_back(&mut self) -> bool
        ensures { self.new.given ≡ self.old.given }
    {
        let Some(helper) = &self.helper else {
            return false;
        };
        let Some(loan) = brought(&self.rt, helper, self.given) else {
            return false;
        };
        self.here = Some(loan);
        true
    }

    // Waits until the thread brings the reader back, if it has it.
    fn take_back(&mut self)
        ensures { self.new.given ≡ self.old.given }
    {
        if self.here.is_some() {
            return;
        }
        let Some(helper) = &self.helper else {
            return;
        };
        let Ok(loan) = helper.back.recv(&self.rt) else {
            return;
        };
        self.here = ours(loan, self.given);
    }

    // Lends the reader to the thread. Returns whether the thread has it, and waits.
    fn lend(&mut self, loan: Loan<I, K>) -> bool
        requires { loan.given ≡ self.old.given }
        ensures { self.new.given ≡ self.old.given }
    {
        let Some(helper) = &self.helper else {
            self.here = Some(loan);
            return false;
        };
        self.here = left_here(&self.rt, helper, loan, self.given);
        self.here.is_none()
    }
}

impl<R: Wait, I: Read + Drop, K: InputBytes> Ear for Listener<R, I, K> {
    fn is_quiet(&mut self) -> bool {
        match self.here.take() {
            None => !self.is_back(),
            Some(loan) => {
                if let Delivery::Nothing = loan.heard {
                    self.lend(loan)
                } else {
                    self.here = Some(loan);
                    false
                }
            }
        }
    }
}

impl<R: Wait, I: Read + Drop, K: InputBytes> Read for Listener<R, I, K> {
    ghost use Rattle.im_listening.specs.Listening.{still_in};

    ghost remaining = { still_in };

    fn read(&mut self, buf: &mut [u8]) -> io::Result<usize>
        ensures bound { ReadsAtMost result buf.new }
        ensures bytes { ReadConsumes (still_in self.old) (still_in self.new) result buf.new }
    {
        self.take_back();
        if self.given > usize::MAX - buf.len() {
            return Err(Error::from(ErrorKind::FileTooLarge)); // As many bytes are never read.
        }
        let Some(loan) = &mut self.here else {
            return Err(Error::from(ErrorKind::BrokenPipe)); // The thread has ended, and the reader with it.
        };
        let read = read_heard(&self.rt, loan, buf);
        self.given = loan.given;
        read
    }
}
