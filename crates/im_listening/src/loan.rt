//! A reader on its way to a thread and back.
ghost use Rattle.std.specs.Prelude.{◌≡◌, ◌+◌, ◌^◌, ◌<◌, true, [], length, Ok};
ghost use Rattle.std.specs.Io.{KnownBytes.ReadConsumes, ReadsAtMost};
ghost use Rattle.im_listening.specs.Lending.{bytes_heard, HasBytes, HearsByte, not_given, StillHas};

use crate::delivery::Delivery;
use crate::input_bytes::InputBytes;
use crate::patient::read_waiting;
use std::io::{self, Error, Read};
use std::marker::PhantomData;
use std::sync::Wait;

// A reader on its way to the thread and back, and how many of its bytes were given.
#[derive(Drop)]
pub(crate) struct Loan<I: Read + Drop, K: InputBytes> {
    input: I,
    pub(crate) heard: Delivery,
    pub(crate) given: usize,
    whole: PhantomData<K>,
    ghost kept: { StillHas K.whole given heard (I.remaining input) },
}

// A reader of which nothing was given.
pub(crate) fn lend_first<I: Read + Drop, K: InputBytes>(input: I) -> Loan<I, K>
    requires whole { HasBytes K.whole (I.remaining input) }
    ensures { result.given ≡ 0 }
{
    Loan {
        input,
        heard: Delivery::Nothing,
        given: 0,
        whole: PhantomData,
    }
}

// Whether nothing was heard.
fn is_nothing(heard: Delivery) -> bool
    ensures { result ≡ true → heard ≡ Delivery.Nothing }
{
    matches!(heard, Delivery::Nothing)
}

// What a read of one byte lets be heard.
fn heard_of(read: io::Result<usize>, byte: u8) -> Delivery
    ensures { HearsByte read byte result }
{
    match read {
        Ok(0) => Delivery::End,
        Ok(_) => Delivery::Byte(byte),
        Err(error) => Delivery::Error(error.kind()),
    }
}

// Waits for one byte, unless something was heard. It reads no more, so a reader that has given nothing still has all
// that it had.
pub(crate) fn hear<R: Wait, I: Read + Drop, K: InputBytes>(rt: &R, loan: &mut Loan<I, K>)
    ensures { loan.new.given ≡ loan.old.given }
{
    if !is_nothing(loan.heard) {
        return;
    }
    let mut byte = [0u8; 1];
    let read = read_waiting(rt, &mut loan.input, &mut byte);
    loan.heard = heard_of(read, byte[0]);
}

// Returns what a read of `count` bytes leaves to be heard, given the room that it had. It is the end if the read gave
// nothing.
fn heard_by(count: usize, room: usize) -> Delivery
    ensures none { bytes_heard result ≡ [] }
    ensures end { count ≡ 0 → 0 < room → result ≡ Delivery.End }
    ensures only { result ≡ Delivery.End → (count ≡ 0) × (0 < room) }
{
    if count == 0 && room > 0 {
        Delivery::End
    } else {
        Delivery::Nothing
    }
}

// Gives this byte, and what is there after it. After a line feed nothing more is read.
fn put_first<I: Read + Drop, K: InputBytes>(
    byte: u8,
    loan: &mut Loan<I, K>,
    buf: &mut [u8],
) -> io::Result<usize>
    requires heard { loan.old.heard ≡ Delivery.Byte byte }
    requires room { loan.old.given + length buf.old < 2 ^ 64 }
    ensures bound { ReadsAtMost result buf.new }
    ensures some { result ≡ Ok 0 → length buf.old ≡ 0 }
    ensures bytes { ReadConsumes (not_given K.whole loan.old.given) (not_given K.whole loan.new.given) result buf.new }
{
    let Some((first, rest)) = buf.split_first_mut() else {
        return Ok(0);
    };
    *first = byte;
    if byte == b'\n' {
        loan.heard = Delivery::Nothing;
        loan.given += 1;
        return Ok(1);
    }
    match loan.input.read(rest) {
        Ok(more) => {
            loan.heard = heard_by(more, rest.len());
            loan.given += 1 + more;
            Ok(1 + more)
        }
        Err(_) => {
            loan.heard = Delivery::Nothing; // The next read meets the error again.
            loan.given += 1;
            Ok(1)
        }
    }
}

// Reads on, and waits if nothing is there.
fn read_on<R: Wait, I: Read + Drop, K: InputBytes>(
    rt: &R,
    loan: &mut Loan<I, K>,
    buf: &mut [u8],
) -> io::Result<usize>
    requires none { bytes_heard loan.old.heard ≡ [] }
    requires room { loan.old.given + length buf.old < 2 ^ 64 }
    ensures bound { ReadsAtMost result buf.new }
    ensures ended { result ≡ Ok 0 → 0 < length buf.old → loan.new.heard ≡ Delivery.End }
    ensures bytes { ReadConsumes (not_given K.whole loan.old.given) (not_given K.whole loan.new.given) result buf.new }
{
    match read_waiting(rt, &mut loan.input, buf) {
        Ok(count) => {
            loan.heard = heard_by(count, buf.len());
            loan.given += count;
            Ok(count)
        }
        Err(error) => Err(error),
    }
}

// Gives what was heard, or reads on. The end is given again without a read.
pub(crate) fn read_heard<R: Wait, I: Read + Drop, K: InputBytes>(
    rt: &R,
    loan: &mut Loan<I, K>,
    buf: &mut [u8],
) -> io::Result<usize>
    requires room { loan.old.given + length buf.old < 2 ^ 64 }
    ensures bound { ReadsAtMost result buf.new }
    ensures end { loan.old.heard ≡ Delivery.End → (result ≡ Ok 0) × (loan.new ≡ loan.old) }
    ensures ended { result ≡ Ok 0 → 0 < length buf.old → loan.new.heard ≡ Delivery.End }
    ensures bytes { ReadConsumes (not_given K.whole loan.old.given) (not_given K.whole loan.new.given) result buf.new }
{
    if buf.is_empty() {
        return Ok(0);
    }
    match loan.heard {
        Delivery::Nothing => read_on(rt, loan, buf),
        Delivery::Byte(byte) => put_first(byte, loan, buf),
        Delivery::End => Ok(0),
        Delivery::Error(kind) => {
            loan.heard = Delivery::Nothing;
            Err(Error::from(kind))
        }
    }
}
