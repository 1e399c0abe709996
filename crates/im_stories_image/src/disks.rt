//! Calls on a disk in memory, and those that there are of a file too.

use crate::blind::{Blind, StoryDisk};
use crate::desk::ImageDesk;
use im_disk::{DeviceFault, Disk, FuseDisk, MemDisk, open_gate, write_behind_gate};
use im_story::{Phrase, Saying, bytes, crash, hex, mode};
use im_types::layout::OPEN;

// The fewest equal bytes that are told as one.
const RUN: usize = 8;

/// Adds `ok`, or that the call failed.
pub fn add_passed(said: &mut Saying, answer: Result<(), DeviceFault>) {
    said.either(answer.is_ok(), "ok", "fault")
}

fn make(here: &mut ImageDesk, call: &Phrase, said: &mut Saying) {
    said.result(MemDisk::new(call.alloc(), call.place(0)), |disk, said| {
        here.disk = Some(StoryDisk::steady(disk));
        said.text("blank")
    })
}

// Lets a call fail: a sync, or a write, which may leave a byte all over its range.
fn fail(disk: &mut MemDisk, call: &Phrase, said: &mut Saying) {
    let (size, at, count) = (disk.bytes().len(), call.place(0), call.place(1));
    if call.word(1) == "sync" {
        disk.fail_call();
    } else if at <= size && count <= size - at {
        disk.fail_write(at, count, hex(call.word(4)));
    } else {
        return said.fail("that is past the end");
    }
    said.text("so")
}

// Sets a fuse, lets a call fail or the disk crash, or tells all bytes. There is no other fuse from then on.
fn touched(mut disk: MemDisk, call: &Phrase, said: &mut Saying) -> StoryDisk {
    match (call.word(0), crash(call.word(1)), mode(call.word(2))) {
        ("fuse", _, Some(mode)) => {
            said.text("so");
            return Blind::over(FuseDisk::new(disk, call.number(0), mode));
        }
        ("crash", Some(crash), _) => {
            said.text("so");
            return StoryDisk::steady(disk.crash(crash));
        }
        ("bytes", _, _) => said.bytes(disk.bytes(), RUN),
        ("fail", _, _) => fail(&mut disk, call, said),
        _ => said.fail("that is no fuse, or no crash"),
    }
    StoryDisk::steady(disk)
}

// Tells what is read there, or that the call failed.
fn read<D: Disk>(disk: &mut Blind<D>, call: &Phrase, said: &mut Saying) {
    let Ok(mut bytes) = vec![in call.alloc(); 0; call.place(1)] else {
        return said.fail("no memory is left");
    };
    match disk.read(call.place(0), &mut bytes) {
        Ok(()) => said.bytes(&bytes, RUN),
        Err(_) => said.text("fault"),
    }
}

// Writes the bytes that the words behind the place name, or writes them behind the first of them, which is their gate.
fn write<D: Disk>(disk: &mut Blind<D>, call: &Phrase, said: &mut Saying) {
    let (at, Some(bytes)) = (call.place(0), bytes(call.alloc(), call.rest(2))) else {
        return said.fail("no bytes");
    };
    if call.word(0) == "write" {
        return add_passed(said, disk.write_at(at, &bytes));
    }
    if at == usize::MAX || bytes.is_empty() || bytes[0] != OPEN {
        return said.fail("that gate isn't open");
    }
    add_passed(said, write_behind_gate(disk, at, &bytes))
}

// Makes a write of 1 at 0, a read, a sync, a write of 2 at 1, a read and a sync. Tells a letter for each.
fn six_calls<D: Disk>(disk: &mut Blind<D>, said: &mut Saying) {
    let mut buf = [0];
    for (at, byte) in [(0, 1), (1, 2)] {
        said.either(disk.write_at(at, &[byte]).is_ok(), ".", "x");
        said.either(disk.read(at, &mut buf).is_ok(), ".", "x");
        said.either(disk.sync().is_ok(), ".", "x");
    }
}

/// Makes a call that there is of each disk. Returns whether it is one.
pub fn tell_of<D: Disk>(disk: &mut Blind<D>, call: &Phrase, said: &mut Saying) -> bool {
    match (call.word(0), call.form()) {
        (_, "read _ _") => read(disk, call, said),
        (_, "sync") => add_passed(said, disk.sync()),
        (_, "gate _") => add_passed(said, open_gate(disk, call.place(0))),
        (_, "six calls") => six_calls(disk, said),
        (_, "length") => match disk.len() {
            Ok(length) => said.number(length),
            Err(_) => said.text("fault"),
        },
        ("write" | "gate", _) => write(disk, call, said),
        _ => return false,
    }
    true
}

/// Makes a call on the disk in memory. Returns whether it is one.
pub fn tell(here: &mut ImageDesk, call: &Phrase, said: &mut Saying) -> bool {
    match (call.word(0), call.form(), &mut here.disk) {
        ("disk", _, _) => make(here, call, said),
        ("bytes" | "fuse" | "fail" | "crash", _, Some(_)) => {
            here.disk = here.take().map(|disk| touched(disk, call, said));
        }
        (_, "calls", Some(disk)) => said.number(disk.inner().calls()),
        (_, _, Some(disk)) => return tell_of(disk, call, said),
        _ => return false,
    }
    true
}
