//! The words of a call: commands, bytes, how disks fail, and what a crash leaves of them.

use im_disk::{Crash, Mode};
use im_types::{Command, Entry, Kind, Op, Reply, Request};
use std::alloc::Global;

/// An operation: `alloc i N`, `alloc m N`, `release A`, `reset A`, `fetch A`, `store A V`, `take A` or `put A V`.
pub fn op(words: &[&str]) -> Option<Op> {
    match *words {
        ["alloc", "i", length] => Some(Op::Alloc(Kind::I, length.parse::<u32>().ok()?)),
        ["alloc", "m", length] => Some(Op::Alloc(Kind::M, length.parse::<u32>().ok()?)),
        ["release", a] => Some(Op::Release(a.parse::<u32>().ok()?)),
        ["reset", a] => Some(Op::Reset(a.parse::<u32>().ok()?)),
        ["fetch", a] => Some(Op::Fetch(a.parse::<u32>().ok()?)),
        ["take", a] => Some(Op::Take(a.parse::<u32>().ok()?)),
        ["store", a, v] => Some(Op::Store(a.parse::<u32>().ok()?, v.parse::<u64>().ok()?)),
        ["put", a, v] => Some(Op::Put(a.parse::<u32>().ok()?, v.parse::<u64>().ok()?)),
        _ => None,
    }
}

/// Returns an element's request of this number.
pub fn asked(element: u16, number: u64, op: Op) -> Request {
    Request {
        element,
        number,
        op,
    }
}

/// A request: `ELEMENT.NUMBER`, and an operation.
pub fn request(words: &[&str]) -> Option<Request> {
    let (who, what) = words.split_first()?;
    let (element, number) = who.split_once('.')?;
    Some(asked(
        element.parse::<u16>().ok()?,
        number.parse::<u64>().ok()?,
        op(what)?,
    ))
}

/// A command: a request, or `confirm ELEMENT UPTO`.
pub fn command(words: &[&str]) -> Option<Command> {
    match *words {
        ["confirm", element, upto] => {
            let (element, upto) = (element.parse::<u16>().ok()?, upto.parse::<u64>().ok()?);
            Some(Command::Confirm { element, upto })
        }
        _ => Some(Command::Request(request(words)?)),
    }
}

// The reply of this word, if it has no number.
fn reply(word: &str) -> Option<Reply> {
    match word {
        "stored" => Some(Reply::Stored),
        "clash" => Some(Reply::Clash),
        "nocell" => Some(Reply::NoCell),
        "wrongkind" => Some(Reply::WrongKind),
        "nospace" => Some(Reply::NoSpace),
        "badlength" => Some(Reply::BadLength),
        "released" => Some(Reply::Released),
        "noblock" => Some(Reply::NoBlock),
        "stillwaiting" => Some(Reply::StillWaiting),
        "cleared" => Some(Reply::Cleared),
        _ => None,
    }
}

/// What is kept for a request: `waiting`, or a reply, such as `base A`, `value V` or `stored`.
pub fn entry(words: &[&str]) -> Option<Entry> {
    match *words {
        ["waiting"] => Some(Entry::Waiting),
        ["base", base] => Some(Entry::Answered(Reply::Base(base.parse::<u32>().ok()?))),
        ["value", value] => Some(Entry::Answered(Reply::Value(value.parse::<u64>().ok()?))),
        [word] => Some(Entry::Answered(reply(word)?)),
        _ => None,
    }
}

/// A byte: two hexadecimal digits.
pub fn hex(word: &str) -> Option<u8> {
    u8::from_str_radix(word, 16).ok()
}

/// Bytes, each a word, or some equal ones: `0a*3`.
pub fn bytes(alloc: Global, words: &[&str]) -> Option<Vec<u8>> {
    let mut bytes = Vec::new(alloc);
    for word in words {
        let (byte, count) = word.split_once('*').unwrap_or((*word, "1"));
        let length = bytes
            .len()
            .saturating_add(count.parse::<usize>().unwrap_or(0));
        bytes.resize(length, hex(byte)?).ok()?;
    }
    Some(bytes)
}

/// A place and its byte: `PLACE:BYTE`.
pub fn change(word: &str) -> Option<(usize, u8)> {
    let (at, byte) = word.split_once(':')?;
    Some((at.parse::<usize>().ok()?, hex(byte)?))
}

/// Places and their bytes.
pub fn changes(alloc: Global, words: &[&str]) -> Option<Vec<(usize, u8)>> {
    let mut changes = Vec::new(alloc);
    for word in words {
        changes.push(change(word)?).ok()?;
    }
    Some(changes)
}

/// How a disk fails: `stop` for good, `once`, or once with a scar. A scar, `scar:BYTE`, is a byte all over what was to
/// be written.
pub fn mode(word: &str) -> Option<Mode> {
    match word {
        "stop" => Some(Mode::Stop),
        "once" => Some(Mode::Once),
        _ => Some(Mode::Scar(hex(word.strip_prefix("scar:")?)?)),
    }
}

/// What a crash leaves of what wasn't synced: `kept`, `lost`, or a byte all over it.
pub fn crash(word: &str) -> Option<Crash> {
    match word {
        "kept" => Some(Crash::Kept),
        "lost" => Some(Crash::Lost),
        _ => Some(Crash::Byte(hex(word)?)),
    }
}
