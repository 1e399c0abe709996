// Turns an entry, a kind and a presence tag into codes and numbers, and back.
ghost use Rattle.std.specs.Prelude.{◌≡◌};
ghost use Rattle.im_types.specs.Types.{entry_code, entry_number, kind_code, tag_code, tag_first, tag_last, tag_value};
ghost use Rattle.im_formats.specs.Reading.{entry_of, kind_of, tag_of};

use im_types::{Entry, Kind, NONE, PresenceTag, Reply};

pub(crate) fn entry_code(entry: Entry) -> u8
    ensures { result ≡ entry_code entry }
{
    match entry {
        Entry::Waiting => 0,
        Entry::Answered(Reply::Base(_)) => 1,
        Entry::Answered(Reply::NoSpace) => 2,
        Entry::Answered(Reply::BadLength) => 3,
        Entry::Answered(Reply::Value(_)) => 4,
        Entry::Answered(Reply::Stored) => 5,
        Entry::Answered(Reply::Clash) => 6,
        Entry::Answered(Reply::NoCell) => 7,
        Entry::Answered(Reply::WrongKind) => 8,
        Entry::Answered(Reply::Released) => 9,
        Entry::Answered(Reply::NoBlock) => 10,
        Entry::Answered(Reply::StillWaiting) => 11,
        Entry::Answered(Reply::Cleared) => 12,
    }
}

pub(crate) fn entry_number(entry: Entry) -> u64
    ensures { result ≡ entry_number entry }
{
    match entry {
        Entry::Answered(Reply::Base(a)) => a as u64,
        Entry::Answered(Reply::Value(v)) => v,
        _ => 0,
    }
}

pub(crate) fn entry_of(code: u8, number: u64) -> Option<Entry>
    ensures { result ≡ entry_of code number }
{
    match code {
        0 => Some(Entry::Waiting),
        1 => {
            if number < 0x1_0000_0000 {
                Some(Entry::Answered(Reply::Base(number as u32)))
            } else {
                None
            }
        }
        2 => Some(Entry::Answered(Reply::NoSpace)),
        3 => Some(Entry::Answered(Reply::BadLength)),
        4 => Some(Entry::Answered(Reply::Value(number))),
        5 => Some(Entry::Answered(Reply::Stored)),
        6 => Some(Entry::Answered(Reply::Clash)),
        7 => Some(Entry::Answered(Reply::NoCell)),
        8 => Some(Entry::Answered(Reply::WrongKind)),
        9 => Some(Entry::Answered(Reply::Released)),
        10 => Some(Entry::Answered(Reply::NoBlock)),
        11 => Some(Entry::Answered(Reply::StillWaiting)),
        12 => Some(Entry::Answered(Reply::Cleared)),
        _ => None,
    }
}

pub(crate) fn kind_code(kind: Kind) -> u8
    ensures { result ≡ kind_code kind }
{
    match kind {
        Kind::I => 1,
        Kind::M => 2,
    }
}

pub(crate) fn kind_of(code: u8) -> Option<Kind>
    ensures { result ≡ kind_of code }
{
    match code {
        1 => Some(Kind::I),
        2 => Some(Kind::M),
        _ => None,
    }
}

pub(crate) fn tag_code(tag: PresenceTag) -> u8
    ensures { result ≡ tag_code tag }
{
    match tag {
        PresenceTag::Empty => 1,
        PresenceTag::Waiting { .. } => 2,
        PresenceTag::Full(_) => 3,
        PresenceTag::Clashed(_) => 4,
    }
}

// The first and the last waiter node.
pub(crate) fn tag_ends(tag: PresenceTag) -> (u32, u32)
    ensures { result ≡ (tag_first tag, tag_last tag) }
{
    match tag {
        PresenceTag::Waiting { first, last } => (first, last),
        _ => (NONE, NONE),
    }
}

pub(crate) fn tag_value(tag: PresenceTag) -> u64
    ensures { result ≡ tag_value tag }
{
    match tag {
        PresenceTag::Full(v) | PresenceTag::Clashed(v) => v,
        _ => 0,
    }
}

pub(crate) fn tag_of(code: u8, first: u32, last: u32, value: u64) -> Option<PresenceTag>
    ensures { result ≡ tag_of code first last value }
{
    match code {
        1 => Some(PresenceTag::Empty),
        2 => Some(PresenceTag::Waiting { first, last }),
        3 => Some(PresenceTag::Full(value)),
        4 => Some(PresenceTag::Clashed(value)),
        _ => None,
    }
}
