//! The parts of objects of JSON: the words of operations and entries, and numbers under words.
ghost use Rattle.std.specs.Prelude.{◌≡◌, ◌++◌, OnOk, string_bytes};
ghost use Rattle.im_text.specs.Objects.{address_member, element_start, number_member, number_of_entry, number_of_reply};
ghost use Rattle.im_text.specs.Objects.{object_start, op_members, op_word, word_of_entry, word_of_reply};
ghost use Rattle.im_text.specs.Objects.{written_members};

use crate::replies::kind_text;
use im_types::{Entry, Op, Reply};
use std::alloc::AllocError;

// The word of a reply.
fn word_of_reply(reply: Reply) -> &'static str
    ensures { result.now ≡ word_of_reply reply }
{
    match reply {
        Reply::Base(_) => "base",
        Reply::NoSpace => "nospace",
        Reply::BadLength => "badlength",
        Reply::Value(_) => "value",
        Reply::Stored => "stored",
        Reply::Clash => "clash",
        Reply::NoCell => "nocell",
        Reply::WrongKind => "wrongkind",
        Reply::Released => "released",
        Reply::NoBlock => "noblock",
        Reply::StillWaiting => "stillwaiting",
        Reply::Cleared => "cleared",
    }
}

// The number of a reply, if it has one.
fn number_of_reply(reply: Reply) -> Option<u64>
    ensures { result ≡ number_of_reply reply }
{
    match reply {
        Reply::Base(base) => Some(u64::from(base)),
        Reply::Value(value) => Some(value),
        Reply::NoSpace | Reply::BadLength | Reply::Stored | Reply::Clash => None,
        Reply::NoCell | Reply::WrongKind | Reply::Released => None,
        Reply::NoBlock | Reply::StillWaiting | Reply::Cleared => None,
    }
}

/// The word of an entry, and its number if it has one.
pub fn entry_parts(entry: Entry) -> (&'static str, Option<u64>)
    ensures word { result.0.now ≡ word_of_entry entry }
    ensures number { result.1 ≡ number_of_entry entry }
{
    match entry {
        Entry::Waiting => ("waiting", None),
        Entry::Answered(reply) => (word_of_reply(reply), number_of_reply(reply)),
    }
}

/// Adds the number of what was answered under its word, if it has one.
pub fn add_number(out: &mut String, word: &str, number: Option<u64>) -> Result<(), AllocError>
    ensures { OnOk result (string_bytes out.new ≡ string_bytes out.old ++ number_member word.now number) }
{
    match number {
        Some(number) => write!(out, ",\"{word}\":\"{number}\""),
        None => Ok(()),
    }
}

// Adds an element, with which an object begins.
fn add_element_start(out: &mut String, element: u16) -> Result<(), AllocError>
    ensures { OnOk result (string_bytes out.new ≡ string_bytes out.old ++ element_start element) }
{
    write!(out, "{{\"element\":{element}")
}

/// Adds an element and a number, with which an object begins.
pub fn add_object_start(out: &mut String, element: u16, number: u64) -> Result<(), AllocError>
    ensures { OnOk result (string_bytes out.new ≡ string_bytes out.old ++ object_start element number) }
{
    add_element_start(out, element)?;
    add_number(out, "number", Some(number))
}

/// The word of an operation.
pub fn op_word(op: Op) -> &'static str
    ensures { result.now ≡ op_word op }
{
    match op {
        Op::Alloc(_, _) => "alloc",
        Op::Release(_) => "release",
        Op::Reset(_) => "reset",
        Op::Fetch(_) => "fetch",
        Op::Store(_, _) => "store",
        Op::Take(_) => "take",
        Op::Put(_, _) => "put",
    }
}

// Adds an address that an operation asks for.
fn add_address(out: &mut String, a: u32) -> Result<(), AllocError>
    ensures { OnOk result (string_bytes out.new ≡ string_bytes out.old ++ address_member a) }
{
    write!(out, ",\"address\":{a}")
}

// Adds an address that an operation asks for, and the value that is written there.
fn add_written(out: &mut String, a: u32, value: u64) -> Result<(), AllocError>
    ensures { OnOk result (string_bytes out.new ≡ string_bytes out.old ++ written_members a value) }
{
    add_address(out, a)?;
    add_number(out, "value", Some(value))
}

/// Adds what an operation asks for.
pub fn add_op_members(out: &mut String, op: Op) -> Result<(), AllocError>
    ensures { OnOk result (string_bytes out.new ≡ string_bytes out.old ++ op_members op) }
{
    match op {
        Op::Alloc(kind, length) => {
            let kind = kind_text(kind);
            write!(out, ",\"kind\":\"{kind}\",\"length\":{length}")
        }
        Op::Release(a) | Op::Reset(a) | Op::Fetch(a) | Op::Take(a) => add_address(out, a),
        Op::Store(a, value) | Op::Put(a, value) => add_written(out, a, value),
    }
}
