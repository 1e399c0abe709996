//! The record of a disk in memory: each call, with what undoes it.
ghost use Rattle.std.specs.Prelude.{◌≡◌, ◌+◌, ◌-◌, ◌^◌, ◌≤◌, min, [], ◌∷◌, ◌++◌, reverse, length, replicate, OnOk};
ghost use Rattle.std.specs.Prelude.{OnErr};
ghost use Rattle.im_disk.specs.Moment.{overlaid, Rises};
ghost use Rattle.im_disk.specs.Record.{filled, left_by, LieWithin, ranges_of, settled_of};

use crate::{Crash, DeviceFault};
use std::alloc::AllocError;

#[derive(Drop)]
pub(crate) enum DeviceCall {
    /// A read, or a failed call that changed nothing.
    Other,
    /// A write at this offset. These are the bytes that it replaced.
    Wrote(usize, Vec<u8>),
    /// A successful sync.
    Synced,
}

/// Counts a failure.
pub(crate) fn fault(failures: &mut u64) -> DeviceFault
    ensures count { failures.new ≡ min (failures.old + 1) (2 ^ 64 - 1) }
    ensures rises { Rises failures.old failures.new × (failures.old ≤ failures.new) }
{
    *failures = failures.saturating_add(1);
    DeviceFault
}

/// Adds the call to the record, if it can grow.
pub(crate) fn add(calls: &mut Vec<DeviceCall>, call: DeviceCall) -> Result<(), AllocError>
    ensures ok { OnOk result (calls.new.items ≡ calls.old.items ++ call ∷ []) }
    ensures err { OnErr result (calls.new.items ≡ calls.old.items) }
{
    calls.push(call)?;
    Ok(())
}

/// Adds the call to the record, or counts a failure.
pub(crate) fn note(
    calls: &mut Vec<DeviceCall>,
    failures: &mut u64,
    call: DeviceCall,
) -> Result<(), DeviceFault>
    ensures ok { OnOk result (calls.new.items ≡ calls.old.items ++ call ∷ []) }
    ensures ok_count { OnOk result (failures.new ≡ failures.old) }
    ensures err { OnErr result (calls.new.items ≡ calls.old.items) }
    ensures err_count { OnErr result (failures.new ≡ min (failures.old + 1) (2 ^ 64 - 1)) }
{
    match add(calls, call) {
        Ok(()) => Ok(()),
        Err(_) => Err(fault(failures)),
    }
}

/// Puts `part` at this offset.
pub(crate) fn put(bytes: &mut Vec<u8>, at: usize, part: &[u8])
    requires { at + length part.now ≤ length bytes.old.items }
    ensures { bytes.new.items ≡ overlaid bytes.old.items at part.now }
{
    bytes[at..at + part.len()].copy_from_slice(part);
}

/// Fills the range with the byte.
pub(crate) fn fill(bytes: &mut Vec<u8>, at: usize, len: usize, byte: u8)
    requires { at + len ≤ length bytes.old.items }
    ensures { bytes.new.items ≡ overlaid bytes.old.items at (replicate len byte) }
{
    bytes[at..at + len].fill(byte);
}

/// Undoes the writes since the last sync, the newest first.
fn undo(bytes: &mut Vec<u8>, calls: &[DeviceCall])
    requires { LieWithin (length bytes.old.items) (ranges_of (reverse calls.now)) }
    ensures { bytes.new.items ≡ settled_of bytes.old.items (reverse calls.now) }
{
    let mut rest = calls;
    while let Some((call, earlier)) = rest.split_last() {
        match call {
            DeviceCall::Other => {}
            DeviceCall::Wrote(at, old) => put(bytes, *at, old),
            DeviceCall::Synced => return,
        }
        rest = earlier;
    }
}

/// Fills each range written since the last sync with the byte.
fn fill_all(bytes: &mut Vec<u8>, calls: &[DeviceCall], byte: u8)
    requires { LieWithin (length bytes.old.items) (ranges_of (reverse calls.now)) }
    ensures { bytes.new.items ≡ filled byte bytes.old.items (ranges_of (reverse calls.now)) }
{
    let mut rest = calls;
    while let Some((call, earlier)) = rest.split_last() {
        match call {
            DeviceCall::Other => {}
            DeviceCall::Wrote(at, old) => fill(bytes, *at, old.len(), byte),
            DeviceCall::Synced => return,
        }
        rest = earlier;
    }
}

/// Turns the bytes into what a crash of this kind leaves.
pub(crate) fn leave(bytes: &mut Vec<u8>, calls: &[DeviceCall], crash: Crash)
    requires { LieWithin (length bytes.old.items) (ranges_of (reverse calls.now)) }
    ensures { bytes.new.items ≡ left_by crash bytes.old.items (reverse calls.now) }
{
    match crash {
        Crash::Kept => {}
        Crash::Lost => undo(bytes, calls),
        Crash::Byte(byte) => fill_all(bytes, calls, byte),
    }
}
