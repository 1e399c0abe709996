//! The contract of a disk.
ghost use Rattle.std.specs.Prelude.{◌≡◌, ℕ, ◌+◌, ◌≤◌, List, ◌∷◌, length, take, drop, IfOk, OnOk, OnErr};
ghost use Rattle.im_disk.specs.Moment.{Counts, MayTick, Moment, Shaken, synced, Ticks, Torn, written};

use im_types::Refusal;

/// A call of the disk failed.
#[derive(Clone, Copy, Debug, PartialEq, Eq)]
pub struct DeviceFault;

impl From<DeviceFault> for Refusal {
    ghost use Rattle.im_types.specs.Types.{Device};

    ghost from_gives = { λ _ refusal. refusal ≡ Device };

    fn from(_: DeviceFault) -> Self {
        Refusal::Device
    }
}

/// One file of fixed length.
///
/// The clauses say what the bytes are, what a crash may leave, and when a call failed. All of them, except the count of
/// failures, need a disk that is honest at the end of the call. A disk that is honest then was honest at the start too.
/// So a run of calls that ends on an honest disk can be read from its end back to its first call.
pub trait Disk {
    /// The bytes, and the ranges written since the last sync that succeeded.
    ghost now: { Self → Moment };

    /// The moments before this one, newest first. Their number is the clock. It ticks once for each call of `read`,
    /// `write_at` and `sync`.
    ghost past: { Self → List Moment };

    /// How often a call has failed. The count stops at the top of a `u64`.
    ghost failures: { Self → ℕ };

    /// All calls so far have kept this contract. No contract can promise this of a real file.
    ghost honest: { Self → Type 0 };

    /// Returns the length of the file in bytes. It never changes.
    fn len(&mut self) -> Result<usize, DeviceFault>
        ensures len { IfOk result (λ n. honest self.new → n ≡ length (now self.old).bytes) }
        ensures same { honest self.new → (now self.new ≡ now self.old) × (past self.new ≡ past self.old) }
        ensures honest { honest self.new → honest self.old }
        ensures failures { Counts result (failures self.old) (failures self.new) };

    /// Fills the whole buffer with the bytes from `at` on. The range lies inside the file. After a fault the buffer may
    /// hold anything.
    fn read(&mut self, at: usize, buf: &mut [u8]) -> Result<(), DeviceFault>
        requires { honest self.old → at + length buf.old ≤ length (now self.old).bytes }
        ensures read { OnOk result (honest self.new → buf.new ≡ take (length buf.old) (drop at (now self.old).bytes)) }
        ensures tick { OnOk result (honest self.new → Ticks (λ m n. n ≡ m)
            (now self.old) (now self.new) (past self.old) (past self.new)) }
        ensures moment { honest self.new → MayTick (λ m n. n ≡ m)
            (now self.old) (now self.new) (past self.old) (past self.new) }
        ensures honest { honest self.new → honest self.old }
        ensures failures { Counts result (failures self.old) (failures self.new) };

    /// Writes the bytes at `at`. The range lies inside the file. After a fault the range may hold any bytes.
    fn write_at(&mut self, at: usize, bytes: &[u8]) -> Result<(), DeviceFault>
        requires { honest self.old → at + length bytes.now ≤ length (now self.old).bytes }
        ensures tick { OnOk result (honest self.new → Ticks (λ m n. n ≡ written at bytes.now m)
            (now self.old) (now self.new) (past self.old) (past self.new)) }
        ensures moment { honest self.new → MayTick (Torn at (length bytes.now))
            (now self.old) (now self.new) (past self.old) (past self.new) }
        ensures honest { honest self.new → honest self.old }
        ensures failures { Counts result (failures self.old) (failures self.new) };

    /// Puts all bytes on the disk. After a fault, the ranges written since the last successful sync may hold any bytes.
    /// They still count as written.
    fn sync(&mut self) -> Result<(), DeviceFault>
        ensures tick { OnOk result (honest self.new → Ticks (λ m n. n ≡ synced m)
            (now self.old) (now self.new) (past self.old) (past self.new)) }
        ensures moment { honest self.new → MayTick Shaken
            (now self.old) (now self.new) (past self.old) (past self.new) }
        ensures ranges { OnErr result (honest self.new → (now self.new).ranges ≡ (now self.old).ranges) }
        ensures honest { honest self.new → honest self.old }
        ensures failures { Counts result (failures self.old) (failures self.new) };
}
