// Reads a part of a disk.
ghost use Rattle.std.specs.Prelude.{◌≡◌, ◌+◌, ◌≤◌, ◌⊎◌, length, take, drop, IfOk, IfErr, OnOk, IsErrOf};
ghost use Rattle.im_disk.specs.{Runs.ReadsOrRefuses, Since.Calls};

use im_disk::Disk;
use im_types::Refusal;
use std::alloc::Global;

/// Reads `len` bytes of the disk from `at` on with one call. Returns `NoMemory` or `Device` on failure.
pub(crate) fn read_bytes<D: Disk>(
    alloc: Global,
    disk: &mut D,
    at: usize,
    len: usize,
) -> Result<Vec<u8>, Refusal>
    requires inside { D.honest disk.old → at + len ≤ length (D.now disk.old).bytes }
    ensures bytes { IfOk result (λ v. D.honest disk.new → v.items ≡ take len (drop at (D.now disk.old).bytes)) }
    ensures size { IfOk result (λ v. length v.items ≡ len) }
    ensures reads { ReadsOrRefuses D.Disk disk.old disk.new result
        (λ e. (e ≡ Refusal.NoMemory) ⊎ (e ≡ Refusal.Device)) }
    ensures calls { OnOk result (D.honest disk.new → Calls D.past disk.old disk.new 1) }
{
    let Ok(mut bytes) = vec![in alloc; 0; len] else {
        return Err(Refusal::NoMemory);
    };
    // A stop leaves what was there: nothing is written.
    if let Err(_) = disk.read(at, &mut bytes) {
        return Err(Refusal::Device);
    }
    Ok(bytes)
}
