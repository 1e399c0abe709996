// Bytes at a place.
ghost use Rattle.std.specs.Prelude.{◌≡◌, ◌+◌, ◌≤◌, length};
ghost use Rattle.im_records.specs.Placed.{placed};

/// Replaces the bytes at this place with `part`.
pub(crate) fn put(bytes: &mut [u8], at: usize, part: &[u8])
    requires { at + length part.now ≤ length bytes.old }
    ensures { bytes.new ≡ placed at part.now bytes.old }
{
    bytes[at..at + part.len()].copy_from_slice(part);
}
