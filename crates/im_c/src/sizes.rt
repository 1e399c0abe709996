//! The sizes of the image in a caller's bytes, for C.
ghost use Rattle.std.specs.Prelude.{◌≡◌, ◌≢◌, IfOk, IfErr};
ghost use Rattle.im_types.specs.Types.{sizes_of, header_of};
ghost use Rattle.im_c.specs.{Sizes.sizes_told, Telling.IsHeaderFlawOf, Telling.TellsHeaderFlaw};

use crate::plain::LtLimits;
use im_image::{Versions, read_header};
use im_listed::Listed;
use im_types::{Limits, Refusal};
use std::alloc::Global;

// The sizes in the header in force of the image of these bytes.
fn limits_of(alloc: Global, bytes: &[u8]) -> Result<Limits, Refusal>
    ensures found { IfOk result (λ limits. sizes_of limits ≡ (header_of bytes.now).sizes) }
    ensures fault { IfErr result (IsHeaderFlawOf bytes.now) }
{
    let Ok(copy) = bytes.to_vec(alloc) else {
        return Err(Refusal::NoMemory);
    };
    let mut disk = Listed::new(copy);
    match read_header(&mut disk, Versions::Any) {
        Ok(header) => Ok(header.limits),
        Err(refusal) => Err(refusal),
    }
}

/// Reads the sizes of the image in these bytes, of either layout, from its header in force. Returns 0, and the sizes
/// are at `limits`. Else returns the number of the refusal, and nothing is changed: the first fault of its length and
/// its headers, or `NoMemory`. The rest of the image isn't read.
#[unsafe(no_mangle)]
pub extern "C" fn lt_limits(alloc: Global, bytes: &[u8], limits: &mut LtLimits) -> u8
    ensures told { result ≡ 0 → sizes_told limits.new ≡ (header_of bytes.now).sizes }
    ensures fault { result ≢ 0 → TellsHeaderFlaw bytes.now result }
    ensures same { result ≢ 0 → limits.new ≡ limits.old }
{
    match limits_of(alloc, bytes) {
        Ok(found) => {
            *limits = LtLimits {
                cells: found.cells,
                elements: found.elements,
                slots: found.slots,
            };
            0
        }
        Err(refusal) => refusal.number(),
    }
}
