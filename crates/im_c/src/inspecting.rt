//! The report of the image in a caller's bytes, for C.
ghost use Rattle.std.specs.Prelude.{◌≡◌, ◌≢◌, [], IfOk, IfErr, Some};
ghost use Rattle.im_report.specs.Inspecting.{Tells};
ghost use Rattle.im_c.specs.Telling.{IsFlawOf, IsReported, PutsText, TellsFlaw};

use im_image::inspect;
use im_listed::Listed;
use im_report::inspect_on;
use im_types::{Refusal, Unobserved};
use std::alloc::Global;

// Why there is no report: the first fault of the bytes, or want of memory for it.
fn fault_of(alloc: Global, disk: &mut Listed) -> Refusal
    ensures { IsFlawOf disk.old.now.bytes result }
{
    match inspect(alloc, disk) {
        Ok(_) => Refusal::NoMemory,
        Err(refusal) => refusal,
    }
}

// The report of the image of these bytes.
fn report_of(alloc: Global, bytes: &[u8]) -> Result<Vec<u8>, Refusal>
    ensures told { IfOk result (λ text. Tells bytes.now (Some []) (Some text.items)) }
    ensures fault { IfErr result (λ e. IsFlawOf bytes.now e) }
{
    let Ok(copy) = bytes.to_vec(alloc) else {
        return Err(Refusal::NoMemory);
    };
    let mut text = Vec::new(alloc);
    let (status, mut disk) = inspect_on(alloc, Listed::new(copy), &mut text, &mut Unobserved);
    if status == 0 {
        return Ok(text);
    }
    Err(fault_of(alloc, &mut disk))
}

/// Copies a text to the start of a buffer, if it fits.
pub(crate) fn put_text(text: &[u8], buffer: &mut [u8])
    ensures { PutsText text.now buffer.old buffer.new }
{
    if text.len() > buffer.len() {
        return;
    }
    buffer[..text.len()].copy_from_slice(text);
}

/// Writes what the image in these bytes means, as `imem inspect` prints it. Returns 0. The text's length is at
/// `written`; the text is at the start of `buffer` if it fits, and the rest of `buffer` is as it was. An image of the
/// first layout is reported by its own rules. Else returns the number of the refusal, and nothing is changed: the first
/// fault of the bytes, or `NoMemory`.
#[unsafe(no_mangle)]
pub extern "C" fn lt_inspect(
    alloc: Global,
    bytes: &[u8],
    buffer: &mut [u8],
    written: &mut usize,
) -> u8
    ensures told { result ≡ 0 → IsReported bytes.now written.new buffer.old buffer.new }
    ensures fault { result ≢ 0 → TellsFlaw bytes.now result }
    ensures same { result ≢ 0 → (buffer.new ≡ buffer.old) × (written.new ≡ written.old) }
{
    match report_of(alloc, bytes) {
        Ok(text) => {
            *written = text.len();
            put_text(&text, buffer);
            0
        }
        Err(refusal) => refusal.number(),
    }
}
