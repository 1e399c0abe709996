//! What is done if no work is named.
ghost use Rattle.std.specs.Prelude.{◌≡◌, ◌≤◌, IfOk};

use crate::formatting::limits_of;
use crate::work::refuse;
use im_damage::Damage;
use im_disk::MemDisk;
use im_engine::Engine;
use im_image::image_length;
use im_script::read_script;
use im_serial::{StyledScript, serial_on};
use im_text::{News, Reason, Style};
use im_types::{Observer, Refusal};
use im_words::{DEFAULT_CELLS, DEFAULT_ELEMENTS, DEFAULT_SLOTS};
use std::alloc::Global;
use std::io::Write;

// The script that is served then.
const DEMONSTRATION: &str = "setup
alloc x i 2
element 1
fetch x+0
element 2
store x+0 42
";

// Returns the refusal of an image that was made or opened, and tells the observer why.
fn told<N: Observer<News>>(refusal: Refusal, observer: &mut N) -> Refusal
    ensures { result ≡ refusal }
{
    observer.tell(News::Refused(Reason::Image(refusal, Damage::Unknown))); // No image that can be read.
    refusal
}

// Makes an image of the default limits in memory.
fn usual_image(alloc: Global) -> Result<MemDisk, Refusal> {
    let limits = limits_of(DEFAULT_CELLS, DEFAULT_ELEMENTS, DEFAULT_SLOTS)?;
    let Ok(disk) = MemDisk::new(alloc, image_length(limits)) else {
        return Err(Refusal::NoMemory);
    };
    match Engine::format(alloc, disk, limits) {
        Ok(engine) => Ok(engine.close()),
        Err((refusal, _)) => Err(refusal),
    }
}

// Serves the script on an image in memory.
fn serve_in_memory<W: Write, N: Observer<News>>(
    alloc: Global,
    out: &mut W,
    observer: &mut N,
) -> Result<u8, Refusal>
    ensures status { IfOk result (λ status. status ≤ 1) }
{
    let script = match read_script(alloc, DEMONSTRATION.as_bytes()) {
        Ok(script) => script,
        Err(fault) => return Err(fault.refusal()),
    };
    let disk = match usual_image(alloc) {
        Ok(disk) => disk,
        Err(refusal) => return Err(told(refusal, observer)),
    };
    let styled = StyledScript {
        script: &script,
        style: Style::Text,
    };
    let (status, _disk, _faulted) = serial_on(alloc, disk, &styled, out, observer);
    Ok(status)
}

/// Serves a short script on an image in memory. Returns the status: 0, or 1 if something was refused or a write of the
/// output failed.
pub fn demonstrate<W: Write, N: Observer<News>>(alloc: Global, out: &mut W, observer: &mut N) -> u8
    ensures status { result ≤ 1 }
{
    match serve_in_memory(alloc, out, observer) {
        Ok(status) => status,
        Err(refusal) => refuse(alloc, Style::Text, refusal, out),
    }
}
