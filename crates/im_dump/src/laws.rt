//! What dumping and loading come to together.
ghost use Rattle.std.specs.Prelude.{◌≡◌, ℕ, List, [], IfOk, Some};
ghost use Rattle.im_types.specs.Types.{Contents, IsMemory, Sizes, sizes_of};
ghost use Rattle.im_dump.specs.{declared.loading.Loaded.Loaded, Dump.dump_text, Fitting.FitsDump};
ghost use Rattle.im_dump.specs.Dumping.{Dumps, IsDumpOf, IsSame, MeansLoaded};

use crate::faults::DumpFault;
use crate::loading::{Loaded, read_dump};
use crate::writing::add_dump;
use im_memory::Memory;
use im_types::Limits;
use std::alloc::Global;

/// A text is the dump of at most one memory, in images of one size, with one count.
pub fn one_memory_has_a_dump()
    ensures { (s t : Sizes) (c d : ℕ) (m n : Contents) → FitsDump s c m → FitsDump t d n
        → dump_text s c m ≡ dump_text t d n → (s ≡ t) × (c ≡ d) × (m ≡ n) }
{}

/// Loads what was dumped of a memory: its sizes, its count and the memory again. Returns `NoMemory` if `alloc` refused
/// the room for it. That no other fault is returned is tested.
pub fn reload(
    alloc: Global,
    limits: Limits,
    count: u64,
    memory: &Memory,
) -> Result<Loaded, DumpFault>
    requires { IsMemory limits.cells limits.elements memory.now.contents }
    ensures same { IfOk result (IsSame (sizes_of limits) count memory.now.contents) }
{
    let mut dump = String::new(alloc);
    match add_dump(&mut dump, limits, count, memory) {
        Ok(()) => {
            one_memory_has_a_dump();
            read_dump(alloc, dump.as_bytes())
        }
        Err(_) => Err(DumpFault::NoMemory),
    }
}

/// What is loaded of the dump of an image is what the image means: its sizes, its count and its memory.
pub fn what_was_dumped_is_loaded()
    ensures { (file text : List ℕ) (l : Loaded) → Dumps file (Some []) (Some text) → IsDumpOf l text
        → MeansLoaded file l }
{
    one_memory_has_a_dump();
}
