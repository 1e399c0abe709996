//! Dumps the image on a disk.
ghost use Rattle.std.specs.{Prelude.OnOk, Io.KnownBytes.Appends};
ghost use Rattle.{im_types.specs.Types.sizes_of, im_disk.specs.Runs.ReadsAlone, im_image.specs.Reading.AreParts};
ghost use Rattle.im_dump.specs.{Dump.dump_text, Dumping.WasDumped, Fitting.FitsDump};

use crate::writing::add_dump;
use im_disk::Disk;
use im_image::{ImageParts, Versions, read_image};
use im_text::{Reason, diagnose, put_through};
use std::alloc::Global;
use std::io::Write;

/// Writes the dump of an image that was read.
pub(crate) fn write_dump<W: Write>(
    alloc: Global,
    image: &ImageParts,
    out: &mut W,
) -> Result<(), Reason>
    requires { AreParts image.now }
    ensures text { OnOk result (Appends (W.contents out.old) (W.contents out.new)
        (dump_text (sizes_of image.now.header.limits) image.now.journal.count image.now.memory.contents)) }
    ensures fits { OnOk result (FitsDump (sizes_of image.now.header.limits) image.now.journal.count
        image.now.memory.contents) }
{
    let mut text = String::new(alloc);
    let _cells = image.memory.cells();
    let count = image.journal.count();
    match add_dump(&mut text, image.header.limits, count, &image.memory) {
        Ok(()) => put_through(out, text.as_str()),
        Err(_) => Err(Reason::Memory),
    }
}

/// Writes the dump of what the image on a disk means. It only reads the bytes as they are now, by the rules of the
/// image's version.
///
/// The reason of a refusal is the image's first fault, as [`read_image`] returns it, or a failed write, after which a
/// part of the dump may be written. It is `Memory` if `alloc` refused the room for the dump, and then none of it is.
pub fn dump<D: Disk, W: Write>(alloc: Global, disk: &mut D, out: &mut W) -> Result<(), Reason>
    ensures told { OnOk result (WasDumped (D.honest disk.new) (D.now disk.old).bytes
        (W.contents out.old) (W.contents out.new)) }
    ensures reads { ReadsAlone D.Disk disk.old disk.new }
{
    match read_image(alloc, disk, Versions::Any) {
        Ok(image) => write_dump(alloc, &image, out),
        Err(refusal) => Err(diagnose(alloc, disk, refusal)),
    }
}
