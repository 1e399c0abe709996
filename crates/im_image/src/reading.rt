//! Reads what an image means: the memory of the area in force, after the run of commands in the journal.
ghost use Rattle.std.specs.Prelude.{◌≡◌, ◌+◌, ◌≤◌, false, ◌⊎◌, IfOk, IfErr, IsTrue, Some, None, Ok, Err};
ghost use Rattle.std.specs.List.{list_all};
ghost use Rattle.im_types.specs.Types.{Device, NoMemory, LAST, is_accepted, layout_1, layout_of, layout_named};
ghost use Rattle.im_types.specs.Types.{header_of, layout_in, has_room_for, can_stand, accept_in, Reads};
ghost use Rattle.{im_disk.specs.Runs.ReadsOrRefuses, im_journal.specs.Holding.Holds};
ghost use Rattle.im_image.specs.Headers.{layout_read, MayRefuse, MayRefuseImage, seen};
ghost use Rattle.im_image.specs.Reading.{AreParts, AreUnder, HasArea, HasHeader, IsImageOf, JournalOf, reached};
ghost use Rattle.im_image.specs.Reading.{ReadsBy};

use crate::header::Header;
use crate::in_force::read_header;
use crate::open_area::read_memory;
use crate::pages::window_at;
use crate::versions::Versions;
use im_disk::Disk;
use im_journal::Journal;
use im_memory::Memory;
use im_records::has_room_for;
use im_types::layout::Version;
use im_types::{Command, Refusal};
use std::alloc::Global;

/// What is read of an image: the header in force, the journal, and the memory after the journal's run.
#[derive(Drop)]
pub struct ImageParts {
    /// The header in force.
    pub header: Header,
    /// The journal. The header's count is the number of its first command.
    pub journal: Journal,
    /// The memory after the journal's run.
    pub memory: Memory,
}

/// What an inspector reports of an image.
#[derive(Drop)]
pub struct Report {
    /// The header in force.
    pub header: Header,
    /// The number of commands in the journal's run.
    pub run: u64,
    /// The room for more commands.
    pub room: u32,
    /// The memory after the journal's run.
    pub memory: Memory,
}

// Returns whether a memory would accept a command.
fn accepts(memory: &Memory, command: &Command) -> bool
    ensures { result ≡ is_accepted memory.now.contents command.now }
{
    match memory.judge(command) {
        Ok(accepted) => accepted,
        Err(_) => false,
    }
}

// Returns whether the first version has room for each window of a memory and knows its entries.
fn all_have_room(memory: &Memory) -> bool
    ensures { result ≡ list_all (has_room_for layout_1) memory.now.contents.windows }
{
    let records = memory.records();
    for element in 0..memory.elements() {
        if !has_room_for(Version::One, &window_at(&records, element)) {
            return false;
        }
    }
    true
}

// Returns whether a memory can stand in an image of a version.
fn can_stand(version: Version, memory: &Memory) -> bool
    ensures { result ≡ can_stand (layout_of version) memory.now.contents }
{
    match version {
        Version::One => all_have_room(memory),
        Version::Two => true,
    }
}

/// Serves commands one after another. It continues as long as the memory accepts each command in its turn and the next
/// memory can stand in an image of the version. Returns whether all were served. If so, the memory is the one after all
/// of them.
pub fn replay(version: Version, memory: &mut Memory, commands: &[Command]) -> bool
    ensures yes { IsTrue result
        → accept_in (layout_of version) memory.old.contents commands.now ≡ Some memory.new.contents }
    ensures no { result ≡ false → accept_in (layout_of version) memory.old.contents commands.now ≡ None }
{
    for command in commands {
        if !accepts(memory, command) {
            return false;
        }
        let _answer = memory.step(command);
        if !can_stand(version, memory) {
            return false;
        }
    }
    true
}

// Reads the rest of an image. Its header in force and the memory of the area in force are known.
fn read_run<D: Disk>(
    alloc: Global,
    disk: &mut D,
    header: Header,
    mut memory: Memory,
) -> Result<ImageParts, Refusal>
    requires under { AreUnder (seen header) memory.contents }
    requires shown { D.honest disk.old → HasArea (seen header) memory.contents (D.now disk.old).bytes }
    ensures same { IfOk result (λ i. i.header ≡ header) }
    ensures parts { IfOk result (λ i. AreParts i) }
    ensures means { IfOk result (λ i. D.honest disk.new → IsImageOf (D.now disk.old).bytes i) }
    ensures fault { IfErr result (λ e. (e ≡ NoMemory) ⊎ (e ≡ Device)
        ⊎ (D.honest disk.new → Reads (layout_in (D.now disk.old).bytes) (D.now disk.old).bytes (Err e))) }
    ensures reads { ReadsOrRefuses D.Disk disk.old disk.new result MayRefuseImage }
{
    let version = header.layout();
    let (journal, commands) = match Journal::read_tail(
        alloc,
        disk,
        version,
        header.limits,
        header.count,
    ) {
        Ok(read) => read,
        Err(refusal) => return Err(refusal),
    };
    if replay(version, &mut memory, &commands) {
        Ok(ImageParts {
            header,
            journal,
            memory,
        })
    } else {
        Err(Refusal::BadRecord)
    }
}

// Reads the rest of an image. Its header in force is known.
fn read_behind<D: Disk>(alloc: Global, disk: &mut D, header: Header) -> Result<ImageParts, Refusal>
    requires range { (header.area ≤ 1) × (header.count ≤ LAST) }
    requires sound { D.honest disk.old → HasHeader (seen header) (D.now disk.old).bytes }
    ensures same { IfOk result (λ i. i.header ≡ header) }
    ensures parts { IfOk result (λ i. AreParts i) }
    ensures means { IfOk result (λ i. D.honest disk.new → IsImageOf (D.now disk.old).bytes i) }
    ensures fault { IfErr result (λ e. (e ≡ NoMemory) ⊎ (e ≡ Device)
        ⊎ (D.honest disk.new → Reads (layout_in (D.now disk.old).bytes) (D.now disk.old).bytes (Err e))) }
    ensures reads { ReadsOrRefuses D.Disk disk.old disk.new result MayRefuseImage }
{
    match read_memory(alloc, disk, &header) {
        Ok(memory) => read_run(alloc, disk, header, memory),
        Err(refusal) => Err(refusal),
    }
}

/// Returns what an image of one of these versions means, or its first fault by their rules. It only reads.
///
/// The faults come in this order: `WrongLength`, `NoHeader`, `BadHeader`, `BadPage`, `BadRecord`. `BadPage` says that
/// the pages in force show no memory. `BadRecord` says that the journal's run is at fault, or that a command in it
/// isn't accepted in its turn. A sound header of a version that isn't taken is a fault before a wrong length for its
/// sizes: `OldVersion` where the version in use is wanted, and `BadHeader` where the first one is. Returns `NoMemory`
/// if `alloc` refuses room for the memory or for what is read. Returns `Device` if a call of the disk failed.
pub fn read_image<D: Disk>(
    alloc: Global,
    disk: &mut D,
    versions: Versions,
) -> Result<ImageParts, Refusal>
    ensures parts { IfOk result (λ i. AreParts i) }
    ensures version { IfOk result (λ i. layout_named i.header.version ≡ layout_read versions i.header.version) }
    ensures header { IfOk result (λ i. D.honest disk.new → seen i.header ≡ header_of (D.now disk.old).bytes) }
    ensures holds { IfOk result (λ i. D.honest disk.new → Holds i.journal (D.now disk.old).bytes) }
    ensures means { IfOk result (λ i. D.honest disk.new
        → ReadsBy versions (D.now disk.old).bytes (Ok (reached i))) }
    ensures fault { IfErr result (λ e. (e ≡ NoMemory) ⊎ (e ≡ Device)
        ⊎ (D.honest disk.new → ReadsBy versions (D.now disk.old).bytes (Err e))) }
    ensures reads { ReadsOrRefuses D.Disk disk.old disk.new result (MayRefuse versions) }
{
    match read_header(disk, versions) {
        Ok(header) => read_behind(alloc, disk, header),
        Err(refusal) => Err(refusal),
    }
}

/// Returns a report of what an image of either version means, or its first fault. It reads the bytes as they are now,
/// and neither writes nor syncs. The refusals are those of [`read_image`].
pub fn inspect<D: Disk>(alloc: Global, disk: &mut D) -> Result<Report, Refusal>
    ensures header { IfOk result (λ r. D.honest disk.new → seen r.header ≡ header_of (D.now disk.old).bytes) }
    ensures means { IfOk result
        (λ r. D.honest disk.new → Reads (layout_in (D.now disk.old).bytes) (D.now disk.old).bytes
        (Ok (record { contents = r.memory.contents; count = r.header.count + r.run; room = r.room }))) }
    ensures fault { IfErr result (λ e. (e ≡ NoMemory) ⊎ (e ≡ Device)
        ⊎ (D.honest disk.new → Reads (layout_in (D.now disk.old).bytes) (D.now disk.old).bytes (Err e))) }
    ensures reads { ReadsOrRefuses D.Disk disk.old disk.new result MayRefuseImage }
{
    match read_image(alloc, disk, Versions::Any) {
        Ok(image) => Ok(report_of(image)),
        Err(refusal) => Err(refusal),
    }
}

// The report of an image that was read.
fn report_of(image: ImageParts) -> Report
    requires { JournalOf (seen image.header) image.journal }
    ensures header { result.header ≡ image.header }
    ensures memory { result.memory ≡ image.memory }
    ensures count { result.header.count + result.run ≡ image.journal.count }
    ensures room { result.room ≡ image.journal.room }
{
    Report {
        header: image.header,
        run: image.journal.count() - image.header.count,
        room: image.journal.room(),
        memory: image.memory,
    }
}
