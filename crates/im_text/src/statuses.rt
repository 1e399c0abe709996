//! The exit status of a program that tells its refusals apart.
ghost use Rattle.std.specs.Prelude.{◌≡◌, ◌⊎◌};
ghost use Rattle.{im_types.specs.Types.Refusal, im_damage.specs.declared.Damage.Damage};
ghost use Rattle.im_text.specs.Statuses.{status_of_image, strict_status};

use crate::faults::PathFault;
use crate::reasons::Reason;
use im_types::Refusal;
use std::io::ErrorKind;

/// The status of a refusal that may go away: a file is in use by another program.
pub const IN_USE: u8 = 4;

/// The status of a refusal that stays the same at each try: there is no image, it is damaged or old, or there is no
/// permission.
pub const USELESS: u8 = 5;

/// The status of a strict script of which all was served, if a line of it told an error of the program that asked.
pub const FAULTY: u8 = 6;

/// Returns the status of a script that ended with this one. It is [`FAULTY`] if the script is strict, all was served,
/// and a line told an error of the program that asked.
pub fn strict_status(strict: bool, faulted: bool, status: u8) -> u8
    ensures status { result ≡ strict_status strict faulted status }
    ensures range { (result ≡ status) ⊎ (result ≡ FAULTY) }
{
    if strict && faulted && status == 0 {
        FAULTY
    } else {
        status
    }
}

// The status for the refusal of an image.
fn of_image(refusal: Refusal) -> u8
    ensures { result ≡ status_of_image refusal }
{
    match refusal {
        Refusal::WrongLength | Refusal::NoHeader | Refusal::BadHeader => USELESS,
        Refusal::BadPage | Refusal::BadRecord => USELESS,
        Refusal::OldVersion | Refusal::NotBlank => USELESS,
        _ => 1,
    }
}

// The status for what the system says about a file that can't be opened.
fn of_system(kind: ErrorKind) -> u8
    ensures { (result ≡ 1) ⊎ (result ≡ 5) }
{
    match kind {
        ErrorKind::NotFound | ErrorKind::PermissionDenied | ErrorKind::IsADirectory => USELESS,
        ErrorKind::NotADirectory | ErrorKind::ReadOnlyFilesystem => USELESS,
        ErrorKind::FilesystemLoop | ErrorKind::InvalidFilename | ErrorKind::InvalidInput => USELESS,
        _ => 1,
    }
}

// The status for a file that can't be made or opened.
fn of_file(fault: PathFault) -> u8
    ensures in_use { fault ≡ PathFault.InUse → result ≡ 4 }
    ensures range { (result ≡ 1) ⊎ (result ≡ 4) ⊎ (result ≡ 5) }
{
    match fault {
        PathFault::InUse => IN_USE,
        PathFault::NotFile | PathFault::IsFolder => USELESS,
        PathFault::NoFolder | PathFault::EmptyPath => USELESS,
        PathFault::System(kind) => of_system(kind),
        PathFault::Exists | PathFault::Unsynced => 1,
        PathFault::Same | PathFault::Sync(_) => 1,
    }
}

impl Reason {
    /// Returns the exit status of a program that tells its refusals apart. It is [`IN_USE`] if a file is in use by
    /// another program. It is [`USELESS`] if there is no image, if the image is damaged or old, or if there is no file
    /// or no permission. Else it is 1.
    pub fn status(&self) -> u8
        ensures in_use { (self.now ≡ Reason.File PathFault.InUse) ⊎ (self.now ≡ Reason.NewFile PathFault.InUse)
            → result ≡ 4 }
        ensures image { (refusal : Refusal) (damage : Damage) → self.now ≡ Reason.Image refusal damage
            → result ≡ status_of_image refusal }
        ensures range { (result ≡ 1) ⊎ (result ≡ 4) ⊎ (result ≡ 5) }
    {
        match *self {
            Reason::File(fault) | Reason::NewFile(fault) => of_file(fault),
            Reason::Image(refusal, _) | Reason::New(refusal) => of_image(refusal),
            Reason::ScriptFile(kind) | Reason::Input(kind) => of_system(kind),
            Reason::Current => USELESS,
            _ => 1,
        }
    }
}
