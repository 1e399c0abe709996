//! The name of a backup.
ghost use Rattle.std.specs.Prelude.{◌≡◌, ◌≤◌, ◌||◌, length, IfSome, ◌==◌};
ghost use Rattle.std.specs.{Char.is_ascii_digit, Char.is_ascii_lowercase, List.list_all};
ghost use Rattle.im_dialogue.specs.Backups.{backup_name_of, backup_named, bytes_of, is_backup_name};

use std::str;

/// The most characters of a backup's name.
const MOST: usize = 64;

/// The name of a backup: 1 to 64 characters a to z, 0 to 9, `-` and `.`, the first a letter. So it names nothing
/// outside of a folder.
#[derive(Clone, Copy, Debug, PartialEq, Eq)]
pub struct BackupName {
    // Its characters, and zeros behind them.
    bytes: [u8; MOST],
    // How many characters it has.
    length: usize,
}

// Returns whether a name may contain a byte.
fn may_contain(byte: u8) -> bool
    ensures { result ≡ (is_ascii_lowercase byte || (is_ascii_digit byte || (byte == 45 || byte == 46))) }
{
    byte.is_ascii_lowercase() || byte.is_ascii_digit() || byte == b'-' || byte == b'.'
}

// Returns whether a name may contain each byte of a word.
fn may_contain_all(word: &[u8]) -> bool
    ensures { result ≡ list_all (λ c. is_ascii_lowercase c || (is_ascii_digit c || (c == 45 || c == 46))) word.now }
{
    word.iter().all(|byte| may_contain(*byte))
}

// Returns whether a word is a name.
fn is_name(word: &[u8]) -> bool
    ensures { result ≡ is_backup_name word.now }
{
    match word.first() {
        Some(first) => first.is_ascii_lowercase() && word.len() <= MOST && may_contain_all(word),
        None => false,
    }
}

impl BackupName {
    // Returns the name that a word is.
    fn of(word: &[u8]) -> BackupName
        requires { length word.now ≤ 64 }
        ensures named { result ≡ backup_named word.now }
        ensures bytes { bytes_of result ≡ word.now }
    {
        let mut bytes = [0; MOST];
        let length = word.len();
        bytes[..length].copy_from_slice(word);
        BackupName { bytes, length }
    }

    /// Returns the name that a word is, or `None` if it is none.
    pub fn read(word: &[u8]) -> Option<BackupName>
        ensures found { result ≡ backup_name_of word.now }
        ensures bytes { IfSome result (λ name. bytes_of name ≡ word.now) }
    {
        if is_name(word) {
            Some(BackupName::of(word))
        } else {
            None
        }
    }

    /// Returns the characters of the name.
    pub fn as_bytes(&self) -> &[u8]
        ensures { result.now ≡ bytes_of self.now }
    {
        &self.bytes[..self.length.min(MOST)]
    }

    /// Returns the name as a text. Each name is one, since its characters are ASCII.
    pub fn text(&self) -> Option<&str>
        ensures { IfSome result (λ text. text.now ≡ bytes_of self.now) }
    {
        str::from_utf8(self.as_bytes()).ok()
    }
}
