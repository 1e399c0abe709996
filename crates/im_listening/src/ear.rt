//! Ears, which tell whether somebody asks.
ghost use Rattle.std.specs.Prelude.{◌≡◌, true, false};

use std::io::{BufReader, Read};

/// A reader that hears whether somebody asks.
pub trait Ear: Read {
    ghost use Rattle.std.specs.Prelude.{Bool, false};

    /// Whether a read never waits. An impl may say so.
    ghost is_ready: { Self → Bool } = { λ _. false };

    /// Returns whether nothing is there to be read, so that a read would wait. Returns `false` if that can't be told.
    /// No read misses anything for it.
    fn is_quiet(&mut self) -> bool
        ensures ready { is_ready self.old ≡ true → result ≡ false }
        ensures same { is_ready self.new ≡ is_ready self.old }
        ensures kept { Self.remaining self.new ≡ Self.remaining self.old };
}

/// The bytes of a slice are all there.
impl<'a> Ear for &'a [u8] {
    ghost use Rattle.std.specs.Prelude.{true};

    ghost is_ready = { λ _. true };

    fn is_quiet(&mut self) -> bool {
        false
    }
}

/// What stands in the buffer is there; after it, the reader below tells.
impl<R: Ear> Ear for BufReader<R> {
    ghost use Rattle.std.specs.Io.Buffered.{reader_inner};

    ghost is_ready = { λ r. R.is_ready (reader_inner r) };

    fn is_quiet(&mut self) -> bool {
        self.buffer().is_empty() && self.get_mut().is_quiet()
    }
}
