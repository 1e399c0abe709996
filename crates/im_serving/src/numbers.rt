//! What a server knows of its element's numbers.
ghost use Rattle.std.specs.Prelude.{◌≡◌, ℕ, ◌+◌, ◌<◌, length, IfOk};
ghost use Rattle.im_serving.specs.Numbers.{Noted};

use im_types::{Entry, Refusal};

/// What a server knows of its element's numbers.
#[derive(Drop)]
pub struct ServedNumbers {
    /// The element.
    pub element: u16,
    /// The number of the first request that is served.
    pub first: u64,
    /// The least number that is kept.
    pub base: u64,
    /// The least number below the first whose entry may be untold: that of an earlier script's request. It is the first
    /// or more if there is none.
    pub untold: u64,
    /// The entry of each request, from the first on, as the server was last told.
    pub entries: Vec<Entry>,
}

impl ServedNumbers {
    /// Returns the number of the next request.
    pub(crate) fn next(&self) -> u64 {
        self.first.saturating_add(self.entries.len() as u64)
    }

    /// Returns the same, or `Gap` if it lies past the last number that there is.
    pub(crate) fn number(&self) -> Result<u64, Refusal>
        ensures { IfOk result (λ number. number ≡ self.now.first + length self.now.entries.items) }
    {
        match self.first.checked_add(self.entries.len() as u64) {
            Some(number) => Ok(number),
            None => Err(Refusal::Gap),
        }
    }

    /// Returns whether the server was told a request's answer. The answer stays until it is confirmed; before it is
    /// told, it may be asked for again.
    pub(crate) fn is_told(&self, number: u64) -> bool {
        if number < self.first {
            return false;
        }
        let at = (number - self.first) as usize;
        at < self.entries.len() && self.entries[at] != Entry::Waiting
    }

    /// Returns up to which number entries may be confirmed: at most this one, and none of an earlier script that wasn't
    /// told.
    pub(crate) fn confirmable(&self, upto: u64) -> u64
        ensures { (number : ℕ) → number < self.now.first → number < result → number < self.now.untold }
    {
        if self.first <= self.untold {
            return upto;
        }
        if upto <= self.untold {
            return upto;
        }
        self.untold
    }

    /// Notes what is kept for a request, if it is one of the server's own.
    pub(crate) fn note(&mut self, number: u64, entry: Entry)
        ensures first { self.new.first ≡ self.old.first }
        ensures noted { Noted self.old.first self.old.entries.items number entry self.new.entries.items }
        ensures element { self.new.element ≡ self.old.element }
        ensures base { self.new.base ≡ self.old.base }
        ensures untold { self.new.untold ≡ self.old.untold }
    {
        if number < self.first {
            return;
        }
        let at = (number - self.first) as usize;
        if at < self.entries.len() {
            self.entries[at] = entry;
        }
    }
}
