//! What a call says. It can be told with no `?`, since what goes wrong is kept until the end.

use im_types::Refusal;
use std::alloc::{AllocError, Global};
use std::fmt::Display;

/// The answer of a call, as it is put together, or why the call couldn't be made.
#[derive(Drop)]
pub struct Saying {
    alloc: Global,
    text: String,
    is_wrong: bool,
}

impl Saying {
    /// Begins with nothing said.
    pub fn new(alloc: Global) -> Saying {
        Saying {
            alloc,
            text: String::new(alloc),
            is_wrong: false,
        }
    }

    /// Begins with nothing said, and with room for so many bytes of it.
    pub fn with_room(alloc: Global, room: usize) -> Result<Saying, AllocError> {
        Ok(Saying {
            alloc,
            text: String::with_capacity(alloc, room)?,
            is_wrong: false,
        })
    }

    /// Returns the allocator of the text.
    pub fn alloc(&self) -> Global {
        self.alloc
    }

    /// Returns whether nothing was said.
    pub fn is_empty(&self) -> bool {
        self.text.is_empty()
    }

    /// Returns whether the call couldn't be made.
    pub fn is_wrong(&self) -> bool {
        self.is_wrong
    }

    /// Returns what was said so far.
    pub fn said(&self) -> &str {
        self.text.as_str()
    }

    /// Adds all that another one says. If its call couldn't be made, this one can't be either.
    pub fn also(&mut self, other: &Saying) {
        self.text(other.said());
        self.is_wrong = self.is_wrong || other.is_wrong;
    }

    /// Says what another one says, in place of all that was said.
    pub fn repeat(&mut self, other: &Saying) {
        self.text.clear();
        self.also(other)
    }

    /// Adds a text.
    pub fn text(&mut self, text: &str) {
        if self.text.push_str(text).is_err() {
            self.is_wrong = true;
        }
    }

    /// Adds words, with a space between two of them.
    pub fn words(&mut self, words: &[&str]) {
        for (at, word) in words.iter().enumerate() {
            self.either(at == 0, "", " ");
            self.text(word);
        }
    }

    /// Adds what `write!` formats.
    pub fn write_fmt<D: Display + Drop>(&mut self, value: D) {
        if self.text.write_fmt(value).is_err() {
            self.is_wrong = true;
        }
    }

    /// Adds a number.
    pub fn number<N: Display + Drop>(&mut self, number: N) {
        write!(self, "{number}")
    }

    /// Adds the first text or the second one.
    pub fn either(&mut self, is_first: bool, first: &str, second: &str) {
        self.text(if is_first { first } else { second })
    }

    /// Says why the call can't be made, in place of all that was said.
    pub fn fail(&mut self, why: &str) {
        self.is_wrong = true;
        self.text.clear();
        self.text(why);
    }

    /// Adds a text if the call was made, or says that it can't be.
    pub fn so(&mut self, is_made: bool, text: &str) {
        if is_made {
            self.text(text)
        } else {
            self.fail("it can't be done")
        }
    }

    /// Says that the call can't be made, unless this is so.
    pub fn check(&mut self, is_so: bool) {
        if !is_so {
            self.fail("it isn't as it has to be")
        }
    }

    /// Tells of something that is there, or says why the call can't be made.
    pub fn given<T, F: FnOnce(T, &mut Saying)>(&mut self, it: Option<T>, why: &str, tell: F)
        requires { F.IsAlwaysCallable tell }
    {
        match it {
            Some(it) => tell(it, self),
            None => self.fail(why),
        }
    }

    /// Tells of an answer, or adds the refusal.
    pub fn result<T, F: FnOnce(T, &mut Saying)>(&mut self, answer: Result<T, Refusal>, tell: F)
        requires { F.IsAlwaysCallable tell }
    {
        match answer {
            Ok(it) => tell(it, self),
            Err(refusal) => self.refusal(refusal),
        }
    }

    /// Prints all that was said. Returns 0 if nothing was wrong, or else 1.
    pub fn print(&self, rt: &HostRuntime) -> u8 {
        let is_printed = rt.print(self.text.as_str()).is_ok();
        u8::from(self.is_wrong || !is_printed)
    }
}
