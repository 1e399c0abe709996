//! The call of a line, taken apart once.

use crate::says::Saying;
use im_types::{Limits, NONE, Waiter};
use std::alloc::Global;

/// The words of a call. Its form has `_` for each number and `_._` for each name of a request: that of `1.4 fetch 0` is
/// `_._ fetch _`, with the numbers 1, 4 and 0. A link that is `none` is a number too: that which leads nowhere.
#[derive(Drop)]
pub struct Phrase<'a> {
    words: &'a [&'a str],
    form: Saying,
    numbers: Vec<u64>,
}

// Adds the numbers of a word, if there is memory for them. Returns the word as it stands in a form.
fn numbered<'w>(numbers: &mut Vec<u64>, word: &'w str) -> &'w str {
    let number = match word {
        "none" => Some(u64::from(NONE)),
        _ => word.parse::<u64>().ok(),
    };
    let (of, sent) = word.split_once('.').unwrap_or((word, ""));
    match (number, of.parse::<u64>(), sent.parse::<u64>()) {
        (Some(number), _, _) => {
            let _kept = numbers.push(number);
            "_"
        }
        (None, Ok(element), Ok(number)) => {
            let _kept = numbers.extend_from_slice(&[element, number]);
            "_._"
        }
        _ => word,
    }
}

impl<'a> Phrase<'a> {
    /// Takes these words apart. Where memory is wanting the form is another one, and numbers are missing.
    pub fn of(alloc: Global, words: &'a [&'a str]) -> Phrase<'a> {
        let (mut form, mut numbers) = (Saying::new(alloc), Vec::new(alloc));
        for word in words {
            form.either(form.is_empty(), "", " ");
            form.text(numbered(&mut numbers, word));
        }
        Phrase {
            words,
            form,
            numbers,
        }
    }

    /// Returns the allocator of what the call makes.
    pub fn alloc(&self) -> Global {
        self.form.alloc()
    }

    /// Returns the words.
    pub fn words(&self) -> &'a [&'a str] {
        self.words
    }

    /// Returns the words from a place on.
    pub fn rest(&self, from: usize) -> &'a [&'a str] {
        self.words.get(from..).unwrap_or(&[])
    }

    /// Returns the word at a place, or an empty one past the last.
    pub fn word(&self, at: usize) -> &'a str {
        self.words.get(at).copied().unwrap_or("")
    }

    /// Returns the form.
    pub fn form(&self) -> &str {
        self.form.said()
    }

    /// Returns one of the numbers, or 0 past the last one.
    pub fn number(&self, at: usize) -> u64 {
        self.numbers.get(at).copied().unwrap_or(0)
    }

    /// Returns a number as the address of a cell, or as a count of cells. The greatest one stands for all above it.
    pub fn address(&self, at: usize) -> u32 {
        u32::try_from(self.number(at)).unwrap_or(u32::MAX)
    }

    /// Returns a number as that of an element, in the same way.
    pub fn element(&self, at: usize) -> u16 {
        u16::try_from(self.number(at)).unwrap_or(u16::MAX)
    }

    /// Returns a number as a place or a count, in the same way.
    pub fn place(&self, at: usize) -> usize {
        usize::try_from(self.number(at)).unwrap_or(usize::MAX)
    }

    /// Returns the name of a request whose first number this is.
    pub fn waiter(&self, at: usize) -> Waiter {
        Waiter {
            element: self.element(at),
            number: self.number(at.saturating_add(1)),
        }
    }

    /// Returns sizes, of which this number is the first: those of cells, elements and slots. There are none if they
    /// aren't allowed.
    pub fn limits(&self, at: usize) -> Option<Limits> {
        let elements = self.element(at.saturating_add(1));
        let slots = self.address(at.saturating_add(2));
        Limits::new(self.address(at), elements, slots)
    }
}
