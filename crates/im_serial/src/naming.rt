//! The entries that earlier scripts left. They are named before they are confirmed, since nobody may have seen them.
ghost use Rattle.std.specs.Prelude.{◌≡◌, ◌+◌, ◌≤◌, [], ◌∷◌, IfOk};
ghost use Rattle.im_serial.specs.{Had.left_of, Named.AreNamed, Named.IsNamed};

use im_memory::Memory;
use im_noted::NoteList;
use im_text::{News, Waited};
use im_types::{MAX_ELEMENTS, Observer};
use std::alloc::{AllocError, Global};

/// Which requests are of earlier scripts, and which of their entries were named.
#[derive(Drop)]
pub struct Earlier {
    // For each element, the last number of earlier scripts, or 0.
    last: Vec<u64>,
    // The entries that the observer was told. No code reads it.
    named: NoteList<Waited>,
}

impl Earlier {
    /// Starts with no earlier script. It takes all room that will be needed.
    pub fn new(alloc: Global) -> Result<Earlier, AllocError>
        ensures { IfOk result (λ earlier. earlier.named ≡ []) }
    {
        let mut last = Vec::with_capacity(alloc, MAX_ELEMENTS as usize)?;
        for _element in 0..MAX_ELEMENTS {
            last.push(0)?;
        }
        Ok(Earlier {
            last,
            named: NoteList::new(),
        })
    }

    // Sets the last number of an element's requests of earlier scripts.
    fn set_last(&mut self, element: u16, last: u64) {
        let at = element as usize;
        if at < self.last.len() {
            self.last[at] = last;
        }
    }

    /// Takes all requests of a memory for those of earlier scripts.
    pub fn find(&mut self, memory: &Memory) {
        for element in 0..memory.elements() {
            if let Ok((_base, next)) = memory.window(element) {
                self.set_last(element, next.saturating_sub(1));
            }
        }
    }

    /// Takes none for one of an earlier script: all that is kept is printed.
    pub fn clear(&mut self) {
        self.last.clear();
    }

    // Returns the last number of an element's requests of earlier scripts, or 0.
    fn last_of(&self, element: u16) -> u64
        ensures { result ≡ left_of self.now.last.items element }
    {
        let at = element as usize;
        if at < self.last.len() {
            self.last[at]
        } else {
            0
        }
    }

    // Names an entry, if it is of an earlier script.
    fn name<N: Observer<News>>(&mut self, it: Waited, observer: &mut N)
        ensures named { it.number ≤ left_of self.old.last.items it.element → self.new.named ≡ it ∷ self.old.named }
        ensures kept { (w : Waited) → IsNamed self.old.named w → IsNamed self.new.named w }
        ensures last { self.new.last.items ≡ self.old.last.items }
    {
        if it.number <= self.last_of(it.element) {
            observer.tell(News::Confirmed(it));
            self.named.note(&it);
        }
    }

    // Names the entry under a number, if there is one and it is of an earlier script.
    fn name_kept<N: Observer<News>>(&mut self, memory: &Memory, who: (u16, u64), observer: &mut N)
        ensures named { AreNamed memory.now.contents (left_of self.old.last.items who.0) who.0 who.1 (who.1 + 1)
            self.new.named }
        ensures kept { (w : Waited) → IsNamed self.old.named w → IsNamed self.new.named w }
        ensures last { self.new.last.items ≡ self.old.last.items }
    {
        match memory.kept(who.0, who.1) {
            Some(kept) => {
                let it = Waited {
                    element: who.0,
                    number: who.1,
                    entry: kept.entry,
                };
                self.name(it, observer);
            }
            None => {}
        }
    }

    /// Names the entries of earlier scripts under an element's numbers. `numbers` are the element, the first of them,
    /// and the one behind the last.
    pub fn name_all<N: Observer<News>>(
        &mut self,
        memory: &Memory,
        numbers: (u16, u64, u64),
        observer: &mut N,
    )
        ensures named { AreNamed memory.now.contents (left_of self.old.last.items numbers.0) numbers.0 numbers.1
            numbers.2 self.new.named }
    {
        let (element, base, upto) = numbers;
        for number in base..upto {
            self.name_kept(memory, (element, number), observer);
        }
    }
}
