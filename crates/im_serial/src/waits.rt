//! The requests that had to wait, and what is kept for them.
ghost use Rattle.std.specs.Prelude.{◌≡◌, ℕ, ◌+◌, ◌≤◌, true, List, ◌++◌, map, length, OnOk, slice_get, MatchResult};
ghost use Rattle.std.specs.Prelude.{Some};
ghost use Rattle.im_types.specs.Types.{Waiter, Waiting, Command, Contents, IsMemory, after};
ghost use Rattle.im_text.specs.Said.{who_of};
ghost use Rattle.im_serial.specs.declared.waits.Mark.TheVariants.{Here};
ghost use Rattle.im_serial.specs.Noted.{AreKnown, AreLast, entered, IsLearnt, Learns, mark_place, noted_by, noted_if};
ghost use Rattle.im_serial.specs.Noted.{with_entry};

use crate::notes::WaitNote;
use im_memory::Memory;
use im_text::{News, Waited};
use im_types::{Entry, MAX_ELEMENTS, Observer, WINDOW};
use std::alloc::{AllocError, Global};

/// Who waits at a place of a window.
#[derive(Clone, Copy, Debug, PartialEq, Eq)]
pub enum Mark {
    /// Nobody.
    Nobody,
    /// A request that already waited when the image was opened.
    Earlier,
    /// A request of the script that had to wait. The number is its index among them.
    Here(usize),
}

/// A mark for each place of each element's window.
#[derive(Drop)]
pub struct Places {
    marks: Vec<Mark>,
}

// The index of a number's mark. Two numbers of one window have different marks.
fn index_of(element: u16, number: u64) -> usize
    ensures { result ≡ mark_place (record { element = element; number = number }) }
{
    element as usize * WINDOW as usize + (number % WINDOW) as usize
}

impl Places {
    /// Makes marks that say that nobody waits. It takes all room that will be needed.
    pub fn new(alloc: Global) -> Result<Places, AllocError> {
        let mut marks = Vec::with_capacity(alloc, index_of(MAX_ELEMENTS, 0))?;
        for _place in 0..index_of(MAX_ELEMENTS, 0) {
            marks.push(Mark::Nobody)?;
        }
        Ok(Places { marks })
    }

    /// Sets the mark of a number. Returns whether its element has marks.
    pub fn set(&mut self, element: u16, number: u64, mark: Mark) -> bool
        ensures set { let at = mark_place (record { element = element; number = number }) in
            result ≡ true → slice_get self.new.marks.items at ≡ Some mark }
        ensures others { let at = mark_place (record { element = element; number = number }) in
            (i : ℕ) → (i ≡ at → ⊥) → slice_get self.new.marks.items i ≡ slice_get self.old.marks.items i }
    {
        let at = index_of(element, number);
        if at < self.marks.len() {
            self.marks[at] = mark;
            true
        } else {
            false
        }
    }

    /// Returns the mark of a number, and removes it.
    pub fn take(&mut self, element: u16, number: u64) -> Mark
        ensures mark { let at = mark_place (record { element = element; number = number }) in
            (there : Mark) → slice_get self.old.marks.items at ≡ Some there → result ≡ there }
        ensures others { let at = mark_place (record { element = element; number = number }) in
            (i : ℕ) → (i ≡ at → ⊥) → slice_get self.new.marks.items i ≡ slice_get self.old.marks.items i }
    {
        let at = index_of(element, number);
        if at < self.marks.len() {
            let mark = self.marks[at];
            self.marks[at] = Mark::Nobody;
            mark
        } else {
            Mark::Nobody
        }
    }

    // Marks those of an element's requests that wait, among these numbers.
    fn mark_element(&mut self, memory: &Memory, element: u16, base: u64, next: u64) {
        for number in base..next {
            if memory.collect(element, number) == Ok(Entry::Waiting) {
                let _has_marks = self.set(element, number, Mark::Earlier);
            }
        }
    }

    /// Marks all requests that wait in a memory.
    pub fn mark_earlier(&mut self, memory: &Memory)
        ensures { let m = memory.now.contents in IsMemory (length m.cells) (length m.windows) m }
    {
        for element in 0..memory.elements() {
            if let Ok((base, next)) = memory.window(element) {
                self.mark_element(memory, element, base, next);
            }
        }
    }
}

// Returns a request with this entry in the place of its own, if it is the one that is meant.
fn with_entry(waited: Waited, who: (u16, u64), entry: Entry) -> Waited
    ensures { result ≡ with_entry (record { element = who.0; number = who.1 }) entry waited }
{
    if waited.element == who.0 && waited.number == who.1 {
        Waited {
            element: waited.element,
            number: waited.number,
            entry,
        }
    } else {
        waited
    }
}

// Keeps another entry for a request that waited, if it is the one at this index.
fn set_entry(waited: &mut [WaitNote], at: usize, who: (u16, u64), entry: Entry)
    ensures names { map who_of waited.new ≡ map who_of waited.old }
    ensures sets { let who : Waiter = record { element = who.0; number = who.1 } in
        (i : ℕ) → slice_get waited.new i ≡ entered at who entry i (slice_get waited.old i) }
{
    if at < waited.len() {
        let kept = with_entry(waited[at].read(), who, entry);
        waited[at] = WaitNote::new((kept.element, kept.number), kept.entry);
    }
}

// What an observer is told of the answer under a number.
fn answered(who: (u16, u64), entry: Entry) -> News {
    News::Answered(Waited {
        element: who.0,
        number: who.1,
        entry,
    })
}

// Keeps the answer of a request that waited here.
fn settle(waited: &mut [WaitNote], mark: Mark, who: (u16, u64), entry: Entry)
    ensures names { map who_of waited.new ≡ map who_of waited.old }
    ensures sets { let who : Waiter = record { element = who.0; number = who.1 } in
        (i : ℕ) → slice_get waited.new i ≡ noted_by mark who entry i (slice_get waited.old i) }
{
    match mark {
        Mark::Nobody | Mark::Earlier => {}
        Mark::Here(at) => set_entry(waited, at, who, entry),
    }
}

// Learns the answer under a number, before it is confirmed.
fn learn_one(waited: &mut [WaitNote], places: &mut Places, memory: &Memory, who: (u16, u64))
    ensures names { map who_of waited.new ≡ map who_of waited.old }
    ensures learnt { Learns memory.now.contents who.0 who.1 (who.1 + 1) places.old.marks.items waited.old
        places.new.marks.items waited.new }
{
    match memory.kept(who.0, who.1) {
        Some(kept) => {
            let mark = places.take(who.0, who.1);
            settle(waited, mark, who, kept.entry);
        }
        None => {}
    }
}

/// Learns the answers under an element's numbers, before they are confirmed. `numbers` are the element, the first of
/// them, and the one behind the last.
pub fn learn(
    waited: &mut [WaitNote],
    places: &mut Places,
    memory: &Memory,
    numbers: (u16, u64, u64),
)
    ensures names { map who_of waited.new ≡ map who_of waited.old }
    ensures learnt { numbers.1 ≤ numbers.2 → Learns memory.now.contents numbers.0 numbers.1 numbers.2
        places.old.marks.items waited.old places.new.marks.items waited.new }
{
    let (element, base, upto) = numbers;
    for number in base..upto {
        learn_one(waited, places, memory, (element, number));
    }
}

// Learns what is kept at the end for the request at this index.
fn learn_last(waited: &mut [WaitNote], at: usize, memory: &Memory)
    ensures names { map who_of waited.new ≡ map who_of waited.old }
    ensures learnt { (m : Contents) (put : List Command) → memory.now.contents ≡ after m put
        → IsLearnt m put at waited.old → IsLearnt m put (at + 1) waited.new }
{
    match waited_at(waited, at) {
        Some(last) => match memory.kept(last.element, last.number) {
            Some(kept) => set_entry(waited, at, (last.element, last.number), kept.entry),
            None => {}
        },
        None => {}
    }
}

/// Learns what is kept at the end for all requests that had to wait.
pub fn learn_all(waited: &mut [WaitNote], memory: &Memory)
    ensures names { map who_of waited.new ≡ map who_of waited.old }
    ensures last { (m : Contents) (put : List Command) → memory.now.contents ≡ after m put
        → AreKnown m put waited.old → AreLast m put waited.new }
{
    for at in 0..waited.len() {
        learn_last(waited, at, memory);
    }
}

// Tells the observer the answers of an element's requests that waited when the image was opened.
fn tell_element<N: Observer<News>>(
    places: &mut Places,
    memory: &Memory,
    element: u16,
    numbers: (u64, u64),
    observer: &mut N,
) {
    let (base, next) = numbers;
    for number in base..next {
        let Some(kept) = memory.kept(element, number) else {
            continue;
        };
        if kept.entry != Entry::Waiting && places.take(element, number) == Mark::Earlier {
            observer.tell(answered((element, number), kept.entry));
        }
    }
}

/// Tells the observer the answers of all requests that waited when the image was opened.
pub fn tell_earlier<N: Observer<News>>(places: &mut Places, memory: &Memory, observer: &mut N) {
    for element in 0..memory.elements() {
        if let Ok(numbers) = memory.window(element) {
            tell_element(places, memory, element, numbers, observer);
        }
    }
}

/// Notes a request that was served, if it has to wait.
pub fn note(
    waited: &mut Vec<WaitNote>,
    places: &mut Places,
    who: (u16, u64),
    entry: Entry,
) -> Result<(), AllocError>
    ensures pushed { MatchResult result
        (λ _. waited.new.items ≡ waited.old.items ++ noted_if (record { element = who.0; number = who.1 }) entry)
        (λ _. waited.new.items ≡ waited.old.items) }
    ensures mark { let at = mark_place (record { element = who.0; number = who.1 }) in
        OnOk result (entry ≡ Waiting → slice_get places.new.marks.items at ≡ Some (Here (length waited.old.items))) }
    ensures others { let at = mark_place (record { element = who.0; number = who.1 }) in
        (i : ℕ) → (i ≡ at → ⊥) → slice_get places.new.marks.items i ≡ slice_get places.old.marks.items i }
{
    match entry {
        Entry::Answered(_) => Ok(()),
        Entry::Waiting => {
            if !places.set(who.0, who.1, Mark::Here(waited.len())) {
                return Err(AllocError); // No image has such an element.
            }
            match waited.push(WaitNote::new(who, entry)) {
                Ok(()) => Ok(()),
                Err(_) => Err(AllocError),
            }
        }
    }
}

/// Returns the request at this index among those that had to wait.
pub fn waited_at(waited: &[WaitNote], at: usize) -> Option<Waited>
    ensures { result ≡ slice_get waited.now at }
{
    match waited.get(at) {
        Some(note) => Some(note.read()),
        None => None,
    }
}
