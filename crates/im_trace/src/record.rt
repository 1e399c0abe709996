//! The trace: the book of its lines, and the lines themselves if they are recorded.
ghost use Rattle.std.specs.Prelude.{◌≡◌, ◌-◌, ◌<◌, ◌≤◌, true, [], ◌∷◌, ◌++◌, length, take, if◌then◌else◌, vec_len};
ghost use Rattle.std.specs.Prelude.{vec_capacity};
ghost use Rattle.im_trace.specs.{Chains.IsOpened, Lines.leaves_line, Lines.left_lines, Lines.time_at, Lines.times_of};
ghost use mathlib.Core.List.{IsPrefix};

use crate::chain::{Chain, NewChain, Prefix};
use crate::name::Name;
use crate::traced::{Since, Traced, may_begin};
use crate::when::{When, Written};
use im_disk::Disk;
use im_types::{Call, Line, Outcome, Refusal};
use std::marker::Model;

/// The trace, and how many lines it may have. If it isn't recorded, no line of it is kept at run time.
#[derive(Drop)]
pub struct Record<K: Name> {
    lines: Vec<Traced>, // If the trace isn't recorded, it stays empty.
    recorded: bool,
    count: usize,
    limit: usize,
    since: Since, // For the next line.
    chain: Chain<K>,
}

impl<K: Name> Model for Record<K> {
    ghost use Rattle.std.specs.Prelude.{◌≡◌, ◌≤◌, true, [], length, if◌then◌else◌, vec_capacity};
    ghost use Rattle.im_trace.specs.Ends.{RecordState};

    ghost Value = { RecordState };

    ghost view = { λ r. record { lines = r.chain.lines; times = r.chain.times; limit = r.limit } };

    ghost invariant = { λ r. (r.count ≡ length r.chain.lines) × (length r.chain.times ≡ length r.chain.lines)
        × (r.lines.items ≡ (if r.recorded then r.chain.lines else []))
        × (r.recorded ≡ true → r.limit ≤ vec_capacity r.lines) × (r.recorded ≡ K.origin.book.recorded) };
}

// Returns whether an answer leaves a line.
pub(crate) fn leaves_line(answer: Result<Outcome, Refusal>) -> bool
    ensures { result ≡ leaves_line answer }
{
    match answer {
        Ok(_) => true,
        Err(refusal) => refusal.is_of_numbers(),
    }
}

// Puts a line at the end, if the trace is recorded.
fn push_if(lines: &mut Vec<Traced>, recorded: bool, line: Traced)
    requires room { recorded ≡ true → vec_len lines.old < vec_capacity lines.old }
    ensures items { lines.new.items ≡ (if recorded then lines.old.items ++ line ∷ [] else lines.old.items) }
    ensures capacity { vec_capacity lines.new ≡ vec_capacity lines.old }
{
    if recorded {
        lines.push_reserved(line);
    }
}

impl<K: Name> Record<K> {
    // Begins a trace.
    pub(crate) fn begun(
        lines: Vec<Traced>,
        recorded: bool,
        limit: usize,
        chain: NewChain,
    ) -> Record<K>
        requires empty { lines.items ≡ [] }
        requires room { recorded ≡ true → limit ≤ vec_capacity lines }
        requires recorded { recorded ≡ K.origin.book.recorded }
        requires book { chain ≡ K.origin.book.lines }
        requires memory { IsOpened K.origin.memory }
        ensures { result ≡ record { lines = []; times = []; limit = limit } }
    {
        Record {
            lines,
            recorded,
            count: 0,
            limit,
            since: Since {
                group: false,
                checkpoint: false,
            },
            chain: chain.named::<K>(),
        }
    }

    // Returns how many lines there are.
    pub(crate) fn len(&self) -> usize
        ensures { result ≡ length self.now.lines }
    {
        self.count
    }

    // Returns how many more lines there is room for.
    pub(crate) fn room(&self) -> usize
        ensures { result ≡ self.now.limit - length self.now.lines }
    {
        self.limit.saturating_sub(self.count)
    }

    // Notes that a checkpoint was put in force.
    pub(crate) fn note_checkpoint(&mut self)
        ensures same { self.new ≡ self.old }
    {
        self.since.checkpoint = true;
    }

    // Puts a call's line at the end, if it leaves one, at the time of the disk. It may begin a group.
    pub(crate) fn push<D: Disk>(
        &mut self,
        call: Call,
        answer: Result<Outcome, Refusal>,
        begins: bool,
        disk: &D,
    )
        requires room { leaves_line answer ≡ true → length self.old.lines < self.old.limit }
        ensures whole { length self.new.times ≡ length self.new.lines }
        ensures lines { self.new ≡ record {
          lines = self.old.lines ++ left_lines call answer;
          times = self.old.times ++ times_of (length (D.past disk.now)) (left_lines call answer);
          limit = self.old.limit;
        } }
    {
        self.since.group = self.since.group || begins;
        if leaves_line(answer) {
            self.add(Line { call, answer }, disk);
        }
    }

    // Puts a line at the end.
    fn add<D: Disk>(&mut self, line: Line, disk: &D)
        requires room { length self.old.lines < self.old.limit }
        ensures { self.new ≡ record {
          lines = self.old.lines ++ line ∷ [];
          times = self.old.times ++ times_of (length (D.past disk.now)) (line ∷ []);
          limit = self.old.limit;
        } }
    {
        let since = self.since;
        self.chain.add(&line, disk);
        push_if(
            &mut self.lines,
            self.recorded,
            Traced::new(line.call, line.answer, since),
        );
        self.count += 1;
        self.since = Since {
            group: since.group && !may_begin(line.call, line.answer),
            checkpoint: false,
        };
    }

    // Returns the given number of first lines, as a prefix that may go out of the lock.
    pub(crate) fn first(&self, count: usize) -> Prefix<K>
        requires few { count ≤ length self.now.lines }
        ensures { result ≡ take count self.now.lines }
    {
        Prefix::begun(count, &self.chain)
    }

    // Returns the time of the last of so many first lines.
    pub(crate) fn when(&self, count: usize) -> When<K>
        requires few { count ≤ length self.now.lines }
        ensures { result ≡ record { lines = count; time = time_at self.now.times count } }
    {
        self.chain.when(count)
    }

    // A prefix that went out of the lock is a prefix of the trace.
    pub(crate) fn knows(&mut self, seen: &Prefix<K>)
        ensures same { self.new ≡ self.old }
        ensures known { IsPrefix seen.now self.old.lines }
    {
        self.chain.knows(seen);
    }

    // Returns the trace, without its name.
    pub(crate) fn end(self) -> Recording
        ensures { result ≡ record {
          items = self.lines;
          times = self.times;
          recorded = K.origin.book.recorded;
          book = K.origin.book.lines;
        } }
    {
        let Record {
            lines,
            recorded,
            count: _,
            limit: _,
            since: _,
            chain,
        } = self;
        let written = chain.end();
        Recording {
            lines,
            recorded,
            written,
        }
    }
}

/// The trace of a controller at its end. Contracts see its lines, recorded or not, with their times, and its book.
#[derive(Drop)]
pub struct Recording {
    lines: Vec<Traced>,
    recorded: bool,
    written: Written,
}

impl Model for Recording {
    ghost use Rattle.std.specs.Prelude.{◌≡◌, [], if◌then◌else◌};
    ghost use Rattle.im_trace.specs.Ends.{RecordingState};

    ghost Value = { RecordingState };

    ghost view = { λ r. record {
      items = r.written.lines;
      times = r.written.times;
      recorded = r.recorded;
      book = r.written.book;
    } };

    ghost invariant = { λ r. r.lines.items ≡ (if r.recorded then r.written.lines else []) };
}

impl Recording {
    /// Returns whether the lines were recorded.
    pub fn is_recorded(&self) -> bool
        ensures { result ≡ self.now.recorded }
    {
        self.recorded
    }

    /// Returns the lines, and none if they weren't recorded.
    pub fn as_slice(&self) -> &[Traced]
        ensures { result.now ≡ (if self.now.recorded then self.now.items else []) }
    {
        self.lines.as_slice()
    }

    /// Returns the lines, and none if they weren't recorded.
    pub fn into_lines(self) -> Vec<Traced>
        ensures { result.items ≡ (if self.recorded then self.items else []) }
    {
        let Recording {
            lines,
            recorded: _,
            written: _,
        } = self;
        lines
    }

    /// What a port or a receipt of this trace's controller has seen is a prefix of the trace. The call does nothing at
    /// run time. Contracts alone see what it says.
    pub fn knows<K: Name>(&mut self, history: &Prefix<K>)
        requires book { self.old.book ≡ K.origin.book.lines }
        ensures same { self.new ≡ self.old }
        ensures known { IsPrefix history.now self.old.items }
    {
        self.written.knows(history);
    }

    /// The time of a receipt of this trace's controller is that of its line. The call does nothing at run time.
    /// Contracts alone see what it says.
    pub fn times<K: Name>(&mut self, when: &When<K>)
        requires book { self.old.book ≡ K.origin.book.lines }
        ensures same { self.new ≡ self.old }
        ensures time { when.now.time ≡ time_at self.old.times when.now.lines }
    {
        self.written.times(when);
    }
}
