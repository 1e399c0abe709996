//! Reads the lines of a script, one after another. The check of a whole text reads so, and whoever serves a script.
ghost use Rattle.std.specs.Prelude.{◌≡◌, true, false, not, IfSome, IfOk, IfErr, Some, None};
ghost use Rattle.im_script.specs.{Faults.bad_line, Faults.is_of_size, Faults.tells_length, Grammar.is_short};

use crate::MAX_LINE;
use crate::explaining::explain;
use crate::faults::{LineFault, ScriptFault};
use crate::grammar::{is_short, put_first_words, read_number, split_words};
use crate::lines::{is_setup, read_action, read_glance, read_named_block, read_part};
use crate::script::{Heard, LAST_ELEMENT, Said, ScriptLine, Stage};
use arrayvec::ArrayVec;
use im_types::Refusal;
use indexmap::IndexSet;
use std::alloc::Global;

/// Reads the lines of a text, one after another. It keeps the stage of the next line and the names that the setup gave.
#[derive(Drop)]
pub struct Reader<'a> {
    /// Where the next line stands.
    pub stage: Stage,
    /// The names of the setup's blocks, in order.
    pub names: IndexSet<&'a [u8]>,
}

impl<'a> Reader<'a> {
    ghost use Rattle.std.specs.Prelude.{option_map};
    ghost use Rattle.im_script.specs.{declared.script.Heard.TheVariants.Says, Grammar.texts};
    ghost use Rattle.im_script.specs.Script.{begun_part, begun_setup, draft_of, glance_at, heard, heard_in, HearsAs};
    ghost use Rattle.im_script.specs.Script.{line_after, line_says, named, new_draft, requested, SaysAs, words_after};

    /// Makes a reader that has read nothing.
    pub fn new(alloc: Global) -> Reader<'a>
        ensures { draft_of result ≡ new_draft }
    {
        Reader {
            stage: Stage::Start,
            names: IndexSet::new(alloc),
        }
    }

    /// Reads the first line that counts, if no part begins there.
    fn begin_setup(&mut self, words: &[&'a [u8]]) -> Result<Said, Refusal>
        ensures { SaysAs result (begun_setup (draft_of self.old) (texts words.now)) (draft_of self.new) }
    {
        if !is_setup(words) {
            return Err(Refusal::BadScript);
        }
        self.stage = Stage::Setup;
        Ok(Said::Nothing)
    }

    /// Reads a line that begins the part of the element with this number.
    fn begin_part(&mut self, number: &[u8]) -> Result<Said, Refusal>
        ensures { SaysAs result (begun_part (draft_of self.old) number.now) (draft_of self.new) }
    {
        let Some(element) = read_number(number, LAST_ELEMENT) else {
            return Err(Refusal::BadScript);
        };
        let element = element as u16;
        self.stage = Stage::Part(element);
        Ok(Said::Begins(element))
    }

    /// Reads a line in the setup.
    #[tactic(auto, using(crate::proofs::PlaceLemmas::texts_insert))]
    fn name_block(&mut self, words: &[&'a [u8]]) -> Result<Said, Refusal>
        ensures { SaysAs result (named (draft_of self.old) (texts words.now)) (draft_of self.new) }
    {
        let Some((name, block)) = read_named_block(&self.names, words) else {
            return Err(Refusal::BadScript);
        };
        self.names.insert(name).map_err(|_| Refusal::NoMemory)?;
        Ok(Said::Block(block))
    }

    /// Reads a line in a part.
    fn ask(&mut self, element: u16, words: &[&'a [u8]]) -> Result<Said, Refusal>
        ensures { SaysAs result (requested (draft_of self.old) element (texts words.now)) (draft_of self.new) }
    {
        match read_action(&self.names, words) {
            Some(action) => Ok(Said::Asks(ScriptLine { element, action })),
            None => Err(Refusal::BadScript),
        }
    }

    /// Reads a line that counts, from its words.
    fn read_words(&mut self, words: &[&'a [u8]]) -> Result<Said, Refusal>
        ensures { SaysAs result (line_after (draft_of self.old) (texts words.now)) (draft_of self.new) }
    {
        if let Some(number) = read_part(words) {
            return self.begin_part(number);
        }
        match self.stage {
            Stage::Start => self.begin_setup(words),
            Stage::Setup => self.name_block(words),
            Stage::Part(element) => self.ask(element, words),
        }
    }

    /// Reads a line from its words. An empty line and a remark say nothing.
    fn take_words(&mut self, words: &[&'a [u8]]) -> Result<Said, Refusal>
        ensures { SaysAs result (words_after (draft_of self.old) (texts words.now)) (draft_of self.new) }
    {
        if words.is_empty() || words[0].first() == Some(&b'#') {
            return Ok(Said::Nothing);
        }
        self.read_words(words)
    }

    /// Reads a line.
    fn read_line(&mut self, line: &'a [u8]) -> Result<Said, Refusal>
        ensures { SaysAs result (line_says (draft_of self.old) line.entry.now) (draft_of self.new) }
    {
        if !is_short(line) {
            return Err(Refusal::BadScript);
        }
        let mut words = ArrayVec::new();
        let Some(()) = put_first_words(line, &mut words) else {
            return Err(Refusal::BadScript);
        };
        self.take_words(words.as_slice())
    }

    /// Returns the fault of a refused line with this number. `glances` says whether the script may have glances. It
    /// stands by itself, so that what reads a line stays small.
    #[inline(never)]
    fn fault(&self, alloc: Global, line: usize, text: &'a [u8], glances: bool) -> ScriptFault
        ensures line { IfSome (bad_line result) (λ number. number ≡ line) }
        ensures size { is_of_size result ≡ false }
        ensures long { IfSome (bad_line result) (λ _. tells_length result ≡ not (is_short text.entry.now)) }
    {
        if text.len() > MAX_LINE {
            return ScriptFault::BadLine {
                line,
                fault: LineFault::TooLong,
            };
        }
        match split_words(alloc, text) {
            Ok(words) => ScriptFault::BadLine {
                line,
                fault: explain(self.stage, &self.names, words.as_slice(), glances),
            },
            Err(_) => ScriptFault::NoMemory,
        }
    }

    /// Reads the line with this number, from 1, and returns what it says at its place. The fault has the line's number
    /// and says what is wrong: it is `TooLong` if and only if the line has more than 4,096 bytes. Returns `NoMemory` if
    /// a growth was refused. After a fault, the reader is no longer of use.
    pub fn read(
        &mut self,
        alloc: Global,
        number: usize,
        line: &'a [u8],
    ) -> Result<Said, ScriptFault>
        ensures ok { IfOk result (λ said. line_says (draft_of self.old) line.entry.now
            ≡ Some (draft_of self.new, said)) }
        ensures bad { IfErr result (λ fault. IfSome (bad_line fault)
            (λ at. (at ≡ number) × (line_says (draft_of self.old) line.entry.now ≡ None))) }
        ensures size { IfErr result (λ fault. is_of_size fault ≡ false) }
        ensures long { IfErr result (λ fault. IfSome (bad_line fault)
            (λ _. tells_length fault ≡ not (is_short line.entry.now))) }
    {
        match self.read_line(line) {
            Ok(said) => Ok(said),
            Err(Refusal::BadScript) => Err(self.fault(alloc, number, line, false)),
            Err(_) => Err(ScriptFault::NoMemory),
        }
    }

    /// Returns the glance in these words, if the line may be one here.
    fn glance(&self, words: &[&'a [u8]]) -> Option<Heard>
        ensures { result ≡ glance_at (draft_of self.now) self.now.stage (texts words.now) }
    {
        let Stage::Part(element) = self.stage else {
            return None;
        };
        match read_glance(&self.names, words) {
            Some(place) => Some(Heard::Glances(element, place)),
            None => None,
        }
    }

    /// Reads a line of a script without glances.
    fn hear_said(&mut self, line: &'a [u8]) -> Result<Heard, Refusal>
        ensures { HearsAs result (option_map (λ r. (r.0, Says r.1)) (line_says (draft_of self.old) line.entry.now))
            (draft_of self.new) }
    {
        match self.read_line(line) {
            Ok(said) => Ok(Heard::Says(said)),
            Err(refusal) => Err(refusal),
        }
    }

    /// Reads a line from its words; it may be a glance.
    fn hear_words(&mut self, words: &[&'a [u8]]) -> Result<Heard, Refusal>
        ensures { HearsAs result (heard_in (draft_of self.old) (texts words.now)) (draft_of self.new) }
    {
        if let Some(glance) = self.glance(words) {
            return Ok(glance);
        }
        match self.take_words(words) {
            Ok(said) => Ok(Heard::Says(said)),
            Err(refusal) => Err(refusal),
        }
    }

    /// Reads a line in a script that may have glances.
    fn hear_any(&mut self, line: &'a [u8]) -> Result<Heard, Refusal>
        ensures { HearsAs result (heard true (draft_of self.old) line.entry.now) (draft_of self.new) }
    {
        if !is_short(line) {
            return Err(Refusal::BadScript);
        }
        let mut words = ArrayVec::new();
        let Some(()) = put_first_words(line, &mut words) else {
            return Err(Refusal::BadScript);
        };
        self.hear_words(words.as_slice())
    }

    /// Reads a line. `glances` says whether the script may have glances.
    fn hear_line(&mut self, line: &'a [u8], glances: bool) -> Result<Heard, Refusal>
        ensures { HearsAs result (heard glances (draft_of self.old) line.entry.now) (draft_of self.new) }
    {
        if glances {
            self.hear_any(line)
        } else {
            self.hear_said(line)
        }
    }

    /// Reads the line with this number. `glances` says whether the script may have glances.
    pub(crate) fn hear(
        &mut self,
        alloc: Global,
        number: usize,
        line: &'a [u8],
        glances: bool,
    ) -> Result<Heard, ScriptFault>
        ensures ok { IfOk result (λ said. heard glances (draft_of self.old) line.entry.now
            ≡ Some (draft_of self.new, said)) }
        ensures bad { IfErr result (λ fault. IfSome (bad_line fault)
            (λ at. (at ≡ number) × (heard glances (draft_of self.old) line.entry.now ≡ None))) }
        ensures size { IfErr result (λ fault. is_of_size fault ≡ false) }
        ensures long { IfErr result (λ fault. IfSome (bad_line fault)
            (λ _. tells_length fault ≡ not (is_short line.entry.now))) }
    {
        match self.hear_line(line, glances) {
            Ok(said) => Ok(said),
            Err(Refusal::BadScript) => Err(self.fault(alloc, number, line, glances)),
            Err(_) => Err(ScriptFault::NoMemory),
        }
    }

    /// Reads the line with this number, from 1, in a script that may have glances. All else is as in [`Reader::read`].
    pub fn read_with_glances(
        &mut self,
        alloc: Global,
        number: usize,
        line: &'a [u8],
    ) -> Result<Heard, ScriptFault>
        ensures ok { IfOk result (λ said. heard true (draft_of self.old) line.entry.now
            ≡ Some (draft_of self.new, said)) }
        ensures bad { IfErr result (λ fault. IfSome (bad_line fault)
            (λ at. (at ≡ number) × (heard true (draft_of self.old) line.entry.now ≡ None))) }
        ensures size { IfErr result (λ fault. is_of_size fault ≡ false) }
        ensures long { IfErr result (λ fault. IfSome (bad_line fault)
            (λ _. tells_length fault ≡ not (is_short line.entry.now))) }
    {
        self.hear(alloc, number, line, true)
    }
}
