//! Laws of what a file is read as, or a printed line, apart from how it is read. The run of a journal is the longest
//! row of whole groups, where its definition and the reader walk from slot to slot. What a file means is a memory. What
//! is said of a line is said of no other.
//!
//! Each law is the contract of a function that does nothing.
#![tactic(auto)]

ghost use Rattle.std.specs.Prelude.{◌≡◌, ℕ, ◌≢◌, List, ◌++◌, length, Some, All};
ghost use Rattle.im_types.specs.Types.{Command, Contents, IsMemory, WaitingAgrees, Ring, run, commands_in, Tail, tail};
ghost use Rattle.im_types.specs.Types.{Means};
ghost use Rattle.im_text.specs.{declared.Style.TheVariants.Quiet, Said.said_all, Said.said_in};
ghost use Rattle.im_readings.specs.Lines.{FitsLine, IsOneLine, refusals_in};
ghost use Rattle.im_readings.specs.Rows.{AreSlotsFrom, HasLongestRow, HasTail};

use im_laws::memory_stays_one;
use im_text::{OutputLine, Style};

/// The run of commands is the longest row of whole groups from its first number on. Each group stands behind an open
/// gate, its commands under the numbers that are due, at most once round the ring. Where there is no such row, the run
/// spells no commands. Its slots are those from the first number on.
pub fn runs_are_longest_rows()
    ensures found { (ring : Ring) (first : ℕ) (file : List ℕ) (commands : List Command)
        → commands_in 0 first (run ring first file) ≡ Some commands → HasLongestRow ring first file commands }
    ensures only { (ring : Ring) (first : ℕ) (file : List ℕ) (commands : List Command)
        → HasLongestRow ring first file commands → commands_in 0 first (run ring first file) ≡ Some commands }
    ensures count { (ring : Ring) (first : ℕ) (file : List ℕ) (commands : List Command)
        → HasLongestRow ring first file commands → length (run ring first file) ≡ length commands }
    ensures rest { (ring : Ring) (first : ℕ) (file : List ℕ) → AreSlotsFrom ring first file (run ring first file) }
{}

/// The tail of a journal has the commands of the longest row. Its room is the closed gates behind the row, up to the
/// first open one, if each slot from there on has the number of an earlier command. Other journals have no tail.
pub fn tails_are_longest_rows()
    ensures found { (ring : Ring) (first : ℕ) (file : List ℕ) (t : Tail)
        → tail ring first file ≡ Some t → HasTail ring first file t }
    ensures only { (ring : Ring) (first : ℕ) (file : List ℕ) (t : Tail)
        → HasTail ring first file t → tail ring first file ≡ Some t }
{}

/// What a file means is a memory: its blocks are whole, its windows within their bounds, and its waiters and entries
/// agree.
pub fn files_mean_memories()
    ensures memory { (m : Contents) (count room : ℕ) (file : List ℕ) → Means m count room file
        → IsMemory (length m.cells) (length m.windows) m }
    ensures agrees { (m : Contents) (count room : ℕ) (file : List ℕ) → Means m count room file → WaitingAgrees m }
{
    memory_stays_one();
}

// The numbers of each line that a program holds fit.
fn lines_fit(line: OutputLine)
    ensures { FitsLine line }
{}

/// What is said of lines is read back, in words or as objects. Each line is one line of text, that ends with a line
/// feed and has no other. Lines that are said alike are the same, one or many; and of a text that begins with what is
/// said of whole lines, these are the first. Where only refusals are told, just these are read back.
pub fn lines_are_read_back()
    ensures one { (style : Style) (line : OutputLine) → style ≢ Quiet → FitsLine line → IsOneLine (said_in style line) }
    ensures alike { (style : Style) (a b : OutputLine) → style ≢ Quiet → FitsLine a → FitsLine b
        → said_in style a ≡ said_in style b → a ≡ b }
    ensures all { (style : Style) (a b : List OutputLine) → style ≢ Quiet → All FitsLine a → All FitsLine b
        → said_all style a ≡ said_all style b → a ≡ b }
    ensures begins { (style : Style) (a b : List OutputLine) (rest : List ℕ) → style ≢ Quiet → All FitsLine a
        → All FitsLine b → said_all style a ≡ said_all style b ++ rest → (more : List OutputLine) × (a ≡ b ++ more) }
    ensures quiet { (a b : List OutputLine) → said_all Quiet a ≡ said_all Quiet b → refusals_in a ≡ refusals_in b }
    ensures only { (a b : List OutputLine) → refusals_in a ≡ refusals_in b → said_all Quiet a ≡ said_all Quiet b }
{}
