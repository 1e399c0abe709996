//! A law of two dialogues, as the contract of a function that does nothing.
ghost use Rattle.std.specs.Prelude.{◌≡◌, ℕ};
ghost use Rattle.im_types.specs.Types.{Contents};
ghost use Rattle.im_dialogue.specs.Alike.{AskAlike, commands_said, EndAlike, LeaveOne, LineOf, TalkOf};
ghost use Rattle.im_dialogue.specs.Talk.{put_of};

use im_disk::Disk;
use im_engine::files_mean_one_thing;

/// Two dialogues on images that mean one memory, after as many commands, answer the same lines alike, and leave images
/// that mean one memory. So the members of a module that is on several hosts don't differ. Either may be on any disk;
/// its turns, its groups of lines, its room and its backups are its own. A line on the one side that is no command
/// may be missing on the other.
///
/// Ensures, in words:
///
/// - `answers`: of two lines that ask the same, each behind the same commands, the answers are the same. It holds of
///   commands, of lines that only look, of `window` and of `count`. It doesn't of `room`, `turn`, `about` and `backup`,
///   whose answers tell of one image, nor of a line that isn't in the grammar.
/// - `put`: behind the same commands the same ones were put on the disk. So the memory is the same there, by which each
///   answer is printed, and what those that watch are told.
/// - `means`: if both come to status 0 behind the same commands, each file that a crash then leaves of either means the
///   same memory, after as many commands.
///
/// All this holds of dialogues that answered no command `JournalFull`, on disks that are honest at the end.
pub fn same_lines_are_answered_alike<D: Disk, E: Disk>()
    ensures answers { (m : Contents) (count : ℕ) (one : LineOf D.Disk m count) (other : LineOf E.Disk m count)
        → AskAlike one other → one.last.answer ≡ other.last.answer }
    ensures put { (m : Contents) (count : ℕ) (one : LineOf D.Disk m count) (other : LineOf E.Disk m count)
        → commands_said one.ahead ≡ commands_said other.ahead → put_of m one.ahead ≡ put_of m other.ahead }
    ensures means { (m : Contents) (count : ℕ) (one : TalkOf D.Disk m count) (other : TalkOf E.Disk m count)
        → EndAlike one other → LeaveOne one other }
{
    files_mean_one_thing();
}
