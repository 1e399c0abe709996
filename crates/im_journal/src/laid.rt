// The commands that are ahead of a journal's run, as contracts know them. Code knows only how many they are.
ghost use Rattle.std.specs.Prelude.{◌≡◌, [], length};

use arrayvec::ArrayVec;
use im_types::{Command, MAX_GROUP};
use std::marker::Model;
use std::snapshot::Snapshot;

/// Commands whose bodies are on the disk. Contracts see them as a list.
#[derive(Drop)]
pub(crate) struct Laid {
    many: usize,
    commands: LaidCommands,
}

// A snapshot takes no bytes.
#[derive(Drop)]
enum LaidCommands {
    Nothing,
    These(Snapshot<ArrayVec<Command, MAX_GROUP>>),
}

impl Model for Laid {
    ghost use Rattle.std.specs.Prelude.{◌≡◌, List, length};
    ghost use Rattle.im_types.specs.Types.{Command};
    ghost use Rattle.im_journal.specs.Laid.{laid_commands};

    ghost Value = { List Command };

    ghost view = { λ l. laid_commands l.commands };

    ghost invariant = { λ l. l.many ≡ length (laid_commands l.commands) };
}

impl Laid {
    /// None.
    pub(crate) fn none() -> Laid
        ensures { result ≡ [] }
    {
        Laid {
            many: 0,
            commands: LaidCommands::Nothing,
        }
    }

    /// These commands.
    pub(crate) fn of(commands: &ArrayVec<Command, MAX_GROUP>) -> Laid
        ensures { result ≡ commands.now.items }
    {
        Laid {
            many: commands.as_slice().len(),
            commands: LaidCommands::These(Snapshot::of(commands)),
        }
    }

    /// How many they are.
    pub(crate) fn many(&self) -> usize
        ensures { result ≡ length self.now }
    {
        self.many
    }
}
