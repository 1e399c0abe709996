//! Changes are put ahead on the pane before the engine is lent, and shown after it.
ghost use Rattle.std.specs.Prelude.{◌≡◌, true, false, [], ◌++◌, length, IfOk, IfErr, OnOk, OnErr};
ghost use Rattle.{im_types.specs.Types.NoMemory, im_groups.specs.Commands.takes_place};
ghost use Rattle.im_controller.specs.Lends.{changes_put};

use im_changes::change_by;
use im_glass::{Pane, PaneName, Told};
use im_groups::takes_place;
use im_memory::Memory;
use im_types::{Command, Refusal};
use std::sync::Wait;

// Puts ahead what a command changes, if the command is put on the disk, and returns whether it is. Returns `NoMemory`
// if the pane has no room for the change.
pub(crate) fn put_ahead<J: PaneName>(
    pane: &mut Pane<J>,
    memory: &Memory,
    left: u64,
    command: &Command,
) -> Result<bool, Refusal>
    requires cells { pane.old.cells ≡ length memory.now.contents.cells }
    ensures taken { IfOk result (λ taken. taken ≡ takes_place memory.now.contents left command.now) }
    ensures ahead { OnOk result (pane.new ≡ record pane.old {
      ahead = pane.old.ahead ++ changes_put memory.now.contents left command.now;
    }) }
    ensures only { IfErr result (λ refusal. refusal ≡ NoMemory) }
    ensures roomless { OnErr result (takes_place memory.now.contents left command.now ≡ true) }
    ensures same { OnErr result (pane.new ≡ pane.old) }
{
    if !takes_place(memory, left, command) {
        return Ok(false);
    }
    pane.put_ahead(change_by(memory, command))?;
    Ok(true)
}

// Shows what was put ahead, if there is anything and the engine hasn't failed. Returns what is shown then.
pub(crate) fn show_put<J: PaneName, R: Wait>(
    rt: &R,
    pane: &mut Pane<J>,
    failed: bool,
    put: bool,
) -> Told<J>
    requires none { put ≡ false → pane.old.ahead ≡ [] }
    ensures shown { failed ≡ false → pane.new ≡ record pane.old {
      shown = pane.old.shown ++ pane.old.ahead;
      ahead = [];
    } }
    ensures hidden { failed ≡ true → pane.new ≡ pane.old }
    ensures told { result ≡ pane.new.shown }
{
    if failed {
        return pane.told();
    }
    if !put {
        return pane.told();
    }
    pane.show(rt)
}
