//! Marks of the elements that commands are of.
ghost use Rattle.std.specs.Prelude.{◌≡◌, true, slice_set};
ghost use Rattle.im_groups.specs.Marks.{element_behind, has_mark, HaveMarks};

use im_types::Command;

// Returns the element that a command is of.
#[inline(always)]
fn element_of(command: &Command) -> u16
    ensures { result ≡ element_behind command.now }
{
    match command {
        Command::Request(request) => request.element,
        Command::Confirm { element, .. } => *element,
    }
}

/// Returns whether an element has a mark, or is past the last mark.
#[inline(always)]
pub(crate) fn has_mark(marks: &[bool], element: u16) -> bool
    ensures { result ≡ has_mark marks.now element }
{
    marks.get(element as usize).copied().unwrap_or(true)
}

/// Marks the element that a command is of.
#[inline(always)]
pub(crate) fn mark(marks: &mut [bool], command: &Command)
    ensures { marks.new ≡ slice_set marks.old (element_behind command.now) true }
{
    let element = element_of(command) as usize;
    if element < marks.len() {
        marks[element] = true;
    }
}

/// Marks the elements that these commands are of.
pub(crate) fn mark_all(marks: &mut [bool], commands: &[Command])
    ensures { HaveMarks marks.new commands.now }
{
    for command in commands {
        mark(marks, command);
    }
}
