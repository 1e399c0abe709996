//! What is asked of an image, and what is told, in C's form.
ghost use Rattle.std.specs.Prelude.{◌≡◌, ◌≤◌, length};
ghost use Rattle.im_c.specs.Asked.{command_told, first_told, told_for_c};

use crate::group::outcome_served;
use crate::plain::{LtCommand, LtOutcome};
use im_front::ToldAnswer;
use im_types::Command;
use im_types::codes::{address_of, op_code, op_value};

/// What [`lt_front_advance`](crate::lt_front_advance) did. `refusal` is 0 or the number of the refusal; if it isn't 0,
/// nothing is ahead.
#[repr(C)]
#[derive(Clone, Copy, Default)]
pub struct LtAdvanced {
    /// 0, or the number of the refusal.
    pub refusal: u8,
    /// How many of those that are asked are ahead now.
    pub ahead: u8,
    /// How many are told.
    pub answered: u8,
}

/// A command that was asked, by its ticket, and its outcome.
#[repr(C)]
#[derive(Clone, Copy, Default)]
pub struct LtTold {
    /// What the caller knows it by.
    pub ticket: u64,
    /// Its outcome.
    pub outcome: LtOutcome,
}

/// A command that is asked. `state` is 0 if there is none, and then the rest is 0; else 2 if it is ahead, and 1 if it
/// isn't.
#[repr(C)]
#[derive(Clone, Copy)]
pub struct LtAsked {
    /// What the caller knows it by.
    pub ticket: u64,
    /// The command.
    pub command: LtCommand,
    /// Whether there is one, and whether it is ahead.
    pub state: u8,
}

/// A command in C's form.
pub(crate) fn command_told(command: &Command) -> LtCommand
    ensures { result ≡ command_told command.now }
{
    match command {
        Command::Request(request) => LtCommand {
            tag: op_code(request.op),
            element: request.element,
            address: address_of(request.op),
            number: request.number,
            value: op_value(request.op),
        },
        Command::Confirm { element, upto } => LtCommand {
            tag: 8,
            element: *element,
            address: 0,
            number: *upto,
            value: 0,
        },
    }
}

// An answer in C's form.
fn told_for_c(told: &ToldAnswer) -> LtTold
    ensures { result ≡ told_for_c told.now }
{
    LtTold {
        ticket: told.asked.ticket,
        outcome: outcome_served(told.served),
    }
}

/// Writes answers at the first places.
pub(crate) fn tell_first(told: &[ToldAnswer], places: &mut [LtTold])
    requires few { length told.now ≤ length places.old }
    ensures { places.new ≡ first_told told.now places.old }
{
    let mut count = 0;
    for it in told {
        places[count] = told_for_c(it);
        count += 1;
    }
}
