//! Which commands the plan has, if there is one.
ghost use Rattle.std.specs.Prelude.{◌≡◌};
ghost use Rattle.im_controller.specs.Planned.{has_command, has_request};

use im_planning::Plan;
use im_types::{Command, Request};

// Returns whether the plan has a request, with its operation, under its number. Without a plan any request may come.
pub(crate) fn has_request(plan: &Option<Plan>, request: &Request) -> bool
    ensures { result ≡ has_request plan.now request.now }
{
    match plan {
        None => true,
        Some(plan) => plan.has(request),
    }
}

// Returns the same of a command. Any confirmation may come.
pub(crate) fn has_command(plan: &Option<Plan>, command: &Command) -> bool
    ensures { result ≡ has_command plan.now command.now }
{
    match command {
        Command::Request(request) => has_request(plan, request),
        Command::Confirm { .. } => true,
    }
}
