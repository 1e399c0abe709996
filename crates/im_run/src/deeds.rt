//! The lines of what was done for an element.
ghost use Rattle.std.specs.Prelude.{◌≡◌, [], ◌∷◌, ◌++◌, IfOk, OnOk};
ghost use Rattle.im_run.specs.declared.served.Did.TheVariants.{Sent};
ghost use Rattle.im_run.specs.Doing.{glances_later, glances_told, told_among};

use crate::served::Did;
use im_serving::{Glanced, ServedNumbers};
use im_text::Waited;
use im_types::Entry;
use std::alloc::{AllocError, Global};

// Adds those of an element's glances that were made after at most `behind` requests, and returns the later ones.
fn add_glances<'a>(
    told: &mut Vec<Did>,
    element: u16,
    made: &'a [Glanced],
    behind: usize,
) -> Result<&'a [Glanced], AllocError>
    ensures told { IfOk result (λ _. told.new.items ≡ told.old.items ++ glances_told element behind made.entry.now) }
    ensures later { IfOk result (λ later. later.now ≡ glances_later behind made.entry.now) }
{
    let mut rest = made;
    while let Some((glanced, later)) = rest.split_first() {
        if glanced.behind > behind {
            return Ok(rest);
        }
        told.push(Did::Glanced(element, glanced.address, glanced.value))?;
        rest = later;
    }
    Ok(rest)
}

// Adds a request.
fn add_request(
    told: &mut Vec<Did>,
    element: u16,
    number: u64,
    entry: Entry,
) -> Result<(), AllocError>
    ensures { OnOk result (told.new.items ≡ told.old.items ++ Sent (record {
      element = element;
      number = number;
      entry = entry;
    }) ∷ []) }
{
    told.push(Did::Sent(Waited {
        element,
        number,
        entry,
    }))?;
    Ok(())
}

/// Returns what is told of an element: its requests that were sent, each with its entry, and its glances in their place
/// among them.
pub fn told_at(
    alloc: Global,
    element: u16,
    served: &ServedNumbers,
    made: &[Glanced],
) -> Result<Vec<Did>, AllocError>
    ensures { IfOk result (λ told. told.items ≡ told_among element served.now.first 0 served.now.entries.items
        made.now) }
{
    let entries = served.entries.as_slice();
    let mut told = Vec::new(alloc);
    let mut rest = made;
    let mut at: usize = 0;
    for entry in entries {
        rest = add_glances(&mut told, element, rest, at)?;
        let Some(number) = served.first.checked_add(at as u64) else {
            return Err(AllocError); // No element has so many numbers.
        };
        add_request(&mut told, element, number, *entry)?;
        at += 1;
    }
    let _none = add_glances(&mut told, element, rest, at)?;
    Ok(told)
}
