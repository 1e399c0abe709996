//! The orders of all requests of a script, be they settled or not.
ghost use Rattle.std.specs.Prelude.{◌≡◌, [], map, length, IfOk, OnOk};
ghost use Rattle.im_script.specs.declared.Heard.TheVariants.{Says};
ghost use Rattle.im_run.specs.Orders.{AreAllOrders, ask_of, asks_among, first_behind, HasHeard, HasReadTo};
ghost use Rattle.im_run.specs.Orders.{script_heard};

use crate::numbering::{keep_order, no_orders};
use crate::orders::{add_glance, add_line};
use crate::sheet::{AllOrders, Order};
use im_script::{Heard, Reader, Said, Script, ScriptFault, split_line};
use im_text::Reason;
use std::alloc::Global;

// Adds what a line says that is no glance: a request of a part. The blocks of the setup are no part's.
fn add_said(orders: &mut Vec<Order>, bases: &[u32], said: Said) -> Result<(), Reason>
    ensures { OnOk result (HasHeard [] (Says said) bases.now bases.now orders.old.items orders.new.items []) }
{
    match said {
        Said::Nothing => Ok(()),
        Said::Begins(_element) => Ok(()),
        Said::Block(_block) => Ok(()),
        Said::Asks(line) => add_line(orders, bases, line),
    }
}

// Adds what a line says.
fn add_heard(orders: &mut Vec<Order>, bases: &[u32], heard: Heard) -> Result<(), Reason>
    ensures { OnOk result (HasHeard [] heard bases.now bases.now orders.old.items orders.new.items []) }
{
    match heard {
        Heard::Says(said) => add_said(orders, bases, said),
        Heard::Glances(element, place) => add_glance(orders, bases, element, place),
    }
}

// Adds what each line says, in order.
fn add_lines(
    alloc: Global,
    orders: &mut Vec<Order>,
    bases: &[u32],
    script: &Script<'_>,
) -> Result<(), Reason>
    ensures { OnOk result (HasReadTo [] (script_heard script.now) orders.old.items [] [] bases.now orders.new.items) }
{
    let mut reader = Reader::new(alloc);
    let mut rest = Some(script.text());
    for number in 1..usize::MAX {
        let text = match rest {
            Some(text) => text,
            None => return Ok(()),
        };
        let (line, behind) = split_line(text);
        rest = behind;
        let heard = match reader.read_with_glances(alloc, number, line) {
            Ok(heard) => heard,
            Err(fault) => return Err(Reason::Script(fault)), // There was no memory for it.
        };
        match add_heard(orders, bases, heard) {
            Ok(()) => {}
            Err(reason) => return Err(reason),
        }
    }
    Err(Reason::Script(ScriptFault::TooLarge)) // No script has so many lines.
}

// Returns the number of an element's first request in a part.
fn first_behind(bases: &[u32], element: u16) -> u64
    ensures { result ≡ first_behind (length bases.now) element }
{
    if element == 0 {
        bases.len() as u64 + 1
    } else {
        1
    }
}

// Returns the orders that ask for something, with the numbers that they have in the script.
fn number_all(alloc: Global, orders: Vec<Order>, bases: &[u32]) -> Result<Vec<Order>, Reason>
    ensures asked { IfOk result (λ numbered. map ask_of numbered.items
        ≡ asks_among (first_behind (length bases.now)) orders.items) }
{
    let mut numbered = match Vec::with_capacity(alloc, orders.len()) {
        Ok(numbered) => numbered,
        Err(_) => return Err(Reason::Memory),
    };
    for order in orders {
        let element = order.element;
        let first = first_behind(bases, element);
        match keep_order(&mut numbered, order, 0, 0, first) {
            Ok(()) => {}
            Err(reason) => return Err(reason),
        }
    }
    Ok(numbered)
}

/// Returns what each element asks for in all of a script, from the least element, if the names stand for these bases,
/// one for each block of the setup. It is refused with `Place` if a request's place lies past the last address, and
/// with `Memory`.
pub fn read_whole(alloc: Global, bases: &[u32], script: &Script<'_>) -> Result<AllOrders, Reason>
    ensures { IfOk result (λ whole. AreAllOrders bases.now (script_heard script.now)
        (map ask_of whole.orders.items)) }
{
    let mut orders = match no_orders(alloc) {
        Ok(orders) => orders,
        Err(_) => return Err(Reason::Memory),
    };
    match add_lines(alloc, &mut orders, bases, script) {
        Ok(()) => match number_all(alloc, orders, bases) {
            Ok(orders) => Ok(AllOrders { orders }),
            Err(reason) => Err(reason),
        },
        Err(reason) => Err(reason),
    }
}
