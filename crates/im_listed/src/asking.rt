//! What is asked of an image: it waits in a queue, and a request may get its element's next number.
ghost use Rattle.std.specs.Prelude.{◌≡◌, ◌+◌, ◌<◌, ◌≤◌, [], ◌∷◌, ◌++◌, length, IfOk, IfErr};
ghost use Rattle.{im_types.specs.Types.MAX_GROUP, im_asks.specs.Behind.bounds_asked_all};
ghost use Rattle.im_front.specs.{declared.asks.TheConstants.MOST_ASKED, Lists.commands_asked, Lists.with_ticket};
ghost use Rattle.im_listed.specs.Asking.{asked_too, AsksNext, confirmed_before, IsNotNext, many_behind, window_behind};

use crate::image::Image;
use im_asks::{WindowPlace, bounds_asked, place_up_to};
use im_front::{AskedCommand, Asks, MOST_ASKED};
use im_types::{Command, MAX_GROUP, Op, Refusal, Request};

// Asks for the confirmation that comes before a request.
fn confirm_before(asks: &mut Asks, element: u16, place: WindowPlace)
    requires room { length asks.old < MOST_ASKED }
    ensures asked { asks.new ≡ asks.old ++ confirmed_before element place }
    ensures few { length asks.new ≤ length asks.old + 1 }
{
    if let WindowPlace::Confirm { upto, .. } = place {
        asks.submit(0, &Command::Confirm { element, upto });
    }
}

// Returns the bounds of an element's window behind what is asked, from those that it has.
fn moved_behind(bounds: (u64, u64), element: u16, asked: &[AskedCommand]) -> (u64, u64)
    ensures { result ≡ bounds_asked_all element (commands_asked asked.now) bounds }
{
    let mut moved = bounds;
    for it in asked {
        moved = bounds_asked(moved, element, &it.command);
    }
    moved
}

impl Image {
    /// Returns what is asked and not told yet, the oldest first. Those that are ahead come first.
    pub fn asked(&self) -> &[AskedCommand]
        ensures { result.now ≡ self.now.asked }
    {
        self.asks.asked()
    }

    /// Returns how many of those that are asked are ahead: none of them has acted.
    pub fn ahead(&self) -> usize
        ensures { result ≡ length self.now.engine.ahead }
    {
        self.engine.ahead().as_slice().len()
    }

    /// Returns how many are asked behind those that are ahead.
    pub fn behind(&self) -> usize
        ensures many { result ≡ many_behind self.now }
        ensures few { length self.now.asked ≤ result + MAX_GROUP }
    {
        self.asks.asked().len() - self.engine.ahead().as_slice().len()
    }

    /// Asks for a command, behind all that is asked. It leaves no step.
    pub fn submit(&mut self, ticket: u64, command: &Command)
        requires room { length self.old.asked < MOST_ASKED }
        ensures { self.new ≡ asked_too self.old (with_ticket ticket command.now ∷ []) }
    {
        self.asks.submit(ticket, command);
    }

    // Returns the bounds of an element's window behind what is asked.
    fn window_behind(&self, element: u16) -> Result<(u64, u64), Refusal>
        ensures { result ≡ window_behind self.now element }
    {
        match self.engine.memory().window(element) {
            Ok(bounds) => Ok(moved_behind(bounds, element, self.asks.asked())),
            Err(refusal) => Err(refusal),
        }
    }

    /// Asks for a request under its element's next number, behind all that is asked, and returns the number. If the
    /// window is full then, it asks before it for a confirmation with the ticket 0, up to the first entry that isn't
    /// answered yet, and at most up to `most`. It leaves no step.
    ///
    /// Refused with `NoElement`, with `WindowFull` if nothing can be confirmed, and with `Device` if a step was lost.
    pub fn submit_next(
        &mut self,
        ticket: u64,
        element: u16,
        op: Op,
        most: u64,
    ) -> Result<u64, Refusal>
        requires room { length self.old.asked + 2 ≤ MOST_ASKED }
        ensures asked { IfOk result (λ number. AsksNext self.old ticket element op most number self.new) }
        ensures refused { IfErr result (λ e. IsNotNext self.old element most e) }
        ensures same { IfErr result (λ e. self.new ≡ self.old) }
    {
        if self.lost {
            return Err(Refusal::Device);
        }
        let bounds = match self.window_behind(element) {
            Ok(bounds) => bounds,
            Err(refusal) => return Err(refusal),
        };
        let place = place_up_to(self.engine.memory(), element, bounds, most);
        if matches!(place, WindowPlace::Full) {
            return Err(Refusal::WindowFull);
        }
        confirm_before(&mut self.asks, element, place);
        let number = bounds.1;
        self.asks.submit(
            ticket,
            &Command::Request(Request {
                element,
                number,
                op,
            }),
        );
        Ok(number)
    }
}
