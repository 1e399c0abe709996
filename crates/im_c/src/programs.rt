//! What a program in C does: it formats a file, is stopped on the way through the steps of a take, and opens the file
//! again.
ghost use Rattle.std.specs.Prelude.{IfSome, IsSome};

use crate::{
    LtCommand, LtImage, LtOutcome, LtStep, lt_close, lt_format, lt_held_collect, lt_held_count,
    lt_held_step_at, lt_held_step_bytes, lt_image_length, lt_open, lt_serve,
};
use im_listed::Image;
use im_types::Limits;
use std::alloc::{AllocError, Global};
use std::test::Fail;

// The file of a program, and the outcome that it was told last.
#[derive(Drop)]
struct Program {
    alloc: Global,
    file: Vec<u8>,
    told: LtOutcome,
}

// Returns a command of an element: its tag, its number, the address and the value.
fn asked(element: u16, tag: u8, number: u64, address: u32, value: u64) -> LtCommand {
    LtCommand {
        tag,
        element,
        address,
        number,
        value,
    }
}

// Returns a handle that a call may overwrite. C's is of zero bytes; this one holds an image, which is lost then.
fn spare(alloc: Global) -> Option<LtImage> {
    let image = Image::format(alloc, Limits::new(1, 1, 16)?).ok()?;
    Some(LtImage::of_box(Box::new(alloc, image).ok()?))
}

impl Program {
    // Makes a file of zeros, with the length of an image of 2 cells, 2 elements and 16 slots.
    fn new(alloc: Global) -> Result<Program, AllocError> {
        Ok(Program {
            alloc,
            file: vec![in alloc; 0; lt_image_length(2, 2, 16) as usize]?,
            told: LtOutcome::default(),
        })
    }

    // Makes that image in the file.
    fn format(&mut self) -> Option<LtImage>
        ensures { IfSome result (λ h. IsSome h.value) }
    {
        let mut next = spare(self.alloc)?;
        match lt_format(self.alloc, 2, 2, 16, &mut next) {
            0 => self.carry_out_all(next, false),
            _ => None,
        }
    }

    // Opens the image in the file, if it is one.
    fn open(&self) -> Option<LtImage>
        ensures { IfSome result (λ h. IsSome h.value) }
    {
        let mut next = spare(self.alloc)?;
        match lt_open(self.alloc, self.file.as_slice(), &mut next) {
            0 => Some(next),
            _ => None,
        }
    }

    // Carries out the step with this index, if there is one.
    fn carry_out(&mut self, held: LtImage, index: usize) -> Option<LtImage>
        requires { IsSome held.value }
        ensures { IfSome result (λ h. IsSome h.value) }
    {
        let mut shown = spare(self.alloc)?;
        let mut copied = spare(self.alloc)?;
        let mut step = LtStep {
            kind: 0,
            place: 0,
            length: 0,
        };
        lt_held_step_at(held, index, &mut shown, &mut step);
        let from = step.place as usize;
        let end = from.checked_add(step.length as usize)?;
        if self.file.len() < end {
            return None;
        }
        let file = self.file.as_mut_slice();
        let refusal = lt_held_step_bytes(shown, index, &mut copied, &mut file[from..end]);
        match (step.kind, refusal) {
            (1, 0) | (2, 255) => Some(copied),
            _ => None,
        }
    }

    // Carries out the four steps of a call, or the first two of them.
    fn carry_out_all(&mut self, held: LtImage, is_stopped: bool) -> Option<LtImage>
        requires { IsSome held.value }
        ensures { IfSome result (λ h. IsSome h.value) }
    {
        let held = self.carry_out(held, 0)?;
        let held = self.carry_out(held, 1)?;
        if is_stopped {
            return Some(held);
        }
        let held = self.carry_out(held, 2)?;
        self.carry_out(held, 3)
    }

    // Serves a command, and carries out its steps in the same way.
    fn serve(&mut self, held: LtImage, asked: LtCommand, is_stopped: bool) -> Option<LtImage>
        requires { IsSome held.value }
        ensures { IfSome result (λ h. IsSome h.value) }
    {
        let mut next = spare(self.alloc)?;
        let _refusal = lt_serve(held, &asked, &mut next, &mut self.told);
        self.carry_out_all(next, is_stopped)
    }

    // Asks for the entry of a request.
    fn collect(&mut self, held: LtImage, element: u16, number: u64) -> Option<LtImage>
        requires { IsSome held.value }
        ensures { IfSome result (λ h. IsSome h.value) }
    {
        let mut next = spare(self.alloc)?;
        lt_held_collect(held, element, number, &mut next, &mut self.told);
        Some(next)
    }

    // What was told last: the refusal, the tag and the value.
    fn told(&self) -> (u8, u8, u64) {
        (self.told.refusal, self.told.tag, self.told.value)
    }

    // Allocates a cell, puts a value there, and takes it. The take's slot is written and synced, and its gate isn't
    // open when the program is stopped. Returns what it was told.
    fn begin(&mut self) -> Option<[(u8, u8, u64); 3]> {
        let held = self.format()?;
        let held = self.serve(held, asked(0, 2, 1, 1, 0), false)?;
        let allocated = self.told();
        let held = self.serve(held, asked(0, 7, 2, 0, 5), false)?;
        let put = self.told();
        let held = self.serve(held, asked(1, 6, 1, 0, 0), true)?;
        lt_close(held);
        Some([allocated, put, self.told()])
    }

    // Opens the file again, looks for the take's entry, and takes. Returns what it was told.
    fn take_again(&mut self) -> Option<[(u8, u8, u64); 2]> {
        let held = self.open()?;
        let held = self.collect(held, 1, 1)?;
        let missed = self.told();
        let held = self.serve(held, asked(1, 6, 1, 0, 0), false)?;
        lt_close(held);
        Some([missed, self.told()])
    }

    // Opens the file once more, and looks for the take's entry. Returns it, and how many commands the image has.
    fn look(&mut self) -> Option<((u8, u8, u64), u64)> {
        let held = self.open()?;
        let held = self.collect(held, 1, 1)?;
        let mut counted = spare(self.alloc)?;
        let count = lt_held_count(held, &mut counted);
        lt_close(counted);
        Some((self.told(), count))
    }
}

#[test]
fn a_take_acts_once_over_a_stop(rt: HostRuntime) -> Result<(), Fail> {
    let mut it = Program::new(rt.alloc())?;
    assert!(rt; it.open().is_none());
    assert!(rt; it.begin() == Some([(0, 1, 0), (0, 5, 0), (0, 4, 5)]));
    assert!(rt; it.take_again() == Some([(1, 0, 0), (0, 4, 5)]));
    assert!(rt; it.look() == Some(((0, 4, 5), 3)));
    Ok(())
}
