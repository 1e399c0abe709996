//! The sizes that a copy is asked to have.
ghost use Rattle.std.specs.Prelude.{◌≡◌, IfSome, IfNone, unwrap_or};
ghost use Rattle.im_types.specs.Types.{AreLimits, sizes_of};

use im_types::Limits;

/// The sizes that a copy is asked to have. A size that isn't given is that of the old image.
#[derive(Clone, Copy, Debug, PartialEq, Eq)]
pub struct Asked {
    /// The number of cells. The range is 1 to 1,048,576.
    pub cells: Option<u32>,
    /// The number of elements. The range is 1 to 64.
    pub elements: Option<u32>,
    /// The number of journal slots. The range is 16 to 4,096.
    pub slots: Option<u32>,
}

// A number, if it is given, or that of the old image.
fn number_or(number: Option<u32>, old: u32) -> u32
    ensures { result ≡ unwrap_or number old }
{
    match number {
        Some(number) => number,
        None => old,
    }
}

impl Asked {
    ghost use Rattle.im_migration.specs.Resizing.{sizes_asked};

    /// Returns the limits of a copy of an image with these limits, or `None` if a number is out of its range.
    pub(crate) fn limits(self, old: Limits) -> Option<Limits>
        ensures some { IfSome result (λ l. sizes_of l ≡ sizes_asked self (sizes_of old)) }
        ensures none { let s = sizes_asked self (sizes_of old) in
            IfNone result (AreLimits s.cells s.elements s.slots → ⊥) }
    {
        let cells = number_or(self.cells, old.cells);
        let slots = number_or(self.slots, old.slots);
        let Ok(elements) = u16::try_from(number_or(self.elements, old.elements as u32)) else {
            return None;
        };
        Limits::new(cells, elements, slots)
    }
}
