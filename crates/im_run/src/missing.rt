//! The elements of a script's parts that the memory doesn't have (decision 871).
ghost use Rattle.std.specs.Prelude.{◌≡◌, ◌<◌, None};
ghost use Rattle.im_script.specs.declared.Heard.TheVariants.{Says};
ghost use Rattle.im_run.specs.Orders.{BeginsAmong};

use im_script::{Heard, Said};

// Returns the least element that is missing, if this one is among those that may be.
fn least_missed(elements: u16, missing: Option<u16>, element: u16) -> Option<u16>
    ensures there { result ≡ None → (missing ≡ None) × (element < elements) }
{
    if element < elements {
        return missing;
    }
    match missing {
        Some(least) => Some(least.min(element)),
        None => Some(element),
    }
}

// The same, of the element whose part a line of any script begins, if it begins one.
fn missed_in(elements: u16, missing: Option<u16>, said: Said) -> Option<u16>
    ensures there { result ≡ None → (missing ≡ None) × BeginsAmong elements (Says said) }
{
    match said {
        Said::Nothing => missing,
        Said::Block(_block) => missing,
        Said::Begins(element) => least_missed(elements, missing, element),
        Said::Asks(_line) => missing,
    }
}

/// Returns the least element that is missing, behind a line that may begin a part.
pub(crate) fn missed_by(elements: u16, missing: Option<u16>, heard: Heard) -> Option<u16>
    ensures there { result ≡ None → (missing ≡ None) × BeginsAmong elements heard }
{
    match heard {
        Heard::Says(said) => missed_in(elements, missing, said),
        Heard::Glances(_element, _place) => missing,
    }
}
