//! The rule of the two copies: what is shown is kept, and whoever has seen it knows which book it belongs to.
use crate::copies::{Copy, History};
use atomic_table::{Join, Split};
use crossbeam_utils::rule::{Outcome, Protocol};

/// What a reader or the one who shows knows of the list of changes. It is for contracts alone: no value of it is made.
pub struct Known {
    /// The prefix that it has seen, if it has seen any.
    pub seen: Option<History>,
}

/// The rule of the two copies.
pub struct Shows;

impl Protocol<Copy, Known> for Shows {
    ghost use Rattle.im_glass.specs.Rule.{IsShownCopy, newcomer};

    ghost holds = { IsShownCopy };

    ghost first = { newcomer };
}

// What a look returns, and what a show changes.
pub struct Sees;

impl Outcome<Copy, Known> for Sees {
    ghost use Rattle.im_glass.specs.Rule.{SeesShown};

    ghost then = { SeesShown };
}

// What the one who shows tells a reader.
pub struct ShownNotes;

impl Split<Known> for ShownNotes {
    ghost left = { λ known. known };

    ghost right = { λ known. known };
}

impl Join<Known> for ShownNotes {
    ghost use Rattle.im_glass.specs.Rule.{newcomer};

    ghost both = { λ known note. note };

    ghost spent = { newcomer };
}
