//! Who is told the answers of earlier scripts, before they are confirmed.

use crate::earlier::EarlierAnswer;
use im_types::Unobserved;

/// Someone who is told the answers that are kept for requests of earlier scripts, each before it is confirmed.
pub trait Teller {
    ghost use Rattle.std.specs.Prelude.{List, [], ◌∷◌, Option};
    ghost use Rattle.im_serving.specs.{declared.earlier.EarlierAnswer.EarlierAnswer, Earlier.ToldAlso};

    /// What it was told, if that is known.
    ghost told: { Self → Option (List EarlierAnswer) };

    /// Takes in an answer, whose entry may be confirmed from then on.
    fn tell_earlier(&mut self, answer: EarlierAnswer)
        ensures told { ToldAlso (told self.old) (told self.new) (answer ∷ []) };
}

impl Teller for Unobserved {
    ghost use Rattle.std.specs.Prelude.{None};

    ghost told = { λ _. None };

    fn tell_earlier(&mut self, _answer: EarlierAnswer) {}
}
