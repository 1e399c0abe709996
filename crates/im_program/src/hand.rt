//! What work has at hand beside the writer.
ghost use Rattle.std.specs.Prelude.{◌≡◌};

use crate::descriptors::Descriptors;

/// What work has at hand beside the writer.
#[derive(Drop)]
pub struct AtHand<'a, R, I, N> {
    /// The system.
    pub rt: &'a R,
    /// What takes the numbers of the standard streams while files are opened.
    pub held: &'a Descriptors,
    /// Standard input.
    pub input: &'a mut I,
    /// Who is told what happens, and why something is refused.
    pub observer: &'a mut N,
}

impl<'a, R, I, N> AtHand<'a, R, I, N> {
    /// Takes it apart.
    pub(crate) fn parts(self) -> (&'a R, &'a Descriptors, &'a mut I, &'a mut N)
        ensures input { result.2.now ≡ self.entry.input.now }
    {
        let AtHand {
            rt,
            held,
            input,
            observer,
        } = self;
        (rt, held, input, observer)
    }
}
