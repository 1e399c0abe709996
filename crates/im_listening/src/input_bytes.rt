//! What an input has.
use std::marker::Brand;

/// What an input has. Contracts alone see it. A caller's function has it as a type parameter, and each call of that
/// function picks its member.
pub trait InputBytes {
    ghost use Rattle.std.specs.Prelude.{ℕ, List, Option};

    /// The bytes that reads give from the first one on, where they are known.
    ghost whole: { Option (List ℕ) };
}

impl InputBytes for Brand {
    ghost use Rattle.std.specs.Prelude.{None};

    ghost whole = { None };
}
