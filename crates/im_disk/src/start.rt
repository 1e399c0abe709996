//! Which file is opened and what it held then, which only clauses read, and how long the opening waits.
ghost use Rattle.std.specs.Prelude.{ℕ, List, []};
ghost use Rattle.im_disk.specs.Moment.{Moment};

/// The path of a file, its first moment when it is opened, and what its failing calls come to. A function over `S`
/// asks nothing of these members, so it is proved for each path, every such moment and all such outcomes. No code can
/// read them. Code can ask only whether the opening waits for the file's lock.
///
/// One value of a type stands for one opening: [`FileDisk::open`](crate::FileDisk::open) uses it up.
pub trait Start: Drop {
    /// The path at which the file is opened. A file that is opened at another one isn't honest.
    ghost path: { List ℕ };

    /// The bytes, and the ranges that an earlier process left in doubt.
    ghost first: { Moment };

    /// What the failing calls come to, in their order.
    ghost outcomes: { List (List ℕ) };

    /// Returns whether to try the file again while another opening holds its lock. It is asked after each try, and lets
    /// some time pass before it returns true. The default doesn't wait.
    fn tries_again(&mut self) -> bool {
        false
    }
}

/// The start that `main` names. A clause at this type alone says nothing about a file that isn't empty. What holds of a
/// real file is what is proved for every `S: Start`.
#[derive(Drop)]
pub struct Unknown;

impl Start for Unknown {
    ghost path = { [] };

    ghost first = { record { bytes = []; ranges = [] } };

    ghost outcomes = { [] };
}
