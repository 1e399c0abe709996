//! Observers, who are told what happens in some work.

/// Someone who follows work. What it does with what it is told doesn't concern the work.
pub trait Observer<News> {
    /// Returns whether it wants to learn of each thing at once, as a person at a terminal does. It is asked before work
    /// whose news takes more work. If it doesn't, that news may be left out, or come later.
    fn listens(&mut self) -> bool {
        false
    }

    /// Takes in what happened.
    fn tell(&mut self, news: News);
}

/// The observer that heeds nothing.
#[derive(Clone, Copy, Drop)]
pub struct Unobserved;

impl<News: Drop> Observer<News> for Unobserved {
    fn tell(&mut self, _news: News) {}
}
