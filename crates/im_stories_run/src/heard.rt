//! What is told of earlier scripts while a script is run.

use im_serving::{EarlierAnswer, Standing, Teller};
use im_types::Observer;
use std::alloc::AllocError;
use std::sync::{Mutex, Wait};

/// Notes the answers of earlier scripts that servers tell.
pub struct Hearing<'a, R> {
    /// The handle.
    pub rt: &'a R,
    /// What was told so far.
    pub heard: &'a Mutex<Vec<EarlierAnswer>>,
}

impl<R> Clone for Hearing<'_, R> {
    fn clone(&self) -> Result<Self, AllocError> {
        Ok(*self)
    }
}

impl<R> Copy for Hearing<'_, R> {}

impl<R> Observer<Standing> for Hearing<'_, R> {
    fn tell(&mut self, _standing: Standing) {}
}

impl<R: Wait> Teller for Hearing<'_, R> {
    ghost use Rattle.std.specs.Prelude.{None};

    ghost told = { λ _. None };

    fn tell_earlier(&mut self, answer: EarlierAnswer) {
        let mut heard = self.heard.lock(self.rt);
        let _kept = heard.push(answer);
    }
}
