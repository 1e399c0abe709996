//! Cases in order. Those in a row that tell the same are told once.

use crate::says::Saying;
use std::alloc::Global;
use std::ops::RangeInclusive;

/// Cases in a row that tell the same. Those with numbers are told as `TEXT FROM..TO`, a single one as `TEXT CASE`, and
/// those without numbers as `TEXT xTIMES`. Between two of them comes `, `.
#[derive(Drop)]
pub struct Cases {
    text: Saying,
    from: Option<u64>,
    times: u64,
}

impl Cases {
    /// Begins with no case.
    pub fn none(alloc: Global) -> Cases {
        Cases {
            text: Saying::new(alloc),
            from: None,
            times: 0,
        }
    }

    /// Takes in a case, which may have a number. If it tells something else than those before it, or doesn't follow
    /// them, they are told.
    pub fn take(&mut self, case: Option<u64>, text: &Saying, said: &mut Saying) {
        let next = self.from.map(|from| from.saturating_add(self.times));
        if next != case || text.said() != self.text.said() {
            self.end(said);
            self.text.repeat(text);
            self.from = case;
            self.times = 0;
        }
        self.times = self.times.saturating_add(1);
    }

    /// Tells the last ones.
    pub fn end(&self, said: &mut Saying) {
        if self.times == 0 {
            return;
        }
        said.either(said.is_empty(), "", ", ");
        said.also(&self.text);
        match (self.from, self.times) {
            (Some(from), 1) => write!(said, " {from}"),
            (Some(from), times) => write!(
                said,
                " {from}..{}",
                from.saturating_add(times.saturating_sub(1))
            ),
            (None, 1) => {}
            (None, times) => write!(said, " x{times}"),
        }
    }
}

impl Saying {
    /// Tells what each case says. Those in a row that say the same are told once, as [`Cases`] are.
    pub fn each<F: FnMut(u64, &mut Saying)>(&mut self, numbers: RangeInclusive<u64>, mut tell: F)
        requires { F.IsAlwaysCallable tell }
    {
        let mut cases = Cases::none(self.alloc());
        for number in numbers {
            let mut one = Saying::new(self.alloc());
            tell(number, &mut one);
            cases.take(Some(number), &one, self);
        }
        cases.end(self)
    }

    /// Tells what the first case says. All others have to say the same.
    pub fn alike<F: FnMut(u64, &mut Saying)>(&mut self, numbers: RangeInclusive<u64>, mut tell: F)
        requires { F.IsAlwaysCallable tell }
    {
        for number in numbers {
            let mut one = Saying::new(self.alloc());
            tell(number, &mut one);
            self.same(&one, number);
        }
    }

    /// Says what another one says if nothing was said, or else checks that it says the same. The number tells of what.
    pub fn same(&mut self, other: &Saying, number: u64) {
        if self.is_empty() {
            self.also(other)
        } else if self.said() != other.said() || other.is_wrong() {
            self.fail("not the same at ");
            self.number(number)
        }
    }
}
