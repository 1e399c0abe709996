//! Counts the failed calls of the system, and keeps the one to report.
ghost use Rattle.std.specs.Prelude.{◌≡◌, ◌≤◌, true, false, is_some, nat_lt, Some};
ghost use Rattle.im_disk.specs.{Failing.is_of_sync, Moment.Rises};

use crate::record::fault;
use crate::{DeviceFault, Failure};
use std::io::ErrorKind;

// How often a call has failed, and which failure is reported: the last failed sync, or else the first failure.
#[derive(Drop)]
pub(crate) struct Failing {
    pub(crate) failures: u64,
    pub(crate) first: Option<Failure>,
    ghost counted: { is_some first ≡ nat_lt 0 failures },
}

impl Failing {
    // No call has failed.
    pub(crate) fn new() -> Failing
        ensures failures { result.failures ≡ 0 }
        ensures first { is_of_sync result.first ≡ false }
    {
        Failing {
            failures: 0,
            first: None,
        }
    }

    pub(crate) fn first(&self) -> Option<Failure>
        ensures first { result ≡ self.now.first }
        ensures some { is_some result ≡ nat_lt 0 self.now.failures }
    {
        self.first
    }

    // Counts a failure. It is the one to report if none came before it.
    pub(crate) fn fail(&mut self, failure: Failure) -> DeviceFault
        requires { is_of_sync (Some failure) ≡ false }
        ensures failures { Rises self.old.failures self.new.failures × (self.old.failures ≤ self.new.failures) }
        ensures first { is_of_sync self.new.first ≡ is_of_sync self.old.first }
    {
        if self.first.is_none() {
            self.first = Some(failure);
        }
        fault(&mut self.failures)
    }

    // Counts a failed sync. It is reported whatever failed before it.
    pub(crate) fn lose(&mut self, kind: ErrorKind) -> DeviceFault
        ensures failures { Rises self.old.failures self.new.failures × (self.old.failures ≤ self.new.failures) }
        ensures first { is_of_sync self.new.first ≡ true }
    {
        self.first = Some(Failure::Sync(kind));
        fault(&mut self.failures)
    }
}
