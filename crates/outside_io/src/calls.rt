//! The numbered calls of a device in memory, of which some are to fail.
ghost use Rattle.std.specs.Prelude.{◌≡◌, ◌≤◌, is_err, if◌then◌else◌};
ghost use Rattle.outside_io.specs.Calls.{new_log, fails_next, after_call, after_fault};

use crate::Failed;
use std::marker::Model;

#[derive(Drop)]
pub(crate) struct Calls {
    made: u32,
    fail_at: Vec<u32>,
    faults: u64,
}

impl Model for Calls {
    ghost use Rattle.outside_io.specs.Calls.{CallLog};

    ghost Value = { CallLog };

    ghost view = { λ s. record { made = s.made; fail_at = s.fail_at.items; faults = s.faults } };
}

impl Calls {
    pub(crate) fn new(fail_at: Vec<u32>) -> Calls
        ensures { result ≡ new_log fail_at.items }
    {
        Calls {
            made: 0,
            fail_at,
            faults: 0,
        }
    }

    /// Gives the next call its number, if one is left, and fails where the call is to fail.
    pub(crate) fn begin(&mut self) -> Result<(), Failed>
        ensures fails { is_err result ≡ fails_next self.old }
        ensures later { self.old.faults ≤ self.new.faults }
        ensures log { self.new ≡ (if fails_next self.old
            then after_fault (after_call self.old) else after_call self.old) }
    {
        if self.made == u32::MAX {
            return Ok(());
        }
        self.made += 1;
        if self.fail_at.contains(&self.made) {
            return Err(self.fail());
        }
        Ok(())
    }

    /// Counts a fault.
    pub(crate) fn fail(&mut self) -> Failed
        ensures later { self.old.faults ≤ self.new.faults }
        ensures log { self.new ≡ after_fault self.old }
    {
        self.faults = self.faults.saturating_add(1);
        Failed
    }
}
