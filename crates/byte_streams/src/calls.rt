//! The calls of a kind in memory, of which some are to fail.
ghost use Rattle.std.specs.Prelude.{◌≡◌, ◌≤◌, IfOk};
ghost use Rattle.byte_streams.specs.Outside.{HasFailed};

use crate::source::Failed;
use std::alloc::{AllocError, Global};

/// The number of the last call, which of the calls are to fail, and how many failed.
#[derive(Drop)]
pub struct Calls {
    fails: Vec<u64>,
    // It stays at the greatest.
    made: u64,
    // It stays at the greatest.
    failed: u64,
}

impl Calls {
    ghost use Rattle.byte_streams.specs.Calls.{made_of, failed_of, fails_of, next_number, next_failed, fails_next};

    /// No call yet. Those with the numbers `fails`, counted from 1, are to fail.
    pub fn new(alloc: Global, fails: &[u64]) -> Result<Calls, AllocError>
        ensures made { IfOk result (λ c. made_of c ≡ 0) }
        ensures failed { IfOk result (λ c. failed_of c ≡ 0) }
        ensures fails { IfOk result (λ c. fails_of c ≡ fails.now) }
    {
        Ok(Calls {
            fails: Vec::from_slice(alloc, fails)?,
            made: 0,
            failed: 0,
        })
    }

    /// Counts a call, and says whether it is to fail.
    pub fn begin(&mut self) -> bool
        ensures result { result ≡ fails_next self.old }
        ensures made { made_of self.new ≡ next_number self.old }
        ensures failed { failed_of self.new ≡ failed_of self.old }
        ensures fails { fails_of self.new ≡ fails_of self.old }
    {
        self.made = self.made.saturating_add(1);
        self.made == u64::MAX || self.fails.contains(&self.made)
    }

    /// Counts a failure.
    pub fn fail(&mut self) -> Failed
        ensures once { failed_of self.new ≡ next_failed self.old }
        ensures failed { HasFailed (failed_of self.old) (failed_of self.new) }
        ensures never_falls { failed_of self.old ≤ failed_of self.new }
        ensures made { made_of self.new ≡ made_of self.old }
        ensures fails { fails_of self.new ≡ fails_of self.old }
    {
        self.failed = self.failed.saturating_add(1);
        Failed
    }
}
