//! Streams of bytes from the outside.
ghost use Rattle.std.specs.Prelude.{◌≡◌, ℕ, ◌<◌, ◌≤◌, List, [], ◌++◌, Option, Some, None, false, IfOk, IsOk, OnErr, is_err, length, take, vec_len};
ghost use Rattle.byte_streams.specs.Course.{Called, ends_source};
ghost use Rattle.byte_streams.specs.Outside.{with_front, IsAtEnd, Counts};

use crate::calls::Calls;
use crate::course::Course;
use std::alloc::{AllocError, Global};

/// A call of the outside failed. What it was to do has not happened.
#[derive(Clone, Copy)]
pub struct Failed;

/// A stream of bytes that come from the outside, as standard input.
pub trait ByteSource: Drop {
    ghost use Rattle.byte_streams.specs.declared.course.Course.{Course as CourseOf};

    // The bytes that it still gives, where a kind tells.
    ghost left: { Self → Option (List ℕ) };

    // How often it failed, a count that never falls.
    ghost faults: { Self → ℕ };

    // Whether it gave its end or failed, and how many calls came after that, where a kind tells.
    ghost course: { Self → Option CourseOf } = { λ _. None };

    /// Puts the next bytes at the front of `into`, and says how many: none only where there is no
    /// room or the stream has ended.
    fn read(&mut self, into: &mut [u8]) -> Result<usize, Failed>
        ensures room { IfOk result (λ n. n ≤ length into.old) }
        ensures given { IfOk result (λ n. left self.old ≡ with_front (take n into.new) (left self.new)) }
        ensures end { IfOk result (λ n. n ≡ 0 → 0 < length into.old → IsAtEnd (left self.new)) }
        ensures failed { OnErr result (left self.new ≡ left self.old) }
        ensures counts { Counts result (faults self.old) (faults self.new) }
        ensures never_falls { faults self.old ≤ faults self.new }
        ensures course { Called false (ends_source (length into.old) result) (course self.old) (course self.new) };
}

/// Bytes in memory as a source that never fails. It gives at most `step` bytes in a call.
#[derive(Drop)]
pub struct SteadySource {
    bytes: Vec<u8>,
    at: usize,
    step: usize,
    ghost within: { at ≤ vec_len bytes },
    ghost moves: { 0 < step },
}

impl SteadySource {
    ghost use Rattle.byte_streams.specs.SteadySource.{left_of, step_of};

    /// A source that gives these bytes.
    pub fn new(alloc: Global, bytes: &[u8], step: usize) -> Result<SteadySource, AllocError>
        requires { 0 < step }
        ensures left { IfOk result (λ s. left_of s ≡ bytes.now) }
        ensures step { IfOk result (λ s. step_of s ≡ step) }
    {
        let bytes = Vec::from_slice(alloc, bytes)?;
        Ok(SteadySource { bytes, at: 0, step })
    }
}

impl ByteSource for SteadySource {
    ghost use Rattle.byte_streams.specs.SteadySource.{left_of, step_of, most};

    ghost left = { λ s. Some (left_of s) };

    ghost faults = { λ s. 0 };

    fn read(&mut self, into: &mut [u8]) -> Result<usize, Failed>
        ensures room { IfOk result (λ n. n ≤ length into.old) }
        ensures given { IfOk result (λ n. left_of self.old ≡ take n into.new ++ left_of self.new) }
        ensures end { IfOk result (λ n. n ≡ 0 → 0 < length into.old → left_of self.new ≡ []) }

        // It never fails. How much it gives, and what stays.
        ensures never_fails { IsOk result }
        ensures most { IfOk result (λ n. n ≡ most self.old (length into.old)) }
        ensures step_stays { step_of self.new ≡ step_of self.old }
    {
        let n = self.step.min(into.len()).min(self.bytes.len() - self.at);
        let end = self.at + n;
        into[..n].copy_from_slice(&self.bytes[self.at..end]);
        self.at = end;
        Ok(n)
    }
}

/// A source in memory that fails at the calls that it is told, counted from 1. After 2^64 - 2 calls
/// each further call fails.
#[derive(Drop)]
pub struct MemorySource {
    steady: SteadySource,
    calls: Calls,
    course: Course,
}

impl MemorySource {
    ghost use Rattle.byte_streams.specs.MemorySource.{steady_of, calls_of, course_of};
    ghost use Rattle.byte_streams.specs.SteadySource.{left_of, step_of};
    ghost use Rattle.byte_streams.specs.Calls.{made_of, failed_of, fails_of};
    ghost use Rattle.byte_streams.specs.Course.{IsBegun};

    /// A source that gives these bytes, at most `step` in a call.
    pub fn new(
        alloc: Global,
        bytes: &[u8],
        step: usize,
        fails: &[u64],
    ) -> Result<MemorySource, AllocError>
        requires { 0 < step }
        ensures left { IfOk result (λ m. left_of (steady_of m) ≡ bytes.now) }
        ensures step { IfOk result (λ m. step_of (steady_of m) ≡ step) }
        ensures fails { IfOk result (λ m. fails_of (calls_of m) ≡ fails.now) }
        ensures no_call { IfOk result (λ m. made_of (calls_of m) ≡ 0) }
        ensures no_fault { IfOk result (λ m. failed_of (calls_of m) ≡ 0) }
        ensures begun { IfOk result (λ m. IsBegun (course_of m)) }
    {
        let steady = SteadySource::new(alloc, bytes, step)?;
        let calls = Calls::new(alloc, fails)?;
        Ok(MemorySource {
            steady,
            calls,
            course: Course::new(),
        })
    }
}

impl ByteSource for MemorySource {
    ghost use Rattle.byte_streams.specs.MemorySource.{steady_of, calls_of, course_of};
    ghost use Rattle.byte_streams.specs.SteadySource.{left_of, step_of, most};
    ghost use Rattle.byte_streams.specs.Calls.{made_of, failed_of, fails_of, next_number, next_failed, fails_next};

    ghost left = { λ m. Some (left_of (steady_of m)) };

    ghost faults = { λ m. failed_of (calls_of m) };

    ghost course = { λ m. Some (course_of m) };

    fn read(&mut self, into: &mut [u8]) -> Result<usize, Failed>
        ensures room { IfOk result (λ n. n ≤ length into.old) }
        ensures given { IfOk result (λ n. left_of (steady_of self.old) ≡ take n into.new ++ left_of (steady_of self.new)) }
        ensures end { IfOk result (λ n. n ≡ 0 → 0 < length into.old → left_of (steady_of self.new) ≡ []) }
        ensures failed { OnErr result (left_of (steady_of self.new) ≡ left_of (steady_of self.old)) }
        ensures counts { Counts result (failed_of (calls_of self.old)) (failed_of (calls_of self.new)) }
        ensures never_falls { failed_of (calls_of self.old) ≤ failed_of (calls_of self.new) }
        ensures course { Called false (ends_source (length into.old) result) (Some (course_of self.old)) (Some (course_of self.new)) }

        // Exactly when it fails, how much it gives, and what stays.
        ensures untouched { OnErr result (into.new ≡ into.old) }
        ensures refuses { is_err result ≡ fails_next (calls_of self.old) }
        ensures most { IfOk result (λ n. n ≡ most (steady_of self.old) (length into.old)) }
        ensures call { made_of (calls_of self.new) ≡ next_number (calls_of self.old) }
        ensures fails_once { OnErr result (failed_of (calls_of self.new) ≡ next_failed (calls_of self.old)) }
        ensures fails { fails_of (calls_of self.new) ≡ fails_of (calls_of self.old) }
        ensures step_stays { step_of (steady_of self.new) ≡ step_of (steady_of self.old) }
    {
        self.course.call(false);
        if self.calls.begin() {
            self.course.end();
            return Err(self.calls.fail());
        }
        let n = self.steady.read(into)?;
        if n == 0 && !into.is_empty() {
            self.course.end();
        }
        Ok(n)
    }
}
