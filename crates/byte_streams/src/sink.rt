//! Streams of bytes to the outside.
ghost use Rattle.std.specs.Prelude.{◌≡◌, ℕ, ◌<◌, ◌≤◌, List, [], ◌++◌, Option, Some, IfOk, OnErr, is_err, length, take, vec_len, vec_capacity};
ghost use Rattle.byte_streams.specs.Course.{Called, is_empty};
ghost use Rattle.byte_streams.specs.Outside.{with_more, Counts};

use crate::calls::Calls;
use crate::course::Course;
use crate::source::Failed;
use std::alloc::{AllocError, Global};

/// A stream of bytes that go to the outside, as standard output.
pub trait ByteSink: Drop {
    ghost use Rattle.std.specs.Prelude.{None};
    ghost use Rattle.byte_streams.specs.declared.course.Course.{Course as CourseOf};

    // The bytes that it took, where a kind tells.
    ghost taken: { Self → Option (List ℕ) };

    // How often it failed, a count that never falls.
    ghost faults: { Self → ℕ };

    // Whether it failed, and how many calls came after that or with an empty piece, where a kind tells.
    ghost course: { Self → Option CourseOf } = { λ _. None };

    /// Takes bytes from the front of a piece, and says how many: none only where the piece is empty.
    fn write(&mut self, from: &[u8]) -> Result<usize, Failed>
        ensures room { IfOk result (λ n. n ≤ length from.now) }
        ensures moves { IfOk result (λ n. 0 < length from.now → 0 < n) }
        ensures taken { IfOk result (λ n. taken self.new ≡ with_more (taken self.old) (take n from.now)) }
        ensures failed { OnErr result (taken self.new ≡ taken self.old) }
        ensures counts { Counts result (faults self.old) (faults self.new) }
        ensures never_falls { faults self.old ≤ faults self.new }
        ensures course { Called (is_empty from.now) (is_err result) (course self.old) (course self.new) };
}

/// A sink in memory, of a fixed room. It takes at most `step` bytes in a call, and fails at the
/// calls that it is told, counted from 1, and where its room is full. After 2^64 - 2 calls each
/// further call fails.
#[derive(Drop)]
pub struct MemorySink {
    taken: Vec<u8>,
    room: usize,
    step: usize,
    calls: Calls,
    course: Course,
    ghost moves: { 0 < step },
    ghost within: { vec_len taken ≤ room },
    ghost reserved: { room ≤ vec_capacity taken },
}

impl MemorySink {
    ghost use Rattle.byte_streams.specs.MemorySink.{bytes_of, room_of, step_of, calls_of, course_of};
    ghost use Rattle.byte_streams.specs.Calls.{made_of, failed_of, fails_of};
    ghost use Rattle.byte_streams.specs.Course.{IsBegun};

    /// An empty sink. Its whole room is taken at once.
    pub fn new(
        alloc: Global,
        room: usize,
        step: usize,
        fails: &[u64],
    ) -> Result<MemorySink, AllocError>
        requires { 0 < step }
        ensures bytes { IfOk result (λ m. bytes_of m ≡ []) }
        ensures room { IfOk result (λ m. room_of m ≡ room) }
        ensures step { IfOk result (λ m. step_of m ≡ step) }
        ensures fails { IfOk result (λ m. fails_of (calls_of m) ≡ fails.now) }
        ensures no_call { IfOk result (λ m. made_of (calls_of m) ≡ 0) }
        ensures no_fault { IfOk result (λ m. failed_of (calls_of m) ≡ 0) }
        ensures begun { IfOk result (λ m. IsBegun (course_of m)) }
    {
        let taken = Vec::with_capacity(alloc, room)?;
        let calls = Calls::new(alloc, fails)?;
        Ok(MemorySink {
            taken,
            room,
            step,
            calls,
            course: Course::new(),
        })
    }

    /// The bytes that it took.
    pub fn bytes(&self) -> &[u8]
        ensures { result.now ≡ bytes_of self.now }
    {
        self.taken.as_slice()
    }
}

impl ByteSink for MemorySink {
    ghost use Rattle.std.specs.Prelude.{◌+◌};
    ghost use Rattle.byte_streams.specs.MemorySink.{bytes_of, room_of, step_of, calls_of, course_of, refuses, most};
    ghost use Rattle.byte_streams.specs.Calls.{failed_of, fails_of, made_of, next_number, next_failed};

    ghost taken = { λ m. Some (bytes_of m) };

    ghost faults = { λ m. failed_of (calls_of m) };

    ghost course = { λ m. Some (course_of m) };

    fn write(&mut self, from: &[u8]) -> Result<usize, Failed>
        ensures room { IfOk result (λ n. n ≤ length from.now) }
        ensures moves { IfOk result (λ n. 0 < length from.now → 0 < n) }
        ensures taken { IfOk result (λ n. bytes_of self.new ≡ bytes_of self.old ++ take n from.now) }
        ensures failed { OnErr result (bytes_of self.new ≡ bytes_of self.old) }
        ensures counts { Counts result (failed_of (calls_of self.old)) (failed_of (calls_of self.new)) }
        ensures never_falls { failed_of (calls_of self.old) ≤ failed_of (calls_of self.new) }
        ensures course { Called (is_empty from.now) (is_err result) (Some (course_of self.old)) (Some (course_of self.new)) }

        // Exactly when it fails, how much it takes, and what stays.
        ensures refuses { is_err result ≡ refuses self.old from.now }
        ensures most { IfOk result (λ n. n ≡ most self.old from.now) }
        ensures call { made_of (calls_of self.new) ≡ next_number (calls_of self.old) }
        ensures fails_once { OnErr result (failed_of (calls_of self.new) ≡ next_failed (calls_of self.old)) }
        ensures fails { fails_of (calls_of self.new) ≡ fails_of (calls_of self.old) }
        ensures room_stays { room_of self.new ≡ room_of self.old }
        ensures step_stays { step_of self.new ≡ step_of self.old }
    {
        self.course.call(from.is_empty());
        let free = self.room - self.taken.len();
        if self.calls.begin() || (free == 0 && !from.is_empty()) {
            self.course.end();
            return Err(self.calls.fail());
        }
        let n = self.step.min(free).min(from.len());
        self.taken.extend_from_slice(&from[..n]).unwrap();
        Ok(n)
    }
}

/// A sink that takes every piece whole, keeps nothing and never fails.
#[derive(Clone, Copy, Default)]
pub struct NullSink;

impl NullSink {
    /// The sink. Takes no memory.
    pub fn new() -> NullSink {
        NullSink
    }
}

impl ByteSink for NullSink {
    ghost use Rattle.std.specs.Prelude.{None, Ok};

    ghost taken = { λ _. None };

    ghost faults = { λ _. 0 };

    fn write(&mut self, from: &[u8]) -> Result<usize, Failed>
        ensures { result ≡ Ok (length from.now) }
    {
        Ok(from.len())
    }
}
