//! How far a kind in memory is.
ghost use Rattle.std.specs.Prelude.{◌≡◌, true, false};

/// Whether a stream gave its end or failed, and how many calls came after that, or had nothing to do.
#[derive(Drop)]
pub struct Course {
    over: bool,
    // It stays at the greatest.
    idle: u64,
}

impl Course {
    ghost use Rattle.byte_streams.specs.Course.{over_of, idle_of, idle_after};

    /// The course of a stream of which no call was made.
    pub fn new() -> Course
        ensures over { over_of result ≡ false }
        ensures idle { idle_of result ≡ 0 }
    {
        Course {
            over: false,
            idle: 0,
        }
    }

    /// Counts a call, which has nothing to do where `empty` says so.
    pub fn call(&mut self, empty: bool)
        ensures over { over_of self.new ≡ over_of self.old }
        ensures idle { idle_of self.new ≡ idle_after empty self.old }
    {
        if self.over || empty {
            self.idle = self.idle.saturating_add(1);
        }
    }

    /// The stream is over.
    pub fn end(&mut self)
        ensures over { over_of self.new ≡ true }
        ensures idle { idle_of self.new ≡ idle_of self.old }
    {
        self.over = true;
    }
}
