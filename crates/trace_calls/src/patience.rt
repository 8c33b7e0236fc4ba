//! How a thread waits for another: it looks a few times, and then sleeps before it looks again.

ghost use Rattle.std.specs.Prelude.{◌≡◌, ◌<◌, ◌≤◌, ◌+◌};

use std::thread;
use std::time::{Clock, Duration};

/// How many looks find nothing before a thread sleeps. With 64 a lone tracee and its worker sleep at one stop in 20,
/// with this number at one in 200; more looks cost processor time where a thread waits for long.
const LOOKS: u32 = 256;

/// How long it sleeps, in milliseconds.
const PAUSE: u64 = 1;

/// How many looks in a row have found nothing, and how many may before the thread sleeps. It is for a loop that waits
/// for other threads, as that of the waits that block: begin with `new` or `with_looks`, and call `wait` after each
/// look that found nothing.
#[derive(Drop)]
pub struct Patience {
    most: u32,
    looks: u32,
}

impl Patience {
    /// Before the first look of a thread that will soon have an answer: it sleeps after 256 looks in a row that found
    /// nothing.
    pub fn new() -> Patience
        ensures { (result.most ≡ 256) × (result.looks ≡ 1) }
    {
        Patience::with_looks(LOOKS)
    }

    /// Before the first look of a thread that sleeps after `most` looks in a row that found nothing; with 1 or 0, after
    /// each look. A small number is for a thread that may wait for long: its looks leave the processors to others.
    pub fn with_looks(most: u32) -> Patience
        ensures { (result.most ≡ most) × (result.looks ≡ 1) }
    {
        Patience { most, looks: 1 }
    }

    /// Waits after a look that found nothing: it lets other threads run, or sleeps a millisecond if this was the last
    /// of the looks before a sleep. It takes no memory.
    pub fn wait<R: Clock>(&mut self, rt: &R)
        ensures most { self.new.most ≡ self.old.most }
        ensures looks { self.old.looks < self.old.most → self.new.looks ≡ self.old.looks + 1 }
        ensures sleeps { self.old.most ≤ self.old.looks → self.new.looks ≡ 1 }
    {
        if self.looks < self.most {
            self.looks += 1;
            thread::yield_now();
            return;
        }
        self.looks = 1;
        thread::sleep(rt, Duration::from_millis(PAUSE));
    }
}
