//! A clock that gains.
ghost use Rattle.std.specs.Prelude.{None};

use dav_io::{Clock, Moment};

/// A clock that begins at 0, and gains the same each time that it is asked. It doesn't say beforehand what it tells.
#[derive(Drop)]
pub struct GainingClock {
    next: u64,
    gain: u64,
}

impl GainingClock {
    /// A clock that gains so many seconds at each call.
    pub fn new(seconds: u64) -> Self {
        GainingClock {
            next: 0,
            gain: seconds.saturating_mul(1_000_000_000),
        }
    }
}

impl Clock for GainingClock {
    ghost shows = { λ _. None };

    fn now(&mut self) -> Moment {
        let at = self.next;
        self.next = at.saturating_add(self.gain);
        Moment(at)
    }
}
