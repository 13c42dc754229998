ghost use Rattle.std.specs.Prelude.{◌≡◌, ◌⊎◌, Option, Some, None};
ghost use Rattle.dav_io.specs.declared.clock.Moment.{Moment};

/// Nanoseconds since 1970-01-01 UTC.
#[derive(Clone, Copy, Debug, PartialEq, Eq)]
pub struct Moment(pub u64);

/// Tells the moment.
pub trait Clock {
    /// The moment that it will tell, where it says so beforehand.
    ghost shows: { Self → Option Moment };

    fn now(&mut self) -> Moment
        ensures shown { (shows self.old ≡ Some result) ⊎ (shows self.old ≡ None) }
        ensures stays { shows self.new ≡ shows self.old };
}

/// A clock that stands at the moment that was set.
#[derive(Drop)]
pub struct SetClock {
    at: Moment,
}

impl SetClock {
    /// A clock that stands at this moment.
    pub fn new(at: Moment) -> Self
        ensures { ⟦<SetClock as Clock>⟧.shows result ≡ Some at }
    {
        SetClock { at }
    }

    /// Sets the moment.
    pub fn set(&mut self, at: Moment)
        ensures { ⟦<SetClock as Clock>⟧.shows self.new ≡ Some at }
    {
        self.at = at;
    }
}

impl Clock for SetClock {
    ghost shows = { λ c. Some c.at };

    fn now(&mut self) -> Moment {
        self.at
    }
}
