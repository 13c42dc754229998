ghost use Rattle.std.specs.Prelude.{◌≡◌, ◌⊎◌, Some, None, IfSome, IfNone};

use dav_io::{Clock, Moment};
use std::rt::Clock as HostClock;
use std::time::{SystemTime, UNIX_EPOCH};

/// The machine's clock. Where it refuses, the last moment stands, at first 0.
#[derive(Drop)]
pub struct SystemClock<'a, C: HostClock> {
    rt: &'a C,
    last: Moment,
}

impl<'a, C: HostClock> SystemClock<'a, C> {
    /// No moment was told yet.
    pub fn new(rt: &'a C) -> SystemClock<'a, C>
        ensures { result.last.0 ≡ 0 }
    {
        SystemClock {
            rt,
            last: Moment(0),
        }
    }

    // The moment that the machine told, or else the last one. It is the last one from then on.
    fn keep(&mut self, told: Option<Moment>) -> Moment
        ensures told { IfSome told (λ moment. result ≡ moment) }
        ensures refused { IfNone told (result ≡ self.old.last) }
        ensures kept { self.new.last ≡ result }
    {
        if let Some(moment) = told {
            self.last = moment;
        }
        self.last
    }
}

// The moment, where the machine tells one that fits.
fn moment_of<C: HostClock>(rt: &C) -> Option<Moment> {
    let since = SystemTime::now(rt).ok()?.duration_since(UNIX_EPOCH).ok()?;
    Some(Moment(u64::try_from(since.as_nanos()).ok()?))
}

impl<'a, C: HostClock> Clock for SystemClock<'a, C> {
    ghost shows = { λ _. None };

    fn now(&mut self) -> Moment
        ensures shown { (⟦<SystemClock<'a, C> as Clock>⟧.shows self.old ≡ Some result)
            ⊎ (⟦<SystemClock<'a, C> as Clock>⟧.shows self.old ≡ None) }
        ensures stays { ⟦<SystemClock<'a, C> as Clock>⟧.shows self.new
            ≡ ⟦<SystemClock<'a, C> as Clock>⟧.shows self.old }
        ensures kept { self.new.last ≡ result }
    {
        let told = moment_of(self.rt);
        self.keep(told)
    }
}
