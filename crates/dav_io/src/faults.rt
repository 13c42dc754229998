//! A schedule of faults, as the objects in memory have it.
ghost use Rattle.std.specs.Prelude.{◌≡◌, ◌≤◌, ◌↔◌, Contains, IsTrue, false};
ghost use Rattle.dav_io.specs.Counts.{Rose, one_more};

/// The numbers, from 1, of the calls that fail, and what was counted so far. The counts stop at the greatest u64.
#[derive(Drop)]
pub struct Faults {
    /// The numbers of the calls that fail.
    pub fail: Vec<u64>,
    /// How many calls were made.
    pub asked: u64,
    /// How many faults were met.
    pub met: u64,
}

impl Faults {
    /// Nothing counted yet.
    pub fn new(fail: Vec<u64>) -> Self
        ensures { result ≡ record { fail = fail; asked = 0; met = 0 } }
    {
        Faults {
            fail,
            asked: 0,
            met: 0,
        }
    }

    /// Counts a fault.
    pub fn meet(&mut self)
        ensures met { self.new ≡ record self.old { met = one_more self.old.met } }
        ensures counts { self.old.met ≤ self.new.met }
        ensures rose { Rose self.old.met self.new.met }
    {
        self.met = self.met.saturating_add(1);
    }

    /// The next call: does it fail? It does exactly where its number stands in the schedule.
    pub fn next(&mut self) -> bool
        ensures fails { IsTrue result ↔ Contains self.old.fail.items (one_more self.old.asked) }
        ensures asked { self.new.asked ≡ one_more self.old.asked }
        ensures more { self.old.asked ≤ self.new.asked }
        ensures fail { self.new.fail ≡ self.old.fail }
        ensures counts { self.old.met ≤ self.new.met }
        ensures rose { IsTrue result → Rose self.old.met self.new.met }
        ensures same { result ≡ false → self.new.met ≡ self.old.met }
        ensures met { IsTrue result → self.new.met ≡ one_more self.old.met }
    {
        self.asked = self.asked.saturating_add(1);
        let fails = self.fail.contains(&self.asked);
        if fails {
            self.meet();
        }
        fails
    }
}
