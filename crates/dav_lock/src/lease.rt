ghost use Rattle.std.specs.Prelude.{◌≡◌, ◌≤◌};
ghost use Rattle.dav_lock.specs.Tokens.{granted, ends_at};

use dav_io::Moment;

/// How long a lock is to last.
#[derive(Clone, Copy, Debug, PartialEq, Eq)]
pub struct Lease {
    pub secs: u64,
    /// Nanoseconds besides, below 1,000,000,000.
    pub nanos: u32,
}

/// The longest lease that is given.
const LONGEST: Lease = Lease {
    secs: 120,
    nanos: 0,
};

/// The lease that is given where this one is asked: one of more than 120 whole seconds, or none, is 120 seconds.
pub fn grant(timeout: Option<Lease>) -> Lease
    ensures value { result ≡ granted timeout }
    ensures bound { result.secs ≤ 120 }
{
    match timeout {
        Some(lease) => { if lease.secs > 120 { LONGEST } else { lease } }
        None => LONGEST,
    }
}

/// When a lease that begins now ends, or nothing where that passes the greatest moment.
pub fn end_of(now: Moment, lease: Lease) -> Option<Moment>
    ensures { result ≡ ends_at now lease }
{
    let nanos = lease.secs.checked_mul(1_000_000_000)?;
    let length = nanos.checked_add(u64::from(lease.nanos))?;
    let at = now.0.checked_add(length)?;
    Some(Moment(at))
}
