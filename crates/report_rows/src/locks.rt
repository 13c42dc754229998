//! Locks as `FakeLs` gives them: `lock SECONDS NANOSECONDS DEPTH SCOPE NOW` and `refresh TOKEN`. A lease of `-` seconds
//! is none, a depth of `I` is deep, a scope of `S` is shared, and the moment is in nanoseconds. `let-go PATH TOKEN`
//! prints what the other calls answer.

use dav_core::DavPath;
use dav_io::Moment;
use dav_lock::{DavLock, DavLockSystem, FakeLs, Lease, LockError};
use dav_rows::{Line, word};
use std::alloc::Global;
use uuid::Uuid;

fn lease(row: &str) -> Option<Lease> {
    match word(row, 1).parse::<u64>() {
        Ok(secs) => Some(Lease {
            secs,
            nanos: word(row, 2).parse::<u32>().unwrap_or(0),
        }),
        Err(_) => None,
    }
}

/// Adds the lock that is given.
pub fn lock(alloc: Global, line: &mut Line, row: &str) {
    match DavPath::new(alloc, "/a") {
        Ok(path) => lock_at(alloc, line, row, &path),
        Err(_) => line.refuse(),
    }
}

fn lock_at(alloc: Global, line: &mut Line, row: &str, path: &DavPath) {
    match Uuid::parse_str("00000000-0000-4000-8000-00000000000A") {
        Ok(id) => tell_copy(line, given(alloc, row, path, id)),
        Err(_) => line.refuse(),
    }
}

fn given(alloc: Global, row: &str, path: &DavPath, id: Uuid) -> Result<DavLock, LockError> {
    let now = Moment(word(row, 5).parse::<u64>().unwrap_or(0));
    let shared = word(row, 4) == "S";
    let deep = word(row, 3) == "I";
    FakeLs::new().lock(
        alloc,
        path,
        Some("me"),
        None,
        lease(row),
        shared,
        deep,
        now,
        id,
    )
}

/// Adds the lock that is refreshed.
pub fn refresh(alloc: Global, line: &mut Line, row: &str) {
    match DavPath::new(alloc, "/a") {
        Ok(path) => refresh_at(alloc, line, row, &path),
        Err(_) => line.refuse(),
    }
}

fn refresh_at(alloc: Global, line: &mut Line, row: &str, path: &DavPath) {
    match FakeLs::new().refresh(alloc, path, word(row, 1), None, Moment(0)) {
        Ok(lock) => tell_lock(line, &lock),
        Err(_) => line.refuse(),
    }
}

// Tells a copy of the lock, so that copies are looked at too.
fn tell_copy(line: &mut Line, given: Result<DavLock, LockError>) {
    match given {
        Ok(lock) => match lock.try_clone() {
            Ok(copy) => tell_lock(line, &copy),
            Err(_) => line.refuse(),
        },
        Err(_) => line.refuse(),
    }
}

/// Adds what the calls answer that give no lock: those that let a lock go, the check of a path, and how many are found.
pub fn let_go(alloc: Global, line: &mut Line, row: &str) {
    if let Ok(path) = DavPath::new(alloc, word(row, 1)) {
        tell_calls(alloc, line, &path, word(row, 2));
    }
}

fn tell_calls(alloc: Global, line: &mut Line, path: &DavPath, token: &str) {
    let locks = FakeLs::new();
    tell_answer(line, "unlock", locks.unlock(path, token));
    tell_answer(line, " check", locks.check(path, None, false, true, &[]));
    tell_answer(line, " delete", locks.delete(path));
    match locks.discover(alloc, path) {
        Ok(found) => match found.try_clone() {
            Ok(copy) => line.add_number(" found ", copy.as_slice().len() as u64),
            Err(_) => line.refuse(),
        },
        Err(_) => line.add(" refused"),
    }
}

fn tell_answer(line: &mut Line, call: &str, answer: Result<(), LockError>) {
    line.tell(call, if answer.is_ok() { " done" } else { " refused" });
}

fn tell_lock(line: &mut Line, lock: &DavLock) {
    line.add(lock.token.as_str());
    line.add(if lock.deep { " deep" } else { " flat" });
    line.add(if lock.shared { " shared" } else { " alone" });
    if let Some(principal) = &lock.principal {
        line.tell(" of ", principal.as_str());
    }
    if let Some(lease) = lock.timeout {
        line.add_number(" ", lease.secs);
        line.add_number("s ", u64::from(lease.nanos));
        line.add("ns");
    }
    if let Some(moment) = lock.timeout_at {
        line.add_number(" to ", moment.0);
    }
}
