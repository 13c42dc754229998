// Bytes that are written into a file's.
ghost use Rattle.std.specs.Prelude.{◌≡◌, ◌<◌, ◌+◌, ◌^◌, IfOk, OnOk, MatchOption, length, drop, true, false};
ghost use Rattle.std.specs.Str.{bytes_eq};
ghost use Rattle.dav_core.specs.Changes.{resized};
ghost use Rattle.dav_core.specs.Writing.{written};

use dav_io::NoMemory;
use std::alloc::Global;

// Whether these bytes stand in a file's at a place.
fn stands(bytes: &[u8], place: u64, from: &[u8]) -> bool
    requires { 0 < length from.now }
    ensures same { result ≡ bytes_eq (written place from.now bytes.now) bytes.now }
    ensures fits { result ≡ true → place + length from.now < 2 ^ 64 }
{
    if place > bytes.len() as u64 {
        return false;
    }
    let (_, rest) = bytes.split_at(place as usize);
    if from.len() > rest.len() {
        return false;
    }
    from == &rest[..from.len()]
}

// The place behind bytes, where they stand already; else none.
pub fn written_end(bytes: &[u8], place: u64, from: &[u8]) -> Option<u64>
    requires { 0 < length from.now }
    ensures { MatchOption result (bytes_eq (written place from.now bytes.now) bytes.now ≡ false)
        (λ end. (end ≡ place + length from.now) × (bytes_eq (written place from.now bytes.now) bytes.now ≡ true)) }
{
    if !stands(bytes, place, from) {
        return None;
    }
    Some(place + from.len() as u64)
}

// A file's bytes before a place. Zeros fill a gap.
fn front_of(alloc: Global, bytes: &[u8], place: usize) -> Result<Vec<u8>, NoMemory>
    ensures { IfOk result (λ v. v.items ≡ resized place bytes.now) }
{
    let front = place.min(bytes.len());
    let mut all = Vec::from_slice(alloc, &bytes[..front])?;
    all.resize(place, 0)?;
    Ok(all)
}

// A file's bytes from a place on.
fn rest_of(bytes: &[u8], place: usize) -> &[u8]
    ensures { result.now ≡ drop place bytes.now }
{
    if place >= bytes.len() {
        return &[];
    }
    &bytes[place..]
}

// A file's bytes with others in them from a place on. Zeros fill a gap before them.
pub fn spliced(alloc: Global, bytes: &[u8], place: u64, from: &[u8]) -> Result<Vec<u8>, NoMemory>
    requires { place + length from.now < 2 ^ 64 }
    ensures { IfOk result (λ v. v.items ≡ written place from.now bytes.now) }
{
    let mut all = front_of(alloc, bytes, place as usize)?;
    all.extend_from_slice(from)?;
    all.extend_from_slice(rest_of(bytes, place as usize + from.len()))?;
    Ok(all)
}
