ghost use Rattle.std.specs.Prelude.{◌≡◌, ◌≤◌, IfOk, length, take};
ghost use Rattle.dav_io.specs.Values.{bytes_of};

use crate::{NoMemory, Octets};
use std::alloc::Global;
use std::marker::Model;

// So many bytes stand in place: the values of most answers' fields have fewer.
const IN_PLACE: usize = 40;

/// The value of a header field. A contract sees it as the list of its bytes. A short one takes no memory.
#[derive(Drop)]
pub struct FieldValue {
    bytes: Bytes,
}

// Where the bytes of a value stand.
#[derive(Drop)]
enum Bytes {
    // In memory of its own.
    Own(Octets),
    // So many, in place.
    Short(usize, [u8; 40]),
}

impl Model for FieldValue {
    ghost use Rattle.std.specs.Prelude.{ℕ, List};
    ghost use Rattle.dav_io.specs.Values.{bytes_of};

    ghost Value = { List ℕ };

    ghost view = { λ v. bytes_of v.bytes };
}

// Few bytes, in place.
fn short(bytes: &[u8]) -> Bytes
    requires { length bytes.now ≤ 40 }
    ensures { bytes_of result ≡ bytes.now }
{
    let mut place = [0; 40];
    place[..bytes.len()].copy_from_slice(bytes);
    Bytes::Short(bytes.len(), place)
}

// So many bytes at the front of a place.
fn front(place: &[u8; 40], count: usize) -> &[u8]
    ensures { result.now ≡ take count place.now }
{
    if count <= 40 {
        return &place[..count];
    }
    place.as_slice()
}

impl FieldValue {
    /// These bytes. It takes no memory.
    pub fn new(bytes: Octets) -> Self
        ensures { result ≡ bytes }
    {
        FieldValue {
            bytes: Bytes::Own(bytes),
        }
    }

    /// A copy of these bytes.
    pub fn copy(alloc: Global, bytes: &[u8]) -> Result<Self, NoMemory>
        ensures { IfOk result (λ copy. copy ≡ bytes.now) }
    {
        if bytes.len() <= IN_PLACE {
            return Ok(FieldValue {
                bytes: short(bytes),
            });
        }
        Ok(FieldValue::new(Octets::new(Vec::from_slice(alloc, bytes)?)))
    }

    /// The bytes.
    pub fn as_slice(&self) -> &[u8]
        ensures { result.now ≡ self.now }
    {
        match &self.bytes {
            Bytes::Own(bytes) => bytes.as_slice(),
            Bytes::Short(count, place) => front(place, *count),
        }
    }

    /// A copy of its own.
    pub fn try_clone(&self) -> Result<Self, NoMemory>
        ensures { IfOk result (λ copy. copy ≡ self.now) }
    {
        match &self.bytes {
            Bytes::Own(bytes) => Ok(FieldValue::new(bytes.try_clone()?)),
            Bytes::Short(count, place) => Ok(FieldValue {
                bytes: Bytes::Short(*count, *place),
            }),
        }
    }
}
