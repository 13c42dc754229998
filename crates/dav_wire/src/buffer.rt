//! A buffer of bytes that are taken from a source.
ghost use Rattle.std.specs.Prelude.{◌≡◌, ◌==◌, ◌+◌, ◌-◌, ◌<◌, ◌≤◌, if◌then◌else◌, length, take, drop, slice_range, vec_len, vec_capacity, IfOk};
ghost use Rattle.dav_io.specs.Outside.{Stream};
ghost use Rattle.dav_wire.specs.Taking.{TakesAt};

use dav_io::{Client, Failed, NoMemory, Sink, Source};
use std::alloc::Global;

/// The most bytes that a buffer has: those of the longest head, and one that tells a head that is too long.
pub const ROOM: usize = 65_537;

// So many bytes a buffer has at first. A page of memory that nothing touches costs nothing.
const FIRST: usize = 4_096;

// A buffer of few bytes. The memory for its whole room is taken, so that it can grow whatever happens.
pub fn new_buffer(alloc: Global) -> Result<Vec<u8>, NoMemory>
    ensures len { IfOk result (λ buffer. vec_len buffer ≡ 4096) }
    ensures reserved { IfOk result (λ buffer. 65537 ≤ vec_capacity buffer) }
{
    let mut buffer = Vec::with_capacity(alloc, ROOM)?;
    buffer.resize(FIRST, 0)?;
    Ok(buffer)
}

// Gives a buffer that is full its whole room: a source that filled it may have much more. The memory was taken before.
fn grow_full(buffer: &mut Vec<u8>, end: usize)
    requires fits { vec_len buffer.old ≤ 65537 }
    requires reserved { 65537 ≤ vec_capacity buffer.old }
    ensures len { vec_len buffer.new ≡ (if end == vec_len buffer.old then 65537 else vec_len buffer.old) }
    ensures front { take (vec_len buffer.old) buffer.new.items ≡ buffer.old.items }
    ensures reserved { 65537 ≤ vec_capacity buffer.new }
{
    if end != buffer.len() {
        return;
    }
    match buffer.resize(ROOM, 0) {
        Ok(()) => {}
        Err(_) => unreachable!("the memory was taken before"),
    }
}

// Moves the bytes from one place to another to the front of a buffer, with room for one more behind them, and answers
// how many they are. A buffer that was full up to them grows.
pub fn make_room(buffer: &mut Vec<u8>, start: usize, end: usize) -> usize
    requires ordered { start ≤ end }
    requires within { end ≤ vec_len buffer.old }
    requires short { end - start ≤ 65536 }
    requires fits { vec_len buffer.old ≤ 65537 }
    requires reserved { 65537 ≤ vec_capacity buffer.old }
    ensures held { result ≡ end - start }
    ensures front { take result buffer.new.items ≡ slice_range buffer.old.items start end }
    ensures room { result < vec_len buffer.new }
    ensures fits { vec_len buffer.new ≤ 65537 }
    ensures reserved { 65537 ≤ vec_capacity buffer.new }
{
    grow_full(buffer, end);
    move_front(buffer, start, end - start);
    end - start
}

// Moves bytes to the front. Where they stand there, nothing is done.
fn move_front(buffer: &mut [u8], start: usize, len: usize)
    requires { start + len ≤ length buffer.old }
    ensures front { take len buffer.new ≡ take len (drop start buffer.old) }
    ensures len { length buffer.new ≡ length buffer.old }
{
    if start == 0 {
        return;
    }
    buffer.copy_within(start..start + len, 0);
}

// Takes bytes from a source, once, and at most so many, and puts them from the place on.
pub fn take_at<S: Source>(
    source: &mut S,
    buffer: &mut [u8],
    at: usize,
    most: usize,
) -> Result<usize, Failed>
    requires place { at < length buffer.old }
    requires some { 0 < most }
    ensures { TakesAt (S.stream source.old) buffer.old at most result buffer.new (S.stream source.new) }
{
    let most = most.min(buffer.len() - at);
    let (_, room) = buffer.split_at_mut(at);
    let (room, _) = room.split_at_mut(most);
    source.take(room)
}

// Takes bytes from a client, once, which may be asked now.
pub fn ask_at<S: Client<K>, K: Sink>(
    source: &mut S,
    sink: &K,
    buffer: &mut [u8],
    at: usize,
    most: usize,
) -> Result<usize, Failed>
    requires place { at < length buffer.old }
    requires some { 0 < most }
    requires ready { S.may source.old (S.stream source.old) (K.stream sink.now) }
    ensures takes { TakesAt (S.stream source.old) buffer.old at most result buffer.new (S.stream source.new) }
    ensures stays { (left written : Stream) → S.may source.old left written → S.may source.new left written }
{
    let most = most.min(buffer.len() - at);
    let (_, room) = buffer.split_at_mut(at);
    let (room, _) = room.split_at_mut(most);
    source.ask(sink, room)
}
