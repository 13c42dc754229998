//! Sources, sinks, clocks and the small types, call by call.
use crate::cells::{bytes_of, fields_of, show};
use dav_io::{
    Clock, Failed, Field, Fields, MemSink, MemSource, Moment, NoMemory, Octets, SetClock, Sink,
    Source, SureSink, SureSource, Text, TryClone,
};
use dav_rows::{Line, word};
use std::alloc::Global;
use std::cmp::Ordering;
use std::hash::{DefaultHasher, Hash, Hasher};

/// The number in front of a cell, and the numbers behind it with commas between them.
pub fn numbers(alloc: Global, cell: &str) -> Result<(usize, Vec<u64>), NoMemory> {
    let mut words = cell.split(',');
    let most = words.next().unwrap_or("").parse::<usize>().unwrap_or(1);
    let mut calls = Vec::new(alloc);
    for word in words {
        calls.push(word.parse::<u64>().unwrap_or(0))?;
    }
    Ok((most, calls))
}

// What a call of a source gives into four bytes.
fn take<S: Source>(line: &mut Line, source: &mut S) {
    let mut into = [b'-'; 4];
    match source.take(&mut into) {
        Ok(count) => {
            line.add(" ");
            show(line, into.get(..count).unwrap_or(b"?"));
        }
        Err(Failed) => line.add(" failed"),
    }
    line.add(".");
}

// What eight calls of a source give.
fn taken<S: Source>(line: &mut Line, source: &mut S) {
    for _ in 0..8u8 {
        take(line, source);
    }
}

fn give_surely(line: &mut Line, bytes: Octets) {
    let mut sure = SureSource::new(bytes);
    let mut lent = &mut sure;
    taken(line, &mut lent);
}

fn give_most(alloc: Global, line: &mut Line, cell: &str, bytes: Octets) {
    match numbers(alloc, cell) {
        Ok((most, calls)) => taken(line, &mut MemSource::new(bytes, most.max(1), calls)),
        Err(_) => line.refuse(),
    }
}

fn give(alloc: Global, line: &mut Line, cell: &str, bytes: Octets) {
    match cell {
        "sure" => give_surely(line, bytes),
        _ => give_most(alloc, line, cell, bytes),
    }
}

// What a source gives. It gives MOST bytes a call, and the calls of the numbers fail. One without MOST is sure.
fn source(alloc: Global, line: &mut Line, row: &str) {
    line.add("gives");
    match bytes_of(alloc, word(row, 2)) {
        Ok(bytes) => give(alloc, line, word(row, 1), Octets::new(bytes)),
        Err(_) => line.refuse(),
    }
}

// What a put of `abc` answers.
fn put_once<K: Sink>(line: &mut Line, sink: &mut K) {
    match sink.put(b"abc") {
        Ok(count) => line.add_number(" ", count as u64),
        Err(Failed) => line.add(" failed"),
    }
}

// What six puts answer.
fn put<K: Sink>(line: &mut Line, sink: &mut K) {
    line.add("takes");
    for _ in 0..6u8 {
        put_once(line, sink);
    }
    line.add(" has ");
}

fn put_surely(line: &mut Line, sure: &mut SureSink) {
    let mut lent = &mut *sure;
    put(line, &mut lent);
    show(line, sure.written());
}

fn put_most(line: &mut Line, sink: &mut MemSink) {
    put(line, sink);
    show(line, sink.written());
}

fn take_surely(alloc: Global, line: &mut Line, room: usize) {
    match SureSink::new(alloc, room) {
        Ok(mut sure) => put_surely(line, &mut sure),
        Err(_) => line.refuse(),
    }
}

fn sink_of(alloc: Global, cell: &str, room: usize) -> Result<MemSink, NoMemory> {
    let (most, calls) = numbers(alloc, cell)?;
    MemSink::new(alloc, room, most.max(1), calls)
}

fn take_most(alloc: Global, line: &mut Line, cell: &str, room: usize) {
    match sink_of(alloc, cell, room) {
        Ok(mut sink) => put_most(line, &mut sink),
        Err(_) => line.refuse(),
    }
}

// What a sink takes with so much room: MOST bytes a call, and the calls of the numbers fail. One without MOST is sure.
fn sink(alloc: Global, line: &mut Line, row: &str) {
    let room = word(row, 2).parse::<usize>().unwrap_or(0);
    match word(row, 1) {
        "sure" => take_surely(alloc, line, room),
        cell => take_most(alloc, line, cell, room),
    }
}

// What a clock shows at two looks.
fn look<C: Clock>(line: &mut Line, clock: &mut C) {
    let (Moment(first), Moment(second)) = (clock.now(), clock.now());
    line.add_number("", first);
    line.add_number(" ", second);
}

// What a clock shows that is set.
fn clock(line: &mut Line, row: &str) {
    let first = word(row, 1).parse::<u64>().unwrap_or(0);
    let second = word(row, 2).parse::<u64>().unwrap_or(0);
    let mut clock = SetClock::new(Moment(first));
    look(line, &mut clock);
    line.add(" ");
    clock.set(Moment(second));
    look(line, &mut clock);
}

fn hash_of<T: Hash>(value: &T) -> u64 {
    let mut state = DefaultHasher::new();
    value.hash(&mut state);
    state.finish()
}

fn order_word(order: Ordering) -> &'static str {
    match order {
        Ordering::Less => "less",
        Ordering::Equal => "equal",
        Ordering::Greater => "greater",
    }
}

fn is_copied(text: &Text) -> Result<bool, NoMemory> {
    let copy = text.try_clone()?;
    Ok(copy == *text)
}

fn compare(line: &mut Line, text: &Text, other: &Text) {
    line.add(order_word(text.cmp(other)));
    line.add_whether(" ", text.partial_cmp(other) == Some(text.cmp(other)));
    line.add_whether(" ", *text == *other);
    match is_copied(text) {
        Ok(copied) => line.add_whether(" ", copied),
        Err(_) => line.refuse(),
    }
    line.add_whether(" ", hash_of(text) == hash_of(&text.as_slice()));
}

fn compare_to(alloc: Global, line: &mut Line, text: &Text, cell: &str) {
    match String::from_str(alloc, cell) {
        Ok(other) => compare(line, text, &Text::new(other)),
        Err(_) => line.refuse(),
    }
}

// How two texts stand to each other, whether a copy is equal, and whether a text is hashed as its bytes.
fn texts(alloc: Global, line: &mut Line, row: &str) {
    match Text::copy(alloc, word(row, 1)) {
        Ok(text) => compare_to(alloc, line, &text, word(row, 2)),
        Err(_) => line.refuse(),
    }
}

fn extend(alloc: Global, line: &mut Line, bytes: &mut Octets, cell: &str) {
    match bytes_of(alloc, cell) {
        Ok(more) => {
            if bytes.extend(more.as_slice()).is_err() {
                line.refuse();
            }
        }
        Err(_) => line.refuse(),
    }
}

// Bytes that are copied, and then are more.
fn tell_octets(alloc: Global, line: &mut Line, bytes: &mut Octets, cell: &str) {
    match bytes.try_clone() {
        Ok(copy) => {
            line.add_whether("", copy == *bytes);
            extend(alloc, line, bytes, cell);
            line.add_whether(" ", copy == *bytes);
            line.add(" ");
            show(line, copy.as_slice());
        }
        Err(_) => line.refuse(),
    }
}

fn octets(alloc: Global, line: &mut Line, row: &str) {
    match bytes_of(alloc, word(row, 1)) {
        Ok(bytes) => {
            let mut bytes = Octets::new(bytes);
            tell_octets(alloc, line, &mut bytes, word(row, 2));
            line.add(" ");
            show(line, bytes.into_vec().as_slice());
        }
        Err(_) => line.refuse(),
    }
}

fn copied(alloc: Global, fields: &[Field]) -> Result<Fields, NoMemory> {
    let mut list = Vec::new(alloc);
    for field in fields {
        list.push(field.try_clone()?)?;
    }
    Ok(Fields::new(list))
}

fn tell_fields(line: &mut Line, fields: &[Field]) {
    line.add("fields");
    for field in fields {
        line.tell(" ", field.name.as_str());
        line.add(":");
        show(line, field.value.as_slice());
    }
}

fn copy_fields(line: &mut Line, fields: &Fields) {
    match fields.try_clone() {
        Ok(copy) => tell_fields(line, copy.as_slice()),
        Err(_) => line.refuse(),
    }
}

// Fields that are copied one by one and all together.
fn fields(alloc: Global, line: &mut Line, row: &str) {
    match fields_of(alloc, row, 1) {
        Ok(fields) => match copied(alloc, &fields) {
            Ok(copy) => copy_fields(line, &copy),
            Err(_) => line.refuse(),
        },
        Err(_) => line.refuse(),
    }
}

// The texts of the two errors.
fn errors(line: &mut Line) {
    line.add_value(&Failed);
    line.add("; ");
    line.add_value(&NoMemory);
}

/// Adds the answer to a row.
pub fn answer(alloc: Global, line: &mut Line, row: &str) {
    match word(row, 0) {
        "source" => source(alloc, line, row),
        "sink" => sink(alloc, line, row),
        "clock" => clock(line, row),
        "texts" => texts(alloc, line, row),
        "octets" => octets(alloc, line, row),
        "fields" => fields(alloc, line, row),
        "errors" => errors(line),
        _ => line.add(row),
    }
}
