//! COPY, MOVE and DELETE over the local store.
use dav_cache::Owned;
use dav_core::{DavError, DavPath, FsError, ParseError};
use dav_disk::MemDisk;
use dav_local::LocalFs;
use dav_methods::{copy, delete, move_to};
use dav_model::Outcome;
use dav_rows::{Line, add_field, word};
use http::HeaderMap;
use std::alloc::Global;

type Store = LocalFs<MemDisk, Owned>;

// Adds the fields of a part.
fn add_fields(alloc: Global, line: &mut Line, fields: &mut HeaderMap, part: &str) {
    for word in part.split(' ').skip(3) {
        add_field(alloc, line, fields, word);
    }
}

// Want of memory has no status.
fn tell_refusal(line: &mut Line, error: DavError) {
    match error {
        DavError::NoMemory
        | DavError::Path(ParseError::NoMemory)
        | DavError::Fs(FsError::NoMemory) => line.refuse(),
        _ => line.add_number("refused ", u64::from(error.statuscode().as_u16())),
    }
}

fn tell_outcome(line: &mut Line, answer: Result<Outcome, DavError>) {
    match answer {
        Ok(outcome) => line.add_number("", u64::from(outcome.status)),
        Err(error) => tell_refusal(line, error),
    }
}

fn prefix_of(word: &str) -> &str {
    if word == "-" { "" } else { word }
}

fn carry_move(
    alloc: Global,
    line: &mut Line,
    store: &mut Store,
    path: &DavPath,
    fields: &HeaderMap,
    prefix: &str,
) {
    tell_outcome(line, move_to(alloc, store, &(), path, fields, prefix));
}

fn carry_copy(
    alloc: Global,
    line: &mut Line,
    store: &mut Store,
    path: &DavPath,
    fields: &HeaderMap,
    prefix: &str,
) {
    tell_outcome(line, copy(alloc, store, &(), path, fields, prefix));
}

fn carry_delete(
    alloc: Global,
    line: &mut Line,
    store: &mut Store,
    path: &DavPath,
    fields: &HeaderMap,
) {
    tell_outcome(line, delete(alloc, store, &(), path, fields));
}

fn carry_with(
    alloc: Global,
    line: &mut Line,
    store: &mut Store,
    path: &DavPath,
    fields: &HeaderMap,
    part: &str,
) {
    let prefix = prefix_of(word(part, 2));
    match word(part, 0) {
        "move" => carry_move(alloc, line, store, path, fields, prefix),
        "delete" => carry_delete(alloc, line, store, path, fields),
        _ => carry_copy(alloc, line, store, path, fields, prefix),
    }
}

// Makes the call of a method at a path.
fn carry_at(alloc: Global, line: &mut Line, store: &mut Store, path: &DavPath, part: &str) {
    let mut fields = HeaderMap::new(alloc);
    add_fields(alloc, line, &mut fields, part);
    carry_with(alloc, line, store, path, &fields, part);
}

/// Makes the call of a method.
pub fn carry(alloc: Global, line: &mut Line, store: &mut Store, part: &str) {
    match DavPath::from_str_and_prefix(alloc, word(part, 1), prefix_of(word(part, 2))) {
        Ok(path) => carry_at(alloc, line, store, &path, part),
        Err(_) => line.refuse(),
    }
}
