//! Files and bodies that are opened at paths of a store.
ghost use Rattle.std.specs.Prelude.{◌≡◌};
ghost use Rattle.readcache_rows.specs.Open.{IsFor};

use crate::opened::{Opened, close, count_piece};
use crate::words::StepWords;
use dav_core::{DavError, DavMethod, Disk, FsError, ParseError};
use dav_get::handle_get;
use dav_model::Settings;
use dav_rows::Line;
use dav_store::{DavFile, GuardedFileSystem};
use std::alloc::Global;

/// Opens a file.
pub fn open<S: GuardedFileSystem<()>>(
    line: &mut Line,
    store: &mut S,
    said: &StepWords,
) -> Opened<S::File>
    ensures { IsFor S.File.view result (S.Disk.state (S.inside store.new)) }
{
    match store.open(&said.path, said.how, &()) {
        Ok(file) => {
            line.add("open");
            Opened::File(file)
        }
        Err(error) => {
            line.add_value(&error);
            Opened::Nothing
        }
    }
}

// Want of memory has no status.
fn tell_refusal(line: &mut Line, error: DavError) {
    match error {
        DavError::NoMemory
        | DavError::Path(ParseError::NoMemory)
        | DavError::Fs(FsError::NoMemory) => line.add("out of memory"),
        _ => line.add_number("", u64::from(error.statuscode().as_u16())),
    }
}

/// Answers a GET or HEAD. Its body is open then.
pub fn get<S: GuardedFileSystem<()>>(
    alloc: Global,
    line: &mut Line,
    store: &mut S,
    settings: &Settings,
    said: &StepWords,
) -> Opened<S::File>
    ensures { IsFor S.File.view result (S.Disk.state (S.inside store.new)) }
{
    let method = if said.kind.as_str() == "HEAD" {
        DavMethod::Head
    } else {
        DavMethod::Get
    };
    match handle_get(
        alloc,
        settings,
        store,
        &(),
        method,
        &said.path,
        &said.fields,
    ) {
        Ok((outcome, body)) => {
            line.add_number("", u64::from(outcome.status));
            Opened::Body(body)
        }
        Err(error) => {
            tell_refusal(line, error);
            Opened::Nothing
        }
    }
}

// Polls what is open to its end, and answers how many bytes came.
fn drained<D: Disk, F: DavFile<D>>(disk: &mut D, opened: Opened<F>) -> u64
    requires { IsFor F.view opened (D.state disk.old) }
{
    let mut opened = opened;
    let mut all = 0;
    for _ in 0..u32::MAX {
        match count_piece(disk, &mut opened) {
            0 => break,
            count => all = u64::saturating_add(all, count),
        }
    }
    close(disk, opened);
    all
}

/// Answers so many GETs to their end, and adds how many bytes came.
pub fn get_whole<S: GuardedFileSystem<()>>(
    alloc: Global,
    line: &mut Line,
    store: &mut S,
    said: &StepWords,
) {
    let settings = Settings::defaults(alloc);
    let mut all = 0;
    let mut unsaid = Line::new(alloc);
    for _ in 0..said.count {
        let opened = get(alloc, &mut unsaid, store, &settings, said);
        all = u64::saturating_add(all, drained(store.disk(), opened));
    }
    line.add_number("bytes ", all);
}
