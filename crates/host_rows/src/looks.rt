//! What a disk says of numbers and times, compared with what it said before.
use crate::calls::path_of;
use anyhow::{Result, bail};
use dav_core::{Disk, DiskError, FileTime, FsPath, Meta, OpenOptions};
use dav_host::SystemClock;
use dav_io::Clock;

const SECOND: u64 = 1_000_000_000;

/// What was kept of a look: a number and a time.
#[derive(Clone, Copy)]
pub struct Kept {
    number: u64,
    time: Option<FileTime>,
}

impl Kept {
    /// No look was kept yet.
    pub fn none() -> Kept {
        Kept {
            number: 0,
            time: None,
        }
    }
}

// What is said of a file that was opened, at once and again.
fn opened<D: Disk>(disk: &mut D, path: &FsPath) -> Result<(Meta, Meta), DiskError> {
    let file = disk.open(path, OpenOptions::read(), false)?;
    let first = disk.file_meta(file);
    let second = disk.file_meta(file);
    disk.close(file);
    Ok((first?, second?))
}

// What is said of a path, in one of four ways.
fn met<D: Disk>(disk: &mut D, how: &str, path: &FsPath) -> Result<Meta, DiskError> {
    match how {
        "link" => disk.link_meta(path),
        "open" => Ok(opened(disk, path)?.0),
        "again" => Ok(opened(disk, path)?.1),
        _ => disk.meta(path),
    }
}

fn number_word(kept: Kept, meta: Meta) -> &'static str {
    if meta.number == kept.number {
        "same number"
    } else {
        "another number"
    }
}

fn time_word(kept: Kept, meta: Meta) -> &'static str {
    if meta.modified == kept.time {
        "same time"
    } else {
        "another time"
    }
}

fn is_ordered(first: FileTime, second: FileTime) -> bool {
    first.secs < second.secs || first.secs == second.secs && first.nanos <= second.nanos
}

// The clock's moment as a time, but for the nanoseconds: the end of its second.
fn second_of(rt: &HostRuntime) -> FileTime {
    let now = SystemClock::new(rt).now();
    FileTime {
        secs: i64::try_from(now.0 / SECOND).unwrap_or(0),
        nanos: 999_999_999,
    }
}

fn since_word(rt: &HostRuntime, kept: Kept, meta: Meta) -> &'static str {
    let (Some(before), Some(time)) = (kept.time, meta.modified) else {
        return "no time";
    };
    if !is_ordered(before, time) {
        return "earlier";
    }
    if is_ordered(time, second_of(rt)) {
        "not earlier"
    } else {
        "to come"
    }
}

fn show_time(line: &mut String, time: Option<FileTime>) -> Result<()> {
    match time {
        Some(time) => Ok(write!(line, "{} and {}", time.secs, time.nanos)?),
        None => Ok(line.push_str("no time")?),
    }
}

fn tell(
    rt: &HostRuntime,
    kind: &str,
    meta: Meta,
    kept: &mut Kept,
    line: &mut String,
) -> Result<()> {
    match kind {
        "keep" => {
            *kept = Kept {
                number: meta.number,
                time: meta.modified,
            };
            line.push_str("kept")?;
        }
        "same" => write!(
            line,
            "{}, {}",
            number_word(*kept, meta),
            time_word(*kept, meta)
        )?,
        "number" => line.push_str(number_word(*kept, meta))?,
        "since" => line.push_str(since_word(rt, *kept, meta))?,
        "when" => show_time(line, meta.modified)?,
        _ => bail!("no look"),
    }
    Ok(())
}

/// Makes the look of a part, and tells what it asks of its answer.
pub fn look<D: Disk>(
    rt: &HostRuntime,
    disk: &mut D,
    part: &str,
    kept: &mut Kept,
    line: &mut String,
) -> Result<()> {
    let mut words = part.split(' ');
    let kind = words.next().unwrap_or("");
    let how = words.next().unwrap_or("");
    let path = path_of(rt.alloc(), words.next().unwrap_or(""))?;
    match met(disk, how, &path) {
        Ok(meta) => tell(rt, kind, meta, kept, line),
        Err(error) => Ok(write!(line, "{error}")?),
    }
}
