//! Streams from and into files, their times, and the clock.
use crate::said;
use anyhow::{Result, bail};
use dav_host::{StdSink, StdSource, SystemClock};
use dav_io::{Clock, Failed, Moment, Sink, Source};
use std::fs::File;
use std::time::{Duration, UNIX_EPOCH};

// The first moment of the year 2020, in nanoseconds since 1970.
const YEAR_2020: u64 = 1_577_836_800_000_000_000;

// Adds what a read of at most eight bytes gives, behind a `=`.
fn show_take<S: Source>(source: &mut S, line: &mut String) -> Result<()> {
    let mut into = [0u8; 8];
    match source.take(&mut into) {
        Ok(count) => {
            line.push('=')?;
            let bytes = into.get(..count).unwrap_or(b"?");
            line.push_str(std::str::from_utf8(bytes).unwrap_or("?"))?;
        }
        Err(Failed) => line.push_str("failed")?,
    }
    Ok(line.push(' ')?)
}

/// What two reads of a stream from a file give.
pub fn take(rt: &HostRuntime, path: &str) -> Result<String> {
    let mut source = StdSource::new(File::open(rt, path)?);
    let mut line = String::new(rt.alloc());
    show_take(&mut source, &mut line)?;
    show_take(&mut source, &mut line)?;
    Ok(line)
}

// How many bytes of a text a sink takes. An empty text isn't put.
fn taken<K: Sink>(sink: &mut K, text: &str) -> Result<usize, Failed> {
    if text.is_empty() {
        return Ok(0);
    }
    sink.put(text.as_bytes())
}

fn told(rt: &HostRuntime, taken: Result<usize, Failed>) -> Result<String> {
    match taken {
        Ok(count) => Ok(format!(in rt.alloc(); "took {count}")?),
        Err(Failed) => said(rt.alloc(), "failed"),
    }
}

/// What a stream into a new file takes of a text.
pub fn put(rt: &HostRuntime, path: &str, text: &str) -> Result<String> {
    let mut sink = StdSink::new(File::create(rt, path)?);
    told(rt, taken(&mut sink, text))
}

/// What a stream into a file takes that is opened for reading.
pub fn put_stuck(rt: &HostRuntime, path: &str, text: &str) -> Result<String> {
    let mut sink = StdSink::new(File::open(rt, path)?);
    told(rt, taken(&mut sink, text))
}

/// Whether the clock goes on.
pub fn clock(rt: &HostRuntime) -> Result<String> {
    let mut clock = SystemClock::new(rt);
    let Moment(first) = clock.now();
    let Moment(second) = clock.now();
    let is_late = first > YEAR_2020;
    let goes_on = second >= first;
    Ok(format!(in rt.alloc(); "late {is_late}, goes on {goes_on}")?)
}

/// Sets the time of what stands at a path, by the words of a row.
pub fn date(rt: &HostRuntime, path: &str, text: &str) -> Result<()> {
    let (secs, nanos) = text.split_once(' ').unwrap_or((text, ""));
    let secs = Duration::from_secs(secs.parse::<u64>().unwrap_or(0));
    let nanos = Duration::from_nanos(nanos.parse::<u64>().unwrap_or(0));
    let Some(time) = UNIX_EPOCH
        .checked_add(secs)
        .and_then(|time| time.checked_add(nanos))
    else {
        bail!("no time");
    };
    Ok(File::open(rt, path)?.set_modified(time)?)
}
