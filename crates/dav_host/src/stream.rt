//! Streams of the machine. What they hold isn't told; where the machine's reader or writer tells it, each call hands on
//! what that one says of the bytes.
ghost use Rattle.std.specs.Prelude.{◌≡◌, ◌<◌, ◌≤◌, IfOk, IsErr, length};
ghost use Rattle.std.specs.Io.KnownBytes.{ReadConsumes, WriteAppends};
ghost use Rattle.dav_io.specs.Counts.{CountsFault, Rose, one_more};
ghost use Rattle.dav_io.specs.Outside.{Stream, Takes, Puts};
ghost use Rattle.dav_host.specs.Host.{untold_stream};

use dav_io::{Failed, Sink, Source};
use std::io::{ErrorKind, Read, Write};
use std::os::unix::fs::FileExt;

// How often a call is tried again where a signal came between.
const TRIES: u32 = 1000;

// Reads once, and again where a signal came between. Any other error of the machine is a fault.
pub fn read_again<R: Read>(input: &mut R, into: &mut [u8]) -> Result<usize, Failed>
    ensures within { IfOk result (λ n. n ≤ length into.new) }
    ensures bytes { ReadConsumes (R.remaining input.old) (R.remaining input.new) result into.new }
{
    'tries: for _ in 0..TRIES {
        match input.read(into) {
            Ok(count) => return Ok(count),
            Err(error) => {
                if error.kind() != ErrorKind::Interrupted {
                    return Err(Failed);
                }
            }
        }
    }
    Err(Failed)
}

// The same from a place on, in bytes from the first. The machine's own place stays where it is.
pub fn read_again_at<R: FileExt>(input: &R, into: &mut [u8], place: u64) -> Result<usize, Failed>
    ensures { IfOk result (λ n. n ≤ length into.new) }
{
    for _ in 0..TRIES {
        match input.read_at(into, place) {
            Ok(read) => return Ok(read),
            Err(error) => {
                if error.kind() != ErrorKind::Interrupted {
                    return Err(Failed);
                }
            }
        }
    }
    Err(Failed)
}

// Writes once, and again where a signal came between. Any other error is a fault, and so is a write of no byte.
pub fn write_again<W: Write>(output: &mut W, from: &[u8]) -> Result<usize, Failed>
    ensures within { IfOk result (λ n. n ≤ length from.now) }
    ensures some { IfOk result (λ n. 0 < n) }
    ensures bytes { WriteAppends (W.contents output.old) (W.contents output.new) result from.now }
{
    'tries: for _ in 0..TRIES {
        match output.write(from) {
            Ok(count) => {
                if count == 0 {
                    return Err(Failed);
                }
                return Ok(count);
            }
            Err(error) => {
                if error.kind() != ErrorKind::Interrupted {
                    return Err(Failed);
                }
            }
        }
    }
    Err(Failed)
}

// How often a stream was asked, and how often it failed. Both counts stop at the greatest u64.
#[derive(Clone, Copy)]
struct Counts {
    faults: u64,
    asked: u64,
}

impl Counts {
    // Nothing asked yet.
    fn none() -> Counts
        ensures faults { result.faults ≡ 0 }
        ensures asked { result.asked ≡ 0 }
    {
        Counts {
            faults: 0,
            asked: 0,
        }
    }

    // A call was answered so.
    fn note(&mut self, answer: &Result<usize, Failed>)
        ensures faults { CountsFault answer.now self.old.faults self.new.faults }
        ensures counts { self.old.faults ≤ self.new.faults }
        ensures failed { IsErr answer.now → Rose self.old.faults self.new.faults }
        ensures asked { self.new.asked ≡ one_more self.old.asked }
    {
        self.asked = self.asked.saturating_add(1);
        if answer.is_err() {
            self.faults = self.faults.saturating_add(1);
        }
    }
}

/// A stream of the machine that is read. It doesn't tell what it holds.
#[derive(Drop)]
pub struct StdSource<R: Read + Drop> {
    input: R,
    counts: Counts,
}

impl<R: Read + Drop> StdSource<R> {
    /// Nothing read yet.
    pub fn new(input: R) -> StdSource<R>
        ensures stream { ⟦<StdSource<R> as Source>⟧.stream result ≡ untold_stream 0 0 }
        ensures input { result.input ≡ input }
    {
        StdSource {
            input,
            counts: Counts::none(),
        }
    }
}

impl<R: Read + Drop> Source for StdSource<R> {
    ghost stream = { λ s. untold_stream s.counts.faults s.counts.asked };

    /// It gives what the machine's reader gives, and 0 only where that one is at its end. Each error but an
    /// interruption counts one fault.
    fn take(&mut self, into: &mut [u8]) -> Result<usize, Failed>
        requires { 0 < length into.old }
        ensures done { Takes (untold_stream self.old.counts.faults self.old.counts.asked) into.new result
            (untold_stream self.new.counts.faults self.new.counts.asked) }
        ensures bytes { ReadConsumes (R.remaining self.old.input) (R.remaining self.new.input) result into.new }
        ensures faults { CountsFault result self.old.counts.faults self.new.counts.faults }
    {
        let result = read_again(&mut self.input, into);
        self.counts.note(&result);
        result
    }
}

/// A stream of the machine that is written. It doesn't tell what was written.
#[derive(Drop)]
pub struct StdSink<W: Write + Drop> {
    output: W,
    counts: Counts,
}

impl<W: Write + Drop> StdSink<W> {
    /// Nothing written yet.
    pub fn new(output: W) -> StdSink<W>
        ensures stream { ⟦<StdSink<W> as Sink>⟧.stream result ≡ untold_stream 0 0 }
        ensures output { result.output ≡ output }
    {
        StdSink {
            output,
            counts: Counts::none(),
        }
    }
}

impl<W: Write + Drop> Sink for StdSink<W> {
    ghost stream = { λ s. untold_stream s.counts.faults s.counts.asked };

    /// As many bytes are taken as the machine's writer took, and these went to it. Each error but an interruption
    /// counts one fault.
    fn put(&mut self, from: &[u8]) -> Result<usize, Failed>
        requires { 0 < length from.now }
        ensures done { Puts (untold_stream self.old.counts.faults self.old.counts.asked) from.now result
            (untold_stream self.new.counts.faults self.new.counts.asked) }
        ensures bytes { WriteAppends (W.contents self.old.output) (W.contents self.new.output) result from.now }
        ensures faults { CountsFault result self.old.counts.faults self.new.counts.faults }
    {
        let result = write_again(&mut self.output, from);
        self.counts.note(&result);
        result
    }
}
