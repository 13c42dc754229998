//! What a row has open, and its calls on the disk below.
ghost use Rattle.std.specs.Prelude.{◌≡◌, IsSome};
ghost use Rattle.dav_core.specs.Disk.{DiskState};
ghost use Rattle.dav_get.specs.Bodies.{IsHeld};
ghost use Rattle.readcache_rows.specs.Open.{IsFor, IsOpenFile};

use crate::words::StepWords;
use dav_core::{DavMetaData, Disk, FsError};
use dav_get::{GetBody, Polled};
use dav_model::Answer;
use dav_rows::Line;
use dav_scenes::tell_bytes;
use dav_store::DavFile;
use std::alloc::Global;

// The most bytes of a read.
const MOST: u64 = 64;

/// A file that was opened, or the body of an answer.
pub enum Opened<F> {
    Nothing,
    File(F),
    Body(GetBody<F>),
}

/// Adds a piece of bytes.
fn tell_piece(line: &mut Line, bytes: &[u8]) {
    line.add("=");
    tell_bytes(line, bytes);
}

fn read<D: Disk, F: DavFile<D>>(line: &mut Line, disk: &mut D, file: &mut F, most: u64)
    requires { IsOpenFile F.view file.old (D.state disk.old) }
    ensures { IsOpenFile F.view file.new (D.state disk.new) }
{
    let mut into = [0u8; MOST as usize];
    let count = most.clamp(1, MOST) as usize;
    match file.read_into(disk, &mut into[..count]) {
        Ok(count) => tell_piece(line, into.get(..count).unwrap_or(b"?")),
        Err(error) => line.add_value(&error),
    }
}

fn seek<D: Disk, F: DavFile<D>>(line: &mut Line, disk: &mut D, file: &mut F, place: u64)
    requires { IsOpenFile F.view file.old (D.state disk.old) }
    ensures { IsOpenFile F.view file.new (D.state disk.new) }
{
    match file.seek(disk, place) {
        Ok(place) => line.add_number("at ", place),
        Err(error) => line.add_value(&error),
    }
}

/// Adds what is known of something: its kind, its length and its entity tag.
pub fn tell_meta<M: DavMetaData>(alloc: Global, line: &mut Line, meta: &M) {
    line.add(if meta.is_dir() { "dir" } else { "file" });
    line.add_number(" ", meta.len());
    match meta.etag(alloc) {
        Ok(Some(tag)) => line.tell(" ", tag.as_str()),
        Ok(None) => line.add(" untagged"),
        Err(_) => line.refuse(),
    }
}

fn know<D: Disk, F: DavFile<D>>(alloc: Global, line: &mut Line, disk: &mut D, file: &mut F)
    requires { IsOpenFile F.view file.old (D.state disk.old) }
    ensures { IsOpenFile F.view file.new (D.state disk.new) }
{
    match file.metadata(disk) {
        Ok(meta) => tell_meta(alloc, line, &meta),
        Err(error) => line.add_value(&error),
    }
}

/// Adds whether something was done.
pub fn tell_done(line: &mut Line, answer: Result<(), FsError>) {
    match answer {
        Ok(()) => line.add("done"),
        Err(error) => line.add_value(&error),
    }
}

fn write<D: Disk, F: DavFile<D>>(line: &mut Line, disk: &mut D, file: &mut F, bytes: &[u8])
    requires { IsOpenFile F.view file.old (D.state disk.old) }
    ensures { IsOpenFile F.view file.new (D.state disk.new) }
{
    tell_done(line, file.write_bytes(disk, bytes));
}

fn flush<D: Disk, F: DavFile<D>>(line: &mut Line, disk: &mut D, file: &mut F)
    requires { IsOpenFile F.view file.old (D.state disk.old) }
    ensures { IsOpenFile F.view file.new (D.state disk.new) }
{
    tell_done(line, file.flush(disk));
}

// A step on a file.
fn step_file<D: Disk, F: DavFile<D>>(
    alloc: Global,
    line: &mut Line,
    disk: &mut D,
    file: &mut F,
    said: &StepWords,
)
    requires { IsOpenFile F.view file.old (D.state disk.old) }
    ensures { IsOpenFile F.view file.new (D.state disk.new) }
{
    match said.kind.as_str() {
        "read" => read(line, disk, file, said.count),
        "seek" => seek(line, disk, file, said.count),
        "meta" => know(alloc, line, disk, file),
        "write" => write(line, disk, file, said.bytes.as_slice()),
        "flush" => flush(line, disk, file),
        _ => line.add("no call of a file"),
    }
}

/// A poll of a body.
pub fn poll<D: Disk, F: DavFile<D>>(
    alloc: Global,
    line: &mut Line,
    disk: &mut D,
    body: &mut GetBody<F>,
)
    requires { IsHeld F.view (D.state disk.old) body.old }
    ensures { IsHeld F.view (D.state disk.new) body.new }
{
    let Ok(room) = body.make_room(Vec::new(alloc)) else {
        return line.refuse();
    };
    match body.take_piece(disk, room) {
        Answer::Piece(bytes) => tell_piece(line, bytes.as_slice()),
        Answer::End => line.add("end"),
        _ => line.add("broken"),
    }
}

/// Polls a body, and answers how many bytes came.
pub fn count_piece<D: Disk, F: DavFile<D>>(disk: &mut D, opened: &mut Opened<F>) -> u64
    requires { IsFor F.view opened.old (D.state disk.old) }
    ensures { IsFor F.view opened.new (D.state disk.new) }
{
    match opened {
        Opened::Body(body) => match body.poll_piece(disk) {
            Polled::Piece(piece) => piece.len() as u64,
            Polled::End | Polled::Broken => 0,
        },
        _ => 0,
    }
}

// A turn of the outside, while something may be open.
fn turn<D: Disk, F: DavFile<D>>(line: &mut Line, disk: &mut D, opened: &Opened<F>)
    requires { IsFor F.view opened.now (D.state disk.old) }
    ensures { IsFor F.view opened.now (D.state disk.new) }
{
    match disk.turn() {
        Ok(()) => line.add("turned"),
        Err(_) => line.refuse(),
    }
}

/// Ends what is open.
pub fn close<D: Disk, F: DavFile<D>>(disk: &mut D, opened: Opened<F>)
    requires { IsFor F.view opened (D.state disk.old) }
{
    match opened {
        Opened::Nothing => {}
        Opened::File(file) => file.close(disk),
        Opened::Body(body) => body.close(disk),
    }
}

/// A step on what is open, or a turn of the outside.
pub fn step_opened<D: Disk, F: DavFile<D>>(
    alloc: Global,
    line: &mut Line,
    disk: &mut D,
    opened: &mut Opened<F>,
    said: &StepWords,
)
    requires { IsFor F.view opened.old (D.state disk.old) }
    ensures { IsFor F.view opened.new (D.state disk.new) }
{
    if said.kind.as_str() == "turn" {
        return turn(line, disk, opened);
    }
    match opened {
        Opened::Nothing => line.add("nothing is open"),
        Opened::File(file) => step_file(alloc, line, disk, file, said),
        Opened::Body(body) => poll(alloc, line, disk, body),
    }
}
