//! Calls of a disk.
//!
//!     meta PATH               what stands at a path
//!     link PATH               the same, a link at its end not followed
//!     mkdir PATH              makes a directory
//!     rmdir PATH              removes a directory
//!     rm PATH                 removes a file
//!     mv PATH PATH            moves what stands at the first path to the second
//!     cp PATH PATH            copies a file
//!     open PATH HOW WORD..    opens a file, does what the words say, and closes it
//!
//! HOW is a letter for each option: `r`, `w`, `a` (append), `t` (truncate), `c` (create), `n` (create_new); or `-` for
//! none. A word is `write:BYTES`, `read:COUNT`, `seek:PLACE`, `meta`, or a call with `,` in place of its blanks.
ghost use Rattle.std.specs.Prelude.{◌≡◌, IsSome};

use crate::cells::{bytes, number, path_of, show};
use dav_core::{Disk, DiskError, FsPath, Handle, Kind, Meta, OpenOptions};
use dav_rows::{Line, word};
use std::alloc::Global;

// The most bytes of a read.
const MOST: u64 = 1000;

fn how_of(word: &str) -> OpenOptions {
    OpenOptions {
        read: word.contains('r'),
        write: word.contains('w'),
        append: word.contains('a'),
        truncate: word.contains('t'),
        create: word.contains('c'),
        create_new: word.contains('n'),
    }
}

fn kind_word(kind: Kind) -> &'static str {
    match kind {
        Kind::Dir => "dir",
        Kind::File => "file",
        Kind::Link => "link",
    }
}

/// Adds what a disk says of what stands somewhere: its kind, its number, its length and its time.
pub fn show_meta(line: &mut Line, meta: Meta) {
    line.add(kind_word(meta.kind));
    line.add_number(" ", meta.number);
    line.add_number(" ", meta.len);
    if let Some(time) = meta.modified {
        line.add(" ");
        line.add_value(&time.secs);
        line.add_number(".", u64::from(time.nanos));
    }
}

fn show_done(line: &mut Line, answer: Result<(), DiskError>) {
    match answer {
        Ok(()) => line.add("ok"),
        Err(error) => line.add_value(&error),
    }
}

fn show_looked(line: &mut Line, answer: Result<Meta, DiskError>) {
    match answer {
        Ok(meta) => show_meta(line, meta),
        Err(error) => line.add_value(&error),
    }
}

// Writes bytes, if there is one.
fn write<D: Disk>(line: &mut Line, disk: &mut D, file: Handle, bytes: &[u8])
    requires { IsSome ((D.state disk.old).live file.0) }
    ensures { (D.state disk.new).live ≡ (D.state disk.old).live }
{
    if bytes.is_empty() {
        line.refuse();
        return;
    }
    match disk.write(file, bytes) {
        Ok(count) => line.add_number("wrote ", count as u64),
        Err(error) => line.add_value(&error),
    }
}

// Reads into these bytes, if there is one.
fn read_into<D: Disk>(line: &mut Line, disk: &mut D, file: Handle, into: &mut [u8])
    requires { IsSome ((D.state disk.old).live file.0) }
    ensures { (D.state disk.new).live ≡ (D.state disk.old).live }
{
    if into.is_empty() {
        line.refuse();
        return;
    }
    match disk.read(file, into) {
        Ok(count) => {
            line.add("read ");
            show(line, into.get(..count).unwrap_or(b"?"));
        }
        Err(error) => line.add_value(&error),
    }
}

// Reads at most so many bytes, at least one.
fn read<D: Disk>(alloc: Global, line: &mut Line, disk: &mut D, file: Handle, cell: &str)
    requires { IsSome ((D.state disk.old).live file.0) }
    ensures { (D.state disk.new).live ≡ (D.state disk.old).live }
{
    let room = number(line, cell).min(MOST) as usize;
    match vec![in alloc; 0u8; room] {
        Ok(mut buffer) => read_into(line, disk, file, buffer.as_mut_slice()),
        Err(_) => line.refuse(),
    }
}

// Makes a call that opens nothing. `paths` are those of the call.
fn call_path<D: Disk>(line: &mut Line, disk: &mut D, kind: &str, paths: (&FsPath, &FsPath))
    ensures { (D.state disk.new).live ≡ (D.state disk.old).live }
{
    let (path, to) = paths;
    match kind {
        "meta" => show_looked(line, disk.meta(path)),
        "link" => show_looked(line, disk.link_meta(path)),
        "mkdir" => show_done(line, disk.create_dir(path, true)),
        "rmdir" => show_done(line, disk.remove_dir(path)),
        "rm" => show_done(line, disk.remove_file(path)),
        "mv" => show_done(line, disk.rename(path, to)),
        "cp" => show_done(line, disk.copy(path, to)),
        _ => line.refuse(),
    }
}

// The same, by the words of its paths.
fn call_words<D: Disk>(
    alloc: Global,
    line: &mut Line,
    disk: &mut D,
    kind: &str,
    words: (&str, &str),
)
    ensures { (D.state disk.new).live ≡ (D.state disk.old).live }
{
    let path = path_of(alloc, line, words.0);
    let to = path_of(alloc, line, words.1);
    call_path(line, disk, kind, (&path, &to));
}

fn call_inside<D: Disk>(alloc: Global, line: &mut Line, disk: &mut D, part: &str)
    ensures { (D.state disk.new).live ≡ (D.state disk.old).live }
{
    let mut words = part.split(',');
    let kind = words.next().unwrap_or("");
    let path = words.next().unwrap_or("");
    let to = words.next().unwrap_or("");
    call_words(alloc, line, disk, kind, (path, to));
}

fn seek<D: Disk>(line: &mut Line, disk: &mut D, file: Handle, cell: &str)
    requires { IsSome ((D.state disk.old).live file.0) }
    ensures { (D.state disk.new).live ≡ (D.state disk.old).live }
{
    let place = number(line, cell);
    show_done(line, disk.seek(file, place));
}

// Does what a word says on an open file.
fn call_file<D: Disk>(alloc: Global, line: &mut Line, disk: &mut D, file: Handle, word: &str)
    requires { IsSome ((D.state disk.old).live file.0) }
    ensures { (D.state disk.new).live ≡ (D.state disk.old).live }
{
    let (kind, second) = word.split_once(':').unwrap_or((word, ""));
    match kind {
        "meta" => show_looked(line, disk.file_meta(file)),
        "seek" => seek(line, disk, file, second),
        "read" => read(alloc, line, disk, file, second),
        "write" => {
            let from = bytes(alloc, line, second);
            write(line, disk, file, from.as_slice());
        }
        _ => call_inside(alloc, line, disk, word),
    }
}

// Does what the words of a part say on an open file, and closes it.
fn call_open<D: Disk>(alloc: Global, line: &mut Line, disk: &mut D, file: Handle, part: &str)
    requires { IsSome ((D.state disk.old).live file.0) }
{
    for word in part.split(' ').skip(3) {
        call_file(alloc, line, disk, file, word);
        line.add(" | ");
    }
    disk.close(file);
    line.add("closed");
}

fn open<D: Disk>(alloc: Global, line: &mut Line, disk: &mut D, part: &str) {
    let path = path_of(alloc, line, word(part, 1));
    match disk.open(&path, how_of(word(part, 2)), true) {
        Ok(file) => call_open(alloc, line, disk, file, part),
        Err(error) => line.add_value(&error),
    }
}

/// Makes the call of a part.
pub fn call<D: Disk>(alloc: Global, line: &mut Line, disk: &mut D, part: &str) {
    match word(part, 0) {
        "open" => open(alloc, line, disk, part),
        kind => call_words(alloc, line, disk, kind, (word(part, 1), word(part, 2))),
    }
    line.add(" | ");
}
