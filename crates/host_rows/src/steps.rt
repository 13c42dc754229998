//! Steps over one file of a disk that stays open, and a look into another meanwhile.
ghost use Rattle.std.specs.Prelude.{◌≡◌, ℕ, IsSome};

use crate::calls::path_of;
use crate::changes::options;
use anyhow::{Result, bail};
use dav_core::{Disk, DiskError, FsPath, Handle, OpenOptions};
use std::alloc::Global;

// What was read, behind a `=`, or why not.
fn show_bytes(read: Result<usize, DiskError>, bytes: &[u8; 3], line: &mut String) -> Result<()> {
    match read {
        Ok(count) => {
            line.push('=')?;
            let bytes = bytes.get(..count).unwrap_or(b"?");
            line.push_str(std::str::from_utf8(bytes).unwrap_or("?"))?;
        }
        Err(error) => write!(line, "{error}")?,
    }
    Ok(())
}

fn show_sought(sought: Result<(), DiskError>, line: &mut String) -> Result<()> {
    match sought {
        Ok(()) => Ok(line.push_str("sought")?),
        Err(error) => Ok(write!(line, "{error}")?),
    }
}

// Writes a text of at least one byte.
fn show_write<D: Disk>(disk: &mut D, file: Handle, text: &str, line: &mut String) -> Result<()>
    requires { IsSome ((D.state disk.old).live file.0) }
    ensures { (D.state disk.new).live ≡ (D.state disk.old).live }
{
    if text.is_empty() {
        bail!("nothing to write");
    }
    match disk.write(file, text.as_bytes()) {
        Ok(count) => Ok(write!(line, "wrote {count}")?),
        Err(error) => Ok(write!(line, "{error}")?),
    }
}

// Opens another file to be read, reads twice from its sixth byte on, and closes it. What is open stays so.
#[tactic(auto, using(crate::proofs::OpenStill::open_still))]
fn look_into<D: Disk>(
    disk: &mut D,
    path: &FsPath,
    into: &mut [u8; 3],
    more: &mut [u8; 3],
) -> Result<(usize, usize), DiskError>
    ensures { (h : ℕ) → IsSome ((D.state disk.old).live h) → (D.state disk.new).live h ≡ (D.state disk.old).live h }
{
    let file = disk.open(path, OpenOptions::read(), false)?;
    let sought = disk.seek(file, 5);
    let first = disk.read(file, into);
    let second = disk.read(file, more);
    disk.close(file);
    sought?;
    Ok((first?, second?))
}

fn show_other<D: Disk>(disk: &mut D, path: &FsPath, line: &mut String) -> Result<()>
    ensures { (h : ℕ) → IsSome ((D.state disk.old).live h) → (D.state disk.new).live h ≡ (D.state disk.old).live h }
{
    let (mut into, mut more) = ([0u8; 3], [0u8; 3]);
    match look_into(disk, path, &mut into, &mut more) {
        Ok((first, second)) => {
            show_bytes(Ok(first), &into, line)?;
            show_bytes(Ok(second), &more, line)
        }
        Err(error) => Ok(write!(line, "{error}")?),
    }
}

// Makes a step over a file that is open.
fn step<D: Disk>(
    alloc: Global,
    disk: &mut D,
    file: Handle,
    word: &str,
    line: &mut String,
) -> Result<()>
    requires { IsSome ((D.state disk.old).live file.0) }
    ensures { (D.state disk.new).live file.0 ≡ (D.state disk.old).live file.0 }
{
    let (kind, text) = word.split_once('@').unwrap_or((word, ""));
    match kind {
        "seek" => {
            let place = text.parse::<u64>().unwrap_or(0);
            show_sought(disk.seek(file, place), line)
        }
        "read" => {
            let mut into = [0u8; 3];
            let read = disk.read(file, &mut into);
            show_bytes(read, &into, line)
        }
        "write" => show_write(disk, file, text, line),
        "other" => {
            let path = path_of(alloc, text)?;
            show_other(disk, &path, line)
        }
        _ => bail!("no step"),
    }
}

fn all_steps<D: Disk>(
    alloc: Global,
    disk: &mut D,
    file: Handle,
    part: &str,
    line: &mut String,
) -> Result<()>
    requires { IsSome ((D.state disk.old).live file.0) }
    ensures { (D.state disk.new).live file.0 ≡ (D.state disk.old).live file.0 }
{
    for word in part.split(' ').skip(3) {
        step(alloc, disk, file, word, line)?;
        line.push(' ')?;
    }
    Ok(())
}

/// Opens the file at a path, makes the steps of a part and closes it.
pub fn steps<D: Disk>(
    alloc: Global,
    disk: &mut D,
    path: &FsPath,
    part: &str,
    line: &mut String,
) -> Result<()> {
    let how = options(part.split(' ').nth(2).unwrap_or(""));
    let file = match disk.open(path, how, false) {
        Ok(file) => file,
        Err(error) => return Ok(write!(line, "{error}")?),
    };
    let done = all_steps(alloc, disk, file, part, line);
    disk.close(file);
    done
}
