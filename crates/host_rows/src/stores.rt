//! Calls of local stores over a disk of the machine, and whether what they made is for its owner alone.
use anyhow::{Result, bail};
use dav_core::{DavPath, Disk, FsError, OpenOptions};
use dav_host::HostDisk;
use dav_local::LocalFs;
use dav_memory::{Forget, Remember};
use dav_store::{DavFile, DavFileSystem};
use std::alloc::Global;
use std::fs;
use std::os::unix::fs::MetadataExt;

// How a PUT opens its file.
fn put_options() -> OpenOptions {
    OpenOptions {
        read: false,
        write: true,
        append: false,
        truncate: true,
        create: true,
        create_new: false,
    }
}

// Opens a file as a PUT does, and closes it.
fn put<D: Disk, R: Remember>(store: &mut LocalFs<D, R>, path: &DavPath) -> Result<(), FsError> {
    match DavFileSystem::open(store, path, put_options()) {
        Ok(file) => {
            file.close(DavFileSystem::disk(store));
            Ok(())
        }
        Err(error) => Err(error),
    }
}

// Makes a call of a store.
fn call<D: Disk, R: Remember>(
    alloc: Global,
    store: &mut LocalFs<D, R>,
    kind: &str,
    path: &DavPath,
) -> Result<(), FsError> {
    match kind {
        "put" => put(store, path),
        "make" => DavFileSystem::create_dir(store, path),
        _ => store.create_defaults(alloc),
    }
}

// Makes a call of a store over a disk. What it makes is public at a letter `p`, and names fold at `f`.
fn call_over<D: Disk + Drop>(
    alloc: Global,
    disk: D,
    how: &str,
    kind: &str,
    path: &DavPath,
) -> Result<(), FsError> {
    let (public, folds) = (how.contains('p'), how.contains('f'));
    let mut store = LocalFs::new(disk, Forget, public, folds, false);
    call(alloc, &mut store, kind, path)
}

// Begins what is told behind something else.
fn separate(line: &mut String) -> Result<()> {
    if !line.is_empty() {
        line.push_str(", ")?;
    }
    Ok(())
}

// Adds what the call of a part answers, made by a store of its own.
fn tell(rt: &HostRuntime, root: &str, how: &str, part: &str, line: &mut String) -> Result<()> {
    let alloc = rt.alloc();
    let (kind, word) = part.split_once(' ').unwrap_or((part, "/"));
    let Ok(path) = DavPath::new(alloc, word) else {
        bail!("no path");
    };
    separate(line)?;
    let disk = HostDisk::new(alloc, rt, root)?;
    match call_over(alloc, disk, how, kind, &path) {
        Ok(()) => Ok(line.push_str("done")?),
        Err(error) => Ok(write!(line, "{error}")?),
    }
}

/// What local stores below a folder answer, each to one call.
pub fn stores(rt: &HostRuntime, root: &str, parts: &str) -> Result<String> {
    let mut line = String::new(rt.alloc());
    let (how, rest) = parts.split_once(' ').unwrap_or((parts, ""));
    for part in rest.split('|').skip(1) {
        tell(rt, root, how, part.trim(), &mut line)?;
    }
    Ok(line)
}

/// Whether what stands at each path is for its owner alone.
pub fn alone(rt: &HostRuntime, paths: &str) -> Result<String> {
    let mut line = String::new(rt.alloc());
    for path in paths.split(' ') {
        separate(&mut line)?;
        let is_alone = fs::metadata(rt, path)?.mode() & 0o077 == 0;
        line.push_str(if is_alone { "alone" } else { "open" })?;
    }
    Ok(line)
}
