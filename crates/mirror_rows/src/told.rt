//! How a fetch ended, and what is kept then.
use dav_core::{DavPath, FsPath};
use dav_fetch::{Copied, Kept, MirrorError};
use dav_rows::Line;
use percent_encoding::CONTROLS;

// The most bytes that are shown of anything.
const SHOWN: usize = 200;

fn tell_bytes(line: &mut Line, bytes: &[u8]) {
    if bytes.len() < SHOWN {
        line.add_bytes(bytes, CONTROLS.add(b'%').add(b' ').add(b','));
    } else {
        line.add_number("#", bytes.len() as u64);
    }
}

fn tell_path(line: &mut Line, word: &str, path: &DavPath) {
    line.tell(word, " ");
    match path.with_prefix() {
        Ok(text) => tell_bytes(line, text.as_slice()),
        Err(_) => line.refuse(),
    }
}

fn tell_error(line: &mut Line, error: &MirrorError) {
    match error {
        MirrorError::Peer => line.add("peer"),
        MirrorError::Refused { path, status } => {
            tell_path(line, "refused", path);
            line.add_number(" ", u64::from(*status));
        }
        MirrorError::NotAPage { path } => tell_path(line, "no page", path),
        MirrorError::BadReply { path } => tell_path(line, "bad reply", path),
        MirrorError::Short {
            path,
            got,
            announced,
        } => {
            tell_path(line, "short", path);
            line.add_number(" ", *got);
            line.add_number(" of ", *announced);
        }
        MirrorError::TooLong { path } => tell_path(line, "too long", path),
        MirrorError::Budget { made } => line.add_number("budget ", *made),
        MirrorError::NoMemory => line.refuse(),
    }
}

/// Tells how a fetch ended.
pub fn tell_end(line: &mut Line, ended: Result<(), MirrorError>) {
    line.add(" ");
    match ended {
        Ok(()) => line.add("ok"),
        Err(error) => tell_error(line, &error),
    }
}

fn tell_names(line: &mut Line, path: &FsPath) {
    for name in path.as_slice() {
        line.add("/");
        tell_bytes(line, name.as_slice());
    }
}

fn tell_file(line: &mut Line, file: &Kept) {
    line.add(" ");
    tell_names(line, &file.path);
    line.add(",");
    tell_bytes(line, file.tag.as_slice());
    line.add_number(",", file.len);
    line.add(",");
    tell_bytes(line, file.bytes.as_slice());
}

/// Tells the directories and the files of a copy.
pub fn tell_copy(line: &mut Line, copy: &Copied) {
    line.add(" :");
    for path in copy.dirs.as_slice() {
        line.add(" ");
        tell_names(line, path);
    }
    line.add(" :");
    for file in copy.files.as_slice() {
        tell_file(line, file);
    }
}
