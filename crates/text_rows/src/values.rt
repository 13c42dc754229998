//! What the values of fields, the words of methods and metadata say.
//!
//!     type|NAME             the content type
//!     method|WORD           the method, or a status
//!     methods|WORD|WORDS    a set: each word of WORDS is added, and then WORD removed; `all` removes from all
//!     tag|VALUE             the entity tag: `weak:TEXT`, `strong:TEXT` or `none`
//!     list|VALUE            a list of them: `any`, the tags, or `none`
//!     range|VALUE           a value of `if-range`: a tag, `at:SECONDS` or `none`
//!     date|VALUE            the seconds of a date, or `none`
//!     equal|VALUE|VALUE     strong and weak comparison of two tags
//!     status|WORD           the status of an error, and whether the connection ends
//!     meta|KIND|CELLS       number, length, seconds and nanoseconds with commas between: what metadata says
//!     #                     is written as it stands

use crate::paths::tell_bytes;
use dav_core::{
    DavError, DavMetaData, DavMethod, DavMethodSet, ETag, EtagList, FileTime, FsError, IfRange,
    Kind, Meta, ParseError, content_type, date_secs, dav_method,
};
use dav_rows::{Line, bytes_of};
use http::{Method, StatusCode};
use std::alloc::Global;

const WORDS: [&str; 16] = [
    "HEAD",
    "GET",
    "PUT",
    "PATCH",
    "OPTIONS",
    "PROPFIND",
    "PROPPATCH",
    "MKCOL",
    "COPY",
    "MOVE",
    "DELETE",
    "LOCK",
    "UNLOCK",
    "REPORT",
    "MKCALENDAR",
    "MKADDRESSBOOK",
];

fn method_of(alloc: Global, word: &str) -> Option<DavMethod> {
    let method = Method::from_bytes(alloc, word.as_bytes()).ok()?;
    dav_method(&method).ok()
}

fn method(alloc: Global, line: &mut Line, word: &str) {
    match method_of(alloc, word) {
        Some(method) => match format!(in alloc; "{method:?}") {
            Ok(text) => line.add(text.as_str()),
            Err(_) => line.refuse(),
        },
        None => line.add("none"),
    }
}

fn set_of(alloc: Global, removed: &str, words: &str) -> DavMethodSet {
    let mut set = if words == "all" {
        DavMethodSet::all()
    } else {
        DavMethodSet::none()
    };
    for word in words.split(' ') {
        if let Some(method) = method_of(alloc, word) {
            set.add(method);
        }
    }
    if let Some(method) = method_of(alloc, removed) {
        set.remove(method);
    }
    set
}

fn methods(alloc: Global, line: &mut Line, removed: &str, words: &str) {
    let set = set_of(alloc, removed, words);
    line.add("has");
    for word in WORDS {
        if let Some(method) = method_of(alloc, word) {
            if set.contains(method) {
                line.tell(" ", word);
            }
        }
    }
}

fn tell_tag(line: &mut Line, tag: &ETag) {
    line.add(if tag.weak { "weak:" } else { "strong:" });
    tell_bytes(line, tag.tag.as_slice());
}

fn tag(alloc: Global, line: &mut Line, value: &[u8]) {
    match ETag::parse(alloc, value) {
        Ok(Some(tag)) => tell_tag(line, &tag),
        Ok(None) => line.add("none"),
        Err(_) => line.refuse(),
    }
}

fn list(alloc: Global, line: &mut Line, value: &[u8]) {
    match EtagList::parse(alloc, value) {
        Ok(Some(EtagList::Tags(tags))) => tell_tags(line, tags.as_slice()),
        Ok(Some(EtagList::Any)) => line.add("any"),
        Ok(None) => line.add("none"),
        Err(_) => line.refuse(),
    }
}

fn tell_tags(line: &mut Line, tags: &[ETag]) {
    line.add("tags");
    for tag in tags {
        line.add(" ");
        tell_tag(line, tag);
    }
}

fn range(alloc: Global, line: &mut Line, value: &[u8]) {
    match IfRange::parse(alloc, value) {
        Ok(Some(IfRange::Tag(tag))) => tell_tag(line, &tag),
        Ok(Some(IfRange::Date(secs))) => {
            line.add("at:");
            line.add_value(&secs);
        }
        Ok(None) => line.add("none"),
        Err(_) => line.refuse(),
    }
}

fn date(line: &mut Line, value: &[u8]) {
    match date_secs(value) {
        Some(secs) => line.add_value(&secs),
        None => line.add("none"),
    }
}

fn equal(alloc: Global, line: &mut Line, one: &[u8], two: &[u8]) {
    match ETag::parse(alloc, one) {
        Ok(Some(tag)) => equal_to(alloc, line, &tag, two),
        Ok(None) => line.add("none"),
        Err(_) => line.refuse(),
    }
}

fn equal_to(alloc: Global, line: &mut Line, one: &ETag, two: &[u8]) {
    match ETag::parse(alloc, two) {
        Ok(Some(two)) => {
            line.add_whether("", one.strong_eq(&two));
            line.add_whether(" ", one.weak_eq(&two));
        }
        Ok(None) => line.add("none"),
        Err(_) => line.refuse(),
    }
}

fn fs_error(word: &str) -> Option<FsError> {
    Some(match word {
        "NotFound" => FsError::NotFound,
        "Forbidden" => FsError::Forbidden,
        "Exists" => FsError::Exists,
        "GeneralFailure" => FsError::GeneralFailure,
        "NotImplemented" => FsError::NotImplemented,
        "InsufficientStorage" => FsError::InsufficientStorage,
        "LoopDetected" => FsError::LoopDetected,
        "PathTooLong" => FsError::PathTooLong,
        "TooLarge" => FsError::TooLarge,
        "IsRemote" => FsError::IsRemote,
        _ => return None,
    })
}

fn error(word: &str) -> DavError {
    match word {
        "InvalidPath" => DavError::from(ParseError::InvalidPath),
        "PrefixMismatch" => DavError::from(ParseError::PrefixMismatch),
        "ForbiddenPath" => DavError::from(ParseError::ForbiddenPath),
        "NotText" => DavError::from(ParseError::NotText),
        "Status" => DavError::from(StatusCode::CONFLICT),
        "StatusClose" => DavError::StatusClose(StatusCode::METHOD_NOT_ALLOWED),
        "Body" => DavError::Body,
        _ => DavError::UnknownDavMethod,
    }
}

fn status(line: &mut Line, word: &str) {
    let error = match fs_error(word) {
        Some(fault) => DavError::from(fault),
        None => error(word),
    };
    match error {
        DavError::NoMemory
        | DavError::Path(ParseError::NoMemory)
        | DavError::Fs(FsError::NoMemory) => line.refuse(),
        _ => {
            line.add_number("", u64::from(error.statuscode().as_u16()));
            line.add_whether(" ", error.must_close());
        }
    }
}

fn tell_time(line: &mut Line, time: Result<FileTime, FsError>) {
    line.add(" ");
    match time {
        Ok(time) => {
            line.add_value(&time.secs);
            line.add_number(".", u64::from(time.nanos));
        }
        Err(FsError::NotImplemented) => line.add("unknown"),
        Err(_) => line.add("fault"),
    }
}

// Metadata of a kind and of cells. The time of the last access is unknown.
fn meta_of(kind: &str, cells: &str) -> Meta {
    let mut cells = cells.split(',');
    let number = cells.next().unwrap_or("").parse::<u64>().unwrap_or(0);
    let len = cells.next().unwrap_or("").parse::<u64>().unwrap_or(0);
    let secs = cells.next().unwrap_or("").parse::<i64>().unwrap_or(0);
    let nanos = cells.next().unwrap_or("").parse::<u32>().unwrap_or(0);
    let time = Some(FileTime { secs, nanos });
    Meta {
        kind: match kind {
            "file" => Kind::File,
            "dir" => Kind::Dir,
            _ => Kind::Link,
        },
        number,
        len,
        modified: time,
        created: time,
        accessed: None,
        changed: time,
        exec: true,
    }
}

// Its tag, and whether it has that text as its tag.
fn tell_tag_of(alloc: Global, line: &mut Line, meta: &Meta) {
    line.add(" ");
    match ETag::from_meta(alloc, meta) {
        Ok(Some(tag)) => {
            tell_tag(line, &tag);
            line.add_whether(" ", meta.has_tag(tag.tag.as_slice()));
        }
        Ok(None) => line.add_whether("none ", meta.has_tag(b"")),
        Err(_) => line.refuse(),
    }
}

fn meta(alloc: Global, line: &mut Line, kind: &str, cells: &str) {
    let meta = meta_of(kind, cells);
    line.add_number("", meta.len());
    tell_time(line, meta.modified());
    tell_time(line, meta.created());
    tell_time(line, meta.accessed());
    tell_time(line, meta.status_changed());
    line.add_whether(" ", meta.is_dir());
    line.add_whether(" ", meta.is_file());
    line.add_whether(" ", meta.is_symlink());
    line.add_whether(" ", meta.executable() == Ok(true));
    tell_tag_of(alloc, line, &meta);
}

/// Adds the answer to a row of these words.
pub fn answer(alloc: Global, line: &mut Line, word: &str, second: &str, third: &str) {
    match bytes_of(alloc, second) {
        Ok(one) => value(alloc, line, word, &one, second, third),
        Err(_) => line.refuse(),
    }
}

fn value(alloc: Global, line: &mut Line, word: &str, one: &[u8], second: &str, third: &str) {
    match word {
        "type" => line.add(content_type(one)),
        "method" => method(alloc, line, second),
        "methods" => methods(alloc, line, second, third),
        "tag" => tag(alloc, line, one),
        "list" => list(alloc, line, one),
        "range" => range(alloc, line, one),
        "date" => date(line, one),
        "equal" => match bytes_of(alloc, third) {
            Ok(two) => equal(alloc, line, one, &two),
            Err(_) => line.refuse(),
        },
        "status" => status(line, second),
        "meta" => meta(alloc, line, second, third),
        _ => line.add(word),
    }
}
