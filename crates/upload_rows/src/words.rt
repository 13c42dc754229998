//! The words of a call.
use crate::reading::Reading;
use crate::steps::Call;
use dav_core::{DavPath, FileTime};
use dav_rows::{Line, add_field, word};
use http::HeaderMap;
use std::alloc::Global;

/// A part that makes a call: of the upload of a slot, the first or the second, of the reader, or another. `limit` is the
/// time of a sweep by age, and `other` the file that another client removes meanwhile.
#[derive(Drop)]
pub struct CallWords {
    pub second: bool,
    pub kind: String,
    pub path: DavPath,
    pub token: u64,
    pub bytes: String,
    pub fields: HeaderMap,
    pub limit: FileTime,
    pub other: DavPath,
}

impl CallWords {
    /// The call of an upload, where it is one.
    pub fn call(&self) -> Option<Call<'_>> {
        match self.kind.as_str() {
            "begin" => Some(Call::Begin {
                path: &self.path,
                token: self.token,
            }),
            "piece" => Some(Call::Piece(self.bytes.as_str())),
            "commit" => Some(Call::Commit),
            "abort" => Some(Call::Abort),
            _ => None,
        }
    }

    /// The call of the reader, where it is one. Without a number it reads no bytes.
    pub fn reading(&self) -> Option<Reading<'_>> {
        match self.kind.as_str() {
            "open" => Some(Reading::Open(&self.path)),
            "read" => Some(Reading::Read(self.bytes.as_str().parse::<usize>().unwrap_or(0))),
            "close" => Some(Reading::Close),
            _ => None,
        }
    }
}

// Adds the fields behind so many words.
fn add_fields(alloc: Global, fields: &mut HeaderMap, line: &mut Line, words: &str, before: usize) {
    for field in words.split(' ').skip(before) {
        add_field(alloc, line, fields, field);
    }
}

fn fields_of(alloc: Global, line: &mut Line, words: &str) -> HeaderMap {
    let mut fields = HeaderMap::new(alloc);
    match word(words, 0) {
        "begin" => add_fields(alloc, &mut fields, line, words, 3),
        "commit" => add_fields(alloc, &mut fields, line, words, 1),
        _ => {}
    }
    fields
}

// The token of a call that begins an upload.
fn token_of(line: &mut Line, words: &str) -> u64 {
    if word(words, 0) != "begin" {
        return 0;
    }
    match u64::from_str_radix(word(words, 2), 16) {
        Ok(token) => token,
        Err(_) => {
            line.refuse();
            0
        }
    }
}

fn copy_of(alloc: Global, line: &mut Line, text: &str) -> String {
    match String::from_str(alloc, text) {
        Ok(copy) => copy,
        Err(_) => {
            line.refuse();
            String::new(alloc)
        }
    }
}

fn is_of_slot(part: &str) -> bool {
    part.starts_with("1 ") || part.starts_with("2 ")
}

// The words of a part, behind its slot.
fn words_of(part: &str) -> &str {
    match part.strip_prefix("1 ") {
        Some(words) => words,
        None => part.strip_prefix("2 ").unwrap_or(part),
    }
}

// The path of a part. One that has none has the root.
fn path_word(part: &str) -> &str {
    let words = words_of(part);
    let has_path = match word(words, 0) {
        "begin" => true,
        "read" | "close" => false,
        _ => !is_of_slot(part),
    };
    let path = word(words, 1);
    if has_path && !path.is_empty() {
        path
    } else {
        "/"
    }
}

// The time of a sweep by age, and that of the beginning of 1970 where none is said.
fn limit_of(words: &str) -> FileTime {
    FileTime {
        secs: word(words, 2).parse::<i64>().unwrap_or(0),
        nanos: word(words, 3).parse::<u32>().unwrap_or(0),
    }
}

// The path of the file that another client removes meanwhile.
fn other_word(words: &str) -> &str {
    if word(words, 0) == "meanwhile" {
        word(words, 3)
    } else {
        "/"
    }
}

// What a part says at these paths.
fn said_at(alloc: Global, line: &mut Line, part: &str, path: DavPath, other: DavPath) -> CallWords {
    let words = words_of(part);
    CallWords {
        second: part.starts_with("2 "),
        kind: copy_of(alloc, line, word(words, 0)),
        path,
        token: token_of(line, words),
        bytes: copy_of(alloc, line, word(words, 1)),
        fields: fields_of(alloc, line, words),
        limit: limit_of(words),
        other,
    }
}

/// What a part says: `SLOT begin PATH TOKEN FIELD..`, `SLOT piece BYTES`, `SLOT commit FIELD..`, `SLOT abort`,
/// `read COUNT`, `close`, `before PATH SECONDS NANOS`, `meanwhile PATH SECONDS OTHER`, or a word and a path. A token is
/// written in hexadecimal digits.
pub fn said(alloc: Global, line: &mut Line, part: &str) -> Option<CallWords> {
    let other = DavPath::new(alloc, other_word(words_of(part))).ok()?;
    let path = DavPath::new(alloc, path_word(part)).ok()?;
    Some(said_at(alloc, line, part, path, other))
}
