//! The words of a step.
use dav_core::{DavPath, OpenOptions};
use dav_rows::{bytes_of, word};
use dav_scenes::number;
use http::HeaderMap;
use http::header::{HeaderName, HeaderValue};
use std::alloc::Global;

/// A step: its first word, and what stands behind it, each as far as the step has it.
#[derive(Drop)]
pub struct StepWords {
    pub kind: String,
    pub path: DavPath,
    pub to: DavPath,
    pub how: OpenOptions,
    pub count: u64,
    pub bytes: Vec<u8>,
    pub fields: HeaderMap,
}

// A word that is no path stands for the root.
fn path_of(alloc: Global, word: &str) -> Option<DavPath> {
    DavPath::new(alloc, if word.starts_with('/') { word } else { "/" }).ok()
}

// Whether a word stands among those behind the first two.
fn has(words: &str, name: &str) -> bool {
    words.split(' ').skip(2).any(|word| word == name)
}

// How a file is opened. It is read where it isn't written.
fn how_of(words: &str) -> OpenOptions {
    let write = has(words, "write");
    let append = has(words, "append");
    OpenOptions {
        read: has(words, "read") || !(write || append),
        write,
        append,
        truncate: has(words, "truncate"),
        create: has(words, "create"),
        create_new: has(words, "create_new"),
    }
}

fn add_field(alloc: Global, fields: &mut HeaderMap, name: &str, value: &str) -> Option<()> {
    let name = HeaderName::from_bytes(alloc, name.as_bytes()).ok()?;
    let value = HeaderValue::from_bytes(alloc, value.as_bytes()).ok()?;
    fields.append(name, value).ok()?;
    Some(())
}

// The fields behind the first two words, as `NAME:VALUE`.
fn fields_of(alloc: Global, words: &str) -> Option<HeaderMap> {
    let mut fields = HeaderMap::new(alloc);
    for word in words.split(' ').skip(2) {
        if let Some((name, value)) = word.split_once(':') {
            add_field(alloc, &mut fields, name, value)?;
        }
    }
    Some(fields)
}

/// What a part says.
pub fn said(alloc: Global, part: &str) -> Option<StepWords> {
    let path = path_of(alloc, word(part, 1))?;
    let to = path_of(alloc, word(part, 2))?;
    let kind = String::from_str(alloc, word(part, 0)).ok()?;
    let bytes = bytes_of(alloc, word(part, 1)).ok()?;
    let fields = fields_of(alloc, part)?;
    Some(StepWords {
        kind,
        path,
        to,
        how: how_of(part),
        count: number(word(part, if part.starts_with("whole ") { 2 } else { 1 })),
        bytes,
        fields,
    })
}
