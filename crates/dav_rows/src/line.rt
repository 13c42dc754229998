//! A line of output. It remembers that memory was refused, or that a row isn't understood. So what adds to it has
//! nothing to answer, and what owns a disk, a store or a tree meanwhile has no way out beside its end.
use percent_encoding::{AsciiSet, percent_encode};
use std::alloc::{AllocError, Global};
use std::fmt::Display;

/// A line that is being written.
#[derive(Drop)]
pub struct Line {
    text: String,
    is_refused: bool,
}

impl Line {
    /// An empty line, from this allocator on.
    pub fn new(alloc: Global) -> Line {
        Line {
            text: String::new(alloc),
            is_refused: false,
        }
    }

    /// What was written, or other words where the line was refused.
    pub fn as_str(&self) -> &str {
        if self.is_refused {
            "no answer"
        } else {
            self.text.as_str()
        }
    }

    /// Remembers that memory was refused, or that the row isn't understood.
    pub fn refuse(&mut self) {
        self.is_refused = true;
    }

    /// Refuses the line where there is nothing.
    pub fn need(&mut self, done: Option<()>) {
        if done.is_none() {
            self.refuse();
        }
    }

    fn note(&mut self, added: Result<(), AllocError>) {
        if added.is_err() {
            self.refuse();
        }
    }

    /// Adds a text.
    pub fn add(&mut self, text: &str) {
        let added = self.text.push_str(text);
        self.note(added);
    }

    /// Adds a text behind a mark.
    pub fn tell(&mut self, mark: &str, text: &str) {
        self.add(mark);
        self.add(text);
    }

    /// Adds a value as it prints itself.
    pub fn add_value<T: Display>(&mut self, value: &T) {
        let added = write!(self.text, "{value}");
        self.note(added);
    }

    /// Adds a number behind a mark.
    pub fn add_number(&mut self, mark: &str, number: u64) {
        self.add(mark);
        self.add_value(&number);
    }

    /// Adds whether something holds, behind a mark.
    pub fn add_whether(&mut self, mark: &str, holds: bool) {
        self.tell(mark, if holds { "true" } else { "false" });
    }

    /// Adds bytes. Those of the set, and those outside ASCII, are spelt `%XX`.
    pub fn add_bytes(&mut self, bytes: &[u8], spelt: AsciiSet) {
        let added = percent_encode(bytes, spelt).append_to(&mut self.text);
        self.note(added);
    }
}
