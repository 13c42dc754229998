//! What a report answers.
ghost use Rattle.std.specs.Prelude.{◌≡◌, IfOk};

use crate::Names;
use dav_core::DavPath;
use dav_io::{Items, NoMemory, Text, TryClone};
use dav_lock::both;

/// A resource that a report selected.
#[derive(Drop)]
pub struct Record {
    pub path: DavPath,
    /// The text of its entity tag, and empty where it has none.
    pub etag: Text,
    /// What it holds.
    pub text: Text,
}

impl TryClone for Record {
    fn try_clone(&self) -> Result<Self, NoMemory>
        ensures { IfOk result (λ copy. copy ≡ self.now) }
    {
        let texts = both(self.etag.try_clone(), self.text.try_clone());
        match both(self.path.try_clone(), texts) {
            Ok((path, (etag, text))) => Ok(Record { path, etag, text }),
            Err(error) => Err(error),
        }
    }
}

/// Selected resources, in their order.
pub type Records = Items<Record>;

/// The resources that a report selected, and the links that led to none, as they were asked for.
#[derive(Drop)]
pub struct Report {
    pub records: Records,
    pub missing: Names,
}

impl Report {
    /// An equal report. It may be refused for want of memory.
    pub fn try_clone(&self) -> Result<Self, NoMemory>
        ensures { IfOk result (λ copy. copy ≡ self.now) }
    {
        match both(self.records.try_clone(), self.missing.try_clone()) {
            Ok((records, missing)) => Ok(Report { records, missing }),
            Err(error) => Err(error),
        }
    }
}
