ghost use Rattle.std.specs.Prelude.{◌≡◌, ◌↔◌, Bool, IfOk, IsTrue, Some, codes};
ghost use Rattle.dav_core.specs.DavPath.{is_in_home};
ghost use Rattle.dav_core.specs.Info.{AreInYears, Info, said, info_of, known as the_known, whole_secs as the_whole_secs};
ghost use Rattle.dav_core.specs.InfoInYears.{info_in_years};
ghost use Rattle.dav_core.specs.Path.{Names};
ghost use Rattle.dav_core.specs.TagBytes.{info_has_tag_bytes};
ghost use Rattle.dav_core.specs.Tags.{HasTagBytes, quoted_where};
ghost use Rattle.dav_core.specs.Tree.{is_dir as is_dir_kind, is_file as is_file_kind, is_link as is_link_kind};

use crate::tag::{has_text, quoted_tag, tag_text};
use crate::{DavPath, FileTime, FsError, FsPath, Kind, Meta};
use dav_io::{FieldValue, NoMemory, Text};
use std::alloc::Global;

/// Metadata of what stands at a path.
pub trait DavMetaData {
    /// All that it says.
    ghost info: { Self → Info };

    /// Whether it says of a path that it lies in a calendar.
    ghost calendar: { Self → Names → Bool };

    /// Whether it says of a path that it lies in an address book.
    ghost addressbook: { Self → Names → Bool };

    /// The length in bytes.
    fn len(&self) -> u64
        ensures { result ≡ (info self.now).len };

    /// The time of its last change, in UTC. `NotImplemented` comes exactly where it is unknown, and likewise for the
    /// other times.
    fn modified(&self) -> Result<FileTime, FsError>
        ensures { result ≡ said (info self.now).modified };

    fn created(&self) -> Result<FileTime, FsError>
        ensures { result ≡ said (info self.now).created };

    fn accessed(&self) -> Result<FileTime, FsError>
        ensures { result ≡ said (info self.now).accessed };

    fn status_changed(&self) -> Result<FileTime, FsError>
        ensures { result ≡ said (info self.now).changed };

    fn is_dir(&self) -> bool
        ensures { result ≡ is_dir_kind (info self.now).kind };

    fn is_file(&self) -> bool
        ensures { result ≡ is_file_kind (info self.now).kind };

    fn is_symlink(&self) -> bool
        ensures { result ≡ is_link_kind (info self.now).kind };

    /// Whether the path that it is asked of lies in a calendar.
    fn is_calendar(&self, path: &DavPath) -> bool
        ensures { result ≡ calendar self.now path.now.names };

    /// Whether the path that it is asked of lies in an address book.
    fn is_addressbook(&self, path: &DavPath) -> bool
        ensures { result ≡ addressbook self.now path.now.names };

    /// Whether its owner may run it.
    fn executable(&self) -> Result<bool, FsError>
        ensures { result ≡ said (info self.now).exec };

    /// The text of its entity tag.
    fn etag(&self, alloc: Global) -> Result<Option<Text>, NoMemory>
        ensures { IfOk result (λ tag. tag ≡ (info self.now).tag) };

    /// The text of its entity tag between quotes, as a field's value.
    fn tag_value(&self, alloc: Global) -> Result<Option<FieldValue>, NoMemory>
        ensures { IfOk result (λ value. value ≡ quoted_where (info self.now).tag) };

    /// Whether this is the text of its entity tag. It takes no memory.
    fn has_tag(&self, tag: &[u8]) -> bool
        ensures { IsTrue result ↔ ((info self.now).tag ≡ Some tag.now) };

    /// A time before 1970 or after 9999 is unknown.
    ghost in_years: { (m : Self) → AreInYears (info m) };

    /// The text of its entity tag has only bytes that may stand inside one: no control, no space, no quote.
    ghost tag_bytes: { (m : Self) → HasTagBytes (info m).tag };
}

// A time that is known.
fn known(time: Option<FileTime>) -> Option<FileTime>
    ensures { result ≡ the_known time }
{
    match time {
        Some(time) if time.secs >= 0 && time.secs < 253_402_300_800 => Some(time),
        _ => None,
    }
}

// A time in whole seconds.
fn whole_secs(time: Option<FileTime>) -> Option<FileTime>
    ensures { result ≡ the_whole_secs time }
{
    match time {
        Some(time) => Some(FileTime {
            secs: time.secs,
            nanos: 0,
        }),
        None => None,
    }
}

// What is known, or `NotImplemented`.
fn said_time(time: Option<FileTime>) -> Result<FileTime, FsError>
    ensures { result ≡ said time }
{
    match time {
        Some(time) => Ok(time),
        None => Err(FsError::NotImplemented),
    }
}

// Whether a path has two names or more, of which `home` is the first.
fn lies_in(path: &FsPath, home: &[u8]) -> bool
    ensures { result ≡ is_in_home home.now path.now }
{
    match path.as_slice() {
        [name, _, ..] => name.as_slice() == home,
        _ => false,
    }
}

impl DavMetaData for Meta {
    ghost info = { info_of };

    ghost calendar = { λ _ names. is_in_home (codes "calendars") names };

    ghost addressbook = { λ _ names. is_in_home (codes "addressbooks") names };

    fn len(&self) -> u64 {
        self.len
    }

    fn modified(&self) -> Result<FileTime, FsError> {
        said_time(known(self.modified))
    }

    fn created(&self) -> Result<FileTime, FsError> {
        said_time(known(self.created))
    }

    fn accessed(&self) -> Result<FileTime, FsError> {
        said_time(known(self.accessed))
    }

    fn status_changed(&self) -> Result<FileTime, FsError> {
        said_time(whole_secs(known(self.changed)))
    }

    fn is_dir(&self) -> bool {
        self.kind == Kind::Dir
    }

    fn is_file(&self) -> bool {
        self.kind == Kind::File
    }

    fn is_symlink(&self) -> bool {
        self.kind == Kind::Link
    }

    fn is_calendar(&self, path: &DavPath) -> bool {
        lies_in(path.names(), b"calendars")
    }

    fn is_addressbook(&self, path: &DavPath) -> bool {
        lies_in(path.names(), b"addressbooks")
    }

    fn executable(&self) -> Result<bool, FsError> {
        match self.kind {
            Kind::File => Ok(self.exec),
            Kind::Dir | Kind::Link => Err(FsError::NotImplemented),
        }
    }

    fn etag(&self, alloc: Global) -> Result<Option<Text>, NoMemory> {
        match known(self.modified) {
            Some(time) => Ok(Some(tag_text(alloc, self, time)?)),
            None => Ok(None),
        }
    }

    fn tag_value(&self, alloc: Global) -> Result<Option<FieldValue>, NoMemory> {
        match known(self.modified) {
            Some(time) => Ok(Some(quoted_tag(alloc, self, time)?)),
            None => Ok(None),
        }
    }

    fn has_tag(&self, tag: &[u8]) -> bool {
        match known(self.modified) {
            Some(time) => has_text(self, time, tag),
            None => false,
        }
    }

    ghost in_years = { info_in_years };

    ghost tag_bytes = { info_has_tag_bytes };
}
