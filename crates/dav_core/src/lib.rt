//! Paths and their grammar, methods, statuses, content types, metadata, entity tags, and the disk on which the server
//! stands, call by call.
#![tactic(auto)]

mod blanks;
mod change;
mod content_types;
mod dav_error;
mod dav_path;
mod disk;
mod error;
mod etag;
mod etag_list;
mod etag_reading;
mod grammar;
mod handle;
mod if_range;
mod keys;
pub mod laws;
mod member;
mod meta;
mod method;
mod names;
mod parse_error;
mod parsing;
mod path;
mod plain_name;
mod prefix;
mod segments;
mod tag;
pub mod tag_laws;
mod time;
mod tree;
mod url;
mod usual;

pub use blanks::trimmed;
pub use change::{Batch, Change};
pub use content_types::content_type;
pub use dav_error::DavError;
pub use dav_path::DavPath;
pub use disk::Disk;
pub use error::FsError;
pub use etag::ETag;
pub use etag_list::{EtagList, Tags};
pub use handle::{DiskError, Handle, Lister, Meta, OpenOptions};
pub use if_range::{IfRange, date_secs};
pub use keys::free_key;
pub use member::Member;
pub use meta::DavMetaData;
pub use method::{DavMethod, DavMethodSet, dav_method};
pub use names::copied_names;
pub use parse_error::ParseError;
pub use path::FsPath;
pub use plain_name::is_plain;
pub use time::FileTime;
pub use tree::{Kind, Row, Tree, has_dir, row_at};
pub use url::{link_of, push_link};
