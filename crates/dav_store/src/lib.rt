//! Stores: what stands at the paths of a server, its open files, and the body of a request. A store's calls are
//! relations of the store itself, so what is proved over the traits holds of every store.
#![tactic(auto)]

mod body_reader;
mod empty_meta;
mod entry;
mod file;
mod guarded;
mod members;
mod no_disk;
mod one_body;
mod through;
mod unguarded;
mod void_fs;
mod void_parts;

pub use body_reader::BodyReader;
pub use empty_meta::EmptyMetaData;
pub use entry::{DavDirEntry, ReadDirMeta};
pub use file::DavFile;
pub use guarded::GuardedFileSystem;
pub use members::read_members;
pub use no_disk::NoDisk;
pub use one_body::OneBody;
pub use through::{entry_metadata, file_close, file_metadata, file_read, file_seek};
pub use unguarded::DavFileSystem;
pub use void_fs::{VoidFs, is_voidfs};
pub use void_parts::{VoidDir, VoidEntry, VoidFile};
