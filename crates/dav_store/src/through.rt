// Calls of a file on the disk inside its store.
ghost use Rattle.std.specs.Prelude.{◌<◌, length, IsSome};
ghost use Rattle.dav_core.specs.Unchanged.{Keeps};
ghost use Rattle.dav_store.specs.Standing.{info_in};
ghost use Rattle.dav_store.specs.View.{Lent, Says, Seeks, Reads, Closes};

use crate::{DavDirEntry, DavFile, GuardedFileSystem};
use dav_core::FsError;

/// The file's metadata as it is now.
pub fn file_metadata<S: GuardedFileSystem<C>, C>(
    fs: &mut S,
    file: &mut S::File,
) -> Result<S::Meta, FsError>
    requires { IsSome ((S.view.state fs.old).live (S.view.file.handle file.old)) }
    ensures { Says S.view fs.old file.old (info_in S.Meta.info result) fs.new file.new }
{
    file.metadata(fs.disk())
}

/// Sets the file's place, in bytes from its first.
pub fn file_seek<S: GuardedFileSystem<C>, C>(
    fs: &mut S,
    file: &mut S::File,
    place: u64,
) -> Result<u64, FsError>
    requires live { IsSome ((S.view.state fs.old).live (S.view.file.handle file.old)) }
    requires reads_from { S.view.file.reads_from file.old (S.view.state fs.old) }
    ensures { Seeks S.view fs.old file.old place result fs.new file.new }
{
    file.seek(fs.disk(), place)
}

/// Reads bytes from the file's place on to the front of `into`, and answers how many.
pub fn file_read<S: GuardedFileSystem<C>, C>(
    fs: &mut S,
    file: &mut S::File,
    into: &mut [u8],
) -> Result<usize, FsError>
    requires live { IsSome ((S.view.state fs.old).live (S.view.file.handle file.old)) }
    requires reads_from { S.view.file.reads_from file.old (S.view.state fs.old) }
    requires room { 0 < length into.old }
    ensures { Reads S.view fs.old file.old into.new result fs.new file.new }
{
    file.read_into(fs.disk(), into)
}

/// Ends the file.
pub fn file_close<S: GuardedFileSystem<C>, C>(fs: &mut S, file: S::File)
    requires { IsSome ((S.view.state fs.old).live (S.view.file.handle file)) }
    ensures { Closes S.view fs.old file fs.new }
{
    file.close(fs.disk())
}

/// The metadata of an entry of a listing: what the listing read, or what the disk says now.
pub fn entry_metadata<S: GuardedFileSystem<C>, C>(
    fs: &mut S,
    entry: &S::Entry,
) -> Result<S::Meta, FsError>
    ensures says { S.listings.says entry.now (S.view.state fs.old) (info_in S.Meta.info result) (S.view.state fs.new) }
    ensures lent { Lent S.view fs.old fs.new }
    ensures keeps { Keeps (S.view.state fs.old) (S.view.state fs.new) }
{
    entry.metadata(fs.disk())
}
