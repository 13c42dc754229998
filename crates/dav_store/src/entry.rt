ghost use Rattle.std.specs.Prelude.{◌≡◌, true, ℕ, List, Result};
ghost use Rattle.dav_core.specs.declared.error.FsError.{FsError};
ghost use Rattle.dav_core.specs.Disk.{DiskState};
ghost use Rattle.dav_core.specs.Info.{Info};
ghost use Rattle.dav_core.specs.Unchanged.{Keeps};
ghost use Rattle.dav_core.specs.Path.{is_plain};
ghost use Rattle.dav_core.specs.Tree.{is_dir as is_dir_kind, is_file as is_file_kind, is_link as is_link_kind};
ghost use Rattle.dav_store.specs.Standing.{info_in};
ghost use Rattle.dav_store.specs.Listings.{SaysKind};

use dav_core::{DavMetaData, Disk, FsError};

/// What a listing reads of its entries beforehand.
#[derive(Clone, Copy, Debug, PartialEq, Eq)]
pub enum ReadDirMeta {
    /// Metadata, links followed.
    Data,
    /// Metadata, links not followed.
    DataSymlink,
    /// Nothing: an entry asks the disk when it is asked.
    None,
}

/// An entry of a listing.
pub trait DavDirEntry<D: Disk> {
    type Meta: DavMetaData + Drop;

    /// Its name.
    ghost called: { Self → List ℕ };

    /// What its metadata may answer, by the disk before and after.
    ghost says: { Self → DiskState → Result Info FsError → DiskState → Type 0 };

    /// Its name, which is plain.
    fn name(&self) -> &str
        ensures value { result.now ≡ called self.now }
        ensures plain { is_plain (called self.now) ≡ true };

    /// Its metadata: what the listing read, or what the disk says now.
    fn metadata(&self, disk: &mut D) -> Result<Self::Meta, FsError>
        ensures done { says self.now (D.state disk.old) (info_in Self.Meta.info result) (D.state disk.new) }
        ensures keeps { Keeps (D.state disk.old) (D.state disk.new) }
        ensures loan { D.loan disk.new ≡ D.loan disk.old };

    /// Whether it is a directory, by its metadata.
    fn is_dir(&self, disk: &mut D) -> Result<bool, FsError>
        ensures done { SaysKind says is_dir_kind self.now (D.state disk.old) result (D.state disk.new) }
        ensures keeps { Keeps (D.state disk.old) (D.state disk.new) }
        ensures loan { D.loan disk.new ≡ D.loan disk.old }
    {
        match self.metadata(disk) {
            Ok(meta) => Ok(meta.is_dir()),
            Err(e) => Err(e),
        }
    }

    /// Whether it is a regular file, by its metadata.
    fn is_file(&self, disk: &mut D) -> Result<bool, FsError>
        ensures done { SaysKind says is_file_kind self.now (D.state disk.old) result (D.state disk.new) }
        ensures keeps { Keeps (D.state disk.old) (D.state disk.new) }
        ensures loan { D.loan disk.new ≡ D.loan disk.old }
    {
        match self.metadata(disk) {
            Ok(meta) => Ok(meta.is_file()),
            Err(e) => Err(e),
        }
    }

    /// Whether it is a symbolic link, by its metadata.
    fn is_symlink(&self, disk: &mut D) -> Result<bool, FsError>
        ensures done { SaysKind says is_link_kind self.now (D.state disk.old) result (D.state disk.new) }
        ensures keeps { Keeps (D.state disk.old) (D.state disk.new) }
        ensures loan { D.loan disk.new ≡ D.loan disk.old }
    {
        match self.metadata(disk) {
            Ok(meta) => Ok(meta.is_symlink()),
            Err(e) => Err(e),
        }
    }
}
