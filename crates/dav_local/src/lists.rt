// A look and the calls of a listing of a disk, each with what it leaves of all else.
ghost use Rattle.std.specs.Prelude.{◌≡◌, IsSome, Some};
ghost use Rattle.dav_core.specs.Disk.{Metas, MetasBy};
ghost use Rattle.dav_core.specs.Unchanged.{Keeps};
ghost use Rattle.dav_core.specs.Listing.{EndsListing, Lists, ListsOn};
ghost use Rattle.dav_store.specs.Listings.{EndsList, GoesOn};
ghost use Rattle.dav_local.specs.Walking.{BeginsOne};

use dav_core::{Disk, DiskError, FsPath, Lister, Meta};
use dav_io::Text;
use std::alloc::Global;

// What stands at a path.
pub fn look<D: Disk>(disk: &mut D, path: &FsPath) -> Result<Meta, DiskError>
    ensures done { Metas (D.state disk.old) path.now result (D.state disk.new) }
    ensures keeps { Keeps (D.state disk.old) (D.state disk.new) }
    ensures loan { D.loan disk.new ≡ D.loan disk.old }
{
    disk.meta(path)
}

// What stands at a path, where `follows` says so with a link at its end followed.
pub fn look_by<D: Disk>(disk: &mut D, follows: bool, path: &FsPath) -> Result<Meta, DiskError>
    ensures done { MetasBy follows (D.state disk.old) path.now result (D.state disk.new) }
    ensures keeps { Keeps (D.state disk.old) (D.state disk.new) }
    ensures loan { D.loan disk.new ≡ D.loan disk.old }
{
    if follows {
        return disk.meta(path);
    }
    disk.link_meta(path)
}

// Begins a listing of the directory at a path.
pub fn begin_list<D: Disk>(disk: &mut D, at: &FsPath) -> Result<Lister, DiskError>
    ensures done { Lists (D.state disk.old) at.now result (D.state disk.new) }
    ensures one { BeginsOne (D.state disk.old) result (D.state disk.new) }
    ensures loan { D.loan disk.new ≡ D.loan disk.old }
{
    disk.list(at)
}

// Gives the next name of a listing.
pub fn next_name<D: Disk>(
    alloc: Global,
    disk: &mut D,
    lister: Lister,
) -> Result<Option<Text>, DiskError>
    requires { IsSome ((D.state disk.old).listers lister.0) }
    ensures done { ListsOn (D.state disk.old) lister.0 result (D.state disk.new) }
    ensures goes_on { GoesOn (D.state disk.old) (Some lister.0) (D.state disk.new) }
    ensures loan { D.loan disk.new ≡ D.loan disk.old }
{
    disk.list_next(alloc, lister)
}

// Ends a listing.
pub fn end_list<D: Disk>(disk: &mut D, lister: Lister)
    requires { IsSome ((D.state disk.old).listers lister.0) }
    ensures done { EndsListing (D.state disk.old) lister.0 (D.state disk.new) }
    ensures ends { EndsList (D.state disk.old) (Some lister.0) (D.state disk.new) }
    ensures loan { D.loan disk.new ≡ D.loan disk.old }
{
    disk.end_list(lister);
}
