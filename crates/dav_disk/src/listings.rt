// The table of open listings, and the names in a directory.
ghost use Rattle.std.specs.Prelude.{◌≡◌, None, Some, IsSome, IfSome, IfOk, OnErr, MatchOption, true, false};
ghost use Rattle.std.specs.List.{AllPass};
ghost use Rattle.dav_core.specs.Path.{is_plain};
ghost use Rattle.dav_core.specs.Listing.{names_in};
ghost use Rattle.dav_core.specs.Tree.{is_tree};
ghost use Rattle.dav_core.specs.World.{ArePlain};
ghost use Rattle.dav_disk.specs.Listings.{listing_at, names_left, TakesName, IsInOrder};

use crate::indexed_rows::IndexedRows;
use crate::listing::Listing;
use dav_io::{NoMemory, Text};
use std::alloc::Global;
use std::collections::BTreeMap;

// The most names of a listing, 2^60 - 1. More have no room in memory.
const MOST: usize = 0x0FFF_FFFF_FFFF_FFFF;

// A listing of the names in a directory, in order of their bytes.
pub fn listing_of(alloc: Global, rows: &mut IndexedRows, dir: &[Text]) -> Result<Listing, NoMemory>
    requires tree { is_tree rows.old ≡ true }
    requires plain { ArePlain rows.old }
    ensures listed { IfOk result (λ l. IsInOrder (names_in rows.old dir.now) (names_left l)) }
    ensures rows { rows.new ≡ rows.old }
{
    let names = rows.names_in(alloc, dir)?;
    if names.len() > MOST {
        return Err(NoMemory);
    }
    Ok(Listing::new(names))
}

// Takes the first of the names that a live lister has to come, if there is one. Where memory is refused none is taken.
pub fn take_name(
    listings: &mut BTreeMap<u32, Listing>,
    lister: u32,
) -> Result<Option<Text>, NoMemory>
    requires { IsSome (listing_at listings.old lister) }
    ensures taken { IfOk result (λ found. TakesName lister found (listing_at listings.old) (listing_at listings.new)) }
    ensures plain { IfOk result (λ found. IfSome found (λ name. is_plain name ≡ true)) }
    ensures err { OnErr result (listing_at listings.new ≡ listing_at listings.old) }
{
    match listings.get_mut(&lister) {
        Some(listing) => listing.take(),
        None => Ok(None),
    }
}
