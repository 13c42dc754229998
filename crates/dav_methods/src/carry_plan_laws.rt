//! Laws over the tables of COPY and MOVE and their plans, each the contract of a function that does nothing.
ghost use Rattle.std.specs.Prelude.{false, true};
ghost use Rattle.dav_methods.specs.ByPlan.{CarriesByPlan};

use dav_store::GuardedFileSystem;

/// Over a store that follows its rules a MOVE makes of a world of a valid run what the plan of what its fields ask for
/// says, and is answered so: what stands at the destination goes, and then what stands at the source is moved, in one
/// change, to the destination as it is spelled. A directory takes the place of a file that no look shows by two changes.
/// Where each path names one file nothing is moved: no directory stands above a destination, or it goes, as what stands
/// there, and nothing is found then.
pub fn moves_follow_their_plan<S: GuardedFileSystem<C>, C>()
    ensures { (c : C) → CarriesByPlan S.view S.listings S.File.view.writes c true }
{}

/// Likewise a COPY: what stands at the destination goes, and then what stands at the source is made again at the
/// destination as it is spelled, a directory before its members, these in the order of their names; after a refusal what
/// was done stays done. Where each path names one file a directory without members is made again in its own place.
pub fn copies_follow_their_plan<S: GuardedFileSystem<C>, C>()
    ensures { (c : C) → CarriesByPlan S.view S.listings S.File.view.writes c false }
{}
