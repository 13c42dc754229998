//! Laws of bodies, each the contract of a function that does nothing.
ghost use Rattle.std.specs.Prelude.{◌≡◌, ◌⊎◌};
ghost use Rattle.dav_core.specs.Disk.{DiskState};
ghost use Rattle.dav_model.specs.declared.answer.Answer.{Answer};
ghost use Rattle.dav_model.specs.declared.answer.Answer.TheVariants.{End, Broken};
ghost use Rattle.dav_get.specs.declared.body.GetBody.{GetBody};
ghost use Rattle.dav_get.specs.Bodies.{Polls};

use dav_core::Disk;
use dav_store::DavFile;

/// A body that is at its end, or broke, gives the end at each later poll, and asks the disk nothing. Others may change
/// the disk between two polls.
pub fn ended_bodies_stay<F: DavFile<D>, D: Disk>()
    ensures { (s t u v : DiskState) (b c d : GetBody F) (answer later : Answer) → Polls F.view s b answer t c
        → (answer ≡ End) ⊎ (answer ≡ Broken)
        → Polls F.view u c later v d → (later ≡ End) × (v ≡ u) }
{}
