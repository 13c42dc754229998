//! A law over a PUT whose body is read, the contract of a function that does nothing.
ghost use Rattle.std.specs.Prelude.{◌≡◌};
ghost use Rattle.dav_core.specs.declared.method.DavMethod.TheVariants.{Put};
ghost use Rattle.dav_model.specs.Plans.{Ask};
ghost use Rattle.dav_model.specs.Rules.{Knowledge, Rules};
ghost use Rattle.dav_model.specs.Valid.{IsRegular};
ghost use Rattle.dav_store.specs.Bodies.{BodyState};
ghost use Rattle.dav_walks.specs.Follows.{Follows, Told};
ghost use Rattle.dav_methods.specs.Lines.{Given};
ghost use Rattle.dav_methods.specs.Putting.{Puts};
ghost use Rattle.dav_methods.specs.Readers.{ReadIn, TellsBody};

use dav_store::GuardedFileSystem;

/// Over a store that follows its rules a PUT from a reader that tells its bytes, fewer than 2^60, makes of a world of a
/// valid run what its plan says of these bytes, and is answered so; where the reader meets a fault, a part of that.
pub fn reads_follow_their_plan<S: GuardedFileSystem<C>, C>()
    ensures { (c : C) (rules : Rules) (k : Knowledge) (s : S)
        → Follows S.view S.listings S.File.view.writes c rules k s
        → (ask : Ask) → ask.method ≡ Put → (b n : BodyState) → TellsBody ask b → (r : Given) (t : S)
        → Puts S.view S.File.view.writes c ask.path ask.fields b s r t n
        → Told S.view S.listings S.File.view.writes c s t (λ v w. IsRegular rules k v
        → ReadIn S.view S.listings S.File.view.writes c rules ask b n s r t v w) }
{}
