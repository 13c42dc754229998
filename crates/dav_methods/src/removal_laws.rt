//! Laws over the table of DELETE, each the contract of a function that does nothing.
ghost use Rattle.std.specs.Prelude.{ℕ, List};
ghost use Rattle.dav_core.specs.declared.method.DavMethod.TheVariants.{Delete};
ghost use Rattle.dav_core.specs.DavPath.{WebPath};
ghost use Rattle.dav_model.specs.Conditions.{Fields};
ghost use Rattle.dav_model.specs.Rules.{Knowledge, Rules};
ghost use Rattle.dav_model.specs.Valid.{IsRegular};
ghost use Rattle.dav_methods.specs.Answers.{Answers, RefusesUsually};
ghost use Rattle.dav_walks.specs.Follows.{Follows, Told};
ghost use Rattle.dav_methods.specs.ByPlan.{RightIn};
ghost use Rattle.dav_methods.specs.Lines.{Given};
ghost use Rattle.dav_methods.specs.Deleting.{Deletes};

use dav_store::GuardedFileSystem;

/// Over a store that refuses few things a DELETE is answered 204, or with a status of a short list, where memory isn't
/// refused; 412 only where its fields have a precondition that can be read, and 500 only where a fault was met.
pub fn removals_are_listed<S: GuardedFileSystem<C>, C>()
    ensures { (c : C) → RefusesUsually S.view S.listings S.File.view.writes c
        → (prefix : List ℕ) (path : WebPath) (fields : Fields) (s t : S) (r : Given)
        → Deletes S.view S.listings c path fields s r t
        → Answers Delete prefix fields S.view s r t }
{}

/// Over a store that follows its rules a DELETE makes of a world of a valid run what its plan says, and is answered so:
/// the members of a directory go before it in the order of their names; after a refusal what went before stays removed.
/// Where each path names one file what stands in its place goes in one change, or nothing does.
pub fn removals_follow_their_plan<S: GuardedFileSystem<C>, C>()
    ensures { (c : C) (rules : Rules) (k : Knowledge) (s : S) → Follows S.view S.listings S.File.view.writes c rules k s
        → (path : WebPath) (fields : Fields) (body : List ℕ) (r : Given) (t : S)
        → Deletes S.view S.listings c path fields s r t
        → Told S.view S.listings S.File.view.writes c s t (λ v w. IsRegular rules k v
        → RightIn S.view S.listings S.File.view.writes c rules
        (record { method = Delete; path = path; fields = fields; body = body }) s r t v w) }
{}
