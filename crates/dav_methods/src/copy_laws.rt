//! Laws over the tables of COPY and MOVE, each the contract of a function that does nothing.
ghost use Rattle.std.specs.Prelude.{ℕ, List};
ghost use Rattle.dav_core.specs.declared.method.DavMethod.TheVariants.{Copy, Move};
ghost use Rattle.dav_core.specs.DavPath.{WebPath};
ghost use Rattle.dav_model.specs.Conditions.{Fields};
ghost use Rattle.dav_methods.specs.Answers.{Answers, RefusesUsually};
ghost use Rattle.dav_methods.specs.Carrying.{CopiesTo, MovesTo};
ghost use Rattle.dav_methods.specs.Lines.{Given};

use dav_store::GuardedFileSystem;

/// Over a store that refuses few things a COPY or a MOVE is answered 201, 204, or with a status of a short list, where
/// memory isn't refused; 400 only where what its fields ask for is refused so, 412 only where they have a precondition that
/// can be read or say that nothing is to be replaced, 500 only where a fault was met, and no close.
pub fn copies_are_listed<S: GuardedFileSystem<C>, C>()
    ensures copy { (c : C) → RefusesUsually S.view S.listings S.File.view.writes c
        → (prefix : List ℕ) (path : WebPath) (fields : Fields) (s t : S) (r : Given)
        → CopiesTo S.view S.listings c prefix path fields s r t
        → Answers Copy prefix fields S.view s r t }
    ensures moved { (c : C) → RefusesUsually S.view S.listings S.File.view.writes c
        → (prefix : List ℕ) (path : WebPath) (fields : Fields) (s t : S) (r : Given)
        → MovesTo S.view S.listings c prefix path fields s r t
        → Answers Move prefix fields S.view s r t }
{}
