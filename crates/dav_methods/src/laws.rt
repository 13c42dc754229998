//! Laws over the tables of the methods that write, each the contract of a function that does nothing.
ghost use Rattle.std.specs.Prelude.{◌≡◌, ◌⊎◌, ℕ, List};
ghost use Rattle.dav_core.specs.declared.method.DavMethod.{DavMethod};
ghost use Rattle.dav_core.specs.declared.method.DavMethod.TheVariants.{MkAddressbook, MkCalendar, MkCol, Put};
ghost use Rattle.dav_core.specs.DavPath.{WebPath};
ghost use Rattle.dav_model.specs.Conditions.{Fields};
ghost use Rattle.dav_model.specs.Plans.{Ask};
ghost use Rattle.dav_model.specs.Rules.{Knowledge, Rules};
ghost use Rattle.dav_model.specs.Valid.{IsRegular};
ghost use Rattle.dav_methods.specs.Answers.{Answers, RefusesUsually};
ghost use Rattle.dav_methods.specs.Changing.{Changes};
ghost use Rattle.dav_walks.specs.Follows.{Follows, Reached, Told};
ghost use Rattle.dav_methods.specs.ByPlan.{RightIn};
ghost use Rattle.dav_methods.specs.Lines.{Given};
ghost use Rattle.dav_methods.specs.Putting.{PutsWhole};
ghost use Rattle.dav_methods.specs.Table.{MkCalendars, MkCols};

use dav_store::GuardedFileSystem;

/// Over a store that refuses few things a request that writes is answered as its method may be where all was done, or with
/// a status of its method's list, where memory isn't refused; 412 only where its fields have a precondition that can be
/// read, 500 only where a fault was met, and a close only with 405.
pub fn answers_are_listed<S: GuardedFileSystem<C>, C>()
    ensures mkcol { (c : C) → RefusesUsually S.view S.listings S.File.view.writes c
        → (prefix : List ℕ) (path : WebPath) (fields : Fields) (s t : S) (r : Given)
        → MkCols S.view c path fields s r t
        → Answers MkCol prefix fields S.view s r t }
    ensures mkcalendar { (c : C) → RefusesUsually S.view S.listings S.File.view.writes c
        → (prefix : List ℕ) (path : WebPath) (fields : Fields) (s t : S) (r : Given)
        → MkCalendars S.view c path s r t
        → Answers MkCalendar prefix fields S.view s r t }
    ensures mkaddressbook { (c : C) → RefusesUsually S.view S.listings S.File.view.writes c
        → (prefix : List ℕ) (path : WebPath) (fields : Fields) (s t : S) (r : Given)
        → MkCalendars S.view c path s r t
        → Answers MkAddressbook prefix fields S.view s r t }
    ensures put { (c : C) → RefusesUsually S.view S.listings S.File.view.writes c
        → (prefix : List ℕ) (path : WebPath) (fields : Fields) (bytes : List ℕ) (s t : S) (r : Given)
        → PutsWhole S.view S.File.view.writes c path fields bytes s r t
        → Answers Put prefix fields S.view s r t }
{}

/// Over a store that follows its rules a request that makes a directory or puts a file makes of a world of a valid run
/// what its plan says, and is answered so.
pub fn writes_follow_their_plans<S: GuardedFileSystem<C>, C>()
    ensures mkcol { (c : C) (rules : Rules) (k : Knowledge) (s : S)
        → Follows S.view S.listings S.File.view.writes c rules k s
        → (ask : Ask) → ask.method ≡ MkCol → (r : Given) (t : S)
        → MkCols S.view c ask.path ask.fields s r t
        → Told S.view S.listings S.File.view.writes c s t (λ v w. IsRegular rules k v
        → RightIn S.view S.listings S.File.view.writes c rules ask s r t v w) }
    ensures mkcalendar { (c : C) (rules : Rules) (k : Knowledge) (s : S)
        → Follows S.view S.listings S.File.view.writes c rules k s
        → (ask : Ask) → (ask.method ≡ MkCalendar) ⊎ (ask.method ≡ MkAddressbook) → (r : Given) (t : S)
        → MkCalendars S.view c ask.path s r t
        → Told S.view S.listings S.File.view.writes c s t (λ v w. IsRegular rules k v
        → RightIn S.view S.listings S.File.view.writes c rules ask s r t v w) }
    ensures put { (c : C) (rules : Rules) (k : Knowledge) (s : S)
        → Follows S.view S.listings S.File.view.writes c rules k s
        → (ask : Ask) → ask.method ≡ Put → (r : Given) (t : S)
        → PutsWhole S.view S.File.view.writes c ask.path ask.fields ask.body s r t
        → Told S.view S.listings S.File.view.writes c s t (λ v w. IsRegular rules k v
        → RightIn S.view S.listings S.File.view.writes c rules ask s r t v w) }
{}

/// The calls that a request that writes makes lead to the store that is left, whatever is answered.
pub fn writes_lead_on<S: GuardedFileSystem<C>, C>()
    ensures { (c : C) (s t : S) (method : DavMethod) (prefix : List ℕ) (path : WebPath) (fields : Fields)
        (body : List ℕ)
        → (r : Given) → Changes S.view S.listings S.File.view.writes c method prefix path fields body s r t
        → Reached S.view S.listings S.File.view.writes c s t }
{}
