//! What holds of the caches over every list of events. Each law is the contract of a function that does nothing.

ghost use Rattle.std.specs.Prelude.{◌≡◌, ℕ, List, All, IsUtf8};
ghost use Rattle.dav_memory.specs.Trees.{Tree as rows, fold_name, fold_path};
ghost use Rattle.dav_cache.specs.Core.{Event, State, start};
ghost use Rattle.dav_cache.specs.Transparency.{AbsentOnlyWhereAbsent, PathOnlyWhereThere, EntriesAreSound, ListingsAreRight, FactsAreKept, PeeksAreHeld, ChecksAreHeld, ListedStand, NeverBack, NoReturn, CanBeMet, GetsAreEvents, OpensAreEvents, NegativesAreEvents, IsMisplacedExactly};

/// Folding what is folded changes nothing, of texts and of paths whose names are texts.
pub fn folding()
    ensures name { (name : List ℕ) → IsUtf8 name → fold_name (fold_name name) ≡ fold_name name }
    ensures path { (path : List (List ℕ)) → All IsUtf8 path → fold_path (fold_path path) ≡ fold_path path }
{}

/// The caches are never noticed, whatever the callers do and however the tree changes.
pub fn transparency()
    ensures absent { (tree : rows) (callers paths dots : ℕ) → AbsentOnlyWhereAbsent (start tree callers paths dots) }
    ensures there { (tree : rows) (callers paths dots : ℕ) → PathOnlyWhereThere (start tree callers paths dots) }
    ensures sound { (tree : rows) (callers paths dots : ℕ) → EntriesAreSound (start tree callers paths dots) }
    ensures listings { (tree : rows) (callers paths dots : ℕ) → ListingsAreRight (start tree callers paths dots) }
    ensures facts { (tree : rows) (callers paths dots : ℕ) → FactsAreKept (start tree callers paths dots) }
    ensures peeks { (tree : rows) (callers paths dots : ℕ) → PeeksAreHeld (start tree callers paths dots) }
    ensures checks { (tree : rows) (callers paths dots : ℕ) → ChecksAreHeld (start tree callers paths dots) }
{}

/// On the premises of `transparency`: the one on times that come back follows from a plainer one, and there are events
/// that meet both, in which a directory leaves a time during a listing of it.
pub fn premises()
    ensures no_return { (events : List Event) (s : State) → NeverBack events s → NoReturn events s }
    ensures met { CanBeMet }
{}

/// As long as a directory's entry stands, so does each name of the listing that it was sealed with.
pub fn listed_names_stand()
    ensures { (tree : rows) (callers paths dots : ℕ) → ListedStand (start tree callers paths dots) }
{}

/// A call of `get`, of `get_open` or of `negative` over a disk that tells the tree, and that nobody changes meanwhile,
/// is a row of its caller's events.
pub fn calls_are_events()
    ensures gets { GetsAreEvents }
    ensures opens { OpensAreEvents }
    ensures negatives { NegativesAreEvents }
{}

/// Misplaced is told exactly where the caller isn't one of the callers, or its place doesn't wait for the event. Then
/// nothing is changed.
pub fn misplaced()
    ensures { (s : State) (event : Event) → IsMisplacedExactly s event }
{}
