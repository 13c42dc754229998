//! What holds of the definitions alone. Each function has nothing to do, and its contract is the law.
ghost use Rattle.std.specs.Prelude.{◌≡◌, ◌<◌, ◌++◌, ◌∷◌, ℕ, List, Bool, IfSome, length, Ok, Option, Result, Some, false, true};
ghost use Rattle.std.specs.List.{AllByRecursion, AllZip, list_any};
ghost use Rattle.dav_core.specs.declared.member.Member.{Member as Shown};
ghost use Rattle.dav_core.specs.Path.{Names, is_plain};
ghost use Rattle.dav_core.specs.Tree.{is_link};
ghost use Rattle.dav_core.specs.World.{IsWorld, World};
ghost use Rattle.dav_io.specs.Counts.{RefusedNothing, Rose};
ghost use Rattle.dav_page.specs.declared.row.PageRow.{PageRow as Line};
ghost use Rattle.dav_page.specs.Listed.{IsRowOf};
ghost use Rattle.dav_model.specs.Bodies.{Gives, Part};
ghost use Rattle.dav_fetch.specs.declared.copied.Kept.{Kept as Old};
ghost use Rattle.dav_fetch.specs.declared.copied.Copied.{Copied as Copy};
ghost use Rattle.dav_fetch.specs.declared.error.MirrorError.{MirrorError as Error};
ghost use Rattle.dav_fetch.specs.declared.found.Found.{Found as It};
ghost use Rattle.dav_fetch.specs.declared.peer.Got.{Got as Head};
ghost use Rattle.dav_fetch.specs.Asking.{asked_for, awaits, dir_path, file_path};
ghost use Rattle.dav_fetch.specs.Copy.{IsOfWorld};
ghost use Rattle.dav_fetch.specs.Fetching.{Fetched, visits_of};
ghost use Rattle.dav_fetch.specs.Judging.{gives, grown, use_of};
ghost use Rattle.dav_fetch.specs.Mirroring.{AllTold, AreClear, AreKept, AreShort, IsGood, IsLinkless, IsMet, IsMirror, IsOverOne, IsSound, IsWithinLimits, MetIn, Mirrors, TellsOne, TellsStill, visible_rows};
ghost use Rattle.dav_fetch.specs.Peer.{PeerState, RepliesOf, Seen as Now, body_in};
ghost use Rattle.dav_fetch.specs.Turning.{AreTurned};
ghost use Rattle.dav_fetch.specs.Walk.{IsFound, IsMember, Visit};

/// What comes of a file, by the answer to the request that what is kept of it asks for, is a front of what its path has
/// in the world of the reply, with the tag and the length there.
pub fn what_comes_is_of_the_world()
    ensures { (w : World) (names : Names) (old : Option Old) → IfSome old (IsGood w names) → (before after : ℕ) (got : Head)
        (left came more : List ℕ) (f : Old) (n : ℕ) → AreShort w names
        → RepliesOf w (file_path names) (asked_for (awaits old)) (Rose before after) got left
        → use_of names (awaits old) got.status got.headers ≡ gives f n → left ≡ came ++ more
        → IsOfWorld w (grown f n came) }
{}

/// What a poll gives is the front of what the body has left, and leaves the rest.
pub fn polls_give_the_body()
    ensures { (w : World) (whole : Bool) (most : ℕ) (part : Part) (parts : List Part) (piece : List ℕ) (rest : List Part)
        → Gives (Some w) whole most part parts piece rest → body_in w (part ∷ parts) ≡ piece ++ body_in w rest }
{}

/// What is found in the rows of a page are the members that they show.
pub fn rows_name_their_members()
    ensures { (dir : Names) (listed : List Shown) (rows : List Line) (found : List It)
        → AllByRecursion (λ (m : Shown). is_plain m.name ≡ true) listed
        → AllZip (IsRowOf (dir_path dir)) listed rows → AllZip (IsFound dir) rows found → AllZip IsMember found listed }
{}

/// Whatever the answer: where the peer told at each visit, and what is kept at entry is faithful for each world that
/// was met, each file at exit is one of the entry, or a front of what its path had in one of these worlds.
pub fn a_fetched_copy_is_sound()
    ensures { (s t : PeerState) (old new : Copy) (most : ℕ) (result : Result Unit Error) (f : Fetched s old most result t new)
        → AreKept old.files → AllTold (visits_of f)
        → ((w : World) → MetIn w (visits_of f) → IsMet old.files w) → IsSound old (visits_of f) new }
{}

/// Whole: where the peer told one world throughout and refused nothing, Ok leaves exactly that world's tree, as far as it
/// is reached by names not beginning with a dot.
pub fn a_still_tree_is_mirrored()
    ensures { (s t : PeerState) (old new : Copy) (most : ℕ) (f : Fetched s old most (Ok tt) t new) → (w : World)
        → IsOverOne w s old (visits_of f) t → IsMirror w new }
{}

/// Reached: where no link is met on the way through what is shown of that tree, what is shown is within the limits, and a
/// request more is allowed than there are visible rows, it comes to that, or memory is refused.
pub fn a_still_tree_is_fetched()
    ensures { (s t : PeerState) (old new : Copy) (most : ℕ) (result : Result Unit Error) (f : Fetched s old most result t new)
        → (w : World) → IsOverOne w s old (visits_of f) t → IsLinkless w → IsWithinLimits w
        → length (visible_rows w) < most → Mirrors w result new }
{}

/// A peer that tells a world of which nothing is to change tells it at each visit of a fetch, where it tells at each, or
/// meets no link there: also behind faults, and below names that aren't shown.
pub fn a_still_peer_tells_one_world()
    ensures { (s t : PeerState) (old new : Copy) (most : ℕ) (result : Result Unit Error) (f : Fetched s old most result t new)
        → (w : World) → TellsStill w s → AreClear w (visits_of f) → TellsOne w (visits_of f) }
{}

/// In a tree without links no visit meets one.
pub fn a_tree_without_links_is_clear()
    ensures { (w : World) (visits : List Visit) → list_any (λ row. is_link row.kind) w.tree ≡ false → AreClear w visits }
{}

/// Such a peer tells it at each visit where it refused nothing and no link is met on the way through what is shown,
/// wherever else there are links.
pub fn a_still_peer_tells_what_is_shown()
    ensures { (s t : PeerState) (old new : Copy) (most : ℕ) (result : Result Unit Error) (f : Fetched s old most result t new)
        → (w : World) → IsWorld w → IsLinkless w → RefusedNothing s.faults t.faults → TellsStill w s
        → TellsOne w (visits_of f) }
{}

/// Where a peer told at each visit, the worlds that were met are those to which the outside's changes lead: with each
/// request that was answered one batch more.
pub fn worlds_are_met_one_after_the_other()
    ensures { (s t : PeerState) (old new : Copy) (most : ℕ) (result : Result Unit Error) (f : Fetched s old most result t new)
        → AllTold (visits_of f) → (now : Now) → s.told ≡ Some now → AreTurned now.world 0 (visits_of f) }
{}

/// The same of each visit at which the peer told, whether it told at the others or not, from the world on that it stands
/// on: so no link and no other visit takes a visit's world from the outside's script.
pub fn told_worlds_are_those_of_the_script()
    ensures { (s t : PeerState) (old new : Copy) (most : ℕ) (result : Result Unit Error) (f : Fetched s old most result t new)
        → (v : World) → s.world ≡ Some v → AreTurned v 0 (visits_of f) }
{}

/// A tree has one mirror at most.
pub fn a_tree_has_one_mirror()
    ensures { (w : World) (one other : Copy) → IsMirror w one → IsMirror w other → one ≡ other }
{}
