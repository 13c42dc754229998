//! Laws over the definitions, each the contract of a function that does nothing.
ghost use Rattle.std.specs.Prelude.{◌≡◌, ◌⊎◌, ◌++◌, ◌∷◌, ℕ, List, [], Bool, true, false, codes, decimal, is_some, Some, Result, Ok};
ghost use Rattle.std.specs.List.{AllByRecursion};
ghost use Rattle.dav_io.specs.Counts.{Rose};
ghost use Rattle.dav_io.specs.declared.failure.NoMemory.{NoMemory};
ghost use Rattle.dav_core.specs.DavPath.{WebPath};
ghost use Rattle.dav_core.specs.World.{World};
ghost use Rattle.dav_core.specs.declared.dav_error.DavError.{DavError};
ghost use Rattle.dav_core.specs.declared.method.DavMethod.TheVariants.{Get, Head};
ghost use Rattle.dav_model.specs.declared.answer.Answer.{Answer};
ghost use Rattle.dav_model.specs.declared.asked.Asked.{Asked as Carried};
ghost use Rattle.dav_model.specs.declared.settings.Settings.{Settings};
ghost use Rattle.dav_model.specs.declared.step.Step.{Step};
ghost use Rattle.dav_model.specs.declared.target.Target.{Target};
ghost use Rattle.dav_model.specs.declared.target.Target.TheVariants.{At, Refused};
ghost use Rattle.dav_model.specs.Announced.{HasSoundBody, PolledToEnd, bytes_in, IsFramed, bare, length_is_own, value_of};
ghost use Rattle.dav_model.specs.Conditions.{Fields, Asked, fields_of};
ghost use Rattle.dav_model.specs.Destination.{Asks};
ghost use Rattle.dav_model.specs.Due.{IsHead, IsRight, Query, due, query};
ghost use Rattle.dav_model.specs.Head.{Reply, is_well_known, refusal};
ghost use Rattle.dav_model.specs.Play.{EachByTree, Learned, Played, PlayedOn, Playing, Plays, Stage, Stands, Stepped, points_from};
ghost use Rattle.dav_model.specs.Rules.{Rules};
ghost use Rattle.dav_model.specs.Shown.{CouldShow, Shown};
ghost use Rattle.dav_model.specs.Still.{Agree, Fits, StandsAs, is_quiet, knowing_at};
ghost use Rattle.dav_model.specs.Trail.{Leaves, Move, Point, last_of, points_of, step_leaves, target_of};
ghost use Rattle.dav_model.specs.Valid.{Valid};
ghost use Rattle.dav_model.specs.WellFormed.{IsWellFormed, IsWellFormedAnswer, gate_statuses, is_among, right_statuses};

/// Joining: two runs, the second from the stage that the first leaves, are one run of the joined steps along the joined
/// trail, whether the second's answers are a list of their own or go on from those of the first. The first had no want
/// of memory.
pub fn runs_join()
    ensures goes_on { (xs ys : List Move) (a m b : Stage) (steps more : List Step) (old mid new : List Answer)
        (result : Result Unit NoMemory)
        → Played xs a steps old mid (Ok tt) m → Played ys m more mid new result b
        → Played (xs ++ ys) a (steps ++ more) old new result b }
    ensures joined { (xs ys : List Move) (a m b : Stage) (steps more : List Step) (old new added : List Answer)
        (result : Result Unit NoMemory)
        → Played xs a steps old new (Ok tt) m → Played ys m more [] added result b
        → Played (xs ++ ys) a (steps ++ more) old (new ++ added) result b }
{}

/// Reading changes no file: steps of which none is a turn of the outside, or a request that writes, leave the tree, the
/// bytes and the script. GET, HEAD and OPTIONS are no such requests.
pub fn reading_changes_no_file()
    ensures { (p q : Playing) (s : Point) (moves : List Move)
        → AllByRecursion (λ move. step_leaves p.rules move.step ≡ true) moves
        → Plays p s moves q → Leaves s (last_of s moves) }
{}

/// The headline: in a valid run each reply to a GET or HEAD is that of the tree before its step, as if there were no
/// memory, or what may stand in its place where the disk's count of faults rose.
pub fn each_reply_is_that_of_the_tree()
    ensures { (p : Playing) (s : Point) (moves : List Move) (q : Playing) (plays : Plays p s moves q)
        → Valid p.rules p.knows (s ∷ points_of moves) → EachByTree p s moves q plays }
{}

/// What the memory knows at the exit of a run was known at its entry, or a world of its trail has it.
pub fn what_is_known_was_told()
    ensures { (trail : List Move) (a b : Stage) (steps : List Step) (old new : List Answer)
        (result : Result Unit NoMemory)
        → Played trail a steps old new result b → AllByRecursion (λ point. is_some point.told ≡ true)
        (points_from a trail)
        → Learned (points_from a trail) a.playing.knows b.playing.knows }
{}

/// A body that is polled to its end without a break has exactly the number of bytes that the value of the reply's field
/// `content-length` says, whatever happens to the file between the polls. To a HEAD, and with 304, nothing is given,
/// and the field speaks of a body that isn't sent (RFC 9110, section 8.6).
pub fn bodies_have_the_announced_length()
    ensures length { (target : Target) (reply : Reply) (value : List ℕ) (pieces : List (List ℕ))
        → IsFramed target reply → length_is_own target reply.status ≡ true
        → value_of (codes "content-length") reply.fields ≡ Some value
        → PolledToEnd reply.parts pieces → value ≡ decimal (bytes_in pieces) }
    ensures none { (target : Target) (reply : Reply) (pieces : List (List ℕ))
        → IsFramed target reply → length_is_own target reply.status ≡ false → PolledToEnd reply.parts pieces
        → pieces ≡ [] }
{}

/// Of each right reply, and of what may stand in its place: `content-length` is the length of its body, no part of the
/// body is empty, and 500 comes only where a fault was met, over what a disk's store could show. A refusal of any
/// method, known or unknown, has no body, and announces so.
pub fn right_replies_are_framed()
    ensures framed { (q : Query) (shown : Shown) (before after : ℕ) (reply : Reply)
        → IsRight q shown (Rose before after) reply → IsFramed (At q.method q.path) reply }
    ensures sound { (q : Query) (shown : Shown) (before after : ℕ) (reply : Reply)
        → IsRight q shown (Rose before after) reply → HasSoundBody reply }
    ensures failed { (q : Query) (shown : Shown) (before after : ℕ) (reply : Reply)
        → CouldShow shown → IsRight q shown (Rose before after) reply → reply.status ≡ 500 → Rose before after }
    ensures refused { (target : Target) (fields : Fields) (status : ℕ) (close : Bool)
        → IsFramed target (refusal fields status close) × HasSoundBody (refusal fields status close)
        × (value_of (codes "content-length") (refusal fields status close).fields ≡ Some (codes "0")) }
{}

/// Each reply is well-formed: its status is one of a list, the names of its fields ascend and none stands twice, each
/// name is a token and each value a field value, so that none of them ends a line. So no type, tag, time or address
/// that a store tells splits an answer.
///
/// `run`: each reply that the clause of `play` adds, in every run, over a disk that tells its world or doesn't.
/// `right`: each that is right over what a disk's store could show, or stands in its place; `status`: its list, and
/// that 500 comes only where a fault was met. `refused`: what the gates refuse, and its list.
pub fn right_replies_are_well_formed()
    ensures right { (q : Query) (shown : Shown) (before after : ℕ) (reply : Reply)
        → CouldShow shown → IsRight q shown (Rose before after) reply → IsWellFormed reply.status reply.fields }
    ensures status { (q : Query) (shown : Shown) (before after : ℕ) (reply : Reply)
        → CouldShow shown → IsRight q shown (Rose before after) reply
        → (is_among reply.status right_statuses ≡ true) ⊎ ((reply.status ≡ 500) × Rose before after) }
    ensures refused { (rules : Rules) (request : Asked) (status : ℕ) (close : Bool)
        → target_of rules request ≡ Refused status close
        → (is_among status gate_statuses ≡ true)
        × IsWellFormed status (refusal (fields_of request) status close).fields }
    ensures run { (a b : Stage) (steps : List Step) (old added : List Answer) (result : Result Unit NoMemory)
        → PlayedOn a steps old (old ++ added) result b → AllByRecursion IsWellFormedAnswer added }
{}

/// Two requests that differ by their method alone: where the GET is rightly answered by a reply, the HEAD is rightly
/// answered by the same reply without its body (RFC 9110, section 9.3.2). Apart stand 412 and 416, at which
/// `content-length` is that of the whole file for a HEAD, and 0 for a GET, and the one page that is there for GET
/// alone.
pub fn heads_are_gets_without_bodies()
    ensures { (shown : Shown) (settings : Settings) (fields : Fields) (path : WebPath) (reply : Reply)
        → is_well_known settings Get path ≡ false
        → IsHead (query settings fields Get path) (due shown (query settings fields Get path)) reply
        → (reply.status ≡ 412 → ⊥) → (reply.status ≡ 416 → ⊥)
        → IsHead (query settings fields Head path) (due shown (query settings fields Head path)) (bare reply) }
{}

/// Steps by a memory that others teach, over a world that stands still. A step of which what was learned is forgotten
/// again is a step. Behind a step that writes nothing the world stands as it did. And what a step teaches agrees with
/// what was known before it, where that fits the world.
pub fn steps_over_a_still_world()
    ensures forgotten { (a b : Stage) (step : Step) (answer : Answer) → Stepped a step (Ok answer) b
        → Stepped a step (Ok answer) (knowing_at a.playing.knows b) }
    ensures still { (w : World) (p q : Playing) (s t : Point) (step : Step) (answer : Answer)
        → is_quiet p.rules step ≡ true → Stands p s t step answer q → StandsAs w s → StandsAs w t }
    ensures agrees { (w : World) (p q : Playing) (s t : Point) (step : Step) (answer : Answer)
        → Fits p.knows w → StandsAs w s → Stands p s t step answer q → Agree p.knows q.knows }
{}

/// What the fields of a COPY or a MOVE ask for is one value: a destination and the ways to go there, or one refusal. And
/// it can't be that they ask for nothing and aren't refused either (whether a text is a URI isn't decided here, so no
/// value is shown).
pub fn fields_ask_for_one_thing()
    ensures one { (moving : Bool) (prefix : List ℕ) (fields : Fields) (a b : Result Carried DavError)
        → Asks moving prefix fields a → Asks moving prefix fields b → a ≡ b }
    ensures some { (moving : Bool) (prefix : List ℕ) (fields : Fields)
        → ((a : Result Carried DavError) → Asks moving prefix fields a → ⊥) → ⊥ }
{}
