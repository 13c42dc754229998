//! Laws over the exchanges that `run` answers: of their heads, of their bodies, and where these end. Each function does
//! nothing; its contract is the law.
ghost use Rattle.dav_model.specs.Play.{EachByTree, Playing, Plays, Stage, Stands};
ghost use Rattle.std.specs.Prelude.{◌≡◌, ◌<◌, ◌^◌, ◌++◌, ℕ, Bool, List, [], ◌∷◌, All, true, false, codes, decimal, Option, Some, Result, Ok, length};
ghost use Rattle.std.specs.List.{AllByRecursion, concat, flat_map};
ghost use Rattle.dav_io.specs.Outside.{Stream};
ghost use Rattle.dav_io.specs.declared.clock.Moment.{Moment};
ghost use Rattle.dav_io.specs.declared.failure.NoMemory.{NoMemory};
ghost use Rattle.dav_model.specs.declared.answer.Answer.{Answer};
ghost use Rattle.dav_model.specs.declared.answer.Answer.TheVariants.{Broken, Done};
ghost use Rattle.dav_model.specs.declared.step.Step.{Step};
ghost use Rattle.dav_model.specs.declared.step.Step.TheVariants.{Purge};
ghost use Rattle.dav_model.specs.Announced.{bytes_in, length_is_own};
ghost use Rattle.dav_model.specs.Trail.{Move, Point, points_of, target_of};
ghost use Rattle.dav_model.specs.Valid.{Valid};
ghost use Rattle.dav_wire.specs.AnswerHeads.{ReadsAnswer};
ghost use Rattle.dav_wire.specs.Answers.{bad_request_text, close_field, head_text, too_large_text};
ghost use Rattle.dav_wire.specs.Chunks.{written, ending, HasBody};
ghost use Rattle.dav_wire.specs.Messages.{Message};
ghost use Rattle.dav_wire.specs.declared.chunks.Framing.TheVariants.{Raw, Chunked};
ghost use Rattle.dav_serving.specs.Bodies.{Announces, AnnouncesMore, GivesAnnounced, IsBodiless, IsHeadAlone, IsNonempty, IsShort, TellsEnd};
ghost use Rattle.dav_serving.specs.ByTree.{AllByTree, moves_of};
ghost use Rattle.dav_serving.specs.Completing.{Faultless, IsInvalid, IsInvalidStill, IsValid, IsValidStill, StatusIs};
ghost use Rattle.dav_serving.specs.Exchange.{Exchange, IsOf, begun_answers, framing_of, steps_of, answers_of, wire_of};
ghost use Rattle.dav_serving.specs.Heads.{HasHead};
ghost use Rattle.dav_serving.specs.Serving.{Setup, Serving, ServedSoFar, Owes, ready};
ghost use Rattle.dav_serving.specs.Stages.{Outside, PlayedOn};

/// Where the field `content-length` of an answer speaks of the body that is sent, its value is the number of the bytes
/// behind the head, whatever happens to the files meanwhile, and whether the disk tells of them or not. To a HEAD, and
/// with 304, it speaks of a body that isn't sent, and there are no pieces (RFC 9110, section 8.6).
pub fn answers_have_the_announced_length()
    ensures length { (a b : Stage) (x : Exchange) (value : List ℕ) → PlayedOn a (steps_of x) (answers_of x) (Ok tt) b
        → length_is_own (target_of a.playing.rules x.request) x.status ≡ true → Announces x value
        → value ≡ decimal (bytes_in x.pieces) }
    ensures none { (a b : Stage) (x : Exchange) → PlayedOn a (steps_of x) (answers_of x) (Ok tt) b
        → length_is_own (target_of a.playing.rules x.request) x.status ≡ false → x.pieces ≡ [] }
    ensures written { (x : Exchange) (value : List ℕ) → Announces x value
        → wire_of x ≡ head_text x.status x.fields x.closing Raw ++ concat x.pieces }
    ensures counted { (x : Exchange) → bytes_in x.pieces ≡ length (concat x.pieces) }
{}

/// A body that broke has fewer bytes than are announced, so that a client sees that it isn't whole, and takes nothing
/// of it for another answer. None breaks where the field speaks of a body that isn't sent.
pub fn broken_answers_are_no_longer()
    ensures shorter { (a b : Stage) (x : Exchange) (value : List ℕ)
        → PlayedOn a (steps_of x) (begun_answers x ++ Done ∷ Broken ∷ []) (Ok tt) b
        → length_is_own (target_of a.playing.rules x.request) x.status ≡ true → Announces x value
        → AnnouncesMore value (bytes_in x.pieces) }
    ensures never { (a b : Stage) (x : Exchange) → PlayedOn a (steps_of x) (begun_answers x ++ Done ∷ Broken ∷ [])
        (Ok tt) b
        → length_is_own (target_of a.playing.rules x.request) x.status ≡ false → ⊥ }
{}

/// The body of an answer in chunks, as it is written, is read back as the bytes of its pieces, whatever follows, and
/// one that isn't in chunks is these bytes. No piece is empty, whether the disk tells or not, and whatever comes behind
/// the pieces (`full`): an empty chunk would end the body.
///
/// That a piece is short holds of all that stands in memory.
pub fn answers_in_chunks_are_read_back()
    ensures chunked { (a b : Stage) (x : Exchange) (behind : List ℕ) → PlayedOn a (steps_of x) (answers_of x) (Ok tt) b
        → framing_of x ≡ Chunked → All IsShort x.pieces
        → HasBody (flat_map (written (framing_of x)) x.pieces ++ (ending (framing_of x) ++ behind))
        (concat x.pieces) behind }
    ensures full { (a b : Stage) (x : Exchange) (last : Answer)
        → PlayedOn a (steps_of x) (begun_answers x ++ Done ∷ last ∷ []) (Ok tt) b
        → All IsNonempty x.pieces }
    ensures raw { (x : Exchange) (behind : List ℕ) → framing_of x ≡ Raw
        → flat_map (written (framing_of x)) x.pieces ++ (ending (framing_of x) ++ behind) ≡ concat x.pieces ++ behind }
{}

/// Each answer tells its end: a client expects no body, or it is in chunks, or it says its length, or the version is
/// 1.0 and the connection closes behind it (RFC 9112, section 6.3). The answer to a HEAD, and one with 204 or 304, is
/// its head alone.
pub fn framed_answers_end()
    ensures tells { (shown : Option Moment) (message : Message) (x : Exchange) → IsOf shown message x → TellsEnd x }
    ensures alone { (a b : Stage) (x : Exchange) → PlayedOn a (steps_of x) (answers_of x) (Ok tt) b
        → IsBodiless x → IsHeadAlone x }
{}

/// All exchanges that a run answered give what they announce, and tell their end. None has an empty piece, and bodies
/// in chunks are read back.
pub fn served_answers_give_what_they_announce()
    ensures { (setup : Setup) (closed : Bool) (before : Outside) (source : Stream) (held : List ℕ) (xs : List Exchange)
        (last : Stage)
        → Serving setup closed before source held xs last → AllByRecursion (GivesAnnounced setup.rules) xs }
{}

/// In a valid run each reply to a GET or HEAD of all its exchanges is that of the tree before its step, as if there
/// were no memory: what is known at an exchange was known at first, or a world of those before it has it.
pub fn served_answers_are_those_of_the_tree()
    ensures { (setup : Setup) (closed : Bool) (before : Outside) (source : Stream) (held : List ℕ) (xs : List Exchange)
        (last : Stage)
        (v : Serving setup closed before source held xs last)
        → Valid setup.rules setup.knows (before.disk
        ∷ points_of (moves_of setup.rules (ready setup.rules setup.knows before.disk) xs last v.played))
        → AllByTree setup.rules (ready setup.rules setup.knows before.disk) xs last v.played }
{}

/// The same of what was played behind these exchanges: an answer that broke, or that was cut.
pub fn cut_answers_are_those_of_the_tree()
    ensures { (setup : Setup) (closed : Bool) (before : Outside) (source : Stream) (held : List ℕ) (xs : List Exchange)
        (place : Stage) (v : Serving setup closed before source held xs place) (steps : List Step)
        (answers : List Answer) (result : Result Unit NoMemory) (b : Stage) (r : PlayedOn place steps answers result b)
        → Valid setup.rules setup.knows (before.disk
        ∷ points_of (moves_of setup.rules (ready setup.rules setup.knows before.disk) xs place v.played ++ r.trail))
        → EachByTree place.playing place.at r.trail r.played.player r.played.answered }
{}

/// A purge changes no later answer to a GET or HEAD: it leaves the player as it was but for what its memory knows, and
/// in a valid run each later reply is that of the tree before its step, which no memory decides.
pub fn purges_change_no_answer()
    ensures { (p q r : Playing) (s t : Point) (now : Moment) (answer : Answer) (moves : List Move)
        → Stands p s t (Purge now) answer q → Valid p.rules p.knows (s ∷ points_of moves)
        → (plays : Plays q t moves r)
        → (t ≡ s) × (q ≡ record p { knows = q.knows }) × EachByTree q t moves r plays }
{}

/// The head of each answer that a run writes is read back as one response head, whatever follows: with exactly its
/// status and its fields, in order and none of them twice, and behind it stands its body (`served`). The same holds of
/// an answer whose body breaks, or behind whose reply memory is refused (`begun`), and of the refusals of what is no
/// request (`refusal`) and of a body that is too large (`large`). So nothing that a disk tells splits an answer or
/// brings a field into it; by `answer_heads_are_one` of `dav_wire` nothing else is read there.
pub fn heads_are_read_back()
    ensures served { (setup : Setup) (closed : Bool) (before : Outside) (source : Stream) (held : List ℕ)
        (xs : List Exchange) (last : Stage)
        → Serving setup closed before source held xs last → AllByRecursion HasHead xs }
    ensures begun { (a b : Stage) (x : Exchange) (steps : List Step) (behind : List Answer)
        (result : Result Unit NoMemory)
        → PlayedOn a steps (begun_answers x ++ behind) result b → HasHead x }
    ensures refusal { (behind : List ℕ) → ReadsAnswer (bad_request_text ++ behind) 400
        (close_field ∷ record { name = codes "content-length"; value = codes "0" } ∷ []) behind }
    ensures large { (behind : List ℕ) → ReadsAnswer (too_large_text ++ behind) 413
        (close_field ∷ record { name = codes "content-length"; value = codes "0" } ∷ []) behind }
{}

/// A client that waits for its answer isn't asked meanwhile: where a whole request was taken, and nothing was written,
/// not all is served that may be. So a client may be one that is asked only where something was written since its first
/// request.
pub fn an_owed_answer_is_not_so_far()
    ensures { (setup : Setup) (before now : Outside) → Owes before now → ServedSoFar setup before now → ⊥ }
{}

/// Completeness: where source, sink and disk refused nothing and the input has fewer than 2^60 bytes, a run that wasn't
/// refused memory ends with 0 on requests that are valid to the end of the input or to one whose answer closes, and with
/// 6 where bytes that are no request stand behind requests whose answers leave the connection open (`ends`). `StatusIs`
/// is what `run` says of its status. Which answers close is asked of a disk that refuses nothing, so that it may depend
/// on what stands there; what holds over every disk holds there too (`valid`, `invalid`).
pub fn faultless_runs_are_complete()
    ensures ends { (setup : Setup) (before after : Outside) (status : ℕ) (bytes : List ℕ)
        → StatusIs setup before after status
        → before.source.bytes ≡ Some bytes → length bytes < 2 ^ 60 → Faultless before after
        → (IsValidStill setup before.disk bytes → status ≡ 0)
        × (IsInvalidStill setup before.disk bytes → status ≡ 6) }
    ensures valid { (setup : Setup) (s : Point) (bytes : List ℕ) → IsValid setup s bytes
        → IsValidStill setup s bytes }
    ensures invalid { (setup : Setup) (s : Point) (bytes : List ℕ) → IsInvalid setup s bytes
        → IsInvalidStill setup s bytes }
{}
