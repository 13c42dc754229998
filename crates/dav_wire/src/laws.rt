//! What the definitions promise of themselves. Each function does nothing; its contract is the law.
ghost use Rattle.std.specs.Prelude.{◌≡◌, ◌<◌, ◌⊎◌, ℕ, Bool, List, [], ◌++◌, All, map};
ghost use Rattle.std.specs.List.{concat, flat_map};
ghost use Rattle.httparse.specs.Grammar.{RequestHead};
ghost use Rattle.dav_io.specs.declared.fields.Field.{Field};
ghost use Rattle.http.specs.declared.request.Parts.{Parts};
ghost use Rattle.dav_wire.specs.AnswerHeads.{IsAnswerField, ReadsAnswer, as_read};
ghost use Rattle.dav_wire.specs.Announced.{announced_by, announces};
ghost use Rattle.dav_wire.specs.Bodies.{IsBody, HasNoBody, BodyRefusal, IsBodyUnfinished};
ghost use Rattle.dav_wire.specs.Heads.{IsRead};
ghost use Rattle.dav_wire.specs.Messages.{Message, IsMessage, Messages, HasNoMessage, MessageRefusal, IsMessageUnfinished};
ghost use Rattle.dav_wire.specs.declared.announcing.Announced.{Announced};
ghost use Rattle.dav_wire.specs.declared.next.Flaw.{Flaw};
ghost use Rattle.dav_wire.specs.Answers.{head_text, written_fields};
ghost use Rattle.dav_wire.specs.Chunks.{written, ending, IsPiece, HasBody};
ghost use Rattle.dav_wire.specs.declared.chunks.Framing.{Framing};
ghost use Rattle.dav_wire.specs.declared.chunks.Framing.TheVariants.{Raw, Chunked};
ghost use Rattle.dav_wire.specs.Requests.{IsRequest, Refusal, IsUnfinished, Requests, HasNone, EitherWay};

/// A request that is whole stays the request, whatever follows.
pub fn request_stays()
    ensures { (left more : List ℕ) (head : RequestHead) (rest : List ℕ) → IsRequest left head rest
        → IsRequest (left ++ more) head (rest ++ more) }
{}

/// At most one request stands at the front.
pub fn request_is_one()
    ensures { (left : List ℕ) (head other : RequestHead) (rest behind : List ℕ) → IsRequest left head rest
        → IsRequest left other behind → (head ≡ other) × (rest ≡ behind) }
{}

/// What is refused stays refused, whatever follows.
pub fn refusal_stays()
    ensures { (left more : List ℕ) → Refusal left → Refusal (left ++ more) }
{}

/// Where a request is refused, none stands, whatever follows.
pub fn refusal_has_none()
    ensures { (left more : List ℕ) → Refusal left → HasNone (left ++ more) }
{}

/// Where a head is unfinished, no request stands; and it is refused only in the two cases that are left open.
pub fn unfinished_has_none()
    ensures none { (left : List ℕ) → IsUnfinished left → HasNone left }
    ensures refused { (left : List ℕ) → IsUnfinished left → Refusal left → EitherWay left }
{}

/// Requests behind requests are requests.
pub fn requests_join()
    ensures { (left mid rest : List ℕ) (heads more : List RequestHead) → Requests left heads mid
        → Requests mid more rest → Requests left (heads ++ more) rest }
{}

/// The requests of an input up to a place where none stands are determined, and so is the place.
pub fn requests_are_one()
    ensures { (left rest behind : List ℕ) (heads others : List RequestHead) → Requests left heads rest → HasNone rest
        → Requests left others behind → HasNone behind → (heads ≡ others) × (rest ≡ behind) }
{}

/// Nothing stands where the bytes are over.
pub fn end_has_none()
    ensures { HasNone [] }
{}

/// A body in chunks is read in one way: its bytes are determined, and so is what stands behind it.
pub fn chunked_bodies_are_one()
    ensures { (text body other rest behind : List ℕ) → HasBody text body rest → HasBody text other behind
        → (body ≡ other) × (rest ≡ behind) }
{}

/// A body in chunks stays the body, whatever follows.
pub fn chunked_bodies_stay()
    ensures { (text body rest more : List ℕ) → HasBody text body rest → HasBody (text ++ more) body (rest ++ more) }
{}

/// The pieces of a body, as they are written, are read back as the bytes of the pieces, whatever follows.
pub fn written_pieces_are_read_back()
    ensures chunked { (pieces : List (List ℕ)) (behind : List ℕ) → All IsPiece pieces
        → HasBody (flat_map (written Chunked) pieces ++ (ending Chunked ++ behind)) (concat pieces) behind }
    ensures raw { (pieces : List (List ℕ)) → flat_map (written Raw) pieces ++ ending Raw ≡ concat pieces }
{}

/// Where names are tokens and values are field values, the head of an answer is read back: one response head stands
/// there, whatever follows, with this status and these fields. So no value splits an answer.
pub fn answer_heads_are_read_back()
    ensures { (status : ℕ) (fields : List Field) (closing : Bool) (framing : Framing) (behind : List ℕ)
        → status < 1000 → All IsAnswerField fields
        → ReadsAnswer (head_text status fields closing framing ++ behind) status
        (written_fields closing framing fields) behind }
{}

/// At most one answer's head stands at the front: its status is determined, and so are its fields as they are read and
/// what stands behind it.
pub fn answer_heads_are_one()
    ensures { (text : List ℕ) (status other : ℕ) (fields others : List Field) (rest behind : List ℕ)
        → ReadsAnswer text status fields rest → ReadsAnswer text other others behind
        → (status ≡ other) × (map as_read fields ≡ map as_read others) × (rest ≡ behind) }
{}

/// What the parts of a head announce is what the head announces.
pub fn parts_announce()
    ensures { (head : RequestHead) (parts : Parts) → IsRead head parts → announced_by parts ≡ announces head }
{}

/// At most one body stands at the front.
pub fn bodies_are_one()
    ensures { (announced : Announced) (text body other rest behind : List ℕ) → IsBody announced text body rest
        → IsBody announced text other behind → (body ≡ other) × (rest ≡ behind) }
{}

/// A body stays the body, whatever follows.
pub fn bodies_stay()
    ensures { (announced : Announced) (text body rest more : List ℕ) → IsBody announced text body rest
        → IsBody announced (text ++ more) body (rest ++ more) }
{}

/// Where a body is refused, it stays refused, for one reason, and none stands there, whatever follows.
pub fn body_refusal_stays()
    ensures stays { (announced : Announced) (text more : List ℕ) (flaw : Flaw) → BodyRefusal announced text flaw
        → BodyRefusal announced (text ++ more) flaw }
    ensures one { (announced : Announced) (text : List ℕ) (flaw other : Flaw) → BodyRefusal announced text flaw
        → BodyRefusal announced text other → flaw ≡ other }
    ensures none { (announced : Announced) (text more : List ℕ) (flaw : Flaw) → BodyRefusal announced text flaw
        → HasNoBody announced (text ++ more) }
{}

/// Where a body is unfinished, none stands, and none is refused.
pub fn unfinished_body_has_none()
    ensures none { (announced : Announced) (text : List ℕ) → IsBodyUnfinished announced text
        → HasNoBody announced text }
    ensures refused { (announced : Announced) (text : List ℕ) (flaw : Flaw) → IsBodyUnfinished announced text
        → BodyRefusal announced text flaw → ⊥ }
{}

/// At each text a body stands, a refusal is owed, or a body is unfinished.
pub fn bodies_are_decided()
    ensures { (announced : Announced) (text : List ℕ)
        → ((body rest : List ℕ) × IsBody announced text body rest)
        ⊎ (((flaw : Flaw) × BodyRefusal announced text flaw) ⊎ IsBodyUnfinished announced text) }
{}

/// At most one message stands at the front.
pub fn message_is_one()
    ensures { (left : List ℕ) (message other : Message) (rest behind : List ℕ) → IsMessage left message rest
        → IsMessage left other behind → (message ≡ other) × (rest ≡ behind) }
{}

/// A message that is whole stays the message, whatever follows.
pub fn message_stays()
    ensures { (left more : List ℕ) (message : Message) (rest : List ℕ) → IsMessage left message rest
        → IsMessage (left ++ more) message (rest ++ more) }
{}

/// Where a message is refused, it stays refused, for one reason, and none stands there, whatever follows.
pub fn message_refusal_stays()
    ensures stays { (left more : List ℕ) (flaw : Flaw) → MessageRefusal left flaw → MessageRefusal (left ++ more) flaw }
    ensures one { (left : List ℕ) (flaw other : Flaw) → MessageRefusal left flaw → MessageRefusal left other
        → flaw ≡ other }
    ensures none { (left more : List ℕ) (flaw : Flaw) → MessageRefusal left flaw → HasNoMessage (left ++ more) }
{}

/// Where a message is unfinished, none stands; and it is refused only in the two cases that are left open.
pub fn unfinished_message_has_none()
    ensures none { (left : List ℕ) → IsMessageUnfinished left → HasNoMessage left }
    ensures refused { (left : List ℕ) (flaw : Flaw) → IsMessageUnfinished left → MessageRefusal left flaw
        → EitherWay left }
{}

/// Messages behind messages are messages.
pub fn messages_join()
    ensures { (left mid rest : List ℕ) (messages more : List Message) → Messages left messages mid
        → Messages mid more rest → Messages left (messages ++ more) rest }
{}

/// The messages of an input up to a place where none stands are determined, and so is the place.
pub fn messages_are_one()
    ensures { (left rest behind : List ℕ) (messages others : List Message) → Messages left messages rest
        → HasNoMessage rest → Messages left others behind → HasNoMessage behind
        → (messages ≡ others) × (rest ≡ behind) }
{}

/// No message stands where the bytes are over.
pub fn end_has_no_message()
    ensures { HasNoMessage [] }
{}
