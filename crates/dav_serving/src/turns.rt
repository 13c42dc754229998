// Steps of the player, a few at a time.
ghost use Rattle.std.specs.Prelude.{◌≡◌, ◌+◌, ◌<◌, ◌≤◌, ◌^◌, ◌∷◌, [], IfOk, OnOk, OnErr, Ok};
ghost use Rattle.dav_handler.specs.Player.{stage_of};
ghost use Rattle.dav_serving.specs.Stages.{PlayedOn, RefusedAt};
ghost use Rattle.dav_model.specs.declared.step.Step.TheVariants.{Poll, Purge, Request as Asks, Turn};
ghost use Rattle.dav_model.specs.declared.answer.Answer.TheVariants.{Done, Reply as Replied};

use dav_core::Disk;
use dav_handler::{Answer, Player, Remember, Reply};
use dav_io::{Moment, NoMemory, Octets};
use http::Request;

/// A turn of the outside and a poll. A piece of a file takes the memory of `spare`.
pub fn poll_turn<D: Disk, R: Remember>(
    player: &mut Player<D, R>,
    body: u32,
    spare: &mut Vec<u8>,
) -> Result<Answer, NoMemory>
    requires { player.old.replies + 2 < 2 ^ 32 }
    ensures loan { D.loan player.new.store.disk ≡ D.loan player.old.store.disk }
    ensures replies { OnOk result (player.new.replies ≤ player.old.replies) }
    ensures played { IfOk result (λ a. PlayedOn (stage_of player.old)
        (Turn ∷ Poll body ∷ []) (Done ∷ a ∷ []) (Ok tt) (stage_of player.new)) }
    ensures refused { OnErr result (RefusedAt (stage_of player.old)
        (Turn ∷ Poll body ∷ []) (stage_of player.new)) }
{
    match player.turn() {
        Ok(_) => {}
        Err(error) => return Err(error),
    }
    player.poll_over(body, spare)
}

/// A turn of the outside, a purge and a request.
pub fn request_turn<D: Disk, R: Remember>(
    player: &mut Player<D, R>,
    now: Moment,
    request: &Request<Octets>,
) -> Result<Reply, NoMemory>
    requires { player.old.replies + 3 < 2 ^ 32 }
    ensures loan { D.loan player.new.store.disk ≡ D.loan player.old.store.disk }
    ensures replies { OnOk result (player.new.replies ≤ player.old.replies + 1) }
    ensures played { IfOk result (λ r. PlayedOn (stage_of player.old)
        (Turn ∷ Purge now ∷ Asks request.now now ∷ []) (Done ∷ Done ∷ Replied r.status r.headers r.body ∷ []) (Ok tt)
        (stage_of player.new)) }
    ensures refused { OnErr result (RefusedAt (stage_of player.old)
        (Turn ∷ Purge now ∷ Asks request.now now ∷ []) (stage_of player.new)) }
{
    match player.turn() {
        Ok(_) => {}
        Err(error) => return Err(error),
    }
    let _purged = player.purge(now);
    player.request(request, now)
}
