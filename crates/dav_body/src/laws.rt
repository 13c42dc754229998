//! Laws over the definitions, each the contract of a function that does nothing.
ghost use Rattle.std.specs.Prelude.{◌≡◌, ℕ, List, true, Option, None, Result};
ghost use Rattle.std.specs.List.{AllByRecursion};
ghost use Rattle.dav_body.specs.declared.body.BodyType.{BodyType};
ghost use Rattle.dav_body.specs.Steps.{is_end};
ghost use Rattle.dav_body.specs.Bodies.{BodyGives, PollsGive};

use crate::Steps;
use bytes::Bytes;

/// A body that gave None, or an error that is its end, gives None at each later poll, and changes no more. What is lent
/// to a poll may be changed by others between two polls.
pub fn ended_bodies_stay<S: Steps<X, Item = Bytes>, X>()
    ensures { (a b c : BodyType S) (x y : X) (told : Option (Result (List ℕ) S.Error))
        (later : List (Option (Result (List ℕ) S.Error)))
        → BodyGives S.gives S.ends_at a x told b y → is_end S.ends_at told ≡ true
        → PollsGive (BodyGives S.gives S.ends_at) b later c
        → AllByRecursion (λ answer. answer ≡ None) later × (c ≡ b) }
{}
