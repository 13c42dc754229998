ghost use Rattle.std.specs.Prelude.{◌≡◌, ◌<◌, ◌≤◌, ℕ, Bool, Option, None, Result, IsSome};
ghost use Rattle.futures.specs.Poll.{OnPending};
ghost use Rattle.dav_body.specs.Steps.{Left, told_of, IsNext, IfItem, IfGoesOn};

use crate::Sender;
use futures::task::Poll;
use std::alloc::Global;

/// What gives items one by one, with a value that is lent to each step.
pub trait Steps<X> {
    type Item: Drop;

    type Error: Drop;

    /// The values with which it may be resumed.
    ghost may_resume: { Self → X → Type 0 };

    /// What one step gives, an item, an error or the end, and what it leaves.
    ghost gives: { Self → X → Option (Result Self.Item Self.Error) → Self → X → Type 0 };

    /// All that is still to come, where it says so beforehand.
    ghost tells: { Self → X → Option (Left Self.Item Self.Error) } = { λ _ _. None };

    /// A bound on the number of items to come.
    ghost most: { Self → ℕ };

    /// Whether an error is the end.
    ghost ends_at: { Self.Error → Bool };

    /// Makes one step. It is pending with an item in the slot, and ready at the end or with an error.
    fn resume(
        &mut self,
        alloc: Global,
        tx: &mut Sender<Self::Item, Self::Error>,
        with: &mut X,
    ) -> Poll<Result<(), Self::Error>>
        requires may { may_resume self.old with.old }
        requires empty { tx.old.slot ≡ None }
        ensures gives { gives self.old with.old (told_of tx.new.slot result) self.new with.new }
        ensures tells { IsNext ends_at
            (tells self.old with.old) (told_of tx.new.slot result) (tells self.new with.new) }
        ensures full { OnPending result (IsSome tx.new.slot) }
        ensures may { may_resume self.new with.new }
        ensures fewer { IfItem (told_of tx.new.slot result) (most self.new < most self.old) }
        ensures no_more { most self.new ≤ most self.old }
        ensures same { IfGoesOn ends_at (told_of tx.new.slot result) (most self.new ≡ most self.old) };

    /// Whether this error is the end: nothing more is given after it.
    fn ends(error: &Self::Error) -> bool
        ensures { result ≡ ends_at error.now };
}
