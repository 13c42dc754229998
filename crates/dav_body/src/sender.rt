ghost use Rattle.std.specs.Prelude.{◌≡◌, None, IfSome, IsSome, true, false, if◌then◌else◌};

use futures::task::Poll;
use std::marker::PhantomData;

/// One slot for an item, which a step fills.
#[derive(Drop)]
pub struct Sender<I, E> {
    slot: Option<I>,
    error: PhantomData<E>,
}

impl<I: Drop, E> Sender<I, E> {
    /// An empty slot.
    pub fn new() -> Self
        ensures { result.slot ≡ None }
    {
        Sender {
            slot: None,
            error: PhantomData,
        }
    }

    /// Puts an item into the slot. An item that was there is replaced.
    pub fn send<T: Into<I>>(&mut self, item: T) -> SenderFuture
        ensures item { IfSome self.new.slot (T.converts item) }
        ensures full { IsSome self.new.slot }
        ensures waits { result.sent ≡ false }
    {
        self.slot = Some(item.into());
        SenderFuture { sent: false }
    }

    /// Takes the item out of the slot.
    pub fn take(&mut self) -> Option<I>
        ensures item { result ≡ self.old.slot }
        ensures empty { self.new.slot ≡ None }
    {
        self.slot.take()
    }
}

/// Waits until an item was taken: it is pending once, and then ready.
#[derive(Drop)]
pub struct SenderFuture {
    sent: bool,
}

impl SenderFuture {
    /// Pending at the first call, and ready at each later one.
    pub fn poll(&mut self) -> Poll<()>
        ensures ready { result ≡ if self.old.sent then Poll.Ready tt else Poll.Pending }
        ensures sent { self.new.sent ≡ true }
    {
        if self.sent {
            return Poll::Ready(());
        }
        self.sent = true;
        Poll::Pending
    }
}
