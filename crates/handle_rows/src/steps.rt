//! Steps and a reader that tell nothing.
ghost use Rattle.std.specs.Prelude.{◌≤◌, None, true};

use bytes::Bytes;
use dav_body::{BodyFault, Sender, Steps};
use dav_io::Failed;
use dav_store::BodyReader;
use futures::task::Poll;
use std::alloc::Global;

/// Gives so many digits, the greatest first, and then the end or a break. It counts its steps in what is lent to it.
#[derive(Drop)]
pub struct Digits {
    pub left: u8,
    pub breaks: bool,
    ghost few: { left ≤ 10 },
}

impl Steps<u32> for Digits {
    type Item = Bytes;

    type Error = BodyFault;

    ghost may_resume = { λ _ _. Unit {0} };

    ghost gives = { λ _ _ _ _ _. Unit {0} };

    ghost most = { λ s. s.left };

    ghost ends_at = { λ _. true };

    fn resume(
        &mut self,
        alloc: Global,
        tx: &mut Sender<Bytes, BodyFault>,
        with: &mut u32,
    ) -> Poll<Result<(), BodyFault>> {
        *with = with.saturating_add(1);
        if self.left == 0 {
            if self.breaks {
                return Poll::Ready(Err(BodyFault::Broken));
            }
            return Poll::Ready(Ok(()));
        }
        let digit = [b'0' + (self.left - 1)];
        let Ok(bytes) = Bytes::copy_from_slice(alloc, &digit) else {
            return Poll::Ready(Err(BodyFault::NoMemory));
        };
        self.left -= 1;
        let _ = tx.send(bytes);
        Poll::Pending
    }

    fn ends(_: &BodyFault) -> bool {
        true
    }
}

/// Gives letters, fails at its second call, and is at its end behind its fourth.
#[derive(Drop)]
pub struct Failing {
    pub calls: u64,
    pub ended: bool,
}

impl BodyReader for Failing {
    ghost state = { λ r. record { left = None; ended = r.ended; faults = r.calls } };

    fn next_piece(&mut self) -> Result<Option<Bytes>, Failed> {
        self.calls = self.calls.saturating_add(1);
        if self.calls > 4 {
            self.ended = true;
            return Ok(None);
        }
        if self.calls == 2 {
            return Err(Failed);
        }
        Ok(Some(Bytes::from_static(b"x")))
    }
}
