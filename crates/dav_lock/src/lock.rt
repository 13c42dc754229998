ghost use Rattle.std.specs.Prelude.{◌≡◌, IfOk};

use crate::{Element, Lease, both, copy_text};
use dav_core::DavPath;
use dav_io::{Moment, NoMemory, Text};
use thiserror::Error;

/// Why a lock system refused a call.
#[derive(Debug, Drop, PartialEq, Error)]
pub enum LockError {
    /// Memory was refused.
    #[error("out of memory")]
    NoMemory,
}

impl From<NoMemory> for LockError {
    fn from(_: NoMemory) -> Self {
        LockError::NoMemory
    }
}

/// A lock on a path (RFC 4918 section 6).
#[derive(Drop)]
pub struct DavLock {
    pub token: Text,
    pub path: DavPath,
    pub principal: Option<Text>,
    pub owner: Option<Element>,
    /// When it ends, where a moment can tell it.
    pub timeout_at: Option<Moment>,
    pub timeout: Option<Lease>,
    pub shared: bool,
    pub deep: bool,
}

impl DavLock {
    /// An equal lock. It may be refused for want of memory.
    pub fn try_clone(&self) -> Result<Self, NoMemory>
        ensures { IfOk result (λ copy. copy ≡ self.now) }
    {
        let place = both(self.token.try_clone(), self.path.try_clone());
        let holder = both(copy_text(&self.principal), copy_owner(&self.owner));
        match both(place, holder) {
            Ok(((token, path), (principal, owner))) => Ok(DavLock {
                token,
                path,
                principal,
                owner,
                timeout_at: self.timeout_at,
                timeout: self.timeout,
                shared: self.shared,
                deep: self.deep,
            }),
            Err(error) => Err(error),
        }
    }
}

fn copy_owner(owner: &Option<Element>) -> Result<Option<Element>, NoMemory>
    ensures { IfOk result (λ copy. copy ≡ owner.now) }
{
    match owner {
        None => Ok(None),
        Some(owner) => Ok(Some(owner.try_clone()?)),
    }
}
