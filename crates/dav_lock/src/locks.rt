ghost use Rattle.std.specs.Prelude.{◌≡◌, [], IfOk};

use crate::DavLock;
use dav_io::NoMemory;
use std::alloc::Global;
use std::marker::Model;

/// Locks, in their order. A contract sees their list.
#[derive(Drop)]
pub struct Locks {
    locks: Vec<DavLock>,
}

impl Model for Locks {
    ghost use Rattle.std.specs.Prelude.{List};
    ghost use Rattle.dav_lock.specs.declared.lock.DavLock.{DavLock};
    ghost use Rattle.std.specs.Coded.{codes};
    ghost use Rattle.dav_lock.specs.ForestCodes.{forest_code};

    ghost Value = { List DavLock };

    ghost coded = { Prim.hlevel (codes, forest_code) };

    ghost view = { λ l. l.locks.items };
}

impl Locks {
    /// These locks, in this order.
    pub fn new(locks: Vec<DavLock>) -> Self
        ensures { result ≡ locks.items }
    {
        Locks { locks }
    }

    /// The locks in their order.
    pub fn as_slice(&self) -> &[DavLock]
        ensures { result.now ≡ self.now }
    {
        self.locks.as_slice()
    }

    /// An equal list of equal locks. It may be refused for want of memory.
    pub fn try_clone(&self) -> Result<Self, NoMemory>
        ensures { IfOk result (λ copy. copy ≡ self.now) }
    {
        let alloc: Global = *self.locks.allocator();
        let mut locks = Vec::new(alloc);
        for lock in self.as_slice() {
            locks.push(lock.try_clone()?)?;
        }
        Ok(Locks { locks })
    }
}
