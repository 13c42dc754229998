ghost use Rattle.std.specs.Prelude.{◌≡◌, [], IfOk, Ok, option_copied};
ghost use Rattle.dav_lock.specs.Tokens.{token_of, is_deep, is_shared, granted, ends_at};

use crate::lease::{end_of, grant};
use crate::token::{read_deep, read_shared, write_token};
use crate::{DavLock, Element, Lease, LockError, Locks};
use dav_core::DavPath;
use dav_io::{Moment, NoMemory, Text};
use std::alloc::Global;
use uuid::Uuid;

/// What keeps the locks of a server. A moment and an id are handed in, and may be used for a new lock.
pub trait DavLockSystem {
    fn lock(
        &self,
        alloc: Global,
        path: &DavPath,
        principal: Option<&str>,
        owner: Option<&Element>,
        timeout: Option<Lease>,
        shared: bool,
        deep: bool,
        now: Moment,
        id: Uuid,
    ) -> Result<DavLock, LockError>;

    fn unlock(&self, path: &DavPath, token: &str) -> Result<(), LockError>;

    fn refresh(
        &self,
        alloc: Global,
        path: &DavPath,
        token: &str,
        timeout: Option<Lease>,
        now: Moment,
    ) -> Result<DavLock, LockError>;

    fn check(
        &self,
        path: &DavPath,
        principal: Option<&str>,
        ignore_principal: bool,
        deep: bool,
        submitted_tokens: &[Text],
    ) -> Result<(), LockError>;

    fn discover(&self, alloc: Global, path: &DavPath) -> Result<Locks, LockError>;

    fn delete(&self, path: &DavPath) -> Result<(), LockError>;
}

/// A lock system that grants each lock and keeps none, for clients that write only where they can lock.
#[derive(Clone, Copy, Debug)]
pub struct FakeLs;

impl FakeLs {
    /// The lock system. It holds nothing.
    pub fn new() -> FakeLs {
        FakeLs
    }
}

impl DavLockSystem for FakeLs {
    /// It never conflicts. A lease of more than 120 whole seconds, or none, is 120 seconds.
    fn lock(
        &self,
        alloc: Global,
        path: &DavPath,
        principal: Option<&str>,
        owner: Option<&Element>,
        timeout: Option<Lease>,
        shared: bool,
        deep: bool,
        now: Moment,
        id: Uuid,
    ) -> Result<DavLock, LockError>
        ensures { IfOk result
            (λ lock. lock
            ≡ record {
              token = token_of id deep shared;
              path = path.now;
              principal = option_copied principal.entry;
              owner = option_copied owner.entry;
              timeout_at = ends_at now (granted timeout);
              timeout = Some (granted timeout);
              shared = shared;
              deep = deep;
            }) }
    {
        let token = write_token(alloc, id, deep, shared)?;
        let path = path.try_clone()?;
        let principal = copy_text(alloc, principal)?;
        let owner = copy_element(owner)?;
        let lease = grant(timeout);
        Ok(DavLock {
            token,
            path,
            principal,
            owner,
            timeout_at: end_of(now, lease),
            timeout: Some(lease),
            shared,
            deep,
        })
    }

    fn unlock(&self, _path: &DavPath, _token: &str) -> Result<(), LockError>
        ensures { result ≡ Ok tt }
    {
        Ok(())
    }

    /// Depth and scope are those that the token tells.
    fn refresh(
        &self,
        alloc: Global,
        path: &DavPath,
        token: &str,
        timeout: Option<Lease>,
        now: Moment,
    ) -> Result<DavLock, LockError>
        ensures { IfOk result
            (λ lock. lock
            ≡ record {
              token = token.now;
              path = path.now;
              principal = None;
              owner = None;
              timeout_at = ends_at now (granted timeout);
              timeout = Some (granted timeout);
              shared = is_shared token.now;
              deep = is_deep token.now;
            }) }
    {
        let deep = read_deep(token);
        let shared = read_shared(token);
        let token = Text::copy(alloc, token)?;
        let path = path.try_clone()?;
        let lease = grant(timeout);
        Ok(DavLock {
            token,
            path,
            principal: None,
            owner: None,
            timeout_at: end_of(now, lease),
            timeout: Some(lease),
            shared,
            deep,
        })
    }

    fn check(
        &self,
        _path: &DavPath,
        _principal: Option<&str>,
        _ignore_principal: bool,
        _deep: bool,
        _submitted_tokens: &[Text],
    ) -> Result<(), LockError>
        ensures { result ≡ Ok tt }
    {
        Ok(())
    }

    fn discover(&self, alloc: Global, _path: &DavPath) -> Result<Locks, LockError>
        ensures { result ≡ Ok [] }
    {
        Ok(Locks::new(Vec::new(alloc)))
    }

    fn delete(&self, _path: &DavPath) -> Result<(), LockError>
        ensures { result ≡ Ok tt }
    {
        Ok(())
    }
}

fn copy_text(alloc: Global, text: Option<&str>) -> Result<Option<Text>, NoMemory>
    ensures { IfOk result (λ copy. copy ≡ option_copied text.entry) }
{
    match text {
        None => Ok(None),
        Some(text) => Ok(Some(Text::copy(alloc, text)?)),
    }
}

fn copy_element(element: Option<&Element>) -> Result<Option<Element>, NoMemory>
    ensures { IfOk result (λ copy. copy ≡ option_copied element.entry) }
{
    match element {
        None => Ok(None),
        Some(element) => Ok(Some(element.try_clone()?)),
    }
}
