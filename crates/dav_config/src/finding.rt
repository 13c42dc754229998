// What a request finds over a store: the one way of a handler and of a player.
ghost use Rattle.std.specs.Prelude.{◌≡◌, IfOk, None, false, not};
ghost use Rattle.http.specs.Request.{head_of};
ghost use Rattle.dav_core.specs.Statuses.{closes, lacks_memory as the_lacks_memory, status_of};
ghost use Rattle.dav_model.specs.Allowing.{allowing};
ghost use Rattle.dav_model.specs.Due.{query};
ghost use Rattle.dav_model.specs.Gates.{takes_much as the_takes_much};
ghost use Rattle.dav_model.specs.Head.{refusal as the_refusal};
ghost use Rattle.dav_config.specs.Handling.{IsWritten, the_served};
ghost use Rattle.dav_config.specs.Reading.{seen_as};
ghost use Rattle.dav_config.specs.Finding.{FindsAt, FindsFor, IsAlone, IsGated, SeesBulk, Serves, Settles, brought, loan_in, request_of, settled};

use crate::asked::{Asked, Content};
use crate::bulk::{BodyBulk, bulk_of, read_bulk};
use crate::gates::{admitted, takes_much, weighed};
use crate::refusals::{refused, refused_by};
use crate::writing::write_over;
use dav_core::{DavError, DavMethod, DavMethodSet, DavPath};
use dav_get::{GetBody, handle_get};
use dav_io::{Moment, NoMemory};
use dav_methods::options;
use dav_model::{Outcome, Target};
use dav_store::{BodyReader, GuardedFileSystem};
use http::HeaderMap;
use std::alloc::Global;

/// What a request finds: a status, header fields, and the body that a GET or HEAD gave.
#[derive(Drop)]
pub struct Found<F> {
    pub outcome: Outcome,
    pub body: Option<GetBody<F>>,
}

// An answer without a body.
pub fn alone<F>(outcome: Outcome) -> Found<F>
    ensures outcome { result.outcome ≡ outcome }
    ensures body { result.body ≡ None }
{
    Found {
        outcome,
        body: None,
    }
}

// A refusal of a request with these fields: a status, and the connection closes where `close` is set.
fn refusal<F>(
    alloc: Global,
    fields: &HeaderMap,
    status: u16,
    close: bool,
) -> Result<Found<F>, NoMemory>
    ensures { IfOk result (IsAlone (the_refusal fields.now status close)) }
{
    match refused(alloc, fields, status, close) {
        Ok(outcome) => Ok(alone(outcome)),
        Err(error) => Err(error),
    }
}

// What OPTIONS is told over a store.
fn methods<F>(alloc: Global, allow: Option<DavMethodSet>, void: bool) -> Result<Found<F>, NoMemory>
    ensures { IfOk result (IsAlone (allowing allow void)) }
{
    match options(alloc, allow, void) {
        Ok(outcome) => Ok(alone(outcome)),
        Err(error) => Err(error),
    }
}

// What an error is answered with. Want of memory is no answer.
pub fn refuse<F>(alloc: Global, fields: &HeaderMap, error: DavError) -> Result<Found<F>, NoMemory>
    ensures refused { IfOk result (IsAlone (the_refusal fields.now (status_of error) (closes error))) }
    ensures memory { IfOk result (λ _. the_lacks_memory error ≡ false) }
{
    match refused_by(alloc, fields, error) {
        Ok(outcome) => Ok(alone(outcome)),
        Err(error) => Err(error),
    }
}

// What the gates see of a body: nothing where its method reads it from a reader.
fn bulk_in<B: BodyReader>(method: DavMethod, content: &mut Content<'_, B>) -> BodyBulk
    ensures sees { SeesBulk (the_takes_much method) (brought B.state content.old) (seen_as result)
        (brought B.state content.new) }
    ensures loan { loan_in B.loan content.new ≡ loan_in B.loan content.old }
{
    match content {
        Content::Whole(bytes) => bulk_of(bytes),
        Content::Behind(body) => {
            if takes_much(method) {
                return BodyBulk::Nothing;
            }
            read_bulk(body)
        }
    }
}

/// What a request asks for. A body behind a reader is read where the gates of its head let it pass.
pub fn gate<B: BodyReader, C, X>(
    alloc: Global,
    asked: &Asked<'_, C, X>,
    stored: bool,
    content: &mut Content<'_, B>,
) -> Result<Target, NoMemory>
    ensures done { IfOk result (λ target. IsGated (request_of asked.entry.now) stored (brought B.state content.old)
        target (brought B.state content.new)) }
    ensures loan { loan_in B.loan content.new ≡ loan_in B.loan content.old }
{
    match admitted(alloc, asked.settings, stored, asked.head) {
        Ok(Target::At { method, path }) => {
            let bulk = bulk_in(method, content);
            Ok(weighed(asked.head.headers(), bulk, Target::At { method, path }))
        }
        Ok(Target::Methods) => Ok(Target::Methods),
        Ok(Target::Writes { method, path }) => Ok(Target::Writes { method, path }),
        Ok(Target::Refused { status, close }) => Ok(Target::Refused { status, close }),
        Err(error) => Err(error),
    }
}

// What stands at a path, by GET or HEAD.
fn find_at<S: GuardedFileSystem<C>, C, X>(
    alloc: Global,
    asked: &Asked<'_, C, X>,
    fs: &mut S,
    method: DavMethod,
    path: &DavPath,
) -> Result<Found<S::File>, NoMemory>
    ensures done { FindsAt (the_served S.GuardedFileSystem S.File.DavFile) (query asked.entry.now.settings.now
        (head_of asked.entry.now.head.now).headers method path.now) asked.entry.now.credentials.now
        fs.old result fs.new }
    ensures loan { S.view.loan fs.new ≡ S.view.loan fs.old }
{
    let fields = asked.head.headers();
    match handle_get(
        alloc,
        asked.settings,
        fs,
        asked.credentials,
        method,
        path,
        fields,
    ) {
        Ok(given) => {
            let (outcome, body) = given;
            Ok(Found {
                outcome,
                body: Some(body),
            })
        }
        Err(error) => refuse(alloc, fields, error),
    }
}

// Sets a moment, if there is one to be set.
fn settle<S: GuardedFileSystem<C>, C>(fs: &mut S, now: Option<Moment>)
    ensures done { fs.new ≡ settled (the_served S.GuardedFileSystem S.File.DavFile) now fs.old }
    ensures moment { Settles (the_served S.GuardedFileSystem S.File.DavFile) now fs.old }
    ensures loan { S.view.loan fs.new ≡ S.view.loan fs.old }
{
    if let Some(moment) = now {
        fs.set_now(moment);
    }
}

// What is found by what is asked for.
fn find_for<S: GuardedFileSystem<C>, C, B: BodyReader, X>(
    alloc: Global,
    asked: &Asked<'_, C, X>,
    fs: &mut S,
    content: &mut Content<'_, B>,
    target: &Target,
) -> Result<Found<S::File>, NoMemory>
    requires writes { IsWritten target.now (head_of asked.now.head.now) }
    ensures done { FindsFor (the_served S.GuardedFileSystem S.File.DavFile) target.now (request_of asked.entry.now)
        (brought B.state content.old) fs.old result fs.new (brought B.state content.new) }
    ensures loan { S.view.loan fs.new ≡ S.view.loan fs.old }
    ensures content_loan { loan_in B.loan content.new ≡ loan_in B.loan content.old }
{
    match target {
        Target::At { method, path } => {
            settle(fs, asked.now);
            find_at(alloc, asked, fs, *method, path)
        }
        Target::Writes { method, path } => {
            settle(fs, asked.now);
            write_over(alloc, asked, fs, *method, path, content)
        }
        Target::Methods => methods(alloc, asked.settings.allow, fs.is_void()),
        Target::Refused { status, close } => refusal(alloc, asked.head.headers(), *status, *close),
    }
}

/// What a request finds over a store: the gates of a store that does something or that is void, and then what its
/// method finds or makes. Between them the moment is set, if there is one to be set. The body of a GET or HEAD is given
/// as it is, its file open.
pub fn find<S: GuardedFileSystem<C>, C, B: BodyReader, X>(
    alloc: Global,
    asked: &Asked<'_, C, X>,
    fs: &mut S,
    content: &mut Content<'_, B>,
) -> Result<Found<S::File>, NoMemory>
    ensures done { Serves (the_served S.GuardedFileSystem S.File.DavFile) (request_of asked.entry.now)
        (brought B.state content.old) fs.old result fs.new (brought B.state content.new) }
    ensures loan { S.view.loan fs.new ≡ S.view.loan fs.old }
    ensures content_loan { loan_in B.loan content.new ≡ loan_in B.loan content.old }
{
    match gate(alloc, asked, !fs.is_void(), content) {
        Ok(target) => find_for(alloc, asked, fs, content, &target),
        Err(error) => Err(error),
    }
}
