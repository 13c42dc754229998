// A request over a store, or without one: what it finds, and its answer.
ghost use Rattle.std.specs.Prelude.{◌≡◌, IfOk, IfSome, OnErr};
ghost use Rattle.http.specs.Request.{body_of, head_of};
ghost use Rattle.dav_body.specs.Bodies.{MayPoll};
ghost use Rattle.dav_get.specs.Bodies.{IsHeld};
ghost use Rattle.dav_config.specs.Finding.{AnswersBy, StarvesBy, brought, loan_in, request_of};
ghost use Rattle.dav_config.specs.Handling.{HandlesAll, IsAt, Stays, asking, the_served};
ghost use Rattle.dav_config.specs.Owning.{AnswersAlone, AnswersOver, SaysAlone, StarvesAll, StarvesOver};
ghost use Rattle.dav_config.specs.Responses.{inner_of};

use crate::answering::{Answered, bare, refusal, respond};
use crate::asked::{Asked, Content};
use crate::finding::{find, gate};
use dav_io::Moment;
use dav_methods::options;
use dav_model::{Settings, Target};
use dav_store::{BodyReader, GuardedFileSystem};
use http::Request;
use std::alloc::Global;

// Answers a request over a store.
fn handle_store<S: GuardedFileSystem<C>, C, B: BodyReader, X>(
    alloc: Global,
    asked: &Asked<'_, C, X>,
    fs: &mut S,
    content: &mut Content<'_, B>,
) -> Answered<S::File>
    ensures done { IfOk result (λ r. AnswersBy (the_served S.GuardedFileSystem S.File.DavFile)
        (request_of asked.entry.now) (brought B.state content.old) fs.old r fs.new (brought B.state content.new)) }
    ensures memory { OnErr result (StarvesBy (the_served S.GuardedFileSystem S.File.DavFile)
        (request_of asked.entry.now) (brought B.state content.old) fs.old fs.new (brought B.state content.new)) }
    ensures loan { S.view.loan fs.new ≡ S.view.loan fs.old }
    ensures content_loan { loan_in B.loan content.new ≡ loan_in B.loan content.old }
{
    match find(alloc, asked, fs, content) {
        Ok(found) => respond(alloc, fs, found),
        Err(error) => Err(error),
    }
}

// What the gates answer where there is no store: a refusal, or what OPTIONS is told.
fn say_alone<F, C, X>(alloc: Global, asked: &Asked<'_, C, X>, target: &Target) -> Answered<F>
    requires { IsAt target.now → ⊥ }
    ensures { IfOk result (SaysAlone target.now (request_of asked.entry.now)) }
{
    match target {
        Target::Refused { status, close } => refusal(alloc, asked.head.headers(), *status, *close),
        Target::Methods => match options(alloc, asked.settings.allow, true) {
            Ok(outcome) => bare(alloc, outcome),
            Err(error) => Err(error),
        },
        Target::At { .. } | Target::Writes { .. } => {
            unreachable!("without a store nothing passes the gates")
        }
    }
}

// Answers a request without a store.
fn answer_alone<F, C, B: BodyReader, X>(
    alloc: Global,
    asked: &Asked<'_, C, X>,
    content: &mut Content<'_, B>,
) -> Answered<F>
    ensures done { IfOk result (λ r. AnswersAlone (request_of asked.entry.now) (brought B.state content.old) r
        (brought B.state content.new)) }
    ensures content_loan { loan_in B.loan content.new ≡ loan_in B.loan content.old }
{
    match gate(alloc, asked, false, content) {
        Ok(target) => say_alone(alloc, asked, &target),
        Err(error) => Err(error),
    }
}

// Answers a request over a store, or without one.
fn handle_over<S: GuardedFileSystem<C>, C, B: BodyReader, X>(
    alloc: Global,
    asked: &Asked<'_, C, X>,
    store: &mut Option<S>,
    content: &mut Content<'_, B>,
) -> Answered<S::File>
    ensures done { IfOk result (λ r. AnswersOver (the_served S.GuardedFileSystem S.File.DavFile)
        (request_of asked.entry.now) (brought B.state content.old) store.old r store.new
        (brought B.state content.new)) }
    ensures memory { OnErr result (StarvesOver (the_served S.GuardedFileSystem S.File.DavFile)
        (request_of asked.entry.now) (brought B.state content.old) store.old store.new
        (brought B.state content.new)) }
    ensures content_loan { loan_in B.loan content.new ≡ loan_in B.loan content.old }
{
    match store {
        Some(fs) => handle_store(alloc, asked, fs, content),
        None => answer_alone(alloc, asked, content),
    }
}

/// Answers a request, and lets go of its reader.
pub fn handle_by<S: GuardedFileSystem<C>, C, B: BodyReader + Drop>(
    alloc: Global,
    settings: &Settings,
    store: &mut Option<S>,
    credentials: &C,
    req: Request<B>,
    now: Moment,
) -> Answered<S::File>
    ensures done { IfOk result (λ r. HandlesAll (the_served S.GuardedFileSystem S.File.DavFile) B.BodyReader
        (asking settings.now (head_of req) credentials.now now) store.old (body_of req) r store.new) }
    ensures may { IfOk result (λ r. IfSome store.new
        (λ s. MayPoll (λ b d. IsHeld S.File.view (S.Disk.state d) b) (inner_of r) (S.inside s))) }
    ensures memory { OnErr result (Stays (the_served S.GuardedFileSystem S.File.DavFile)
        (asking settings.now (head_of req) credentials.now now) store.old store.new) }
    ensures starves { OnErr result (StarvesAll (the_served S.GuardedFileSystem S.File.DavFile) B.BodyReader
        (asking settings.now (head_of req) credentials.now now) store.old (body_of req) store.new) }
{
    let (parts, reader) = req.into_parts();
    let mut content = Content::Behind(reader);
    let head = Request::from_parts(parts, ());
    let asked = Asked {
        settings,
        head: &head,
        credentials,
        now: Some(now),
    };
    handle_over(alloc, &asked, store, &mut content)
}
