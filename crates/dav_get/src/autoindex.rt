// The page of a directory.
ghost use Rattle.std.specs.Prelude.{◌≡◌, ◌⊎◌, ℕ, [], IfOk, MatchResult, Ok, OnOk, Err, map, not};
ghost use Rattle.std.specs.List.{AllByRecursion};
ghost use Rattle.dav_model.specs.Due.{page_course, query};
ghost use Rattle.dav_model.specs.Head.{is_get as the_is_get};
ghost use Rattle.dav_model.specs.Indexes.{IsIndexReply, page_fields as the_page_fields};
ghost use Rattle.dav_model.specs.Bodies.{read_size_of};
ghost use Rattle.dav_page.specs.Listed.{AreSound, HasPlainName};
ghost use Rattle.dav_store.specs.Leads.{LeadsOn};
ghost use Rattle.dav_store.specs.View.{Stays};
ghost use Rattle.dav_get.specs.declared.part.BodyPart.TheVariants.{Text as TextPart};
ghost use Rattle.dav_get.specs.Lives.{HasMost, OpenOnlyHeld};
ghost use Rattle.dav_get.specs.Right.{reply_at};
ghost use Rattle.dav_get.specs.Table.{ByCourse, GivesPage, IsListing, IsPageBody, Lists, method_for as the_method_for, page_outcome, asked_of};

use crate::asked::Asked;
use crate::body::GetBody;
use crate::buffer::ReadBuffer;
use crate::directories::may_list;
use crate::part::BodyPart;
use crate::prepared::is_get;
use dav_core::{DavError, DavMethod, DavPath, FsError, Member};
use dav_io::{FieldName, Fields, NoMemory, Octets, Text, add_field};
use dav_model::{Outcome, Settings};
use dav_page::index_page;
use dav_store::{GuardedFileSystem, ReadDirMeta, read_members};
use http::{HeaderMap, StatusCode};
use std::alloc::Global;

/// What a GET or HEAD is answered with.
type Given<F> = Result<(Outcome, GetBody<F>), DavError>;

// Lists the directory. To a GET its members are read; a HEAD reads none.
fn list<S: GuardedFileSystem<C>, C>(
    alloc: Global,
    fs: &mut S,
    credentials: &C,
    asked: &Asked<'_>,
) -> Result<Vec<Member>, FsError>
    ensures listed { MatchResult result (λ members. IsListing S.view
        S.listings (the_is_get asked.now.method) credentials.now asked.now.path.now fs.old (Ok members.items) fs.new)
        (λ e. IsListing S.view S.listings (the_is_get asked.now.method) credentials.now
        asked.now.path.now fs.old (Err e) fs.new ⊎ (e ≡ FsError.NoMemory)) }
    ensures leads { LeadsOn S.view S.listings credentials.now fs.old fs.new }
    ensures stays { Stays S.view fs.old fs.new }
{
    if is_get(asked.method) {
        return read_members(alloc, fs, asked.path, credentials);
    }
    match fs.read_dir(asked.path, ReadDirMeta::Data, credentials) {
        Ok(dir) => {
            fs.end_dir(dir);
            Ok(Vec::new(alloc))
        }
        Err(error) => Err(error),
    }
}

// The fields of a page's answer.
fn page_fields(alloc: Global) -> Result<Fields, NoMemory>
    ensures { IfOk result (λ fields. fields ≡ the_page_fields) }
{
    let mut fields = Vec::new(alloc);
    add_field(
        &mut fields,
        Text::known(FieldName::ContentType),
        b"text/html; charset=utf-8",
    )?;
    Ok(Fields::new(fields))
}

// The parts of a body of these texts. Each is moved.
fn text_parts(alloc: Global, texts: Vec<Octets>) -> Result<Vec<BodyPart>, NoMemory>
    ensures { IfOk result (λ parts. parts.items ≡ map TextPart texts.items) }
{
    let mut parts = Vec::with_capacity(alloc, texts.len())?;
    for text in texts {
        parts.push(BodyPart::Text(text))?;
    }
    Ok(parts)
}

// The body of a page. HEAD has none.
fn page_body<F>(
    alloc: Global,
    asked: &Asked<'_>,
    members: Vec<Member>,
) -> Result<GetBody<F>, NoMemory>
    requires plain { AllByRecursion HasPlainName members.items }
    ensures { IfOk result (IsPageBody (the_is_get asked.now.method) asked.now.path.now members.items) }
{
    if !is_get(asked.method) {
        return Ok(GetBody::new(Vec::new(alloc), None, ReadBuffer::none(alloc)));
    }
    let texts = index_page(alloc, asked.path, members)?;
    let parts = text_parts(alloc, texts)?;
    Ok(GetBody::new(parts, None, ReadBuffer::none(alloc)))
}

// The answer with the page of a directory with these members.
fn page<F>(
    alloc: Global,
    asked: &Asked<'_>,
    members: Vec<Member>,
) -> Result<(Outcome, GetBody<F>), NoMemory>
    requires plain { AllByRecursion HasPlainName members.items }
    ensures outcome { IfOk result (λ answer. answer.0 ≡ page_outcome) }
    ensures body { IfOk result (λ answer. IsPageBody (the_is_get asked.now.method) asked.now.path.now members.items
        answer.1) }
{
    let fields = page_fields(alloc)?;
    let body = page_body(alloc, asked, members)?;
    let outcome = Outcome {
        status: 200,
        fields,
    };
    Ok((outcome, body))
}

// Gives the page of a directory with these members.
fn give_page<F>(alloc: Global, asked: &Asked<'_>, members: Vec<Member>) -> Given<F>
    requires plain { AllByRecursion HasPlainName members.items }
    ensures { GivesPage (asked_of asked.now) members.items result ⊎ (result ≡ Err DavError.NoMemory) }
{
    match page(alloc, asked, members) {
        Ok(answer) => Ok(answer),
        Err(_) => Err(DavError::NoMemory),
    }
}

// Lists the directory that is asked for, and gives its page.
fn list_page<S: GuardedFileSystem<C>, C>(
    alloc: Global,
    fs: &mut S,
    credentials: &C,
    asked: &Asked<'_>,
) -> Given<S::File>
    ensures table { Lists S.view S.listings (asked_of asked.now) credentials.now fs.old result fs.new
        ⊎ (result ≡ Err DavError.NoMemory) }
    ensures leads { LeadsOn S.view S.listings credentials.now fs.old fs.new }
    ensures life { OpenOnlyHeld S.view fs.old result fs.new }
    ensures most { HasMost (read_size_of asked.now.settings.now.read_buf_size) result }
    ensures loan { S.view.loan fs.new ≡ S.view.loan fs.old }
{
    match list(alloc, fs, credentials, asked) {
        Ok(members) => give_page(alloc, asked, members),
        Err(error) => Err(DavError::from(error)),
    }
}

/// Answers for a directory of which a page is asked.
pub(crate) fn get_page<S: GuardedFileSystem<C>, C>(
    alloc: Global,
    fs: &mut S,
    credentials: &C,
    asked: &Asked<'_>,
) -> Given<S::File>
    ensures table { ByCourse S.view S.listings (page_course asked.now.settings.now) (asked_of asked.now)
        credentials.now fs.old result fs.new ⊎ (result ≡ Err DavError.NoMemory) }
    ensures leads { LeadsOn S.view S.listings credentials.now fs.old fs.new }
    ensures life { OpenOnlyHeld S.view fs.old result fs.new }
    ensures most { HasMost (read_size_of asked.now.settings.now.read_buf_size) result }
    ensures loan { S.view.loan fs.new ≡ S.view.loan fs.old }
{
    if may_list(asked.settings) {
        return list_page(alloc, fs, credentials, asked);
    }
    Err(DavError::StatusClose(StatusCode::METHOD_NOT_ALLOWED))
}

// The method of which a page is asked.
fn method_for(head: bool) -> DavMethod
    ensures { result ≡ the_method_for head }
{
    if head {
        return DavMethod::Head;
    }
    DavMethod::Get
}

/// Lists the directory at the path, and gives its page: status 200, its type, and to a GET the texts of the page, of
/// the members whose metadata the store gives, up to the end of the listing or a fault. Where `head` is set, no entry
/// is read and no text given. The listing is ended, and nothing is left open. An error is 405 with a close where the
/// settings permit no page, or the store's refusal.
///
/// `table` tells which call of the store gave the answer. `page` says that the texts, joined, are a page of this
/// directory whose rows are those of some members with plain names, in order, whatever the store says.
pub fn handle_autoindex<S: GuardedFileSystem<C>, C>(
    alloc: Global,
    settings: &Settings,
    fs: &mut S,
    credentials: &C,
    path: &DavPath,
    head: bool,
) -> Given<S::File>
    ensures table { ByCourse S.view S.listings (page_course settings.now) (query settings.now
        [] (the_method_for head) path.now) credentials.now fs.old result fs.new ⊎ (result ≡ Err DavError.NoMemory) }
    ensures page { (number : ℕ) → OnOk result (IsIndexReply (not head) path.now (AreSound path.now)
        (reply_at [] number result)) }
    ensures leads { LeadsOn S.view S.listings credentials.now fs.old fs.new }
    ensures life { OpenOnlyHeld S.view fs.old result fs.new }
    ensures loan { S.view.loan fs.new ≡ S.view.loan fs.old }
{
    let fields = HeaderMap::new(alloc);
    let asked = Asked {
        settings,
        method: method_for(head),
        path,
        fields: &fields,
    };
    get_page(alloc, fs, credentials, &asked)
}
