//! GET and HEAD over a store. There is one function for each line of the table from which a file is in hand, so that a
//! file that was opened is always closed or given to a body.
ghost use Rattle.std.specs.Prelude.{◌≡◌, ◌<◌, ◌⊎◌, ℕ, Bool, List, true, false, IsSome, Some, Result, Ok, Err};
ghost use Rattle.dav_core.specs.declared.error.FsError.{FsError};
ghost use Rattle.dav_core.specs.declared.member.Member.{Member};
ghost use Rattle.dav_core.specs.DavPath.{WebPath};
ghost use Rattle.dav_core.specs.Disk.{can_read, Live};
ghost use Rattle.dav_core.specs.Writing.{reading};
ghost use Rattle.dav_model.specs.declared.sent.Sent.TheVariants.{Unsatisfied};
ghost use Rattle.dav_model.specs.declared.target.Target.TheVariants.{At};
ghost use Rattle.dav_model.specs.Announced.{HasSoundBody, IsFramed};
ghost use Rattle.dav_model.specs.Calls.{AsksUnlessKnown, AtMostUnlessKnown, calls_to_send};
ghost use Rattle.dav_model.specs.Due.{dir_course, index_course, query};
ghost use Rattle.dav_model.specs.Head.{is_set, is_well_known as the_is_well_known};
ghost use Rattle.dav_model.specs.Bodies.{read_size_of};
ghost use Rattle.dav_store.specs.Leads.{LeadsOn};
ghost use Rattle.dav_store.specs.Standing.{Seen, Standing};
ghost use Rattle.dav_store.specs.View.{Closes};
ghost use Rattle.dav_get.specs.Calls.{AsksAtMostFor, AsksFor, fields_given, status_given};
ghost use Rattle.dav_get.specs.Heard.{Heard};
ghost use Rattle.dav_get.specs.Lives.{HasOpened, HeldOrClosed, HasMost, OpenOnlyHeld};
ghost use Rattle.dav_get.specs.OpenFiles.{IsAt};
ghost use Rattle.dav_get.specs.Prepared.{AreReady, IsSentOf};
ghost use Rattle.dav_get.specs.Right.{reply_at};
ghost use Rattle.dav_get.specs.Table.{ByCourse, ByRedirect, ByWellKnown, Gets, GetsFile, GivesBody, Holds, IsEmpty, Opens, Redirects, Sends, SendsAway, SendsFile, SendsFrom, asked_of};
ghost use Rattle.dav_get.specs.Told.{IsRightFor, ShowsFor};

use crate::asked::Asked;
use crate::autoindex::get_page;
use crate::body::GetBody;
use crate::buffer::ReadBuffer;
use crate::deciding::{decide, first_place};
use crate::directories::{directed, index_path};
use crate::headers::{redirected_fields, well_known_fields};
use crate::open_at::OpenAt;
use crate::prepared::{Prepared, is_get, prepare, prepare_unsatisfied};
use dav_core::{DavError, DavMetaData, DavMethod, DavPath, FsError, OpenOptions, is_plain};
use dav_io::Text;
use dav_model::{Outcome, Sent, Settings};
use dav_store::{DavFile, GuardedFileSystem, file_close, file_metadata, file_seek};
use http::{HeaderMap, StatusCode};
use std::alloc::Global;

/// What a GET or HEAD is answered with.
type Given<F> = Result<(Outcome, GetBody<F>), DavError>;

// Closes the file, and answers this error.
fn give_up<S: GuardedFileSystem<C>, C>(fs: &mut S, file: S::File, error: DavError) -> Given<S::File>
    requires { IsSome ((S.view.state fs.old).live (S.view.file.handle file)) }
    ensures closed { Closes S.view fs.old file fs.new }
    ensures error { result ≡ Err error }
    ensures life { HeldOrClosed S.view (S.view.file.handle file) fs.old result fs.new }
    ensures loan { S.view.loan fs.new ≡ S.view.loan fs.old }
    ensures store { S.view.lends fs.old fs.new }
{
    file_close(fs, file);
    Err(error)
}

// Closes the file, and answers without a body.
fn answer_alone<S: GuardedFileSystem<C>, C>(
    alloc: Global,
    fs: &mut S,
    file: S::File,
    outcome: Outcome,
) -> Given<S::File>
    requires { IsSome ((S.view.state fs.old).live (S.view.file.handle file)) }
    ensures closed { Closes S.view fs.old file fs.new }
    ensures given { GivesBody (λ answer. (answer.0 ≡ outcome) × IsEmpty answer.1) result }
    ensures life { HeldOrClosed S.view (S.view.file.handle file) fs.old result fs.new }
    ensures loan { S.view.loan fs.new ≡ S.view.loan fs.old }
    ensures store { S.view.lends fs.old fs.new }
{
    file_close(fs, file);
    Ok((
        outcome,
        GetBody::new(Vec::new(alloc), None, ReadBuffer::none(alloc)),
    ))
}

// Gives the parts that were made ready over the file; where there are none, the file is closed.
fn hold<S: GuardedFileSystem<C>, C>(
    fs: &mut S,
    held: OpenAt<S::File>,
    prepared: Prepared,
    size: usize,
) -> (Outcome, GetBody<S::File>)
    requires at { IsAt S.view.file (S.view.state fs.old) held }
    requires some { 0 < size }
    requires ready { AreReady size prepared.parts.items prepared.buffer }
    ensures outcome { result.0 ≡ prepared.outcome }
    ensures holds { Holds S.view prepared.parts.items held fs.old result.1 fs.new }
    ensures life { HeldOrClosed S.view (S.view.file.handle held.file) fs.old (Ok result) fs.new }
    ensures most { HasMost size (Ok result) }
    ensures loan { S.view.loan fs.new ≡ S.view.loan fs.old }
    ensures store { S.view.lends fs.old fs.new }
{
    let Prepared {
        outcome,
        parts,
        buffer,
    } = prepared;
    if parts.is_empty() {
        file_close(fs, held.file);
        return (outcome, GetBody::new(parts, None, buffer));
    }
    (outcome, GetBody::new(parts, Some(held), buffer))
}

// Sends this of the file, which stands at its place.
fn send<S: GuardedFileSystem<C>, C>(
    alloc: Global,
    fs: &mut S,
    held: OpenAt<S::File>,
    asked: &Asked<'_>,
    meta: &S::Meta,
    sent: &Sent,
) -> Given<S::File>
    requires at { IsAt S.view.file (S.view.state fs.old) held }
    requires within { IsSentOf (S.Meta.info meta.now).len sent.now }
    ensures table { GivesBody (λ answer. Sends S.view (asked_of asked.now)
        (S.Meta.info meta.now) sent.now held fs.old answer fs.new) result ⊎ (result ≡ Err DavError.NoMemory) }
    ensures life { HeldOrClosed S.view (S.view.file.handle held.file) fs.old result fs.new }
    ensures most { HasMost (read_size_of asked.now.settings.now.read_buf_size) result }
    ensures loan { S.view.loan fs.new ≡ S.view.loan fs.old }
    ensures store { S.view.lends fs.old fs.new }
{
    match prepare(alloc, asked.settings, asked.method, asked.path, meta, sent) {
        Ok(prepared) => Ok(hold(fs, held, prepared, asked.settings.read_size())),
        Err(_) => give_up(fs, held.file, DavError::NoMemory),
    }
}

// Sends this of the file, which is moved to the first part before. Where it can't be moved there, no range could be
// met.
fn send_from<S: GuardedFileSystem<C>, C>(
    alloc: Global,
    fs: &mut S,
    file: S::File,
    asked: &Asked<'_>,
    meta: &S::Meta,
    sent: &Sent,
) -> Given<S::File>
    requires live { can_read ((S.view.state fs.old).live (S.view.file.handle file)) ≡ true }
    requires place { (f : Seen) → S.view.file.seen file (S.view.state fs.old) ≡ Some f → f.place ≡ 0 }
    requires within { IsSentOf (S.Meta.info meta.now).len sent.now }
    requires reads_from { S.view.file.reads_from file (S.view.state fs.old) }
    ensures table { GivesBody (λ answer. SendsFrom S.view (asked_of asked.now)
        (S.Meta.info meta.now) sent.now file fs.old answer fs.new) result ⊎ (result ≡ Err DavError.NoMemory) }
    ensures life { HeldOrClosed S.view (S.view.file.handle file) fs.old result fs.new }
    ensures most { HasMost (read_size_of asked.now.settings.now.read_buf_size) result }
    ensures loan { S.view.loan fs.new ≡ S.view.loan fs.old }
    ensures store { S.view.lends fs.old fs.new }
{
    let Some(start) = first_place(sent) else {
        return send(alloc, fs, OpenAt { file, place: 0 }, asked, meta, sent);
    };
    let mut file = file;
    match file_seek(fs, &mut file, start) {
        Ok(_) => send(alloc, fs, OpenAt { file, place: start }, asked, meta, sent),
        Err(_) => send_unplaced(alloc, fs, OpenAt { file, place: start }, asked, meta),
    }
}

// No range could be met, as the file couldn't be moved to the first.
fn send_unplaced<S: GuardedFileSystem<C>, C>(
    alloc: Global,
    fs: &mut S,
    held: OpenAt<S::File>,
    asked: &Asked<'_>,
    meta: &S::Meta,
) -> Given<S::File>
    requires { IsSome ((S.view.state fs.old).live (S.view.file.handle held.file)) }
    ensures table { GivesBody (λ answer. Sends S.view (asked_of asked.now)
        (S.Meta.info meta.now) Unsatisfied held fs.old answer fs.new) result ⊎ (result ≡ Err DavError.NoMemory) }
    ensures life { HeldOrClosed S.view (S.view.file.handle held.file) fs.old result fs.new }
    ensures most { HasMost (read_size_of asked.now.settings.now.read_buf_size) result }
    ensures loan { S.view.loan fs.new ≡ S.view.loan fs.old }
    ensures store { S.view.lends fs.old fs.new }
{
    match prepare_unsatisfied(alloc, asked.method, asked.path, meta) {
        Ok(outcome) => answer_alone(alloc, fs, held.file, outcome),
        Err(_) => give_up(fs, held.file, DavError::NoMemory),
    }
}

// Asks the file for the address to which it sends a client.
fn file_redirect<S: GuardedFileSystem<C>, C>(
    alloc: Global,
    fs: &mut S,
    file: &mut S::File,
) -> Result<Option<Text>, FsError>
    requires { IsSome ((S.view.state fs.old).live (S.view.file.handle file.old)) }
    ensures { Redirects S.view fs.old file.old result fs.new file.new }
{
    file.redirect_url(alloc, fs.disk())
}

// Sends of a regular file what its metadata and the fields of the request call for.
fn send_file<S: GuardedFileSystem<C>, C>(
    alloc: Global,
    fs: &mut S,
    file: S::File,
    asked: &Asked<'_>,
    meta: &S::Meta,
) -> Given<S::File>
    requires live { can_read ((S.view.state fs.old).live (S.view.file.handle file)) ≡ true }
    requires place { (f : Seen) → S.view.file.seen file (S.view.state fs.old) ≡ Some f → f.place ≡ 0 }
    requires reads_from { S.view.file.reads_from file (S.view.state fs.old) }
    ensures table { SendsFile S.view (asked_of asked.now) (S.Meta.info meta.now) file fs.old result fs.new
        ⊎ (result ≡ Err DavError.NoMemory) }
    ensures life { HeldOrClosed S.view (S.view.file.handle file) fs.old result fs.new }
    ensures most { HasMost (read_size_of asked.now.settings.now.read_buf_size) result }
    ensures loan { S.view.loan fs.new ≡ S.view.loan fs.old }
    ensures store { S.view.lends fs.old fs.new }
{
    match decide(alloc, asked.method, asked.fields, meta) {
        Ok(sent) => send_from(alloc, fs, file, asked, meta, &sent),
        Err(_) => give_up(fs, file, DavError::NoMemory),
    }
}

// Sends the client to another address.
fn send_away<S: GuardedFileSystem<C>, C>(
    alloc: Global,
    fs: &mut S,
    file: S::File,
    meta: &S::Meta,
    address: &Text,
) -> Given<S::File>
    requires { IsSome ((S.view.state fs.old).live (S.view.file.handle file)) }
    ensures table { SendsAway S.view (S.Meta.info meta.now) address.now file fs.old result fs.new
        ⊎ (result ≡ Err DavError.NoMemory) }
    ensures life { HeldOrClosed S.view (S.view.file.handle file) fs.old result fs.new }
    ensures loan { S.view.loan fs.new ≡ S.view.loan fs.old }
    ensures store { S.view.lends fs.old fs.new }
{
    match redirected_fields(alloc, address, meta) {
        Ok(fields) => {
            let outcome = Outcome {
                status: 302,
                fields,
            };
            answer_alone(alloc, fs, file, outcome)
        }
        Err(_) => give_up(fs, file, DavError::NoMemory),
    }
}

// Gives a regular file that was opened, or the address to which it sends a client.
fn give_file<S: GuardedFileSystem<C>, C>(
    alloc: Global,
    fs: &mut S,
    file: S::File,
    asked: &Asked<'_>,
    meta: &S::Meta,
) -> Given<S::File>
    requires live { can_read ((S.view.state fs.old).live (S.view.file.handle file)) ≡ true }
    requires place { (f : Seen) → S.view.file.seen file (S.view.state fs.old) ≡ Some f → f.place ≡ 0 }
    requires reads_from { S.view.file.reads_from file (S.view.state fs.old) }
    ensures table { ByRedirect S.view (is_set asked.now.settings.now.redirect)
        (asked_of asked.now) (S.Meta.info meta.now) file fs.old result fs.new ⊎ (result ≡ Err DavError.NoMemory) }
    ensures life { HeldOrClosed S.view (S.view.file.handle file) fs.old result fs.new }
    ensures most { HasMost (read_size_of asked.now.settings.now.read_buf_size) result }
    ensures loan { S.view.loan fs.new ≡ S.view.loan fs.old }
    ensures store { S.view.lends fs.old fs.new }
{
    if !is_on(asked.settings.redirect) {
        return send_file(alloc, fs, file, asked, meta);
    }
    let mut file = file;
    match file_redirect(alloc, fs, &mut file) {
        Ok(Some(address)) => send_away(alloc, fs, file, meta, &address),
        Ok(None) => send_file(alloc, fs, file, asked, meta),
        Err(error) => give_up(fs, file, DavError::from(error)),
    }
}

// Whether something is set, and set to yes.
fn is_on(setting: Option<bool>) -> bool
    ensures { result ≡ is_set setting }
{
    match setting {
        Some(on) => on,
        None => false,
    }
}

// Looks at a file that was opened, and gives it where it is a regular one.
fn get_file<S: GuardedFileSystem<C>, C>(
    alloc: Global,
    fs: &mut S,
    file: S::File,
    asked: &Asked<'_>,
) -> Given<S::File>
    requires live { IsSome ((S.view.state fs.old).live (S.view.file.handle file)) }
    requires reads { (l : Live) → (S.view.state fs.old).live (S.view.file.handle file) ≡ Some l → l.how ≡ reading }
    requires place { (f : Seen) → S.view.file.seen file (S.view.state fs.old) ≡ Some f → f.place ≡ 0 }
    requires reads_from { S.view.file.reads_from file (S.view.state fs.old) }
    ensures table { GetsFile S.view (asked_of asked.now) file fs.old result fs.new ⊎ (result ≡ Err DavError.NoMemory) }
    ensures life { HeldOrClosed S.view (S.view.file.handle file) fs.old result fs.new }
    ensures most { HasMost (read_size_of asked.now.settings.now.read_buf_size) result }
    ensures loan { S.view.loan fs.new ≡ S.view.loan fs.old }
    ensures store { S.view.lends fs.old fs.new }
{
    let mut file = file;
    match file_metadata(fs, &mut file) {
        Ok(meta) => {
            if meta.is_file() {
                return give_file(alloc, fs, file, asked, &meta);
            }
            give_up(fs, file, DavError::Status(StatusCode::METHOD_NOT_ALLOWED))
        }
        Err(error) => give_up(fs, file, DavError::from(error)),
    }
}

// Opens what is at the path, and gives it.
fn open_file<S: GuardedFileSystem<C>, C>(
    alloc: Global,
    fs: &mut S,
    credentials: &C,
    asked: &Asked<'_>,
) -> Given<S::File>
    ensures table { Opens S.view (asked_of asked.now) credentials.now fs.old result fs.new }
    ensures leads { LeadsOn S.view S.listings credentials.now fs.old fs.new }
    ensures life { OpenOnlyHeld S.view fs.old result fs.new }
    ensures most { HasMost (read_size_of asked.now.settings.now.read_buf_size) result }
    ensures loan { S.view.loan fs.new ≡ S.view.loan fs.old }
{
    match fs.open(asked.path, OpenOptions::read(), credentials) {
        Ok(file) => get_file(alloc, fs, file, asked),
        Err(error) => Err(DavError::from(error)),
    }
}

// Gives the index file of a directory in its place. Under a name that isn't plain none stands.
fn get_index<S: GuardedFileSystem<C>, C>(
    alloc: Global,
    fs: &mut S,
    credentials: &C,
    asked: &Asked<'_>,
    name: &Text,
) -> Given<S::File>
    ensures table { ByCourse S.view S.listings (index_course (asked_of asked.now) (Some name.now))
        (asked_of asked.now) credentials.now fs.old result fs.new ⊎ (result ≡ Err DavError.NoMemory) }
    ensures leads { LeadsOn S.view S.listings credentials.now fs.old fs.new }
    ensures life { OpenOnlyHeld S.view fs.old result fs.new }
    ensures most { HasMost (read_size_of asked.now.settings.now.read_buf_size) result }
    ensures loan { S.view.loan fs.new ≡ S.view.loan fs.old }
{
    if !is_plain(name.as_slice()) {
        return Err(DavError::Status(StatusCode::NOT_FOUND));
    }
    match index_path(asked.path, name) {
        Ok(path) => {
            let index = Asked {
                settings: asked.settings,
                method: asked.method,
                path: &path,
                fields: asked.fields,
            };
            open_file(alloc, fs, credentials, &index)
        }
        Err(_) => Err(DavError::NoMemory),
    }
}

// Answers for a directory: where a slash ends its path, its index file stands for it, if one is set.
fn get_dir<S: GuardedFileSystem<C>, C>(
    alloc: Global,
    fs: &mut S,
    credentials: &C,
    asked: &Asked<'_>,
) -> Given<S::File>
    ensures table { ByCourse S.view S.listings (dir_course (asked_of asked.now) asked.now.path.now.slash)
        (asked_of asked.now) credentials.now fs.old result fs.new ⊎ (result ≡ Err DavError.NoMemory) }
    ensures leads { LeadsOn S.view S.listings credentials.now fs.old fs.new }
    ensures life { OpenOnlyHeld S.view fs.old result fs.new }
    ensures most { HasMost (read_size_of asked.now.settings.now.read_buf_size) result }
    ensures loan { S.view.loan fs.new ≡ S.view.loan fs.old }
{
    if asked.path.is_collection() {
        return match &asked.settings.indexfile {
            Some(name) => get_index(alloc, fs, credentials, asked, name),
            None => get_page(alloc, fs, credentials, asked),
        };
    }
    match directed(alloc, asked.path) {
        Ok(outcome) => Ok((
            outcome,
            GetBody::new(Vec::new(alloc), None, ReadBuffer::none(alloc)),
        )),
        Err(_) => Err(DavError::NoMemory),
    }
}

// Looks at the path, and gives what stands there.
fn look<S: GuardedFileSystem<C>, C>(
    alloc: Global,
    fs: &mut S,
    credentials: &C,
    asked: &Asked<'_>,
) -> Given<S::File>
    ensures table { ByWellKnown S.view S.listings false (asked_of asked.now) credentials.now fs.old result fs.new
        ⊎ (result ≡ Err DavError.NoMemory) }
    ensures leads { LeadsOn S.view S.listings credentials.now fs.old fs.new }
    ensures life { OpenOnlyHeld S.view fs.old result fs.new }
    ensures most { HasMost (read_size_of asked.now.settings.now.read_buf_size) result }
    ensures loan { S.view.loan fs.new ≡ S.view.loan fs.old }
{
    match fs.metadata(asked.path, credentials) {
        Ok(meta) => {
            if meta.is_dir() {
                return get_dir(alloc, fs, credentials, asked);
            }
            open_file(alloc, fs, credentials, asked)
        }
        Err(error) => Err(DavError::from(error)),
    }
}

// Whether the page is asked for that clients of a well-known server look for.
fn is_well_known(asked: &Asked<'_>) -> bool
    ensures { result ≡ the_is_well_known asked.now.settings.now asked.now.method asked.now.path.now }
{
    if !is_get(asked.method) {
        return false;
    }
    if is_on(asked.settings.autoindex) {
        return false;
    }
    if !asked.path.is_collection() {
        return false;
    }
    match asked.path.names().as_slice() {
        [first, second] => first.as_str() == "remote.php" && second.as_str() == "webdav",
        _ => false,
    }
}

/// Answers a GET or HEAD (RFC 9110, sections 9.3.1, 9.3.2, 13 and 14) over any store: preconditions, one range or
/// several, and the body that gives them. A directory whose path has no final slash is answered with that address;
/// under one with a slash its index file stands for it, where one is set. An error is the store's refusal, 405 for what
/// is neither a directory nor a regular file, 404 for an index file whose name isn't plain, or 405 with a close for a
/// directory of which no page is permitted. Where one is, it is given. A file that was opened is closed again, or held
/// by the body; a listing is ended.
///
/// `table` tells which call of the store gave the answer. `framed` says that its field `content-length` is the length
/// of the body, and that a HEAD and 304 have none. `sound` says that no part of the body is empty, and that 204 has
/// none. `heard` says, of any store, that the answer is right for what its look and its opening or listing answered;
/// `right`, that it is right for what the store shows at the path, and at the one that is opened or listed for what
/// stands there, unless a fault was met. Either way memory may be refused. `asks` says, of a store that looks at the
/// path by one call and opens a file by so many, as it is now, how many calls of the disk it takes, where no page is
/// given; `bounded`, of one that looks and opens by so many at most, how many it takes at most. `opened` says where the
/// body's file was opened, and that it is what that file became by calls of its own.
pub fn handle_get<S: GuardedFileSystem<C>, C>(
    alloc: Global,
    settings: &Settings,
    fs: &mut S,
    credentials: &C,
    method: DavMethod,
    path: &DavPath,
    fields: &HeaderMap,
) -> Given<S::File>
    ensures table { Gets S.view S.listings (query settings.now fields.now method path.now)
        credentials.now fs.old result fs.new ⊎ (result ≡ Err DavError.NoMemory) }
    ensures framed { (number : ℕ) → IsFramed (At method path.now) (reply_at fields.now number result) }
    ensures sound { (number : ℕ) → HasSoundBody (reply_at fields.now number result) }
    ensures heard { (result ≡ Err DavError.NoMemory) ⊎ Heard S.view S.listings
        (query settings.now fields.now method path.now) credentials.now fs.old result fs.new }
    ensures right { (looked opened : WebPath → Result Standing FsError)
        (listed : WebPath → Result (List Member) FsError)
        → ShowsFor S.view S.listings fs.old credentials.now
        (query settings.now fields.now method path.now) looked opened listed
        → (result ≡ Err DavError.NoMemory) ⊎ IsRightFor S.view
        (query settings.now fields.now method path.now) looked opened listed fs.old result fs.new }
    ensures asks { (calls : ℕ) → 0 < calls
        → (the_is_well_known settings.now method path.now ≡ false → AsksFor S.view S.listings
        (query settings.now fields.now method path.now) calls (S.view.state fs.new).faults fs.old)
        → (result ≡ Err DavError.NoMemory) ⊎ AsksUnlessKnown calls (the_is_well_known settings.now method path.now)
        (is_set settings.now.redirect) (status_given result) (fields_given fields.now result)
        (S.view.state fs.old).asked (S.view.state fs.new).asked }
    ensures bounded { (each : ℕ) → (the_is_well_known settings.now method path.now ≡ false
        → AsksAtMostFor S.view S.listings (query settings.now fields.now method path.now) each fs.old)
        → (result ≡ Err DavError.NoMemory) ⊎ AtMostUnlessKnown (calls_to_send each (is_set settings.now.redirect))
        (the_is_well_known settings.now method path.now) (fields_given fields.now result)
        (S.view.state fs.old).asked (S.view.state fs.new).asked }
    ensures leads { LeadsOn S.view S.listings credentials.now fs.old fs.new }
    ensures life { OpenOnlyHeld S.view fs.old result fs.new }
    ensures opened { HasOpened S.view (query settings.now fields.now method path.now) credentials.now fs.old result }
    ensures most { HasMost (read_size_of settings.now.read_buf_size) result }
    ensures loan { S.view.loan fs.new ≡ S.view.loan fs.old }
{
    let asked = Asked {
        settings,
        method,
        path,
        fields,
    };
    get_once(alloc, fs, credentials, &asked)
}

// A GET or HEAD, by the table alone.
fn get_once<S: GuardedFileSystem<C>, C>(
    alloc: Global,
    fs: &mut S,
    credentials: &C,
    asked: &Asked<'_>,
) -> Given<S::File>
    ensures table { Gets S.view S.listings (asked_of asked.now) credentials.now fs.old result fs.new
        ⊎ (result ≡ Err DavError.NoMemory) }
    ensures leads { LeadsOn S.view S.listings credentials.now fs.old fs.new }
    ensures life { OpenOnlyHeld S.view fs.old result fs.new }
    ensures most { HasMost (read_size_of asked.now.settings.now.read_buf_size) result }
    ensures loan { S.view.loan fs.new ≡ S.view.loan fs.old }
{
    if !is_well_known(asked) {
        return look(alloc, fs, credentials, asked);
    }
    match well_known_fields(alloc) {
        Ok(fields) => {
            let outcome = Outcome {
                status: 200,
                fields,
            };
            Ok((
                outcome,
                GetBody::new(Vec::new(alloc), None, ReadBuffer::none(alloc)),
            ))
        }
        Err(_) => Err(DavError::NoMemory),
    }
}
