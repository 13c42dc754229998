//! An input is stored at a path by an upload.
ghost use Rattle.std.specs.Prelude.{◌≡◌, ◌≢◌, ◌<◌, [], Bool, IfOk, IsSome, List, Some, length, ℕ, true};
ghost use Rattle.dav_core.specs.World.{World};
ghost use Rattle.dav_put.specs.Storing.{BeginsSome, Ends, Pours, Stores, is_busy as the_is_busy};
ghost use Rattle.dav_put.specs.Whole.{IsOpenTo, StoredWhole};
ghost use Rattle.dav_store.specs.View.{StaysBy};
ghost use Rattle.dav_upload.specs.Pieces.{KeepsUpload};
ghost use Rattle.dav_upload.specs.Takes.{TakesUploads};

use dav_core::DavPath;
use dav_io::Source;
use dav_model::Outcome;
use dav_store::{DavFile, GuardedFileSystem};
use dav_upload::{Upload, UploadError, abort, begin, commit, piece};
use http::HeaderMap;
use std::alloc::Global;

// How many tokens are tried where hidden names stand already.
const TOKENS: u32 = 16;

/// Why an input isn't stored.
#[derive(Drop)]
pub enum Stop {
    /// The source failed.
    SourceFailed,
    /// It gave more pieces than are counted.
    TooMuch,
    /// The upload was refused.
    Refused(UploadError),
}

/// Where an input is stored: at a path, as a PUT with these fields may, and with a hidden name of this token, or of those
/// behind it.
#[derive(Drop)]
pub struct Destination<'a> {
    pub path: &'a DavPath,
    pub fields: &'a HeaderMap,
    pub token: u64,
}

// Whether the hidden name of a token stands already.
fn is_busy(error: &UploadError) -> bool
    ensures { result ≡ the_is_busy error.now }
{
    matches!(error, UploadError::Busy { name: _name })
}

// Begins an upload, with the first token whose hidden name doesn't stand already.
fn begin_some<S: GuardedFileSystem<C>, C>(
    alloc: Global,
    fs: &mut S,
    credentials: &C,
    path: &DavPath,
    fields: &HeaderMap,
    first: u64,
) -> Result<Upload<S::File>, UploadError>
    ensures begins { BeginsSome S.view S.File.view.writes credentials.now
        (record { target = path.now; fields = fields.now; token = first }) fs.old result fs.new }
    ensures live { IfOk result (λ u. IsSome ((S.view.state fs.new).live (S.view.file.handle u.file))) }
    ensures reads_from { IfOk result (λ u. S.view.file.reads_from u.file (S.view.state fs.new)) }
{
    let mut token = first;
    'tokens: for _tries in 0..TOKENS {
        match begin(alloc, fs, credentials, path, fields, token) {
            Ok(upload) => return Ok(upload),
            Err(error) => {
                if !is_busy(&error) {
                    return Err(error);
                }
                token = token.wrapping_add(1);
            }
        }
    }
    let last = begin(alloc, fs, credentials, path, fields, token);
    last
}

// Writes what the source gives, each piece as it comes, up to its end.
fn pour<S: GuardedFileSystem<C>, C, R: Source>(
    fs: &mut S,
    upload: &mut Upload<S::File>,
    source: &mut R,
    buffer: &mut [u8],
) -> Result<(), Stop>
    requires live { IsSome ((S.view.state fs.old).live (S.view.file.handle upload.old.file)) }
    requires reads_from { S.view.file.reads_from upload.old.file (S.view.state fs.old) }
    requires room { 0 < length buffer.old }
    ensures pours { Pours S.view S.File.view.writes
        (record { store = fs.old; upload = upload.old; source = R.stream source.old }) result
        (record { store = fs.new; upload = upload.new; source = R.stream source.new }) }
    ensures stays { StaysBy S.view (KeepsUpload (S.view.file.handle upload.old.file) (S.view.file.handle upload.new.file)) fs.old
        fs.new }
{
    'pieces: for _pieces in 0..u64::MAX {
        let count = match source.take(buffer) {
            Ok(count) => count,
            Err(_) => return Err(Stop::SourceFailed),
        };
        if count == 0 {
            return Ok(());
        }
        match piece(fs, upload, &buffer[..count]) {
            Ok(()) => {}
            Err(error) => return Err(Stop::Refused(error)),
        }
    }
    Err(Stop::TooMuch)
}

// Commits an upload into which the input went, or gives it up. What the removal of the hidden name answers then isn't
// looked at.
fn finish<S: GuardedFileSystem<C>, C>(
    alloc: Global,
    fs: &mut S,
    credentials: &C,
    upload: Upload<S::File>,
    fields: &HeaderMap,
    poured: Result<(), Stop>,
) -> Result<Outcome, Stop>
    requires live { IsSome ((S.view.state fs.old).live (S.view.file.handle upload.file)) }
    ensures ends { Ends S.view S.File.view.writes credentials.now poured upload fields.now fs.old result fs.new }
{
    match poured {
        Ok(()) => match commit(alloc, fs, credentials, upload, fields) {
            Ok(outcome) => Ok(outcome),
            Err(error) => Err(Stop::Refused(error)),
        },
        Err(stop) => {
            let _removed = abort(fs, credentials, upload);
            Err(stop)
        }
    }
}

// The same by its table alone.
fn store_by<S: GuardedFileSystem<C>, C, R: Source>(
    alloc: Global,
    fs: &mut S,
    credentials: &C,
    destination: &Destination<'_>,
    source: &mut R,
    buffer: &mut [u8],
) -> Result<Outcome, Stop>
    requires room { 0 < length buffer.old }
    ensures table { Stores S.view S.File.view.writes credentials.now (record {
      target = destination.now.path.now;
      fields = destination.now.fields.now;
      token = destination.now.token;
    }) fs.old (R.stream source.old) result
        fs.new (R.stream source.new) }
{
    let fields = destination.fields;
    match begin_some(
        alloc,
        fs,
        credentials,
        destination.path,
        fields,
        destination.token,
    ) {
        Ok(mut upload) => {
            let poured = pour(fs, &mut upload, source, buffer);
            finish(alloc, fs, credentials, upload, fields, poured)
        }
        Err(error) => Err(Stop::Refused(error)),
    }
}

/// Stores what a source gives at a path, whole or not at all: its pieces go to a hidden file beside the target, which
/// takes the target's place when all is there. Where the hidden name of the token stands already, others are tried.
/// `buffer` is for the pieces.
///
/// Errors: `SourceFailed`; `TooMuch` where the source gave 2^64 - 1 pieces and no end; the refusal of the upload, `Busy`
/// where the hidden names of 17 tokens stand.
pub fn store<S: GuardedFileSystem<C>, C, R: Source>(
    alloc: Global,
    fs: &mut S,
    credentials: &C,
    destination: &Destination<'_>,
    source: &mut R,
    buffer: &mut [u8],
) -> Result<Outcome, Stop>
    requires room { 0 < length buffer.old }
    requires named { destination.now.path.now.names ≢ [] }
    ensures table { Stores S.view S.File.view.writes credentials.now (record {
      target = destination.now.path.now;
      fields = destination.now.fields.now;
      token = destination.now.token;
    }) fs.old (R.stream source.old) result
        fs.new (R.stream source.new) }
    ensures whole { (test : S → Bool) → TakesUploads S.view S.File.view.writes credentials.now test → test fs.old ≡ true
        → (v w : World) (bytes : List ℕ) → (S.view.state fs.old).told ≡ Some v → (S.view.state fs.new).told ≡ Some w
        → (R.stream source.old).bytes ≡ Some bytes → IsOpenTo v destination.now.path.now.names
        → StoredWhole destination.now.path.now.names bytes result v w }
{
    store_by(alloc, fs, credentials, destination, source, buffer)
}
