// The lines of the tables of the methods that write: each answers its error where it fits.
ghost use Rattle.std.specs.Prelude.{◌≡◌, ◌⊎◌, Result, Ok, Err, None, Some, option_map};
ghost use Rattle.dav_core.specs.declared.error.FsError.{FsError};
ghost use Rattle.dav_core.specs.Info.{Info};
ghost use Rattle.dav_model.specs.Conditions.{condition_of};
ghost use Rattle.dav_store.specs.View.{Stays};
ghost use Rattle.dav_methods.specs.Lines.{found_or_failed, may_delete, may_make as the_may_make, may_put as the_may_put, no_parent, refused_but_missing, with_status};

use dav_conditions::if_match;
use dav_core::{DavError, DavMetaData, DavMethod, DavPath, FsError};
use dav_store::{EmptyMetaData, GuardedFileSystem};
use http::{HeaderMap, StatusCode};
use std::alloc::Global;

// A look was refused: an error, unless nothing stands there.
pub fn pass_missing(refusal: FsError) -> Result<(), DavError>
    ensures { result ≡ refused_but_missing (Err refusal) }
{
    match refusal {
        FsError::NotFound => Ok(()),
        _ => Err(DavError::from(refusal)),
    }
}

// A look was refused: an error only where the store failed or memory was refused.
pub fn pass_unfailed(refusal: FsError) -> Result<(), DavError>
    ensures { result ≡ found_or_failed (Err refusal) }
{
    match refusal {
        FsError::GeneralFailure | FsError::NoMemory => Err(DavError::from(refusal)),
        _ => Ok(()),
    }
}

// The error of a look for the directory above that was refused.
fn parent_refused(refusal: FsError) -> DavError
    ensures { Err result ≡ no_parent (Err refusal) }
{
    match refusal {
        FsError::GeneralFailure | FsError::NoMemory => DavError::from(refusal),
        _ => DavError::Status(StatusCode::CONFLICT),
    }
}

// A precondition isn't met by what stands at the path, if anything does.
pub fn pass_met<M: DavMetaData>(
    alloc: Global,
    method: DavMethod,
    fields: &HeaderMap,
    there: Option<&M>,
) -> Result<(), DavError>
    ensures { (result ≡ Err DavError.NoMemory) ⊎ (result ≡ with_status
        (condition_of method fields.now (option_map (λ m. M.info m.now) there.entry))) }
{
    match if_match(alloc, method, fields, there)? {
        Some(status) => Err(DavError::Status(status)),
        None => Ok(()),
    }
}

// The same where nothing stands.
fn pass_met_by_nothing(alloc: Global, method: DavMethod, fields: &HeaderMap) -> Result<(), DavError>
    ensures { (result ≡ Err DavError.NoMemory) ⊎ (result ≡ with_status (condition_of method fields.now None)) }
{
    let nothing: Option<&EmptyMetaData> = None;
    pass_met(alloc, method, fields, nothing)
}

// Lets a MKCOL go on where a look was refused.
pub fn may_make(alloc: Global, fields: &HeaderMap, refusal: FsError) -> Result<(), DavError>
    ensures { (result ≡ Err DavError.NoMemory) ⊎ (result ≡ the_may_make fields.now (Err refusal)) }
{
    pass_missing(refusal)?;
    pass_met_by_nothing(alloc, DavMethod::MkCol, fields)
}

// Lets a PUT go on where a look was refused.
pub fn may_put_new(alloc: Global, fields: &HeaderMap, refusal: FsError) -> Result<(), DavError>
    ensures { (result ≡ Err DavError.NoMemory) ⊎ (result ≡ the_may_put fields.now (Err refusal)) }
{
    pass_missing(refusal)?;
    pass_met_by_nothing(alloc, DavMethod::Put, fields)
}

// Lets a PUT go on over what stands.
pub fn may_put_over<M: DavMetaData>(
    alloc: Global,
    fields: &HeaderMap,
    meta: &M,
) -> Result<(), DavError>
    ensures { (result ≡ Err DavError.NoMemory) ⊎ (result ≡ the_may_put fields.now (Ok (M.info meta.now))) }
{
    if meta.is_dir() {
        return Err(DavError::Status(StatusCode::METHOD_NOT_ALLOWED));
    }
    pass_met(alloc, DavMethod::Put, fields, Some(meta))
}

// No directory stands at the path above.
pub fn pass_parent<S: GuardedFileSystem<C>, C>(
    fs: &mut S,
    credentials: &C,
    above: &DavPath,
) -> Result<(), DavError>
    ensures looks { (up : Result Info FsError) × S.view.looks fs.old credentials.now above.now up fs.new
        × (result ≡ no_parent up) }
    ensures stays { Stays S.view fs.old fs.new }
{
    match fs.metadata(above, credentials) {
        Ok(meta) => {
            if meta.is_dir() {
                return Ok(());
            }
            Err(DavError::Status(StatusCode::CONFLICT))
        }
        Err(refusal) => Err(parent_refused(refusal)),
    }
}

// Lets a DELETE go on over what stands.
pub fn may_delete_it<M: DavMetaData>(
    alloc: Global,
    fields: &HeaderMap,
    meta: &M,
) -> Result<(), DavError>
    ensures { (result ≡ Err DavError.NoMemory) ⊎ (result ≡ may_delete fields.now (Ok (M.info meta.now))) }
{
    pass_met(alloc, DavMethod::Delete, fields, Some(meta))
}
