ghost use Rattle.std.specs.Prelude.{◌≡◌};
ghost use Rattle.dav_upload.specs.Uploading.{refusal_of as the_refusal_of, refused_by as the_refused_by};

use dav_core::{DavError, FsError, ParseError};
use dav_io::Text;

/// Why a call of an upload is refused.
#[derive(Drop)]
pub enum UploadError {
    /// What a PUT of the target is refused with, what the store refused a call with, or `Body` where the upload is
    /// broken. It never holds want of memory.
    Dav(DavError),
    /// The hidden name of the token stands already.
    Busy { name: Text },
    /// The target's last name begins as hidden names do.
    Hidden,
    /// Memory was refused.
    NoMemory,
}

// What a refusal of a PUT is.
pub fn refusal_of(error: DavError) -> UploadError
    ensures { result ≡ the_refusal_of error }
{
    match error {
        DavError::NoMemory
        | DavError::Path(ParseError::NoMemory)
        | DavError::Fs(FsError::NoMemory) => UploadError::NoMemory,
        _ => UploadError::Dav(error),
    }
}

// What a store's refusal is.
pub fn refused_by(error: FsError) -> UploadError
    ensures { result ≡ the_refused_by error }
{
    refusal_of(DavError::from(error))
}
