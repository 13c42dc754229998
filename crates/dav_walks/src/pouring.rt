// The body of a PUT goes into a file.
ghost use Rattle.std.specs.Prelude.{◌≡◌, ◌<◌, IsSome};
ghost use Rattle.dav_walks.specs.Pouring.{Pours, TakesPiece, WritesFile, most_bytes};

use dav_core::{DavError, FsError};
use dav_store::{BodyReader, DavFile, GuardedFileSystem};
use http::StatusCode;

// A body that reaches so many bytes is refused.
const MOST_BYTES: u64 = 1 << 60;

/// Writes all these bytes to a file.
pub fn file_write<S: GuardedFileSystem<C>, C>(
    fs: &mut S,
    file: &mut S::File,
    bytes: &[u8],
) -> Result<(), FsError>
    requires live { IsSome ((S.view.state fs.old).live (S.view.file.handle file.old)) }
    requires reads_from { S.view.file.reads_from file.old (S.view.state fs.old) }
    ensures writes { WritesFile S.view S.File.view.writes fs.old file.old bytes.now result fs.new file.new }
{
    file.write_bytes(fs.disk(), bytes)
}

// Writes a piece after so many bytes, and answers how many these are now.
fn write_piece<S: GuardedFileSystem<C>, C>(
    fs: &mut S,
    file: &mut S::File,
    piece: &[u8],
    total: u64,
) -> Result<u64, DavError>
    requires live { IsSome ((S.view.state fs.old).live (S.view.file.handle file.old)) }
    requires reads_from { S.view.file.reads_from file.old (S.view.state fs.old) }
    requires short { total < most_bytes }
    ensures takes { TakesPiece S.view S.File.view.writes total fs.old file.old piece.now result fs.new file.new }
{
    let sum = total.saturating_add(piece.len() as u64);
    if sum >= MOST_BYTES {
        return Err(DavError::Status(StatusCode::PAYLOAD_TOO_LARGE));
    }
    if let Err(refusal) = file_write(fs, file, piece) {
        return Err(DavError::from(refusal));
    }
    Ok(sum)
}

/// Writes what the reader gives, each piece as it comes, up to its end.
///
/// Errors: `Body` where the reader failed, 413 where it gave 2^60 bytes, and the refusal of a writing.
pub fn pour<S: GuardedFileSystem<C>, C, B: BodyReader>(
    fs: &mut S,
    file: &mut S::File,
    body: &mut B,
) -> Result<(), DavError>
    requires live { IsSome ((S.view.state fs.old).live (S.view.file.handle file.old)) }
    requires reads_from { S.view.file.reads_from file.old (S.view.state fs.old) }
    ensures pours { Pours S.view S.File.view.writes fs.old file.old
        (B.state body.old) result fs.new file.new (B.state body.new) }
    ensures body_loan { B.loan body.new ≡ B.loan body.old }
{
    let mut total: u64 = 0;
    'pieces: loop {
        match body.next_piece() {
            Ok(Some(piece)) => match write_piece(fs, file, piece.as_slice(), total) {
                Ok(sum) => total = sum,
                Err(error) => return Err(error),
            },
            Ok(None) => return Ok(()),
            Err(_) => return Err(DavError::Body),
        }
    }
}
