// Answers as frames.
ghost use Rattle.std.specs.Prelude.{◌≡◌};
ghost use Rattle.std.specs.Option.{option_map};
ghost use Rattle.dav_body.specs.Frames.{framed as framed_result};

use bytes::Bytes;
use http_body::Frame;

/// A piece as one data frame; an error and the end as they are.
pub fn framed<E>(answer: Option<Result<Bytes, E>>) -> Option<Result<Frame<Bytes>, E>>
    ensures { result ≡ option_map framed_result answer }
{
    match answer {
        Some(Ok(piece)) => Some(Ok(Frame::data(piece))),
        Some(Err(error)) => Some(Err(error)),
        None => None,
    }
}
