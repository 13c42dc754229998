//! What polls give, as words: a piece behind a `=`, `end` or `broken`.
use bytes::Bytes;
use dav_body::BodyFault;
use dav_io::Failed;
use dav_rows::Line;
use dav_store::BodyReader;
use futures::task::Poll;
use http_body::Frame;
use percent_encoding::CONTROLS;

/// Adds bytes as they are, control characters as `%XX`.
pub fn show(line: &mut Line, bytes: &[u8]) {
    line.add_bytes(bytes, CONTROLS.add(b'%'));
}

fn show_piece(line: &mut Line, piece: &Bytes) {
    line.add(" =");
    show(line, piece.as_slice());
}

/// Adds what a poll gave.
pub fn show_poll(line: &mut Line, answer: Poll<Option<Result<Bytes, BodyFault>>>) {
    match answer {
        Poll::Ready(Some(Ok(piece))) => show_piece(line, &piece),
        Poll::Ready(Some(Err(BodyFault::Broken))) => line.add(" broken"),
        Poll::Ready(Some(Err(BodyFault::NoMemory))) => line.add(" out of memory"),
        Poll::Ready(None) => line.add(" end"),
        Poll::Pending => line.add(" pending"),
    }
}

fn show_data(line: &mut Line, data: Option<Bytes>) {
    match data {
        Some(piece) => show_piece(line, &piece),
        None => line.add(" trailers"),
    }
}

/// Adds what a poll for a frame gave.
pub fn show_frame<E: Drop>(line: &mut Line, got: Option<Result<Frame<Bytes>, E>>) {
    match got {
        Some(Ok(frame)) => show_data(line, frame.into_data().ok()),
        Some(Err(_)) => line.add(" broken"),
        None => line.add(" end"),
    }
}

/// Adds the next piece of a reader.
pub fn show_next<B: BodyReader + Drop>(line: &mut Line, mut reader: B) {
    match reader.next_piece() {
        Ok(Some(piece)) => show_piece(line, &piece),
        Ok(None) => line.add(" end"),
        Err(Failed) => line.add(" failed"),
    }
}
