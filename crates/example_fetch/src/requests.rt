//! Requests, as they are written.
use dav_io::{Failed, Field, Sink};
use dav_wire::Output;

fn push_field<K: Sink>(output: &mut Output, sink: &mut K, field: &Field) -> Result<(), Failed> {
    output.push(sink, field.name.as_str().as_bytes())?;
    output.push(sink, b": ")?;
    output.push(sink, field.value.as_slice())?;
    output.push(sink, b"\r\n")
}

/// Writes a GET of a link with these fields, and gives it to the sink.
pub fn push_get<K: Sink>(
    output: &mut Output,
    sink: &mut K,
    link: &str,
    fields: &[Field],
) -> Result<(), Failed> {
    output.push(sink, b"GET ")?;
    output.push(sink, link.as_bytes())?;
    output.push(sink, b" HTTP/1.1\r\nhost: localhost\r\n")?;
    for field in fields {
        push_field(output, sink, field)?;
    }
    output.push(sink, b"\r\n")?;
    output.flush(sink)
}
