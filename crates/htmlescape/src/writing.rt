ghost use Rattle.std.specs.Prelude.{encode_utf8};
ghost use Rattle.dav_io.specs.Appending.{Appends};

use dav_io::{Failed, Sink, put_all};

/// Writes a character in UTF-8. At `Failed` a front of its bytes is written, and the writer's count of faults rose.
pub fn write_char<W: Sink>(writer: &mut W, c: char) -> Result<(), Failed>
    ensures { Appends (W.stream writer.old) (encode_utf8 c) result (W.stream writer.new) }
{
    let mut bytes = [0; 4];
    put_all(writer, c.encode_utf8(&mut bytes).as_bytes())
}
