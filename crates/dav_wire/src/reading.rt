//! Taking more bytes behind a flush.
ghost use Rattle.std.specs.Prelude.{◌≡◌, ◌≤◌, ℕ, List, [], Ok, length};
ghost use Rattle.dav_io.specs.Outside.{Stream};
ghost use Rattle.dav_wire.specs.Reading.{FillsThen, sending};
ghost use Rattle.dav_wire.specs.Writing.{Pushes};

use crate::input::Input;
use crate::next::ReadError;
use crate::output::Output;
use dav_io::{Client, Sink, Source};

/// Takes more bytes, in one call of the client. Before the client is asked, all that is held for the sink is given to
/// it.
pub fn fill_flushing<S: Client<K>, K: Sink>(
    input: &mut Input,
    source: &mut S,
    output: &mut Output,
    sink: &mut K,
) -> Result<usize, ReadError>
    requires short { length input.old.bytes ≤ 65536 }
    requires ready { (later : List ℕ) (written : Stream) → later ≡ []
        → Pushes (K.stream sink.old) output.old [] (Ok tt) later written
        → S.may source.old (S.stream source.old) written }
    ensures stays { (left written : Stream) → S.may source.old left written → S.may source.new left written }
    ensures fills { FillsThen (S.stream source.old) input.old result input.new (S.stream source.new) }
    ensures sends { Pushes (K.stream sink.old) output.old [] (sending result) output.new (K.stream sink.new) }
    ensures emptied { output.new ≡ [] }
{
    match output.flush(sink) {
        Ok(()) => {}
        Err(_) => return Err(ReadError::Unsent),
    }
    input.fill_after(source, sink)
}
