ghost use Rattle.dav_io.specs.Appending.{Appends};

use crate::{Failed, Sink};

/// Writes all of some bytes. At `Failed` a front of them was written, and the sink's count of faults rose.
pub fn put_all<K: Sink>(sink: &mut K, bytes: &[u8]) -> Result<(), Failed>
    ensures { Appends (K.stream sink.old) bytes.now result (K.stream sink.new) }
{
    let mut rest = bytes;
    while !rest.is_empty() {
        match sink.put(rest) {
            Ok(count) => {
                let (_, left) = rest.split_at(count);
                rest = left;
            }
            Err(refused) => return Err(refused),
        }
    }
    Ok(())
}
