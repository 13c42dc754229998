// What is written of the large input.
ghost use Rattle.std.specs.Prelude.{◌≡◌, IfOk, string_bytes};
ghost use Rattle.dav_disk.specs.Sure.{listings_of};
ghost use Rattle.dav_bench.specs.Counting.{totals_of};
ghost use Rattle.dav_bench.specs.Report.{Reports};
ghost use Rattle.dav_bench.specs.Totals.{lines};

use crate::counting::Counts;
use dav_disk::SureDisk;
use dav_io::{NoMemory, Sink, put_all};
use std::alloc::Global;

// The five lines.
fn text_of(alloc: Global, counts: Counts, listings: u64) -> Result<String, NoMemory>
    ensures { IfOk result (λ text. string_bytes text ≡ lines (totals_of counts listings)) }
{
    let Counts {
        requests,
        ok,
        pieces,
        bytes,
    } = counts;
    let front = format!(in alloc; "requests {requests}\nok {ok}\npieces {pieces}\n")?;
    Ok(format!(in alloc; "{front}bytes {bytes}\nlistings {listings}\n")?)
}

// Writes the five lines, by what was counted and what the disk says that it listed: status 0, or 4 where the sink
// failed.
pub fn report<K: Sink>(
    alloc: Global,
    counts: Counts,
    disk: &SureDisk,
    sink: &mut K,
) -> Result<u8, NoMemory>
    ensures { Reports (lines (totals_of counts (listings_of disk.now))) (K.stream sink.old) result
        (K.stream sink.new) }
{
    let text = text_of(alloc, counts, disk.listings())?;
    match put_all(sink, text.as_bytes()) {
        Ok(()) => Ok(0),
        Err(_) => Ok(4),
    }
}
