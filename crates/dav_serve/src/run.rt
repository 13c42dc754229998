// The top call: all that the program does, over what is handed in.
ghost use Rattle.std.specs.Prelude.{◌≡◌, ◌≤◌, ◌+◌, ◌↔◌, IfOk, IfSome, None, Ok, OnErr, false, true};
ghost use Rattle.dav_bench.specs.Report.{Benches};
ghost use Rattle.dav_memory.specs.Memory.{memory_of};
ghost use Rattle.dav_local.specs.Shown.{knowledge_of};
ghost use Rattle.dav_mirror.specs.Mirrors.{Mirrors};
ghost use Rattle.dav_model.specs.Rules.{nothing_known};
ghost use Rattle.dav_serve.specs.Words.{NothingSaid, mirror_said as the_mirror_said, rules_said, seed_said as the_seed_said, set_by};
ghost use Rattle.dav_serving.specs.Serving.{EndsBy, HoldsSoFar, ServeEnds, ServedPartly, setup_with};
ghost use Rattle.dav_serving.specs.Stages.{outside_of};
ghost use Rattle.dav_serving.specs.Completing.{StatusIs};

use crate::serving::serve;
use crate::words::{Options, mirror_said, options_said, seed_said};
use dav_bench::bench;
use dav_cache::Owned;
use dav_core::Disk;
use dav_io::{Client, Clock, NoMemory, Sink};
pub use dav_mirror::Report;
use dav_mirror::mirror;
use dav_serving::Ending;
use std::alloc::Global;

// For how many paths a memory has room, and for how many directories and names together that may be absent.
const ENTRIES: usize = 4096;

// A memory that knows nothing yet.
fn empty_memory(alloc: Global) -> Result<Owned, NoMemory>
    ensures knows { IfOk result (λ memory. knowledge_of (memory_of memory) ≡ nothing_known) }
    ensures room { IfOk result (λ memory. (memory.paths.size ≡ 4096) × (memory.dots.size ≡ 4096)) }
{
    Owned::new(alloc, ENTRIES, ENTRIES)
}

// Serves with one memory for the whole run, which knows nothing at first.
fn serve_remembering<S: Client<K>, K: Sink, D: Disk, C: Clock>(
    alloc: Global,
    options: &Options<'_>,
    source: &mut S,
    sink: &mut K,
    disk: &mut D,
    clock: &mut C,
) -> Result<Ending, NoMemory>
    requires waits { HoldsSoFar (setup_with (C.shows clock.old) (set_by options.now))
        (outside_of (S.stream source.old) (K.stream sink.old) (D.state disk.old))
        (S.may source.old) }
    ensures clock { C.shows clock.new ≡ C.shows clock.old }
    ensures ends { IfOk result (EndsBy (setup_with (C.shows clock.old) (set_by options.now))
        (outside_of (S.stream source.old) (K.stream sink.old) (D.state disk.old))
        (outside_of (S.stream source.new) (K.stream sink.new) (D.state disk.new))) }
    ensures memory { OnErr result (ServedPartly (setup_with (C.shows clock.old) (set_by options.now))
        (outside_of (S.stream source.old) (K.stream sink.old) (D.state disk.old))
        (outside_of (S.stream source.new) (K.stream sink.new) (D.state disk.new))) }
{
    match empty_memory(alloc) {
        Ok(memory) => serve(alloc, options, source, sink, disk, memory, clock),
        Err(refused) => Err(refused),
    }
}

// Makes a large input from a number, plays it over a disk of its own with a memory that knows nothing at first, and
// writes what was counted.
fn bench_remembering<K: Sink>(alloc: Global, seed: u32, sink: &mut K) -> Result<u8, NoMemory>
    requires { seed ≤ 399 }
    ensures { Benches (seed + 1) (K.stream sink.old) result (K.stream sink.new) }
{
    match empty_memory(alloc) {
        Ok(memory) => bench(alloc, seed, memory, sink),
        Err(refused) => Err(refused),
    }
}

/// Runs the program over these words, which stand behind its name, and answers its status: 0 where the input was read
/// to its end, or to a request whose answer closes; 2 where the words are not understood, and then nothing is read or
/// written; 3, 4 and 5 where the source, the sink or the disk failed; 6 where the input has no valid request at its
/// place; 7 where 2^60 bytes were taken; 8 where a tree can't be fetched, though the disk didn't fail in a body.
///
/// For the settings that the words say, what the sink gets is told for each status (`serves`) and for want of memory
/// (`memory`), and the status by the input where no fault ends the run (`complete`). The client is asked for more only
/// where all whole requests that came are answered and all answers are written (`waits`); a source may always be asked.
/// Where the words say a large input, it is played, what was counted over it is written, and the status is 0, or 4
/// where the sink failed (`benches`); nothing is read, and the disk isn't asked. Where they say a tree, it is fetched
/// from the disk as a client of a server over it would, and a line is written for each of its files; the status is 0, or
/// 4 where the sink failed; 5 and 8 are told of the fetch, and then nothing is written (`mirrors`). Nothing is read. What
/// the fetch came to is reported: how many files and bytes, or why it ended, and at which path. No other run reports
/// anything (`report`).
pub fn run<S: Client<K>, K: Sink, D: Disk, C: Clock>(
    alloc: Global,
    words: &[String],
    source: &mut S,
    sink: &mut K,
    disk: &mut D,
    clock: &mut C,
    report: &mut Option<Report>,
) -> Result<u8, NoMemory>
    requires waits { IfSome (rules_said words.now) (λ rules. HoldsSoFar
        (setup_with (C.shows clock.old) rules)
        (outside_of (S.stream source.old) (K.stream sink.old) (D.state disk.old))
        (S.may source.old)) }
    ensures words { (result ≡ Ok 2) ↔ NothingSaid words.now }
    ensures source { rules_said words.now ≡ None → S.stream source.new ≡ S.stream source.old }
    ensures sink { NothingSaid words.now → K.stream sink.new ≡ K.stream sink.old }
    ensures disk { rules_said words.now ≡ None → the_mirror_said words.now ≡ false
        → D.state disk.new ≡ D.state disk.old }
    ensures clock { C.shows clock.new ≡ C.shows clock.old }
    ensures serves { IfSome (rules_said words.now) (λ rules. IfOk result (ServeEnds
        (setup_with (C.shows clock.old) rules)
        (outside_of (S.stream source.old) (K.stream sink.old) (D.state disk.old))
        (outside_of (S.stream source.new) (K.stream sink.new) (D.state disk.new)))) }
    ensures complete { IfSome (rules_said words.now) (λ rules. IfOk result (StatusIs
        (setup_with (C.shows clock.old) rules)
        (outside_of (S.stream source.old) (K.stream sink.old) (D.state disk.old))
        (outside_of (S.stream source.new) (K.stream sink.new) (D.state disk.new)))) }
    ensures memory { IfSome (rules_said words.now) (λ rules. OnErr result (ServedPartly
        (setup_with (C.shows clock.old) rules)
        (outside_of (S.stream source.old) (K.stream sink.old) (D.state disk.old))
        (outside_of (S.stream source.new) (K.stream sink.new) (D.state disk.new)))) }
    ensures benches { IfSome (the_seed_said words.now) (λ seed. Benches (seed + 1) (K.stream sink.old) result
        (K.stream sink.new)) }
    ensures mirrors { the_mirror_said words.now ≡ true
        → Mirrors (D.state disk.old) (D.state disk.new) (K.stream sink.old) result (K.stream sink.new) report.new }
    ensures report { the_mirror_said words.now ≡ false → report.new ≡ report.old }
{
    match options_said(words) {
        Some(options) => match serve_remembering(alloc, &options, source, sink, disk, clock) {
            Ok(ending) => Ok(ending.status()),
            Err(error) => Err(error),
        },
        None => match seed_said(words) {
            Some(seed) => bench_remembering(alloc, seed, sink),
            None => {
                if mirror_said(words) {
                    return mirror(alloc, disk, sink, report);
                }
                Ok(2)
            }
        },
    }
}
