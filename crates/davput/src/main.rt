//! The program: it stores what stands on standard input at a path of a folder, whole or not at all, or removes what runs
//! that were cut off left in a directory.
#![tactic(auto)]

use dav_cache::Owned;
use dav_host::{HostDisk, StdSource, SystemClock};
use dav_io::{Clock, NoMemory};
use dav_put::{Ending, Task, put, task_said};
use std::io::ErrorKind;
use std::process::ExitCode;
use std::{env, fs};

const USAGE: &str = "usage: davput ROOT PATH, or davput ROOT --sweep DIR [--older SECONDS]";

// What `--help` says behind the usage.
const HELP: &str = "
  ROOT PATH           stores the standard input at PATH of the folder ROOT, whole or not at all
  ROOT --sweep DIR    removes the hidden files that killed runs left in the directory DIR of ROOT

PATH and DIR are written as in the target of a request: /a%20b/c names the file \"a b/c\". They have no query.

The bytes go to a hidden file beside the target, `.upload-` and 16 digits, which takes the target's place when all is
there. A link that stands at the target is replaced and not followed, and a hard link to what stood there keeps the old
bytes. The new file may be read by everybody, as far as the umask lets it; who owned the old one and might read it
doesn't count.

Options of --sweep:
  --older SECONDS     only what wasn't changed in so many seconds is removed, 3600 where none are said: what runs still
                      write to stays

Alone, as the only word:
  --help              this text
  --version           the name and its version

Status: 0 done, 1 refused, 2 the words are not understood, 3 reading the input failed, 5 the disk refused or failed,
8 ROOT is no folder, 101 out of memory.";

// How many bytes are read at once.
const PIECE: usize = 65_536;

// For how many paths the memory has room. With names as they are written it is never asked.
const ENTRIES: usize = 1;

// The words behind the program's name, or how it ends where they aren't text or memory is refused.
fn words_of(rt: &HostRuntime) -> Result<Vec<String>, Ending> {
    let mut args = match env::args(rt) {
        Ok(args) => args,
        Err(error) if error.kind() == ErrorKind::InvalidData => return Err(Ending::Words),
        Err(_) => return Err(Ending::NoMemory),
    };
    let _program = args.next();
    match args.collect(rt.alloc()) {
        Ok(words) => Ok(words),
        Err(_) => Err(Ending::NoMemory),
    }
}

// Whether the words are this one alone.
fn is_word(words: &[String], word: &str) -> bool {
    match words {
        [only] => only.as_str() == word,
        _ => false,
    }
}

// The folder that the words name.
fn root_of(words: &[String]) -> &str {
    match words.first() {
        Some(root) => root.as_str(),
        None => "",
    }
}

// Whether a folder can be seen at a path.
fn is_folder(rt: &HostRuntime, path: &str) -> bool {
    match fs::metadata(rt, path) {
        Ok(found) => found.is_dir(),
        Err(_) => false,
    }
}

// Makes the outside, and does what is asked for over it. Runs that begin at one moment find the other's hidden name, and
// try the next.
fn put_into(rt: &HostRuntime, root: &str, task: &Task) -> Result<Ending, NoMemory> {
    let disk = HostDisk::new(rt.alloc(), rt, root)?;
    let memory = Owned::new(rt.alloc(), ENTRIES, ENTRIES)?;
    let mut source = StdSource::new(rt.reader());
    let moment = SystemClock::new(rt).now().0;
    let mut buffer = vec![in rt.alloc(); 0u8; PIECE]?;
    let (ending, _disk) = put(
        rt.alloc(),
        disk,
        memory,
        task,
        &mut source,
        buffer.as_mut_slice(),
        moment,
    );
    Ok(ending)
}

fn runs(rt: &HostRuntime, words: &[String]) -> Result<Ending, Ending> {
    let task = task_said(rt.alloc(), words)?;
    let root = root_of(words);
    if !is_folder(rt, root) {
        return Err(Ending::NoFolder);
    }
    match put_into(rt, root, &task) {
        Ok(ending) => Ok(ending),
        Err(_) => Err(Ending::NoMemory),
    }
}

// Why nothing was stored or removed, by the status that a server would answer.
fn cause_of(status: u16) -> &'static str {
    match status {
        403 => "the target's name is kept for uploads, or a file stands where a directory has to",
        404 => "no such directory",
        405 => "the target is a directory",
        409 => "no directory stands above the target",
        412 => "a precondition failed",
        _ => "the target can't be stored to",
    }
}

// What an ending says, in a line.
fn line_of(ending: &Ending) -> &'static str {
    match *ending {
        Ending::Done => "done",
        Ending::Refused(status) => cause_of(status),
        Ending::Busy => "the hidden names that were tried stand already",
        Ending::Words => "the words are not understood; davput --help tells them",
        Ending::NoFolder => "ROOT is no folder, or it can't be seen",
        Ending::SourceFailed => "reading the input failed",
        Ending::DiskFailed => {
            "the disk refused: no right to read or write there, no room left, or it failed"
        }
        Ending::NoMemory => "out of memory",
    }
}

// Says in a line how it ended, where not all was done.
fn ends(rt: &HostRuntime, ending: Ending) -> ExitCode {
    let status = ending.status();
    if status != 0 {
        let _ = eprintln!(rt; "davput: {}", line_of(&ending));
    }
    ExitCode::from(status)
}

// Writes a text to standard output.
fn say(rt: &HostRuntime, text: &str) -> ExitCode {
    match println!(rt; "{text}") {
        Ok(()) => ExitCode::from(0),
        Err(_) => ends(rt, Ending::DiskFailed),
    }
}

fn say_help(rt: &HostRuntime) -> ExitCode {
    match println!(rt; "{USAGE}\n{HELP}") {
        Ok(()) => ExitCode::from(0),
        Err(_) => ends(rt, Ending::DiskFailed),
    }
}

fn main(rt: HostRuntime) -> ExitCode {
    let words = match words_of(&rt) {
        Ok(words) => words,
        Err(ending) => return ends(&rt, ending),
    };
    if is_word(&words, "--help") {
        return say_help(&rt);
    }
    if is_word(&words, "--version") {
        return say(&rt, "davput 0.1.0");
    }
    match runs(&rt, &words) {
        Ok(ending) | Err(ending) => ends(&rt, ending),
    }
}
