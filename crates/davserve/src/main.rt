//! The program: it serves a folder to the requests on standard input, and writes the answers to standard output, or
//! plays a large input of its own, and writes what was counted, or lists the files of a folder as a client fetches them.
#![tactic(auto)]

use dav_host::{HostDisk, StdSink, StdSource, SystemClock};
use dav_io::NoMemory;
use dav_serve::run::{Report, run};
use std::io::ErrorKind;
use std::process::ExitCode;
use std::{env, fs, io};

const USAGE: &str =
    "usage: davserve ROOT serve [OPTION].., or davserve ROOT bench SEED, or davserve ROOT mirror";

// What `--help` says behind the usage.
const HELP: &str = "
  ROOT serve          serves the folder ROOT to the requests on standard input, and answers on standard output
  ROOT bench SEED     plays a large input, made from the number SEED from 0 to 399, over a disk in memory
  ROOT mirror         fetches the folder ROOT page by page and file by file, as a client would, and writes a line for
                      each file: its length and its link; names that begin with a dot are left out. On standard error
                      it says how many files and bytes these are, or why it ended, and where at a path, at which

Options of serve, in any order, each at most once:
  --autoindex         a directory is answered with a page of its entries
  --indexfile NAME    the file of this name stands for its directory, which is 404 without one
  --prefix P          the folder stands under this path, as /dav; all other paths are 404
  --fold              a name that doesn't stand in a directory as it is asked is found where it folds alike
  --macos             the rules for clients of macOS hold
  --bufsize N         most bytes of a file in one piece of a body, up to 1048576; 0, the default, is 16384

It writes: whoever gives it requests may read, change and remove what the folder has.

Alone, as the only word:
  --help              this text
  --version           the name and its version

Status: 0 answered, 2 the words are not understood, 3 reading, 4 writing, or 5 the disk failed, 6 the input is no
valid request, 7 too many bytes were read, 8 the folder cannot be fetched, 101 out of memory.";

// What stands in the words behind the program's name.
enum Arguments {
    Are(Vec<String>),
    // They aren't text.
    NotText,
    NoMemory,
}

fn words_of(rt: &HostRuntime) -> Arguments {
    let mut args = match env::args(rt) {
        Ok(args) => args,
        Err(error) if error.kind() == ErrorKind::InvalidData => return Arguments::NotText,
        Err(_) => return Arguments::NoMemory,
    };
    let _program = args.next();
    match args.collect(rt.alloc()) {
        Ok(words) => Arguments::Are(words),
        Err(_) => Arguments::NoMemory,
    }
}

// Whether the words are this one alone.
fn is_word(words: &[String], word: &str) -> bool {
    match words {
        [only] => only.as_str() == word,
        _ => false,
    }
}

// The folder that is served or fetched, or none.
fn root_of(words: &[String]) -> &str {
    match words.first() {
        Some(root) => root.as_str(),
        None => "",
    }
}

// Whether a folder can be seen at a path.
fn is_folder(rt: &HostRuntime, path: &str) -> bool {
    match fs::metadata(rt, path) {
        Ok(found) => found.is_dir(),
        Err(_) => false,
    }
}

// Says in a line where no folder stands that is to be served. It is served all the same, since one may come.
fn warn(rt: &HostRuntime, words: &[String]) {
    if let [root, verb, ..] = words {
        if verb.as_str() == "serve" && !is_folder(rt, root.as_str()) {
            let _ = eprintln!(rt;
                "davserve: no folder can be seen at {root:?}: nothing is found there until there is one"
            );
        }
    }
}

// Makes the outside, and runs over it. What a fetch came to is reported.
fn serve(rt: &HostRuntime, words: &[String], report: &mut Option<Report>) -> Result<u8, NoMemory> {
    let mut disk = HostDisk::new(rt.alloc(), rt, root_of(words))?;
    let mut source = StdSource::new(rt.reader());
    let mut sink = StdSink::new(io::writer(rt));
    let mut clock = SystemClock::new(rt);
    run(
        rt.alloc(),
        words,
        &mut source,
        &mut sink,
        &mut disk,
        &mut clock,
        report,
    )
}

// Says in a line what a fetch came to, where there was one: what was fetched, or at which path it ended and why.
fn tell(rt: &HostRuntime, report: &Option<Report>) {
    if let Some(report) = report {
        if let Ok(line) = report.line(rt.alloc()) {
            let _ = eprintln!(rt; "davserve: {line}");
        }
    }
}

// What a status says, in a line.
fn line_of(status: u8) -> &'static str {
    match status {
        2 => "davserve: the words are not understood; davserve --help tells them",
        3 => "davserve: reading the requests failed",
        4 => "davserve: writing the answers failed",
        5 => "davserve: the disk failed in the middle of a body",
        6 => "davserve: the input is no valid request",
        7 => "davserve: too many bytes were read",
        8 => "davserve: no folder is there, or a page or a file of it can't be had",
        _ => "",
    }
}

fn ends(rt: &HostRuntime, status: u8) -> ExitCode {
    if status > 1 {
        let _ = eprintln!(rt; "{}", line_of(status));
    }
    ExitCode::from(status)
}

// Names the words that aren't understood, in one line whatever they hold, and those that are.
fn refuses(rt: &HostRuntime, words: &[String]) -> ExitCode {
    let _ = match words.join(rt.alloc(), " ") {
        Ok(text) => eprintln!(rt;
            "davserve: not understood: {text:?}; {USAGE}; davserve --help tells more"
        ),
        Err(_) => eprintln!(rt; "{}", line_of(2)),
    };
    ExitCode::from(2)
}

fn say(rt: &HostRuntime, text: &str) -> ExitCode {
    match println!(rt; "{text}") {
        Ok(()) => ExitCode::from(0),
        Err(_) => ends(rt, 4),
    }
}

fn say_help(rt: &HostRuntime) -> ExitCode {
    match println!(rt; "{USAGE}\n{HELP}") {
        Ok(()) => ExitCode::from(0),
        Err(_) => ends(rt, 4),
    }
}

fn main(rt: HostRuntime) -> ExitCode {
    let words = match words_of(&rt) {
        Arguments::Are(words) => words,
        Arguments::NotText => return ends(&rt, 2),
        Arguments::NoMemory => {
            let _ = eprintln!(rt; "davserve: out of memory");
            return ExitCode::from(101);
        }
    };
    if is_word(&words, "--help") {
        return say_help(&rt);
    }
    if is_word(&words, "--version") {
        return say(&rt, "davserve 0.1.0");
    }
    warn(&rt, &words);
    let mut report = None;
    match serve(&rt, &words, &mut report) {
        Ok(2) => refuses(&rt, &words),
        Ok(status) => {
            tell(&rt, &report);
            ends(&rt, status)
        }
        Err(_) => {
            let _ = eprintln!(rt; "davserve: out of memory");
            ExitCode::from(101)
        }
    }
}
