//! What the words behind the program's name ask for.
ghost use Rattle.std.specs.Prelude.{◌≡◌, IfErr};
ghost use Rattle.std.specs.List.{list_any};
ghost use Rattle.dav_put.specs.declared.words.Task.TheVariants.{Store, Sweep};
ghost use Rattle.dav_put.specs.Ending.{IsUnsaid};
ghost use Rattle.dav_put.specs.Words.{IsPathSaid, IsSaid, asked_of, is_question, older_asked, path_alone, seconds_said as the_seconds_said, sweep_of, task_behind as the_task_behind, task_said as the_task_said};

use crate::ending::Ending;
use dav_core::{DavPath, ParseError};
use std::alloc::Global;

// How many seconds a sweep goes back where none are said: an hour.
const HOUR: u32 = 3_600;

/// What the words behind the program's name ask for.
#[derive(Drop)]
pub enum Task {
    /// The input is stored at a path.
    Store(DavPath),
    /// A directory is swept of what was left more than so many seconds ago.
    Sweep { dir: DavPath, older: u32 },
}

// Whether a word has a query.
fn has_query(word: &str) -> bool
    ensures { result ≡ list_any is_question word.now }
{
    word.as_bytes().iter().any(|byte| *byte == b'?')
}

// The path that a word says, as a request's target would, with no query.
fn path_said(alloc: Global, word: &str) -> Result<DavPath, Ending>
    ensures said { IsPathSaid (path_alone word.now) result }
    ensures err { IfErr result IsUnsaid }
{
    if has_query(word) {
        return Err(Ending::Words);
    }
    match DavPath::new(alloc, word) {
        Ok(path) => Ok(path),
        Err(ParseError::NoMemory) => Err(Ending::NoMemory),
        Err(_) => Err(Ending::Words),
    }
}

// The number of seconds that a word says.
fn seconds_said(word: &str) -> Option<u32>
    ensures { result ≡ the_seconds_said word.now }
{
    word.parse::<u32>().ok()
}

// The input is stored at a path.
fn store_said(alloc: Global, path: &str) -> Result<Task, Ending>
    ensures said { IsSaid (asked_of Store (path_alone path.now)) result }
    ensures err { IfErr result IsUnsaid }
{
    match path_said(alloc, path) {
        Ok(path) => Ok(Task::Store(path)),
        Err(ending) => Err(ending),
    }
}

// A directory is swept.
fn sweep_said(alloc: Global, dir: &str, older: u32) -> Result<Task, Ending>
    ensures said { IsSaid (asked_of (sweep_of older) (path_alone dir.now)) result }
    ensures err { IfErr result IsUnsaid }
{
    match path_said(alloc, dir) {
        Ok(dir) => Ok(Task::Sweep { dir, older }),
        Err(ending) => Err(ending),
    }
}

// A directory is swept of what is older than so many seconds.
fn older_said(alloc: Global, dir: &str, option: &str, seconds: &str) -> Result<Task, Ending>
    ensures said { IsSaid (older_asked dir.now option.now seconds.now) result }
    ensures err { IfErr result IsUnsaid }
{
    if option != "--older" {
        return Err(Ending::Words);
    }
    match seconds_said(seconds) {
        Some(older) => sweep_said(alloc, dir, older),
        None => Err(Ending::Words),
    }
}

// What the words behind a root ask for.
fn task_behind(alloc: Global, words: &[String]) -> Result<Task, Ending>
    ensures said { IsSaid (the_task_behind words.now) result }
    ensures err { IfErr result IsUnsaid }
{
    match words {
        [path] => store_said(alloc, path.as_str()),
        [verb, dir] => {
            if verb.as_str() != "--sweep" {
                return Err(Ending::Words);
            }
            sweep_said(alloc, dir.as_str(), HOUR)
        }
        [verb, dir, option, seconds] => {
            if verb.as_str() != "--sweep" {
                return Err(Ending::Words);
            }
            older_said(alloc, dir.as_str(), option.as_str(), seconds.as_str())
        }
        _ => Err(Ending::Words),
    }
}

/// What the words behind the program's name ask for, which are `ROOT PATH`, `ROOT --sweep DIR`, or `ROOT --sweep DIR
/// --older SECONDS`, with a root that isn't empty, and each path as the target of a request says it, without a query. A
/// sweep goes an hour back where no seconds are said.
///
/// Errors: `Words` exactly where they say something else; `NoMemory`.
pub fn task_said(alloc: Global, words: &[String]) -> Result<Task, Ending>
    ensures said { IsSaid (the_task_said words.now) result }
    ensures err { IfErr result IsUnsaid }
{
    match words {
        [root, behind @ ..] => {
            if root.as_str().is_empty() {
                return Err(Ending::Words);
            }
            task_behind(alloc, behind)
        }
        _ => Err(Ending::Words),
    }
}
