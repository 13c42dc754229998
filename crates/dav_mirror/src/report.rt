// What a mirror came to, as it is told beside its lines.
ghost use Rattle.std.specs.Prelude.{◌≡◌, ◌++◌, IfOk, string_bytes};
ghost use Rattle.dav_core.specs.DavPath.{link_of, shown};
ghost use Rattle.dav_mirror.specs.Report.{end_report, error_line, report_line, total_len};

use dav_core::DavPath;
use dav_fetch::{Kept, MirrorError};
use dav_io::{NoMemory, Text};
use std::alloc::Global;

/// What a mirror came to, besides its status.
#[derive(Drop)]
pub enum Report {
    /// All was fetched: so many files, with so many bytes together, up to the greatest `u64`.
    Fetched { files: u64, bytes: u64 },
    /// A call of the disk failed in the body of the reply to this path.
    Broken { path: DavPath },
    /// The fetch ended so.
    Ended(MirrorError),
}

impl Report {
    /// It in words, on one line without an end: how many files and bytes were fetched, or why the fetch ended, and at
    /// which path, percent-encoded as a link. A path that is too long to be asked for is as long here.
    pub fn line(&self, alloc: Global) -> Result<String, NoMemory>
        ensures { IfOk result (λ text. string_bytes text ≡ report_line self.now) }
    {
        match self {
            Report::Fetched { files, bytes } => {
                let files = *files;
                let bytes = *bytes;
                Ok(format!(in alloc; "{files} files, {bytes} bytes")?)
            }
            Report::Broken { path } => broken(alloc, path),
            Report::Ended(error) => line_of(alloc, error),
        }
    }
}

/// Why a fetch ended. Where the peer failed, it is in the body of the last reply, if there was one.
pub(crate) fn ended(error: MirrorError, last: Option<DavPath>) -> Report
    ensures { result ≡ end_report error last }
{
    match error {
        MirrorError::Peer => match last {
            Some(path) => Report::Broken { path },
            None => Report::Ended(MirrorError::Peer),
        },
        other => Report::Ended(other),
    }
}

// The path of a body that broke.
fn broken(alloc: Global, path: &DavPath) -> Result<String, NoMemory>
    ensures { IfOk result (λ text. string_bytes text ≡ report_line (Report.Broken path.now)) }
{
    let link = path.as_url_string()?;
    let link = link.as_str();
    Ok(format!(in alloc; "a call of the disk failed in the body of {link}")?)
}

// An error in words.
fn line_of(alloc: Global, error: &MirrorError) -> Result<String, NoMemory>
    ensures { IfOk result (λ text. string_bytes text ≡ error_line error.now) }
{
    match error {
        MirrorError::Peer => Ok(String::from_str(alloc, "a call of the disk failed in a body")?),
        MirrorError::Refused { path, status } => refused(alloc, path, *status),
        MirrorError::NotAPage { path } => behind(alloc, path, " is answered by no index page"),
        MirrorError::BadReply { path } => behind(
            alloc,
            path,
            " is answered by what can't be of it",
        ),
        MirrorError::Short {
            path,
            got,
            announced,
        } => short(alloc, path, *got, *announced),
        MirrorError::TooLong { path } => behind(alloc, path, " is too long, or its page"),
        MirrorError::Budget { made } => {
            let made = *made;
            Ok(format!(in alloc; "more than {made} requests are due")?)
        }
        MirrorError::NoMemory => Ok(String::from_str(alloc, "memory is refused")?),
    }
}

// A path, and words behind it.
fn behind(alloc: Global, path: &DavPath, words: &str) -> Result<String, NoMemory>
    ensures { IfOk result (λ text. string_bytes text ≡ link_of (shown path.now) ++ words.now) }
{
    let link: Text = path.as_url_string()?;
    let mut text = String::from_str(alloc, link.as_str())?;
    text.push_str(words)?;
    Ok(text)
}

// A status that no page has, or no file.
fn refused(alloc: Global, path: &DavPath, status: u16) -> Result<String, NoMemory>
    ensures { IfOk result (λ text. string_bytes text ≡ error_line (MirrorError.Refused path.now status)) }
{
    let link = path.as_url_string()?;
    let link = link.as_str();
    Ok(format!(in alloc; "{link} is answered {status}")?)
}

// Too few bytes of a file.
fn short(alloc: Global, path: &DavPath, got: u64, announced: u64) -> Result<String, NoMemory>
    ensures { IfOk result (λ text. string_bytes text ≡ error_line (MirrorError.Short path.now got announced)) }
{
    let link = path.as_url_string()?;
    let link = link.as_str();
    Ok(format!(in alloc; "{link} ends behind {got} of {announced} bytes")?)
}

/// How many bytes files have together, up to the greatest `u64`.
pub(crate) fn total_of(files: &[Kept]) -> u64
    ensures { result ≡ total_len files.now }
{
    let mut total = 0u64;
    for file in files {
        total = total.saturating_add(file.len);
    }
    total
}
