// Hidden names.
ghost use Rattle.std.specs.Prelude.{◌≡◌, IfOk};
ghost use Rattle.std.specs.List.{list_all};
ghost use Rattle.dav_upload.specs.Names.{begins_hidden as the_begins_hidden, hidden_name as the_hidden_name, is_digit as the_is_digit, is_hidden as the_is_hidden, is_taken as the_is_taken};
ghost use Rattle.dav_upload.specs.Uploading.{named_for};

use dav_core::DavPath;
use dav_io::{NoMemory, Text};
use std::alloc::Global;

const FRONT: &str = ".upload-";

// Whether a name begins as each hidden name does.
fn begins_hidden(name: &[u8]) -> bool
    ensures { result ≡ the_begins_hidden name.now }
{
    name.starts_with(b".upload-")
}

// A lower-case hexadecimal digit.
fn is_digit(c: u8) -> bool
    ensures { result ≡ the_is_digit c }
{
    (48 <= c && c <= 57) || (97 <= c && c <= 102)
}

fn are_digits(text: &[u8]) -> bool
    ensures { result ≡ list_all the_is_digit text.now }
{
    text.iter().all(|c| is_digit(*c))
}

/// Whether a name is hidden: `.upload-` and 16 lower-case hexadecimal digits.
pub fn is_hidden(name: &str) -> bool
    ensures { result ≡ the_is_hidden name.now }
{
    let bytes = name.as_bytes();
    bytes.len() == 24 && begins_hidden(bytes) && are_digits(&bytes[8..])
}

/// Whether the last name of a target begins as hidden names do, so that nothing may be uploaded to it.
pub fn is_taken(target: &DavPath) -> bool
    ensures { result ≡ the_is_taken target.now }
{
    match target.file_name() {
        Some(name) => begins_hidden(name.as_bytes()),
        None => false,
    }
}

// The hidden name of a token.
fn hidden_name(alloc: Global, token: u64) -> Result<Text, NoMemory>
    ensures { IfOk result (λ name. name ≡ the_hidden_name token) }
{
    let digits = hex::encode(alloc, token.to_be_bytes())?;
    let mut name = String::from_str(alloc, FRONT)?;
    name.push_str(digits.as_str())?;
    Ok(Text::new(name))
}

// What an upload is named by: its target, its hidden path, and the last name of that.
#[derive(Drop)]
pub struct Named {
    pub target: DavPath,
    pub hidden: DavPath,
    pub name: Text,
}

// The names of an upload of a target.
pub fn names_of(alloc: Global, target: &DavPath, token: u64) -> Result<Named, NoMemory>
    ensures { IfOk result (λ n. n ≡ named_for target.now token) }
{
    let name = hidden_name(alloc, token)?;
    let mut hidden = target.parent()?;
    hidden.push_segment(name.as_str())?;
    Ok(Named {
        target: target.try_clone()?,
        hidden,
        name,
    })
}
