//! The text of a lock's token.
ghost use Rattle.std.specs.Prelude.{◌≡◌, IfOk, option_copied};
ghost use Rattle.dav_lock.specs.Tokens.{depth_of, scope_of, token_of, first_part, later_parts, is_deep, is_shared};

use dav_io::{NoMemory, Text};
use std::alloc::Global;
use uuid::Uuid;

fn depth_text(deep: bool) -> &'static str
    ensures { result.now ≡ depth_of deep }
{
    if deep { "I" } else { "0" }
}

fn scope_text(shared: bool) -> &'static str
    ensures { result.now ≡ scope_of shared }
{
    if shared { "S" } else { "E" }
}

/// The token of a lock of this id: its depth and its scope stand after it.
pub(crate) fn write_token(
    alloc: Global,
    id: Uuid,
    deep: bool,
    shared: bool,
) -> Result<Text, NoMemory>
    ensures { IfOk result (λ token. token ≡ token_of id deep shared) }
{
    let depth = depth_text(deep);
    let scope = scope_text(shared);
    Ok(Text::new(format!(in alloc; "opaquetoken:{id}/{depth}/{scope}")?))
}

/// The text up to its first slash.
fn read_first(text: &str) -> &str
    ensures { result.now ≡ first_part text.now }
{
    match text.split_once('/') {
        Some((first, _)) => first,
        None => text,
    }
}

/// What follows the first slash.
fn read_later(text: &str) -> Option<&str>
    ensures { option_copied result ≡ later_parts text.now }
{
    match text.split_once('/') {
        Some((_, later)) => Some(later),
        None => None,
    }
}

/// Whether the second part of the token says that the lock is deep.
pub(crate) fn read_deep(token: &str) -> bool
    ensures { result ≡ is_deep token.now }
{
    match read_later(token) {
        Some(parts) => read_first(parts) == "I",
        None => false,
    }
}

/// Whether the third part of the token says that the lock is shared.
pub(crate) fn read_shared(token: &str) -> bool
    ensures { result ≡ is_shared token.now }
{
    match read_later(token) {
        Some(parts) => match read_later(parts) {
            Some(last) => read_first(last) == "S",
            None => false,
        },
        None => false,
    }
}
