// The escapes of a link.
ghost use Rattle.std.specs.Prelude.{◌≡◌, ◌++◌, IfOk, OnOk, string_bytes};
ghost use Rattle.dav_core.specs.DavPath.{link_of as the_link_of};

use dav_io::{NoMemory, Text};
use percent_encoding::{AsciiSet, NON_ALPHANUMERIC, ascii_set, percent_encode};
use std::alloc::Global;

// The bytes that a link escapes.
const LINK: AsciiSet = ascii_set!(
    NON_ALPHANUMERIC
        .remove(b'-')
        .remove(b'.')
        .remove(b'_')
        .remove(b'~')
        .remove(b'/')
);

/// Appends the link to a path's text: every byte but ASCII letters, digits and `-._~/` is `%` and two upper-case
/// hexadecimal digits. The links of two texts, one behind the other, are the link of both.
pub fn push_link(link: &mut String, text: &str) -> Result<(), NoMemory>
    ensures { OnOk result (string_bytes link.new ≡ string_bytes link.old ++ the_link_of text.now) }
{
    percent_encode(text.as_bytes(), LINK).append_to(link)?;
    Ok(())
}

/// The link to a path's text, as `push_link` appends it.
pub fn link_of(alloc: Global, text: &str) -> Result<Text, NoMemory>
    ensures { IfOk result (λ link. link ≡ the_link_of text.now) }
{
    let mut link = String::new(alloc);
    push_link(&mut link, text)?;
    Ok(Text::new(link))
}
