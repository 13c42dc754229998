// The lines that are written of a copy.
ghost use Rattle.std.specs.Prelude.{◌≡◌, ◌++◌, IfOk, OnOk, string_bytes};
ghost use Rattle.dav_core.specs.DavPath.{link_of as the_link_of, slashed};
ghost use Rattle.dav_mirror.specs.Lines.{line_of, lines_of};
ghost use Rattle.std.specs.Prelude.{flat_map};

use dav_core::{FsPath, link_of};
use dav_fetch::Kept;
use dav_io::{NoMemory, Text};
use std::alloc::Global;

// The link of a file: a slash before each of its names, percent-encoded.
fn link_to(alloc: Global, path: &FsPath) -> Result<Text, NoMemory>
    ensures { IfOk result (λ link. link ≡ the_link_of (flat_map slashed path.now)) }
{
    let mut text = String::new(alloc);
    for name in path.as_slice() {
        text.push_str("/")?;
        text.push_str(name.as_str())?;
    }
    link_of(alloc, text.as_str())
}

// Adds the line of a file.
fn add_line(alloc: Global, text: &mut String, file: &Kept) -> Result<(), NoMemory>
    ensures { OnOk result (string_bytes text.new ≡ string_bytes text.old ++ line_of file.now) }
{
    let len = file.len;
    let target = link_to(alloc, &file.path)?;
    let link = target.as_str();
    let line = format!(in alloc; "{len} {link}\n")?;
    text.push_str(line.as_str())?;
    Ok(())
}

/// The lines of files, in their order.
pub(crate) fn text_of(alloc: Global, files: &[Kept]) -> Result<String, NoMemory>
    ensures { IfOk result (λ text. string_bytes text ≡ lines_of files.now) }
{
    let mut text = String::new(alloc);
    for file in files {
        add_line(alloc, &mut text, file)?;
    }
    Ok(text)
}
