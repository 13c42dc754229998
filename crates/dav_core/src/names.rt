// Lists of names.
ghost use Rattle.std.specs.Prelude.{◌≡◌, ◌++◌, IfOk, OnOk, string_bytes};
ghost use Rattle.std.specs.List.{flat_map};
ghost use Rattle.dav_core.specs.DavPath.{slashed};

use dav_io::{NoMemory, Text};
use std::alloc::Global;

/// A copy of names, with memory of its own.
pub fn copied_names(alloc: Global, names: &[Text]) -> Result<Vec<Text>, NoMemory>
    ensures { IfOk result (λ copy. copy.items ≡ names.now) }
{
    let mut copy = Vec::new(alloc);
    for name in names {
        copy.push(name.try_clone()?)?;
    }
    Ok(copy)
}

// Appends names with a slash before each.
pub fn push_shown(text: &mut String, names: &[Text]) -> Result<(), NoMemory>
    ensures { OnOk result (string_bytes text.new ≡ string_bytes text.old ++ flat_map slashed names.now) }
{
    for name in names {
        text.push_str("/")?;
        text.push_str(name.as_str())?;
    }
    Ok(())
}
