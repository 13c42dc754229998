ghost use Rattle.std.specs.Prelude.{◌≡◌, IfOk, option_copied};

use dav_io::{Items, NoMemory, Text};

/// Texts in their order, as the names of properties or links.
pub type Names = Items<Text>;

/// A copy of the text that is pointed to, where there is one.
pub(crate) fn copy_reference(text: Option<&Text>) -> Result<Option<Text>, NoMemory>
    ensures { IfOk result (λ copy. copy ≡ option_copied text.entry) }
{
    match text {
        None => Ok(None),
        Some(text) => Ok(Some(text.try_clone()?)),
    }
}
