ghost use Rattle.std.specs.Prelude.{◌≡◌, false, IfOk, option_map};
ghost use Rattle.dav_core.specs.declared.etag.ETag.{ETag};

use crate::DavMetaData;
use dav_io::{NoMemory, Octets, Text};
use std::alloc::Global;

/// An entity tag (RFC 9110 section 8.8.3): whether it is weak, and the text between its quotes.
#[derive(Drop)]
pub struct ETag {
    pub weak: bool,
    pub tag: Octets,
}

impl ETag {
    /// The strong tag of what metadata speaks of. None exactly where it has none.
    pub fn from_meta<M: DavMetaData>(alloc: Global, meta: &M) -> Result<Option<ETag>, NoMemory>
        ensures { IfOk result (λ tag. tag ≡ option_map (λ text. record { weak = false; tag = text })
            (M.info meta.now).tag) }
    {
        match meta.etag(alloc)? {
            Some(text) => Ok(Some(ETag {
                weak: false,
                tag: octets_of(alloc, &text)?,
            })),
            None => Ok(None),
        }
    }
}

// The bytes of a text.
fn octets_of(alloc: Global, text: &Text) -> Result<Octets, NoMemory>
    ensures { IfOk result (λ bytes. bytes ≡ text.now) }
{
    let mut bytes = Octets::empty(alloc);
    bytes.extend(text.as_slice())?;
    Ok(bytes)
}
