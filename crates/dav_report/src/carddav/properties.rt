ghost use Rattle.std.specs.Prelude.{◌≡◌, IfOk};

use crate::carddav::DEFAULT_MAX_RESOURCE_SIZE;
use dav_io::{NoMemory, Text};
use dav_lock::{both, copy_text};
use std::alloc::Global;

/// The properties of an address book collection (RFC 6352 section 6.2). Sizes are in bytes.
#[derive(Drop)]
pub struct AddressBookProperties {
    pub description: Option<Text>,
    pub max_resource_size: Option<u64>,
    pub display_name: Option<Text>,
}

impl AddressBookProperties {
    /// Resources of at most 1 MiB. It takes no memory.
    pub fn defaults(_alloc: Global) -> Result<Self, NoMemory>
        ensures { result
            ≡ Ok (record { description = None; max_resource_size = Some 1048576; display_name = None }) }
    {
        Ok(AddressBookProperties {
            description: None,
            max_resource_size: Some(DEFAULT_MAX_RESOURCE_SIZE),
            display_name: None,
        })
    }

    /// Equal properties. It may be refused for want of memory.
    pub fn try_clone(&self) -> Result<Self, NoMemory>
        ensures { IfOk result (λ copy. copy ≡ self.now) }
    {
        match both(copy_text(&self.description), copy_text(&self.display_name)) {
            Ok((description, display_name)) => Ok(AddressBookProperties {
                description,
                max_resource_size: self.max_resource_size,
                display_name,
            }),
            Err(error) => Err(error),
        }
    }
}
