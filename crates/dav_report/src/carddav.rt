//! Address books (RFC 6352).
mod makers;
mod properties;
mod property_filter;
mod query;

pub use makers::{create_addressbook_home_set, create_supported_address_data};
pub use properties::AddressBookProperties;
pub use property_filter::PropertyFilter;
pub use query::{AddressBookQuery, CardDavReportType};

/// The namespace of address book elements (RFC 6352 section 4).
pub const NS_CARDDAV_URI: &str = "urn:ietf:params:xml:ns:carddav";

/// The name of the directory of address books.
pub const DEFAULT_CARDDAV_NAME: &str = "addressbooks";

/// The path of the directory of address books.
pub const DEFAULT_CARDDAV_DIRECTORY: &str = "/addressbooks";

/// The path of the directory of address books, with a final slash.
pub const DEFAULT_CARDDAV_DIRECTORY_ENDSLASH: &str = "/addressbooks/";

/// The greatest size of a resource in an address book, in bytes.
pub const DEFAULT_MAX_RESOURCE_SIZE: u64 = 1024 * 1024;
