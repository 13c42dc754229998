ghost use Rattle.std.specs.Prelude.{◌≡◌, IfOk};

use crate::Names;
use crate::carddav::PropertyFilter;
use dav_io::NoMemory;
use dav_lock::both;

/// Which vCards are asked for, which of their properties, and how many (RFC 6352 section 8.6).
#[derive(Drop)]
pub struct AddressBookQuery {
    pub prop_filter: Option<PropertyFilter>,
    pub properties: Names,
    pub limit: Option<u32>,
}

impl AddressBookQuery {
    /// An equal query. It may be refused for want of memory.
    pub fn try_clone(&self) -> Result<Self, NoMemory>
        ensures { IfOk result (λ copy. copy ≡ self.now) }
    {
        match both(copy_filter(&self.prop_filter), self.properties.try_clone()) {
            Ok((prop_filter, properties)) => Ok(AddressBookQuery {
                prop_filter,
                properties,
                limit: self.limit,
            }),
            Err(error) => Err(error),
        }
    }
}

fn copy_filter(filter: &Option<PropertyFilter>) -> Result<Option<PropertyFilter>, NoMemory>
    ensures { IfOk result (λ copy. copy ≡ filter.now) }
{
    match filter {
        None => Ok(None),
        Some(filter) => Ok(Some(filter.try_clone()?)),
    }
}

/// A report that an address book server is asked for.
#[derive(Drop)]
pub enum CardDavReportType {
    AddressBookQuery(AddressBookQuery),
    /// The vCards at these links (RFC 6352 section 8.7).
    AddressBookMultiget { hrefs: Names },
}

impl CardDavReportType {
    /// An equal report. It may be refused for want of memory.
    pub fn try_clone(&self) -> Result<Self, NoMemory>
        ensures { IfOk result (λ copy. copy ≡ self.now) }
    {
        match self {
            CardDavReportType::AddressBookQuery(query) => {
                Ok(CardDavReportType::AddressBookQuery(query.try_clone()?))
            }
            CardDavReportType::AddressBookMultiget { hrefs } => {
                Ok(CardDavReportType::AddressBookMultiget {
                    hrefs: hrefs.try_clone()?,
                })
            }
        }
    }
}
