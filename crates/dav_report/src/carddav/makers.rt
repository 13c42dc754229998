ghost use Rattle.std.specs.Prelude.{◌≡◌, [], ◌∷◌, IfOk, codes};
ghost use Rattle.dav_report.specs.Making.{address_data, address_data_type, carddav, holding, home, made};

use crate::carddav::NS_CARDDAV_URI;
use crate::makers::{add_node, make, make_content, make_home};
use dav_io::NoMemory;
use dav_lock::{Element, XmlNode, both};
use std::alloc::Global;

/// A vCard of this version.
fn make_data_type(alloc: Global, version: &str) -> Result<Element, NoMemory>
    ensures { IfOk result (λ e. e ≡ address_data_type version.now) }
{
    make_content(
        alloc,
        NS_CARDDAV_URI,
        "CARD:address-data-type",
        "text/vcard",
        version,
    )
}

/// What an address book takes, with the older version alone.
fn make_older(alloc: Global) -> Result<Element, NoMemory>
    ensures { IfOk result
        (λ e. e
        ≡ made carddav (codes "CARD:supported-address-data") []
        (holding (address_data_type (codes "3.0") ∷ []))) }
{
    let element = make(alloc, NS_CARDDAV_URI, "CARD:supported-address-data");
    match both(element, make_data_type(alloc, "3.0")) {
        Ok((element, older)) => add_node(element, XmlNode::Element(older)),
        Err(error) => Err(error),
    }
}

/// The content that an address book takes (RFC 6352 section 6.2.2).
pub fn create_supported_address_data(alloc: Global) -> Result<Element, NoMemory>
    ensures { IfOk result (λ e. e ≡ address_data) }
{
    match both(make_older(alloc), make_data_type(alloc, "4.0")) {
        Ok((element, newer)) => add_node(element, XmlNode::Element(newer)),
        Err(error) => Err(error),
    }
}

/// Where an owner's address books stand (RFC 6352 section 7.1.1).
pub fn create_addressbook_home_set(
    alloc: Global,
    prefix: &str,
    path: &str,
) -> Result<Element, NoMemory>
    ensures { IfOk result (λ e. e ≡ home carddav (codes "CARD:addressbook-home-set") prefix.now path.now) }
{
    make_home(
        alloc,
        NS_CARDDAV_URI,
        "CARD:addressbook-home-set",
        prefix,
        path,
    )
}
