use dav_io::{Items, Text};

/// A line of a component that says something of it: its name in ASCII capitals, without its parameters, and its value
/// with its escapes as they stand (RFC 5545 section 3.1).
#[derive(Drop)]
pub struct Property {
    pub name: Text,
    pub value: Text,
}

/// Properties in the order of their lines.
pub type Properties = Items<Property>;
