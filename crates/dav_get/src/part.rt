use dav_io::Octets;
use dav_model::Slice;

/// A part of a body: a text, or bytes of the file that the body has open.
#[derive(Drop)]
pub enum BodyPart {
    Text(Octets),
    Slice(Slice),
}
