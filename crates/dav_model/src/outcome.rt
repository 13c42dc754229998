use dav_io::Fields;

/// A status, and header fields in ascending order of their lower-case names.
#[derive(Drop)]
pub struct Outcome {
    pub status: u16,
    pub fields: Fields,
}
