ghost use Rattle.std.specs.Prelude.{◌≡◌};
ghost use Rattle.dav_io.specs.Texts.{spelled};

/// Names of header fields that answers have (RFC 9110), as part of the program.
#[derive(Clone, Copy, Debug, PartialEq, Eq)]
pub enum FieldName {
    AcceptRanges,
    Connection,
    ContentLength,
    ContentRange,
    ContentType,
    Etag,
    LastModified,
    Location,
}

impl FieldName {
    /// The name in lower case.
    pub fn as_str(self) -> &'static str
        ensures { result.now ≡ spelled self }
    {
        match self {
            FieldName::AcceptRanges => "accept-ranges",
            FieldName::Connection => "connection",
            FieldName::ContentLength => "content-length",
            FieldName::ContentRange => "content-range",
            FieldName::ContentType => "content-type",
            FieldName::Etag => "etag",
            FieldName::LastModified => "last-modified",
            FieldName::Location => "location",
        }
    }
}
