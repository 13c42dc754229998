use dav_core::DavPath;

/// What a COPY or MOVE asks for by its fields.
#[derive(Drop)]
pub struct Asked {
    /// Whether it is a MOVE.
    pub moving: bool,
    /// Where it goes.
    pub to: DavPath,
    /// Whether what stands there may go.
    pub replaces: bool,
    /// Whether a directory goes without its members.
    pub alone: bool,
}
