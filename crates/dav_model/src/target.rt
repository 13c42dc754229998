use dav_core::{DavMethod, DavPath};

/// What a request asks for, as far as it can be told without the disk.
#[derive(Drop)]
pub enum Target {
    /// What stands at this path, by GET or HEAD.
    At { method: DavMethod, path: DavPath },
    /// What a method makes of this path: one that writes.
    Writes { method: DavMethod, path: DavPath },
    /// Which methods are answered, by OPTIONS. The path counts for nothing.
    Methods,
    /// Nothing: it is refused with this status, and the connection closes where `close` is set.
    Refused { status: u16, close: bool },
}
