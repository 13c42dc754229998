use dav_core::DavPath;

/// Why a tree wasn't fetched whole.
#[derive(Drop)]
pub enum MirrorError {
    /// A call of the peer failed.
    Peer,
    /// A page's status wasn't 200, or a file's none that its request awaits.
    Refused {
        path: DavPath,
        status: u16,
    },
    /// A body is no index page, or a row leads out of its directory.
    NotAPage {
        path: DavPath,
    },
    /// The head of a file's answer says what can't be of it.
    BadReply {
        path: DavPath,
    },
    /// A body ended after fewer bytes than were announced.
    Short {
        path: DavPath,
        got: u64,
        announced: u64,
    },
    /// A link has more than 65,000 bytes, or a page more than 16,777,216.
    TooLong {
        path: DavPath,
    },
    /// All requests that were allowed are made, and one more is due.
    Budget {
        made: u64,
    },
    NoMemory,
}
