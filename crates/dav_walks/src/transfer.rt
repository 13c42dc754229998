use dav_core::DavPath;

// What is still to be copied: what stands at a path, which may be a directory, to another path. The tables alone speak
// of these: a walk holds what is `Pending`, without paths.
#[derive(Drop)]
pub struct Transfer {
    pub from: DavPath,
    pub to: DavPath,
    pub dir: bool,
}
