use dav_core::DavPath;

// What is still to be removed: what stands at a path, which may be a directory, or a directory that has lost its
// members. The tables alone speak of these: a walk holds what is `Pending`, without paths.
#[derive(Drop)]
pub enum Work {
    Whole(DavPath, bool),
    Emptied(DavPath),
}
