use dav_core::FsPath;

/// An entry of the path cache: where a path was found, and when it was put, in whole seconds since 1970-01-01 UTC.
#[derive(Drop)]
pub struct PathEntry {
    pub path: FsPath,
    pub secs: u64,
}
