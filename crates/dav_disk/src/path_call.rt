// The calls that change what stands at a path.
use dav_core::FsPath;

// A call of a disk that changes what stands at a path.
#[derive(Clone, Copy)]
pub enum PathCall<'a> {
    CreateDir(&'a FsPath),
    RemoveDir(&'a FsPath),
    RemoveFile(&'a FsPath),
    Rename(&'a FsPath, &'a FsPath),
    Copy(&'a FsPath, &'a FsPath),
}
