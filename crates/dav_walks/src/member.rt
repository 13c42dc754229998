use crate::name::Name;

/// A member of a directory, without the directory's path: its name, and whether it is a directory itself.
#[derive(Drop)]
pub struct Member {
    pub name: Name,
    pub dir: bool,
}
