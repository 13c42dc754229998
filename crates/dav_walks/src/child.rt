use dav_core::DavPath;
use dav_io::Text;

// A member of a directory: its name and path, and whether it is a directory itself. The tables alone speak of these: a
// walk holds a `Member`, without the path.
#[derive(Drop)]
pub struct Child {
    pub name: Text,
    pub path: DavPath,
    pub dir: bool,
}
