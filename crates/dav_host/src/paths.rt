// The text of a path on the machine.
ghost use Rattle.std.specs.Prelude.{◌≡◌, ◌≤◌, ◌+◌, ◌++◌, ◌∷◌, length, true, nat_le, string_bytes, string_capacity};
ghost use Rattle.dav_host.specs.Host.{host_path, room};

use dav_io::Text;

// The most bytes of a path's text.
pub const ROOM: usize = 8192;

// Appends a part that fits into the room.
fn push_part(path: &mut String, part: &str) -> bool
    requires { room ≤ string_capacity path.old }
    ensures room { room ≤ string_capacity path.new }
    ensures done { result ≡ true → string_bytes path.new ≡ string_bytes path.old ++ part.now }
    ensures fits { result ≡ nat_le (length (string_bytes path.old) + length part.now) room }
{
    if path.len() > ROOM || part.len() > ROOM - path.len() {
        return false;
    }
    path.push_str(part).is_ok()
}

// Appends a slash and a name that fit into the room.
fn push_name(path: &mut String, name: &str) -> bool
    requires { room ≤ string_capacity path.old }
    ensures room { room ≤ string_capacity path.new }
    ensures done { result ≡ true → string_bytes path.new ≡ string_bytes path.old ++ (47 ∷ name.now) }
    ensures fits { result ≡ nat_le (length (string_bytes path.old) + (1 + length name.now)) room }
{
    if !push_part(path, "/") {
        return false;
    }
    push_part(path, name)
}

// Makes `path` the text of these names below a root. False where it has more bytes than the room.
pub fn lay_path(path: &mut String, root: &str, names: &[Text]) -> bool
    requires { room ≤ string_capacity path.old }
    ensures room { room ≤ string_capacity path.new }
    ensures done { result ≡ true → string_bytes path.new ≡ host_path root.now names.now }
    ensures fits { result ≡ nat_le (length (host_path root.now names.now)) room }
{
    path.clear();
    if !push_part(path, root) {
        return false;
    }
    for name in names {
        if !push_name(path, name.as_str()) {
            return false;
        }
    }
    true
}
