// Plain names.
ghost use Rattle.std.specs.Prelude.{◌≡◌};
ghost use Rattle.std.specs.List.{list_any};
ghost use Rattle.dav_core.specs.Path.{is_plain as the_is_plain, is_dots as the_is_dots, parts_names};

// Whether bytes hold a slash or NUL.
fn has_parting(bytes: &[u8]) -> bool
    ensures { result ≡ list_any parts_names bytes.now }
{
    bytes.iter().any(|b| *b == b'/' || *b == 0)
}

// Whether bytes are `.` or `..`.
pub fn is_dots(bytes: &[u8]) -> bool
    ensures { result ≡ the_is_dots bytes.now }
{
    if bytes == b".".as_slice() {
        return true;
    }
    bytes == b"..".as_slice()
}

/// Whether bytes are a plain name: some bytes, none of them a slash or NUL, that are neither `.` nor `..`.
pub fn is_plain(bytes: &[u8]) -> bool
    ensures { result ≡ the_is_plain bytes.now }
{
    if bytes.is_empty() {
        return false;
    }
    if has_parting(bytes) {
        return false;
    }
    !is_dots(bytes)
}
