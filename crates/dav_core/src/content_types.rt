// Content types by names.
ghost use Rattle.std.specs.Prelude.{◌≡◌, option_copied};
ghost use Rattle.std.specs.Str.{str_eq_ignore_ascii_case};
ghost use Rattle.dav_core.specs.ContentTypes.{after_dot as the_after_dot, content_type_of, type_in, types, Row};
ghost use Rattle.std.specs.List.{find};

// The part after the last dot.
fn after_dot(name: &[u8]) -> Option<&[u8]>
    ensures { option_copied result ≡ the_after_dot name.now }
{
    let mut at = name.len();
    while at > 0 {
        at -= 1;
        if name[at] == b'.' {
            let (_, part) = name.split_at(at + 1);
            return Some(part);
        }
    }
    None
}

// Whether a part is this word, ASCII case ignored.
fn is_word(word: &str, part: &[u8]) -> bool
    ensures { result ≡ str_eq_ignore_ascii_case word.now part.now }
{
    word.as_bytes().eq_ignore_ascii_case(part)
}

// The type of what is named with this part after its last dot.
fn type_of(part: &[u8]) -> &'static str
    ensures { result.now ≡ type_in (find (λ row. str_eq_ignore_ascii_case row.part part.now) types) }
{
    if is_word("txt", part) {
        return "text/plain";
    }
    if is_word("html", part) {
        return "text/html";
    }
    if is_word("htm", part) {
        return "text/html";
    }
    if is_word("css", part) {
        return "text/css";
    }
    if is_word("js", part) {
        return "text/javascript";
    }
    if is_word("json", part) {
        return "application/json";
    }
    if is_word("xml", part) {
        return "text/xml";
    }
    if is_word("csv", part) {
        return "text/csv";
    }
    if is_word("md", part) {
        return "text/markdown";
    }
    if is_word("ics", part) {
        return "text/calendar";
    }
    if is_word("vcf", part) {
        return "text/vcard";
    }
    if is_word("pdf", part) {
        return "application/pdf";
    }
    if is_word("png", part) {
        return "image/png";
    }
    if is_word("jpg", part) {
        return "image/jpeg";
    }
    if is_word("jpeg", part) {
        return "image/jpeg";
    }
    if is_word("gif", part) {
        return "image/gif";
    }
    if is_word("svg", part) {
        return "image/svg+xml";
    }
    if is_word("mp3", part) {
        return "audio/mpeg";
    }
    if is_word("mp4", part) {
        return "video/mp4";
    }
    if is_word("zip", part) {
        return "application/zip";
    }
    "application/octet-stream"
}

/// The content type of what has this name: by the part after its last dot, ASCII case ignored.
pub fn content_type(name: &[u8]) -> &'static str
    ensures { result.now ≡ content_type_of name.now }
{
    match after_dot(name) {
        Some(part) => type_of(part),
        None => "application/octet-stream",
    }
}
