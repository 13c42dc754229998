// The first and the last segment of a text, without a list of all.
ghost use Rattle.std.specs.Prelude.{◌≡◌, ◌∷◌, ◌<◌, [], IfSome, Some, length};
ghost use Rattle.std.specs.Option.{option_map_or};
ghost use Rattle.dav_core.specs.DavPath.{last_name};
ghost use Rattle.dav_core.specs.Grammar as grammar;

use crate::grammar::place_of;

// The first segment of a text, and the text behind its slash where it has one.
pub fn first_segment(text: &[u8]) -> (&[u8], Option<&[u8]>)
    ensures cut { grammar.segments text.now
        ≡ result.0.now ∷ option_map_or (λ behind. grammar.segments behind.now) result.1 [] }
    ensures shorter { IfSome result.1 (λ behind. length behind.now < length text.now) }
{
    let (segment, others) = text.split_at(place_of(b'/', text));
    match others {
        [_, behind @ ..] => (segment, Some(behind)),
        [] => (segment, None),
    }
}

// The last segment of a text.
pub fn last_segment(text: &[u8]) -> &[u8]
    ensures { last_name (grammar.segments text.now) ≡ Some result.now }
{
    let mut at = text.len();
    while at > 0 {
        if text[at - 1] == b'/' {
            let (_, last) = text.split_at(at);
            return last;
        }
        at -= 1;
    }
    text
}
