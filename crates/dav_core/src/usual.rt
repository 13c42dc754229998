// The names of a text. Segments are listed only where one begins with a dot, or where a fault is to be told.
ghost use Rattle.std.specs.Prelude.{◌≡◌, ◌≢◌, ◌++◌, ◌∷◌, [], IfOk, IfErr, IfSome, Ok, Err, true};
ghost use Rattle.dav_core.specs.Grammar as grammar;
ghost use Rattle.dav_core.specs.Path.{all_plain};

use crate::ParseError;
use crate::grammar::{decoded, names_in, segments};
use crate::segments::first_segment;
use dav_io::Text;
use std::alloc::Global;

// Pushes what a segment says alone. It is false where the segment begins with a dot or says no name, and where memory
// is refused.
fn push_said(alloc: Global, names: &mut Vec<Text>, segment: &[u8]) -> bool
    ensures { result ≡ true → grammar.and_then (grammar.names_in (segment.now ∷ []))
        (λ said. Ok (names.old.items ++ said)) ≡ Ok names.new.items }
{
    match segment {
        [] => true,
        [b'.', ..] => false,
        _ => match decoded(alloc, segment) {
            Ok(name) => names.push(name).is_ok(),
            Err(_) => false,
        },
    }
}

// The names that a text says, where each segment is one of them or is empty.
fn usual_names(alloc: Global, text: &[u8]) -> Option<Vec<Text>>
    ensures { IfSome result (λ names. grammar.names_in (grammar.segments text.now) ≡ Ok names.items) }
{
    let mut names = Vec::new(alloc);
    let mut rest = Some(text);
    while let Some(left) = rest {
        let (segment, behind) = first_segment(left);
        if !push_said(alloc, &mut names, segment) {
            return None;
        }
        rest = behind;
    }
    Some(names)
}

// The names that a text says, without regard to a prefix.
pub fn names_of(alloc: Global, text: &[u8]) -> Result<Vec<Text>, ParseError>
    ensures ok { IfOk result (λ names. grammar.names_in (grammar.segments text.now) ≡ Ok names.items) }
    ensures err { IfErr result (λ e. e ≢ ParseError.NoMemory → grammar.names_in (grammar.segments text.now) ≡ Err e) }
    ensures plain { IfOk result (λ names. all_plain names.items ≡ true) }
{
    if let Some(names) = usual_names(alloc, text) {
        return Ok(names);
    }
    let segments = segments(alloc, text)?;
    names_in(alloc, segments.as_slice())
}
