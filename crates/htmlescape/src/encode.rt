ghost use Rattle.std.specs.Prelude.{◌≡◌, ◌++◌, IfOk, encode_utf8_all, string_bytes};
ghost use Rattle.htmlescape.specs.declared.alphabet.Alphabet.TheVariants.{Minimal, Attribute};
ghost use Rattle.std.specs.Str.{chars};
ghost use Rattle.htmlescape.specs.Escapes.{encoded, escape_text};
ghost use Rattle.dav_io.specs.Appending.{Appends};

use crate::alphabet::{Alphabet, Escape};
use crate::memory::Growing;
use dav_io::{Failed, NoMemory, Sink, put_all};
use std::alloc::Global;

// Writes a run of characters that stay, and what stands for the one behind it.
fn put_run<W: Sink>(writer: &mut W, run: &[u8], escape: Escape) -> Result<(), Failed>
    ensures { Appends (W.stream writer.old) (run.now ++ escape_text escape) result (W.stream writer.new) }
{
    match put_all(writer, run) {
        Ok(()) => escape.put(writer),
        Err(refused) => Err(refused),
    }
}

// Writes a text with the characters of an alphabet replaced. Runs of the others are written in one piece.
fn encode_to<W: Sink>(alphabet: Alphabet, s: &str, writer: &mut W) -> Result<(), Failed>
    ensures { Appends (W.stream writer.old) (encode_utf8_all (encoded alphabet (chars s.now))) result
        (W.stream writer.new) }
{
    let mut left = s.chars();
    // What is not written yet, and how much of its front stays as it is.
    let mut rest = s.as_bytes();
    let mut run = 0;
    while let Some(c) = left.next() {
        match alphabet.escape(c) {
            None => run += c.len_utf8(),
            Some(escape) => {
                let (plain, behind) = rest.split_at(run);
                match put_run(writer, plain, escape) {
                    Ok(()) => {}
                    Err(refused) => return Err(refused),
                }
                let (_, after) = behind.split_at(c.len_utf8());
                rest = after;
                run = 0;
            }
        }
    }
    put_all(writer, rest)
}

// The same in memory.
fn encode(alloc: Global, alphabet: Alphabet, s: &str) -> Result<String, NoMemory>
    ensures { IfOk result (λ t. string_bytes t ≡ encode_utf8_all (encoded alphabet (chars s.now))) }
{
    let mut text = Growing::new(alloc);
    match encode_to(alphabet, s, &mut text) {
        Ok(()) => Ok(text.into_text()),
        Err(_) => Err(NoMemory),
    }
}

/// Replaces `"`, `&`, `'`, `<`, `>` by `&quot;`, `&amp;`, `&#x27;`, `&lt;`, `&gt;`. All other characters stay.
///
/// The result is safe between tags and in an attribute's value in quotes. In a value without quotes it isn't: there
/// `encode_attribute` is.
pub fn encode_minimal(alloc: Global, s: &str) -> Result<String, NoMemory>
    ensures { IfOk result (λ t. string_bytes t ≡ encode_utf8_all (encoded Minimal (chars s.now))) }
{
    encode(alloc, Alphabet::Minimal, s)
}

/// Replaces what `encode_minimal` does, and each other character below U+0100 that is no ASCII letter or digit by
/// `&#x`, two upper-case hexadecimal digits and `;`. All other characters stay.
pub fn encode_attribute(alloc: Global, s: &str) -> Result<String, NoMemory>
    ensures { IfOk result (λ t. string_bytes t ≡ encode_utf8_all (encoded Attribute (chars s.now))) }
{
    encode(alloc, Alphabet::Attribute, s)
}

/// Writes what `encode_minimal` answers, and takes no memory. At `Failed` a front of it is written, and the writer's
/// count of faults rose.
pub fn encode_minimal_w<W: Sink>(s: &str, writer: &mut W) -> Result<(), Failed>
    ensures { Appends (W.stream writer.old) (encode_utf8_all (encoded Minimal (chars s.now))) result
        (W.stream writer.new) }
{
    encode_to(Alphabet::Minimal, s, writer)
}

/// Writes what `encode_attribute` answers, and takes no memory. At `Failed` a front of it is written, and the writer's
/// count of faults rose.
pub fn encode_attribute_w<W: Sink>(s: &str, writer: &mut W) -> Result<(), Failed>
    ensures { Appends (W.stream writer.old) (encode_utf8_all (encoded Attribute (chars s.now))) result
        (W.stream writer.new) }
{
    encode_to(Alphabet::Attribute, s, writer)
}
