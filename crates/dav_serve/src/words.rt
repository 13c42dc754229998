// The words of the command line.
ghost use Rattle.std.specs.Prelude.{◌≡◌, ◌≤◌, IfOk, IfSome, None, Some, cond, map, option_map, string_bytes};
ghost use Rattle.dav_model.specs.Unset.{nothing_set};
ghost use Rattle.std.specs.List.{list_all};
ghost use Rattle.dav_serve.specs.Words.{has_names as the_has_names, is_name as the_is_name, is_prefix as the_is_prefix, is_prefix_byte as the_is_prefix_byte, is_switch as the_is_switch, mirror_said as the_mirror_said, number_said as the_number_said, options_set, prefix_said, rules_said, seed_said as the_seed_said, set_by, settings_by, size_said as the_size_said, with_buffer as the_with_buffer, with_index as the_with_index, with_prefix as the_with_prefix, with_switch as the_with_switch, with_value as the_with_value};
ghost use Rattle.std.specs.Option.{option_and_then};
ghost use Rattle.dav_serve.specs.Words.{name_said};

use dav_core::{DavPath, is_plain};
use dav_handler::Settings;
use dav_io::{NoMemory, Text};
use std::alloc::Global;

// The most bytes that a read buffer may have.
const MOST_BUFFER: usize = 1_048_576;

// The greatest number of a large input.
const MOST_SEED: usize = 399;

/// What the options of the command line set.
#[derive(Clone, Copy)]
pub struct Options<'a> {
    /// What each path begins with; empty where nothing is asked.
    pub prefix: &'a str,
    /// A directory is answered with a page of its entries.
    pub autoindex: bool,
    /// The name of the file that stands for its directory.
    pub indexfile: Option<&'a str>,
    /// The most bytes of a file in one piece of a body; 0 is the default, as is none.
    pub bufsize: Option<usize>,
    /// A name may be found that folds like the one asked.
    pub fold: bool,
    /// The rules for clients of macOS hold.
    pub macos: bool,
}

impl Options<'_> {
    /// The settings that they make.
    pub fn settings(&self, alloc: Global) -> Result<Settings, NoMemory>
        ensures { IfOk result (λ settings. settings ≡ settings_by self.now) }
    {
        let mut settings = Settings::defaults(alloc);
        if self.autoindex {
            settings.autoindex = Some(true);
        }
        if let Some(name) = self.indexfile {
            settings.indexfile = Some(Text::copy(alloc, name)?);
        }
        settings.prefix = Text::copy(alloc, self.prefix)?;
        settings.read_buf_size = self.bufsize;
        Ok(settings)
    }
}

/// What the words behind the program's name set, which are `ROOT serve` with a root that isn't empty, and options. None
/// where they aren't understood.
pub fn options_said(words: &[String]) -> Option<Options<'_>>
    ensures { option_map set_by result ≡ rules_said words.now }
{
    match words {
        [root, verb, options @ ..] => {
            if root.as_str().is_empty() {
                return None;
            }
            if verb.as_str() != "serve" {
                return None;
            }
            let none = Options {
                prefix: "",
                autoindex: false,
                indexfile: None,
                bufsize: None,
                fold: false,
                macos: false,
            };
            options_behind(&none, options)
        }
        _ => None,
    }
}

/// The number that the words behind the program's name say of a large input, which are `ROOT bench SEED` with a root
/// that isn't empty. None where they say something else.
pub fn seed_said(words: &[String]) -> Option<u32>
    ensures said { result ≡ the_seed_said words.now }
    ensures few { IfSome result (λ seed. seed ≤ 399) }
{
    match words {
        [root, verb, seed] => {
            if root.as_str().is_empty() {
                return None;
            }
            if verb.as_str() != "bench" {
                return None;
            }
            match number_said(seed.as_str(), MOST_SEED) {
                Some(seed) => Some(seed as u32),
                None => None,
            }
        }
        _ => None,
    }
}

/// Whether the words behind the program's name say that the tree is fetched, which are `ROOT mirror` with a root that
/// isn't empty.
pub fn mirror_said(words: &[String]) -> bool
    ensures { result ≡ the_mirror_said words.now }
{
    match words {
        [root, verb] => {
            if root.as_str().is_empty() {
                return false;
            }
            verb.as_str() == "mirror"
        }
        _ => false,
    }
}

// What options set besides. Each call sets something that wasn't set, so few calls stand in one another.
fn options_behind<'a>(options: &Options<'a>, words: &'a [String]) -> Option<Options<'a>>
    ensures { option_map set_by result ≡ options_set (set_by options.now) None (map string_bytes words.now) }
{
    let Some((word, behind)) = words.split_first() else {
        return Some(*options);
    };
    if is_switch(word.as_str()) {
        let options = with_switch(options, word.as_str())?;
        return options_behind(&options, behind);
    }
    let Some((value, rest)) = behind.split_first() else {
        return None;
    };
    let options = with_value(options, word.as_str(), value.as_str())?;
    options_behind(&options, rest)
}

// Whether a word is an option by itself.
fn is_switch(word: &str) -> bool
    ensures { result ≡ the_is_switch word.now }
{
    word == "--autoindex" || word == "--fold" || word == "--macos"
}

// What is set besides, where it wasn't asked for before.
fn once<'a>(was: bool, more: Options<'a>) -> Option<Options<'a>>
    ensures { result ≡ cond was None (Some more.entry) }
{
    if was {
        return None;
    }
    Some(more)
}

// What an option by itself sets besides.
fn with_switch<'a>(options: &Options<'a>, word: &str) -> Option<Options<'a>>
    ensures { option_map set_by result ≡ the_with_switch (set_by options.now) word.now }
{
    let mut more = *options;
    if word == "--autoindex" {
        more.autoindex = true;
        return once(options.autoindex, more);
    }
    if word == "--fold" {
        more.fold = true;
        return once(options.fold, more);
    }
    more.macos = true;
    once(options.macos, more)
}

// What an option sets besides, by the value behind it.
fn with_value<'a>(options: &Options<'a>, option: &str, value: &'a str) -> Option<Options<'a>>
    ensures { option_map set_by result ≡ the_with_value (set_by options.now) option.now value.now }
{
    if option == "--indexfile" {
        return with_index(options, value);
    }
    if option == "--bufsize" {
        return with_buffer(options, value);
    }
    if option == "--prefix" {
        return with_prefix(options, value);
    }
    None
}

// A plain name for the index file besides, where none was said before.
fn with_index<'a>(options: &Options<'a>, name: &'a str) -> Option<Options<'a>>
    ensures { option_map set_by result ≡ option_and_then (the_with_index (set_by options.now)) (name_said name.now) }
{
    if !is_plain(name.as_bytes()) {
        return None;
    }
    if options.indexfile.is_some() {
        return None;
    }
    Some(Options {
        indexfile: Some(name),
        ..*options
    })
}

// A size of the read buffer besides, where none was said before.
fn with_buffer<'a>(options: &Options<'a>, word: &str) -> Option<Options<'a>>
    ensures { option_map set_by result ≡ option_and_then (the_with_buffer (set_by options.now))
        (the_size_said word.now) }
{
    let size = size_said(word)?;
    if options.bufsize.is_some() {
        return None;
    }
    Some(Options {
        bufsize: Some(size),
        ..*options
    })
}

// A prefix besides, where none was said before.
fn with_prefix<'a>(options: &Options<'a>, prefix: &'a str) -> Option<Options<'a>>
    ensures { option_map set_by result ≡ option_and_then (the_with_prefix (set_by options.now))
        (prefix_said prefix.now) }
{
    if !is_prefix(prefix) {
        return None;
    }
    if !options.prefix.is_empty() {
        return None;
    }
    Some(Options { prefix, ..*options })
}

// A byte that may stand in a prefix.
fn is_prefix_byte(b: u8) -> bool
    ensures { result ≡ the_is_prefix_byte b }
{
    matches!(b, 0x21..=0x7e) && b != b'#' && b != b'%' && b != b'?'
}

fn has_prefix_bytes(word: &[u8]) -> bool
    ensures { result ≡ list_all the_is_prefix_byte word.now }
{
    word.iter().all(|b| is_prefix_byte(*b))
}

// Whether a segment is a name.
fn is_name(segment: &[u8]) -> bool
    ensures { result ≡ the_is_name segment.now }
{
    !segment.is_empty()
}

// Whether a prefix has names.
fn has_names(word: &[u8]) -> bool
    ensures { result ≡ the_has_names word.now }
{
    word.split(|b| *b == b'/').any(|segment| is_name(segment))
}

// Whether a word is a prefix.
fn is_prefix(word: &str) -> bool
    ensures { result ≡ the_is_prefix word.now }
{
    if !has_prefix_bytes(word.as_bytes()) {
        return false;
    }
    if !DavPath::prefix_fits(word) {
        return false;
    }
    has_names(word.as_bytes())
}

// The size of the read buffer that a word says.
fn size_said(word: &str) -> Option<usize>
    ensures { result ≡ the_size_said word.now }
{
    number_said(word, MOST_BUFFER)
}

// The number up to the most that a word says, in decimal digits without sign and leading zeros.
fn number_said(word: &str, most: usize) -> Option<usize>
    ensures said { result ≡ the_number_said most word.now }
    ensures few { IfSome result (λ number. number ≤ most) }
{
    let bytes = word.as_bytes();
    if bytes.is_empty() {
        return None;
    }
    // `parse` takes a sign and leading zeros, too.
    if bytes[0] == b'+' {
        return None;
    }
    if bytes[0] == b'0' && bytes.len() > 1 {
        return None;
    }
    match word.parse::<usize>() {
        Ok(number) if number <= most => Some(number),
        _ => None,
    }
}
