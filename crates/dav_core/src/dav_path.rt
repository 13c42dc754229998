ghost use Rattle.std.specs.Prelude.{◌≡◌, ◌≢◌, ◌↔◌, ◌++◌, ◌∷◌, [], IfOk, IfErr, OnOk, OnErr, Ok, Err, None, true, false, length, option_copied};
ghost use Rattle.http_uri.specs.Uri.{uri_path};
ghost use Rattle.dav_core.specs.DavPath.{WebPath, ends_well, last_name, link_of as the_link_of, shown, type_of_last};
ghost use Rattle.dav_core.specs.Grammar.{fits_prefix, parsed};
ghost use Rattle.dav_core.specs.Path.{all_plain, is_plain, parent_of};

use crate::names::{copied_names, push_shown};
use crate::url::link_of;
use crate::{FsPath, ParseError, content_type, parsing, prefix};
use dav_io::{NoMemory, Text};
use http_uri::Uri;
use std::alloc::Global;
use std::marker::Model;

/// The path of a request: the prefix under which the server stands, the names below it, both plain, and whether a
/// slash ends it. A path without names has a final slash.
#[derive(Drop)]
pub struct DavPath {
    alloc: Global,
    prefix: FsPath,
    names: FsPath,
    slash: bool,
}

impl Model for DavPath {
    ghost use Rattle.std.specs.Prelude.{◌≡◌, true};
    ghost use Rattle.dav_core.specs.DavPath.{WebPath, ends_well};

    ghost Value = { WebPath };

    ghost view = { λ p. record { prefix = p.prefix; names = p.names; slash = p.slash } };

    ghost invariant = { λ p. ends_well (record { prefix = p.prefix; names = p.names; slash = p.slash }) ≡ true };
}

impl DavPath {
    /// The path that a text gives, under no prefix.
    pub fn new(alloc: Global, src: &str) -> Result<DavPath, ParseError>
        ensures ok { IfOk result (λ path. parsed src.now [] ≡ Ok path) }
        ensures err { IfErr result (λ fault. fault ≢ ParseError.NoMemory → parsed src.now [] ≡ Err fault) }
    {
        DavPath::from_str_and_prefix(alloc, src, "")
    }

    /// The path that a text gives under a prefix, or the first fault of the text.
    pub fn from_str_and_prefix(
        alloc: Global,
        src: &str,
        prefix: &str,
    ) -> Result<DavPath, ParseError>
        ensures ok { IfOk result (λ path. parsed src.now prefix.now ≡ Ok path) }
        ensures err { IfErr result (λ fault. fault ≢ ParseError.NoMemory → parsed src.now prefix.now ≡ Err fault) }
    {
        parsing::read(alloc, src, prefix)
    }

    /// The path that the path of a request's target gives under a prefix, or its first fault.
    pub fn from_uri_and_prefix(
        alloc: Global,
        uri: &Uri,
        prefix: &str,
    ) -> Result<DavPath, ParseError>
        ensures ok { IfOk result (λ path. parsed (uri_path uri.now) prefix.now ≡ Ok path) }
        ensures err { IfErr result (λ fault. fault ≢ ParseError.NoMemory
            → parsed (uri_path uri.now) prefix.now ≡ Err fault) }
    {
        DavPath::from_str_and_prefix(alloc, uri.path(), prefix)
    }

    /// Whether a text is a prefix as a server has it: it is empty, or begins with a slash and has plain names. Under
    /// any other no path is found.
    pub fn prefix_fits(prefix: &str) -> bool
        ensures { result ≡ fits_prefix prefix.now }
    {
        prefix::fits(prefix.as_bytes())
    }

    // A path of these parts.
    pub(crate) fn of_parts(alloc: Global, prefix: FsPath, names: FsPath, slash: bool) -> Self
        requires { ends_well (record { prefix = prefix; names = names; slash = slash }) ≡ true }
        ensures { result ≡ record { prefix = prefix; names = names; slash = slash } }
    {
        DavPath {
            alloc,
            prefix,
            names,
            slash,
        }
    }

    /// The names, without the prefix.
    pub fn names(&self) -> &FsPath
        ensures value { result.now ≡ self.now.names }
        ensures root { length self.now.names ≡ 0 → self.now.slash ≡ true }
    {
        &self.names
    }

    /// The names of the prefix.
    pub fn prefix(&self) -> &FsPath
        ensures { result.now ≡ self.now.prefix }
    {
        &self.prefix
    }

    /// Whether it ends with a slash.
    pub fn is_collection(&self) -> bool
        ensures { result ≡ self.now.slash }
    {
        self.slash
    }

    /// Gives it a final slash.
    pub fn add_slash(&mut self)
        ensures { self.new ≡ record self.old { slash = true } }
    {
        self.slash = true;
    }

    /// Adds a plain name, and drops the final slash. Where memory is refused, nothing changes.
    pub fn push_segment(&mut self, name: &str) -> Result<(), NoMemory>
        requires { is_plain name.now ≡ true }
        ensures ok { OnOk result (self.new ≡ record self.old {
          names = self.old.names ++ name.now ∷ [];
          slash = false;
        }) }
        ensures err { OnErr result (self.new ≡ self.old) }
    {
        self.names.push(name)?;
        self.slash = false;
        Ok(())
    }

    /// Takes the last name away, and ends with a slash then. The root stays.
    pub fn pop_segment(&mut self)
        ensures { self.new ≡ record self.old { names = parent_of self.old.names; slash = true } }
    {
        self.names.pop();
        self.slash = true;
    }

    /// The path without its last name, with a final slash. The root's is the root.
    pub fn parent(&self) -> Result<DavPath, NoMemory>
        ensures { IfOk result (λ path. path ≡ record self.now { names = parent_of self.now.names; slash = true }) }
    {
        let names = self.names.as_slice();
        let kept = copied_names(self.alloc, &names[..names.len().saturating_sub(1)])?;
        Ok(DavPath {
            alloc: self.alloc,
            prefix: self.prefix.try_clone()?,
            names: FsPath::new(kept),
            slash: true,
        })
    }

    /// The last name. The root alone has none.
    pub fn file_name(&self) -> Option<&str>
        ensures value { option_copied result ≡ last_name self.now.names }
        ensures root { result ≡ None ↔ (length self.now.names ≡ 0) }
    {
        match self.names.as_slice().last() {
            Some(name) => Some(name.as_str()),
            None => None,
        }
    }

    /// The text of the path with its prefix: a slash before each name, and the final slash.
    pub fn with_prefix(&self) -> Result<Text, NoMemory>
        ensures { IfOk result (λ text. text ≡ shown self.now) }
    {
        let mut text = String::new(self.alloc);
        push_shown(&mut text, self.prefix.as_slice())?;
        push_shown(&mut text, self.names.as_slice())?;
        if self.slash {
            text.push_str("/")?;
        }
        Ok(Text::new(text))
    }

    /// `with_prefix`, percent-encoded: every byte but ASCII letters, digits and `-._~/` is `%` and two digits.
    pub fn as_url_string(&self) -> Result<Text, NoMemory>
        ensures { IfOk result (λ link. link ≡ the_link_of (shown self.now)) }
    {
        let text = self.with_prefix()?;
        link_of(self.alloc, text.as_str())
    }

    /// The content type, by the part of the last name after its last dot.
    pub fn get_mime_type_str(&self) -> &'static str
        ensures { result.now ≡ type_of_last (last_name self.now.names) }
    {
        match self.file_name() {
            Some(name) => content_type(name.as_bytes()),
            None => "application/octet-stream",
        }
    }

    /// A copy, with memory of its own.
    pub fn try_clone(&self) -> Result<Self, NoMemory>
        ensures { IfOk result (λ copy. copy ≡ self.now) }
    {
        Ok(DavPath {
            alloc: self.alloc,
            prefix: self.prefix.try_clone()?,
            names: self.names.try_clone()?,
            slash: self.slash,
        })
    }
}
