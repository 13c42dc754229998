ghost use Rattle.std.specs.Prelude.{◌≡◌, ◌<◌, IfOk};
ghost use Rattle.dav_model.specs.Bodies.{read_size_of};

use dav_core::DavMethodSet;
use dav_io::{NoMemory, Text, TryClone};
use std::alloc::Global;

/// What the owner of a server may set. What isn't set has its default.
#[derive(Drop)]
pub struct Settings {
    /// The path under which the server stands; empty for the root.
    pub prefix: Text,
    /// The methods that are answered.
    pub allow: Option<DavMethodSet>,
    /// Who asks.
    pub principal: Option<Text>,
    pub hide_symlinks: Option<bool>,
    /// Whether a directory is answered with a page of its entries. Where it isn't set, it is where PROPFIND is among
    /// the methods of `allow`.
    pub autoindex: Option<bool>,
    /// The name of the file that stands for its directory. Under a name that isn't plain none stands.
    pub indexfile: Option<Text>,
    /// The most bytes of a file in one piece of a body; 0 is the default, 16,384.
    pub read_buf_size: Option<usize>,
    /// Whether a file's redirect address is answered in its place.
    pub redirect: Option<bool>,
}

impl Settings {
    ghost use Rattle.dav_model.specs.Unset.{nothing_set};

    /// Nothing is set.
    pub fn defaults(alloc: Global) -> Settings
        ensures { result ≡ nothing_set }
    {
        Settings {
            prefix: Text::new(String::new(alloc)),
            allow: None,
            principal: None,
            hide_symlinks: None,
            autoindex: None,
            indexfile: None,
            read_buf_size: None,
            redirect: None,
        }
    }

    /// The most bytes of a file in one piece of a body.
    pub fn read_size(&self) -> usize
        ensures value { result ≡ read_size_of self.now.read_buf_size }
        ensures some { 0 < result }
    {
        match self.read_buf_size {
            Some(size) if size > 0 => size,
            _ => 16_384,
        }
    }
}

impl TryClone for Settings {
    fn try_clone(&self) -> Result<Self, NoMemory>
        ensures { IfOk result (λ copy. copy ≡ self.now) }
    {
        Ok(Settings {
            prefix: self.prefix.try_clone()?,
            allow: self.allow,
            principal: copied(&self.principal)?,
            hide_symlinks: self.hide_symlinks,
            autoindex: self.autoindex,
            indexfile: copied(&self.indexfile)?,
            read_buf_size: self.read_buf_size,
            redirect: self.redirect,
        })
    }
}

fn copied(text: &Option<Text>) -> Result<Option<Text>, NoMemory>
    ensures { IfOk result (λ copy. copy ≡ text.now) }
{
    match text {
        Some(text) => Ok(Some(text.try_clone()?)),
        None => Ok(None),
    }
}
