ghost use Rattle.std.specs.Prelude.{◌≡◌, ◌||◌, ◌∷◌, [], codes};
ghost use Rattle.dav_core.specs.DavPath.{last_name};
ghost use Rattle.dav_core.specs.Listing.{or_empty};
ghost use Rattle.dav_core.specs.Path.{same_names};
ghost use Rattle.dav_model.specs.Folds.{is_dot};
ghost use Rattle.dav_model.specs.Finding as finding;
ghost use Rattle.dav_local.specs.Ways.{is_judged as the_is_judged, is_known as the_is_known, rules_of};

use dav_core::{DavPath, FsPath};

/// How a local store finds what paths name.
#[derive(Drop)]
pub struct Ways {
    /// The file that every path names, where one is served alone.
    pub alone: Option<FsPath>,
    /// Whether a name may be found that folds like the one asked.
    pub folds: bool,
    /// Whether the rules for clients of macOS hold.
    pub macos: bool,
}

impl Ways {
    /// Whether the path is one of the two files that clients of macOS look for in the root, as it is written. It takes
    /// no memory.
    pub fn is_virtual(&self, path: &DavPath) -> bool
        ensures { result ≡ finding.is_virtual (rules_of self.now) path.now }
    {
        self.macos && (!path.is_collection() && is_looked_for(path.names()))
    }

    /// Whether what is made, opened or removed at the path is forbidden: the two files, and a last name `.localized`.
    /// It takes no memory.
    pub fn is_forbidden(&self, path: &DavPath) -> bool
        ensures { result ≡ finding.is_forbidden (rules_of self.now) path.now }
    {
        self.is_virtual(path) || (self.macos && is_localized(path.names()))
    }

    /// Whether a path is found without the disk: where every path names one file, and where no name folds.
    pub(crate) fn is_known(&self) -> bool
        ensures { result ≡ the_is_known self.now }
    {
        self.alone.is_some() || !self.folds
    }

    /// Whether the rules for clients of macOS say of a place that was found whether it is absent, or the memory does.
    pub(crate) fn is_judged(&self, at: &FsPath) -> bool
        ensures { result ≡ the_is_judged self.now at.now }
    {
        self.macos && (is_dot_name(at) || is_localized(at))
    }

    /// Whether a final slash of the path is looked at: not where every path names one file.
    pub fn has_slash(&self, path: &DavPath) -> bool
        ensures { result ≡ finding.has_slash self.now.alone path.now }
    {
        match &self.alone {
            Some(_) => false,
            None => path.is_collection(),
        }
    }
}

// Whether the path has one of the two names alone.
fn is_looked_for(path: &FsPath) -> bool
    ensures { result ≡ (same_names path.now (codes ".metadata_never_index" ∷ [])
        || same_names path.now (codes ".ql_disablethumbnails" ∷ [])) }
{
    is_alone(path, b".metadata_never_index") || is_alone(path, b".ql_disablethumbnails")
}

// Whether a path has this name alone.
#[tactic(auto, using(crate::proofs::OneName::one_name, crate::proofs::OneName::other_names))]
fn is_alone(path: &FsPath, name: &[u8]) -> bool
    ensures { result ≡ same_names path.now (name.now ∷ []) }
{
    match path.as_slice() {
        [only] => only.as_slice() == name,
        _ => false,
    }
}

// Whether the last name is `.localized`.
pub fn is_localized(path: &FsPath) -> bool
    ensures { result ≡ finding.is_localized path.now }
{
    match path.as_slice().last() {
        Some(name) => name.as_slice() == b".localized".as_slice(),
        None => false,
    }
}

// Whether the last name begins with `._`.
pub fn is_dot_name(path: &FsPath) -> bool
    ensures { result ≡ is_dot (or_empty (last_name path.now)) }
{
    match path.as_slice().last() {
        Some(name) => begins_dot(name.as_slice()),
        None => false,
    }
}

// Whether the bytes of a name begin with `._`.
fn begins_dot(name: &[u8]) -> bool
    ensures { result ≡ is_dot name.now }
{
    match name {
        [a, b, ..] => *a == b'.' && *b == b'_',
        _ => false,
    }
}
