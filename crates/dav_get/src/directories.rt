// What is answered for a directory before anything in it is opened.
ghost use Rattle.std.specs.Prelude.{◌≡◌, IfOk, true};
ghost use Rattle.dav_core.specs.DavPath.{link_of, shown};
ghost use Rattle.dav_core.specs.Path.{is_plain};
ghost use Rattle.dav_model.specs.Due.{has_propfind as the_has_propfind, index_path as the_index_path, may_list as the_may_list};
ghost use Rattle.dav_model.specs.Head.{with_slash as the_with_slash};
ghost use Rattle.dav_get.specs.Table.{directed_outcome};

use dav_core::{DavMethod, DavMethodSet, DavPath};
use dav_io::{FieldName, Fields, NoMemory, Text, add_field};
use dav_model::{Outcome, Settings};
use std::alloc::Global;

/// The path of a file of this name in the directory.
pub(crate) fn index_path(path: &DavPath, name: &Text) -> Result<DavPath, NoMemory>
    requires { is_plain name.now ≡ true }
    ensures { IfOk result (λ index. index ≡ the_index_path path.now name.now) }
{
    let mut index = path.try_clone()?;
    index.push_segment(name.as_str())?;
    Ok(index)
}

// The link of the path with a final slash.
fn link_with_slash(path: &DavPath) -> Result<Text, NoMemory>
    ensures { IfOk result (λ link. link ≡ link_of (shown (the_with_slash path.now))) }
{
    let mut target = path.try_clone()?;
    target.add_slash();
    target.as_url_string()
}

/// Status and fields of the answer that sends the client to the path with a final slash, so that the links of what
/// stands there lead on from it.
pub(crate) fn directed(alloc: Global, path: &DavPath) -> Result<Outcome, NoMemory>
    ensures { IfOk result (λ outcome. outcome ≡ directed_outcome path.now) }
{
    let link = link_with_slash(path)?;
    let mut fields = Vec::new(alloc);
    add_field(&mut fields, Text::known(FieldName::ContentLength), b"0")?;
    add_field(
        &mut fields,
        Text::known(FieldName::Location),
        link.as_slice(),
    )?;
    Ok(Outcome {
        status: 302,
        fields: Fields::new(fields),
    })
}

// Whether the methods that are set have PROPFIND.
fn has_propfind(allow: &Option<DavMethodSet>) -> bool
    ensures { result ≡ the_has_propfind allow.now }
{
    match allow {
        Some(set) => set.contains(DavMethod::PropFind),
        None => false,
    }
}

/// Whether a page of a directory is permitted.
pub(crate) fn may_list(settings: &Settings) -> bool
    ensures { result ≡ the_may_list settings.now.autoindex settings.now.allow }
{
    match settings.autoindex {
        Some(on) => on,
        None => has_propfind(&settings.allow),
    }
}
