use dav_core::{DavMethod, DavPath};
use dav_model::Settings;
use http::HeaderMap;

/// What is asked of a store: the settings under which, the method, the path, and the fields of the request.
#[derive(Clone, Copy)]
pub(crate) struct Asked<'a> {
    pub(crate) settings: &'a Settings,
    pub(crate) method: DavMethod,
    pub(crate) path: &'a DavPath,
    pub(crate) fields: &'a HeaderMap,
}
