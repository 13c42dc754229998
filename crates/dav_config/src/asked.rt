use dav_io::Moment;
use dav_model::Settings;
use http::Request;

/// What is asked of a store: the settings that hold for a request, its head, the credentials with which the store is
/// asked, and the moment that is set once the gates let the request pass, where it isn't set already.
#[derive(Drop)]
pub struct Asked<'a, C, X> {
    pub settings: &'a Settings,
    pub head: &'a Request<X>,
    pub credentials: &'a C,
    pub now: Option<Moment>,
}

/// The body of a request: in memory, or behind a reader.
#[derive(Drop)]
pub enum Content<'a, B> {
    Whole(&'a [u8]),
    Behind(B),
}
