ghost use Rattle.std.specs.Prelude.{◌≡◌, ◌<◌, ◌||◌, ◌&&◌, not, true, false};
ghost use Rattle.dav_core.specs.Methods.{is_in, method_of, place as the_place, same_method};
ghost use Rattle.dav_core.specs.declared.method.DavMethod.{DavMethod as AnyMethod};

use crate::DavError;
use http::Method;

/// A method that is known.
#[derive(Clone, Copy, Debug, PartialEq, Eq)]
pub enum DavMethod {
    Head,
    Get,
    Put,
    Patch,
    Options,
    PropFind,
    PropPatch,
    MkCol,
    Copy,
    Move,
    Delete,
    Lock,
    Unlock,
    Report,
    MkCalendar,
    MkAddressbook,
}

impl DavMethod {
    // Its place among the methods.
    fn place(self) -> usize
        ensures value { result ≡ the_place self }
        ensures small { result < 16 }
    {
        match self {
            DavMethod::Head => 0,
            DavMethod::Get => 1,
            DavMethod::Put => 2,
            DavMethod::Patch => 3,
            DavMethod::Options => 4,
            DavMethod::PropFind => 5,
            DavMethod::PropPatch => 6,
            DavMethod::MkCol => 7,
            DavMethod::Copy => 8,
            DavMethod::Move => 9,
            DavMethod::Delete => 10,
            DavMethod::Lock => 11,
            DavMethod::Unlock => 12,
            DavMethod::Report => 13,
            DavMethod::MkCalendar => 14,
            DavMethod::MkAddressbook => 15,
        }
    }
}

/// The method of a request's word. Case matters; `UnknownDavMethod` is for every word that is no method's.
pub fn dav_method(m: &Method) -> Result<DavMethod, DavError>
    ensures { result ≡ method_of m.now }
{
    match m.as_str() {
        "HEAD" => Ok(DavMethod::Head),
        "GET" => Ok(DavMethod::Get),
        "PUT" => Ok(DavMethod::Put),
        "PATCH" => Ok(DavMethod::Patch),
        "OPTIONS" => Ok(DavMethod::Options),
        "PROPFIND" => Ok(DavMethod::PropFind),
        "PROPPATCH" => Ok(DavMethod::PropPatch),
        "MKCOL" => Ok(DavMethod::MkCol),
        "COPY" => Ok(DavMethod::Copy),
        "MOVE" => Ok(DavMethod::Move),
        "DELETE" => Ok(DavMethod::Delete),
        "LOCK" => Ok(DavMethod::Lock),
        "UNLOCK" => Ok(DavMethod::Unlock),
        "REPORT" => Ok(DavMethod::Report),
        "MKCALENDAR" => Ok(DavMethod::MkCalendar),
        "MKADDRESSBOOK" => Ok(DavMethod::MkAddressbook),
        _ => Err(DavError::UnknownDavMethod),
    }
}

/// A set of methods. It takes no memory.
#[derive(Clone, Copy, Debug)]
pub struct DavMethodSet {
    has: [bool; 16],
}

impl DavMethodSet {
    /// The set without a method.
    pub fn none() -> DavMethodSet
        ensures { (m : AnyMethod) → is_in result m ≡ false }
    {
        DavMethodSet { has: [false; 16] }
    }

    /// The set of all methods.
    pub fn all() -> DavMethodSet
        ensures { (m : AnyMethod) → is_in result m ≡ true }
    {
        DavMethodSet { has: [true; 16] }
    }

    /// Puts a method into the set. One that is in it stays.
    pub fn add(&mut self, m: DavMethod)
        ensures { (x : AnyMethod) → is_in self.new x ≡ (same_method x m || is_in self.old x) }
    {
        self.has[m.place()] = true;
    }

    /// Takes a method out of the set, where it is in it.
    pub fn remove(&mut self, m: DavMethod)
        ensures { (x : AnyMethod) → is_in self.new x ≡ (not (same_method x m) && is_in self.old x) }
    {
        self.has[m.place()] = false;
    }

    /// Whether a method is in the set.
    pub fn contains(&self, m: DavMethod) -> bool
        ensures { result ≡ is_in self.now m }
    {
        self.has[m.place()]
    }
}
