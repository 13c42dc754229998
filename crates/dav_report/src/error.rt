ghost use Rattle.std.specs.Prelude.{◌≡◌};

use dav_core::FsError;
use dav_io::NoMemory;
use thiserror::Error;

/// Why a report was refused.
#[derive(Debug, Drop, PartialEq, Error)]
pub enum ReportError {
    /// The request asks for no report, or for one that leaves out what it needs.
    #[error("the request is no report")]
    BadRequest,
    /// Free-busy times are not told.
    #[error("free-busy times are not told")]
    FreeBusy,
    /// The store refused a listing or a file.
    #[error("the store refused a call")]
    Fs(FsError),
    /// Memory was refused.
    #[error("out of memory")]
    NoMemory,
}

impl From<NoMemory> for ReportError {
    ghost use Rattle.std.specs.Prelude.{◌≡◌};
    ghost use Rattle.dav_report.specs.declared.error.ReportError.TheVariants.{NoMemory as no_memory};

    ghost from_gives = { λ _ e. e ≡ no_memory };

    fn from(_: NoMemory) -> Self {
        ReportError::NoMemory
    }
}
