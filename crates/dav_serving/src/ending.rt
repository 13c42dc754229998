// How a run ends.
ghost use Rattle.std.specs.Prelude.{◌≡◌};
ghost use Rattle.dav_serving.specs.Serving.{status_of};

/// How a run that serves ends.
#[derive(Clone, Copy, Debug, PartialEq, Eq)]
pub enum Ending {
    /// The input is over, and all of it is answered.
    Over,
    /// An answer closes, and all is answered up to it.
    Closed,
    /// The input has no valid request at its place.
    Refused,
    /// The input ends inside a head or a body.
    Unfinished,
    /// The source failed.
    SourceFailed,
    /// The sink failed.
    SinkFailed,
    /// The disk failed in the middle of a body.
    DiskFailed,
    /// 2^60 bytes were taken.
    TooMuch,
}

impl Ending {
    /// The program's status.
    pub fn status(self) -> u8
        ensures { result ≡ status_of self }
    {
        match self {
            Ending::Over | Ending::Closed => 0,
            Ending::SourceFailed => 3,
            Ending::SinkFailed => 4,
            Ending::DiskFailed => 5,
            Ending::Refused | Ending::Unfinished => 6,
            Ending::TooMuch => 7,
        }
    }
}
