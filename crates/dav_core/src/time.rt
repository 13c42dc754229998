/// The time of a file or directory in UTC: whole seconds since 1970-01-01, and nanoseconds above them, fewer than 10^9.
#[derive(Clone, Copy, Debug, PartialEq, Eq)]
pub struct FileTime {
    pub secs: i64,
    pub nanos: u32,
}
