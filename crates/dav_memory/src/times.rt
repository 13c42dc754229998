ghost use Rattle.std.specs.Prelude.{◌≡◌};
ghost use Rattle.dav_memory.specs.Entries.{is_time as the_time};

use dav_core::FileTime;

/// Whether this is the time, where one is known.
pub fn is_time(time: FileTime, found: Option<FileTime>) -> bool
    ensures { result ≡ the_time time found }
{
    match found {
        Some(other) => time == other,
        None => false,
    }
}
