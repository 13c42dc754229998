ghost use Rattle.std.specs.Prelude.{◌≡◌};

use crate::characters::Chars;
use dav_io::Source;

/// The characters of a reader. It takes no memory, and reads a byte at a time.
pub fn chars<R: Source>(reader: R) -> Chars<R>
    ensures { result.inner ≡ reader }
{
    Chars { inner: reader }
}
