// Bytes that are given as far as there is room.
ghost use Rattle.std.specs.Prelude.{◌≡◌, ◌≤◌, ◌+◌, ◌++◌, min, take, drop, length};

// Copies as many bytes as there are, and as there is room for.
fn copy_front(rest: &[u8], into: &mut [u8]) -> usize
    ensures count { result ≡ min (length rest.now) (length into.old) }
    ensures copied { take result into.new ≡ take result rest.now }
    ensures len { length into.new ≡ length into.old }
{
    let count = rest.len().min(into.len());
    into[..count].copy_from_slice(&rest[..count]);
    count
}

/// Gives the bytes from a place on, as far as there is room, and answers how many.
pub fn give_from(bytes: &[u8], at: usize, into: &mut [u8]) -> usize
    requires { at ≤ length bytes.now }
    ensures count { result ≡ min (length (drop at bytes.now)) (length into.old) }
    ensures given { drop at bytes.now ≡ take result into.new ++ drop (at + result) bytes.now }
    ensures len { length into.new ≡ length into.old }
{
    let (_, rest) = bytes.split_at(at);
    copy_front(rest, into)
}
