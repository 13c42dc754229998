// Laying the lines of fields into memory that is there.
ghost use Rattle.std.specs.Prelude.{◌≡◌, ◌+◌, ◌-◌, ◌^◌, ◌++◌, ◌≤◌, ◌∷◌, [], length, min, take};
ghost use Rattle.dav_wire.specs.Answers.{field_line, field_lines as the_field_lines};

use dav_io::Field;

// Lays bytes from a place on, and answers where they end.
fn lay(text: &mut [u8], at: usize, bytes: &[u8]) -> usize
    requires { at + length bytes.now ≤ length text.old }
    ensures end { result ≡ at + length bytes.now }
    ensures len { length text.new ≡ length text.old }
    ensures laid { take result text.new ≡ take at text.old ++ bytes.now }
{
    let end = at + bytes.len();
    text[at..end].copy_from_slice(bytes);
    end
}

// Lays two bytes from a place on, and answers where they end. So no call is made for them.
fn lay_two(text: &mut [u8], at: usize, first: u8, second: u8) -> usize
    requires { at + 2 ≤ length text.old }
    ensures end { result ≡ at + 2 }
    ensures len { length text.new ≡ length text.old }
    ensures laid { take result text.new ≡ take at text.old ++ first ∷ second ∷ [] }
{
    text[at] = first;
    text[at + 1] = second;
    at + 2
}

fn lay_field(text: &mut [u8], at: usize, field: &Field) -> usize
    requires { at + length (field_line field.now) ≤ length text.old }
    ensures end { result ≡ at + length (field_line field.now) }
    ensures len { length text.new ≡ length text.old }
    ensures laid { take result text.new ≡ take at text.old ++ field_line field.now }
{
    let name = lay(text, at, field.name.as_slice());
    let between = lay_two(text, name, b':', b' ');
    let value = lay(text, between, field.value.as_slice());
    lay_two(text, value, b'\r', b'\n')
}

/// Lays the lines of fields from a place on, and answers where they end.
pub fn lay_fields(text: &mut [u8], at: usize, fields: &[Field]) -> usize
    requires { at + length (the_field_lines fields.now) ≤ length text.old }
    ensures end { result ≡ at + length (the_field_lines fields.now) }
    ensures len { length text.new ≡ length text.old }
    ensures laid { take result text.new ≡ take at text.old ++ the_field_lines fields.now }
{
    let mut end = at;
    for field in fields {
        end = lay_field(text, end, field);
    }
    end
}

/// How many bytes the lines of fields have; where that is no `usize`, the greatest one.
pub fn lines_len(fields: &[Field]) -> usize
    ensures { result ≡ min (length (the_field_lines fields.now)) (2 ^ 64 - 1) }
{
    let mut len: usize = 0;
    for field in fields {
        let name = field.name.as_slice().len();
        let value = field.value.as_slice().len();
        len = len
            .saturating_add(name)
            .saturating_add(value)
            .saturating_add(4);
    }
    len
}
