ghost use Rattle.std.specs.Prelude.{◌≡◌, ◌++◌, ◌∷◌, [], IfOk, OnOk};

use crate::{FieldValue, Items, NoMemory, Text, TryClone};

/// A header field: its name in lower case, and its value.
#[derive(Drop)]
pub struct Field {
    pub name: Text,
    pub value: FieldValue,
}

impl TryClone for Field {
    fn try_clone(&self) -> Result<Self, NoMemory>
        ensures { IfOk result (λ copy. copy ≡ self.now) }
    {
        let name = self.name.try_clone()?;
        let value = self.value.try_clone()?;
        Ok(Field { name, value })
    }
}

/// Adds a field behind the others, whose value is a copy of these bytes.
pub fn add_field(fields: &mut Vec<Field>, name: Text, value: &[u8]) -> Result<(), NoMemory>
    ensures { OnOk result (fields.new.items ≡ fields.old.items ++ record { name = name; value = value.now } ∷ []) }
{
    let value = FieldValue::copy(*fields.allocator(), value)?;
    fields.push(Field { name, value })?;
    Ok(())
}

/// The fields of a header, in their order.
pub type Fields = Items<Field>;
