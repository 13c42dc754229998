ghost use Rattle.std.specs.Prelude.{◌≡◌, [], ◌∷◌, ◌++◌, IfOk, OnOk, OnErr};

use crate::{NoMemory, Text};
use std::alloc::Global;
use std::marker::Model;

/// What can be copied, unless memory is refused.
pub trait TryClone: Drop + Sized {
    /// An equal value of its own.
    fn try_clone(&self) -> Result<Self, NoMemory>
        ensures { IfOk result (λ copy. copy ≡ self.now) };
}

/// Values in their order. A contract sees them as their list.
#[derive(Drop)]
pub struct Items<T: Drop> {
    items: Vec<T>,
}

impl<T: Drop> Model for Items<T> {
    ghost use Rattle.std.specs.Prelude.{List};

    ghost Value = { List T };

    ghost view = { λ i. i.items.items };
}

impl<T: Drop> Items<T> {
    /// These values, in this order.
    pub fn new(items: Vec<T>) -> Self
        ensures { result ≡ items.items }
    {
        Items { items }
    }

    /// No values yet, from this allocator on.
    pub fn empty(alloc: Global) -> Self
        ensures { result ≡ [] }
    {
        Items {
            items: Vec::new(alloc),
        }
    }

    /// The values in their order.
    pub fn as_slice(&self) -> &[T]
        ensures { result.now ≡ self.now }
    {
        self.items.as_slice()
    }

    /// The values in their order, as they were kept: whoever adds many makes room for each by the `Vec`.
    pub fn into_vec(self) -> Vec<T>
        ensures { result.items ≡ self }
    {
        self.items
    }

    /// Adds a value after the others. Where memory is refused, nothing changes.
    pub fn push(&mut self, item: T) -> Result<(), NoMemory>
        ensures ok { OnOk result (self.new ≡ self.old ++ item ∷ []) }
        ensures err { OnErr result (self.new ≡ self.old) }
    {
        self.items.push(item)?;
        Ok(())
    }
}

impl<T: TryClone> Items<T> {
    /// An equal list of its own.
    pub fn try_clone(&self) -> Result<Self, NoMemory>
        ensures { IfOk result (λ copy. copy ≡ self.now) }
    {
        let alloc: Global = *self.items.allocator();
        let mut items = Vec::new(alloc);
        for item in self.as_slice() {
            items.push(item.try_clone()?)?;
        }
        Ok(Items { items })
    }
}

impl TryClone for Text {
    fn try_clone(&self) -> Result<Self, NoMemory>
        ensures { IfOk result (λ copy. copy ≡ self.now) }
    {
        Text::try_clone(self)
    }
}
