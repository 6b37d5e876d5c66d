//! Decided keys: an item, and the list of a plan.

ghost use Rattle.std.specs.Prelude.{◌≡◌, IfOk};

use crate::{Act, After, Class, Facts};
use rc_tree::{NoMemory, Path};
use std::alloc::Global;
use std::marker::Model;

/// What was decided of a key.
#[derive(Debug, Drop)]
pub struct Item {
    /// The source's path where the source has the key, else the target's.
    pub path: Path,
    pub act: Act,
    pub class: Class,
    pub after: After,
    /// The facts of the source's entry where it has one, else those of the target's.
    pub facts: Facts,
}

impl Item {
    /// An equal item.
    pub fn copy(&self, alloc: Global) -> Result<Item, NoMemory>
        ensures { IfOk result (λ copy. copy ≡ self.now) }
    {
        Ok(Item {
            path: self.path.copy(alloc)?,
            act: self.act,
            class: self.class,
            after: self.after,
            facts: self.facts,
        })
    }
}

/// Items in their order. Contracts see them as the list.
#[derive(Debug, Drop)]
pub struct Items {
    items: Vec<Item>,
}

impl Model for Items {
    ghost use Rattle.std.specs.Prelude.{List};
    ghost use Rattle.rc_class.specs.declared.item.Item as item;

    ghost Value = { List item.Item };

    ghost view = { λ i. i.items.items };
}

impl Items {
    /// These items.
    pub fn new(items: Vec<Item>) -> Items
        ensures { result ≡ items.items }
    {
        Items { items }
    }

    /// The items.
    pub fn items(&self) -> &[Item]
        ensures { result.now ≡ self.now }
    {
        self.items.as_slice()
    }

    /// The items, without taking memory.
    pub fn into_items(self) -> Vec<Item>
        ensures { result.items ≡ self }
    {
        let Items { items } = self;
        items
    }

    /// Equal items.
    pub fn copy(&self, alloc: Global) -> Result<Items, NoMemory>
        ensures { IfOk result (λ copy. copy ≡ self.now) }
    {
        Ok(Items {
            items: copy_items(alloc, self.items.as_slice())?,
        })
    }
}

fn copy_items(alloc: Global, items: &[Item]) -> Result<Vec<Item>, NoMemory>
    ensures { IfOk result (λ copies. copies.items ≡ items.now) }
{
    let mut copies = Vec::new(alloc);
    copies.reserve(items.len())?;
    for item in items {
        copies.push(item.copy(alloc)?)?;
    }
    Ok(copies)
}
