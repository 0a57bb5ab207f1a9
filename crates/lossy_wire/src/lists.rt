//! Lists that only grow, one for each ordered pair of stations.

ghost use Rattle.std.specs.Prelude.{◌≡◌, ◌≤◌, IfOk, OnOk};
ghost use Rattle.lossy_wire.specs.Wire.{IsStation};
ghost use Rattle.lossy_wire.specs.Lists as list;

use crate::ends::slot;
use std::alloc::{AllocError, Global};
use std::marker::Model;

/// A list for each ordered pair of stations, in the order in which the items came. None ever leaves it.
#[derive(Drop)]
pub struct Lists<T> {
    lists: Vec<Vec<T>>,
}

impl<T> Model for Lists<T> {
    ghost use Rattle.std.specs.Prelude.{◌≡◌, List, map, length};

    ghost Value = { List (List T) };

    ghost view = { λ p. map (λ v. v.items) p.lists.items };

    ghost invariant = { λ p. length p.lists.items ≡ 64 };
}

impl<T: Copy> Lists<T> {
    /// Empty lists.
    pub fn new(alloc: Global) -> Result<Lists<T>, AllocError>
        ensures { IfOk result (λ p. p ≡ list.no_items) }
    {
        let mut lists = Vec::with_capacity(alloc, 64)?;
        for i in 0..64 {
            let _i: usize = i;
            lists.push(Vec::new(alloc))?;
        }
        Ok(Lists { lists })
    }

    /// An item more from station a to station b.
    pub fn push(&mut self, a: u8, b: u8, item: T) -> Result<(), AllocError>
        requires first { IsStation a }
        requires second { IsStation b }
        ensures { OnOk result (self.new ≡ list.with_item self.old a b item) }
    {
        self.lists[slot(a, b)].push(item)?;
        Ok(())
    }

    /// An item more, if there is one.
    pub fn push_by(&mut self, a: u8, b: u8, item: Option<T>) -> Result<(), AllocError>
        requires first { IsStation a }
        requires second { IsStation b }
        ensures { OnOk result (self.new ≡ list.with_item_by self.old a b item) }
    {
        match item {
            Some(item) => self.push(a, b, item),
            None => Ok(()),
        }
    }

    /// The item with a number from 1, if there is one.
    pub fn at(&self, a: u8, b: u8, i: u32) -> Option<T>
        requires first { IsStation a }
        requires second { IsStation b }
        requires number { 1 ≤ i }
        ensures { result ≡ list.item_in self.now a b i }
    {
        self.lists[slot(a, b)].get(i as usize - 1).copied()
    }
}
