ghost use Rattle.std.specs.Prelude.{◌≡◌, ◌↔◌, [], IfErr, IfNone, IfOk, IfSome, IsTrue, OnOk, OnErr, length};
ghost use Rattle.std.specs.Option.{option_copied};
ghost use Rattle.jop_base.specs.Keyed.{at, put, cut, IsSorted};
ghost use Rattle.local_store.specs.Places.{IsGapFor, IsPlaceOf};

use crate::order::are_in_order;
use jop_base::{Copied, Key, Keyed, Seq};
use std::alloc::{AllocError, Global};
use std::marker::Model;

/// A table: items in the order of their keys, each key once. An item is looked up by binary search.
#[derive(Debug, Drop)]
pub struct Table<T: Keyed> {
    items: Vec<T>,
}

impl<T: Keyed> Model for Table<T> {
    ghost use Rattle.std.specs.Prelude.{List};
    ghost use Rattle.jop_base.specs.Keyed.{IsSorted};

    ghost Value = { List T };

    ghost view = { λ t. t.items.items };

    ghost invariant = { λ t. IsSorted T.key t.items.items };
}

impl<T: Keyed> Table<T> {
    pub fn new(alloc: Global) -> Table<T>
        ensures { result ≡ [] }
    {
        Table {
            items: Vec::new(alloc),
        }
    }

    /// The same items, without taking memory. None exactly if they don't stand in the order of their keys, each key
    /// once.
    pub fn from_seq(items: Seq<T>) -> Option<Table<T>>
        ensures some { IfSome result (λ table. (table ≡ items) × IsSorted T.key items) }
        ensures none { IfNone result (¬ IsSorted T.key items) }
    {
        if !are_in_order(items.as_slice()) {
            return None;
        }
        Some(Table {
            items: items.into_vec(),
        })
    }

    pub fn len(&self) -> usize
        ensures { result ≡ length self.now }
    {
        self.items.len()
    }

    pub fn is_empty(&self) -> bool
        ensures { IsTrue result ↔ (self.now ≡ []) }
    {
        self.items.is_empty()
    }

    pub fn as_slice(&self) -> &[T]
        ensures { result.now ≡ self.now }
    {
        self.items.as_slice()
    }

    /// The place of the item of a key or, if no item has it, the place where one would stand.
    fn search(&self, key: &T::Key) -> Result<usize, usize>
        ensures found { IfOk result (IsPlaceOf T.key self.now (T.Key.text key.now)) }
        ensures absent { IfErr result (IsGapFor T.key self.now (T.Key.text key.now)) }
    {
        self.items.binary_search_by(|item| item.key().compare(key))
    }

    /// The item of a key.
    pub fn at(&self, key: &T::Key) -> Option<&T>
        ensures { option_copied result ≡ at T.key self.now (T.Key.text key.now) }
    {
        match self.search(key) {
            Ok(place) => Some(&self.items[place]),
            Err(_) => None,
        }
    }

    /// Puts an item in place of the one of its key, or else where its key belongs.
    pub fn put(&mut self, item: T) -> Result<(), AllocError>
        ensures ok { OnOk result (self.new ≡ put T.key self.old item) }
        ensures err { OnErr result (self.new ≡ self.old) }
    {
        match self.search(&item.key()) {
            Ok(place) => {
                self.items[place] = item;
                Ok(())
            }
            Err(place) => {
                self.items.insert(place, item)?;
                Ok(())
            }
        }
    }

    /// Takes the item of a key out.
    pub fn cut(&mut self, key: &T::Key) -> Option<T>
        ensures item { result ≡ at T.key self.old (T.Key.text key.now) }
        ensures rest { self.new ≡ cut T.key self.old (T.Key.text key.now) }
    {
        match self.search(key) {
            Ok(place) => Some(self.items.remove(place)),
            Err(_) => None,
        }
    }
}

impl<T: Keyed + Copied> Copied for Table<T> {
    fn copy(&self, alloc: Global) -> Result<Table<T>, AllocError> {
        let mut items = Vec::new(alloc);
        for item in &self.items {
            items.push(item.copy(alloc)?)?;
        }
        Ok(Table { items })
    }
}
