//! Lists that grow at their end.

ghost use Rattle.std.specs.Prelude.{◌≡◌, ◌<◌, ◌++◌, ◌∷◌, [], length, IfOk, OnOk, OnErr, slice_get, slice_set};
ghost use Rattle.std.specs.Option.{option_copied};

use crate::memory::OutOfMemory;
use crate::names::Point;
use std::alloc::Global;
use std::marker::Model;

/// A list, which contracts see as the list of its items.
#[derive(Debug, Drop)]
pub struct List<T> {
    items: Vec<T>,
}

/// A list of 32-bit words.
pub type Words = List<u32>;

/// A list of 64-bit numbers.
pub type Numbers = List<u64>;

/// A list of points.
pub type Points = List<Point>;

impl<T> Model for List<T> {
    ghost use Rattle.std.specs.Prelude.{List};

    ghost Value = { List T };

    ghost view = { λ list. list.items.items };
}

impl<T> List<T> {
    /// The empty list. It takes no memory.
    pub fn new(alloc: Global) -> List<T>
        ensures { result ≡ [] }
    {
        List {
            items: Vec::new(alloc),
        }
    }

    /// A list of these items.
    pub fn of(alloc: Global, items: &[T]) -> Result<List<T>, OutOfMemory>
    where
        T: Copy,
        ensures { IfOk result (λ list. list ≡ items.now) }
    {
        let items = Vec::from_slice(alloc, items)?;
        Ok(List { items })
    }

    /// How many items there are.
    pub fn len(&self) -> usize
        ensures { result ≡ length self.now }
    {
        self.items.len()
    }

    /// The item at a place, counted from 0; `None` exactly where the list isn't that long.
    pub fn get(&self, at: usize) -> Option<&T>
        ensures { option_copied result ≡ slice_get self.now at }
    {
        self.items.get(at)
    }

    /// The items in their order.
    pub fn items(&self) -> &[T]
        ensures { result.now ≡ self.now }
    {
        self.items.as_slice()
    }

    /// Puts an item in the place of the one at a place, counted from 0.
    pub fn set(&mut self, at: usize, item: T)
    where
        T: Drop,
        requires { at < length self.old }
        ensures { self.new ≡ slice_set self.old at item }
    {
        self.items[at] = item;
    }

    /// Puts an item at the end.
    pub fn push(&mut self, item: T) -> Result<(), OutOfMemory>
    where
        T: Drop,
        ensures ok { OnOk result (self.new ≡ self.old ++ item ∷ []) }
        ensures err { OnErr result (self.new ≡ self.old) }
    {
        self.items.push(item)?;
        Ok(())
    }
}

impl<T> From<Vec<T>> for List<T> {
    ghost from_gives = { λ items list. list ≡ items.items };

    fn from(items: Vec<T>) -> List<T> {
        List { items }
    }
}
