ghost use Rattle.std.specs.Prelude.{◌≡◌, [], ◌∷◌, ◌++◌, ◌<◌, length, slice_get, slice_set, Some, OnOk, OnErr};

use std::alloc::{AllocError, Global};
use std::marker::Model;
use std::mem;

/// A list whose elements are taken out and put back by place.
#[derive(Drop)]
pub struct Slots<T> {
    items: Vec<T>,
}

impl<T> Model for Slots<T> {
    ghost use Rattle.std.specs.Prelude.{List};
    ghost use Rattle.std.specs.Coded.{coded_list};

    ghost Value = { List T };

    ghost coded = { coded_list T.code };

    ghost view = { λ s. s.items.items };
}

impl<T> Slots<T> {
    /// No slot.
    pub fn new(alloc: Global) -> Slots<T>
        ensures { result ≡ [] }
    {
        Slots {
            items: Vec::new(alloc),
        }
    }

    /// The slots from a list of their contents.
    pub fn from_vec(items: Vec<T>) -> Slots<T>
        ensures { result ≡ items.items }
    {
        Slots { items }
    }

    /// The contents in order.
    pub fn as_slice(&self) -> &[T]
        ensures { result.now ≡ self.now }
    {
        self.items.as_slice()
    }

    /// How many slots there are.
    pub fn len(&self) -> usize
        ensures { result ≡ length self.now }
    {
        self.items.len()
    }

    /// Puts an item at a place, and gives the one that was there.
    pub fn exchange(&mut self, at: usize, item: T) -> T
        requires { at < length self.old }
        ensures old { slice_get self.old at ≡ Some result }
        ensures new { self.new ≡ slice_set self.old at item }
    {
        mem::replace(&mut self.items[at], item)
    }
}

impl<T: Drop> Slots<T> {
    /// One more slot behind the others.
    pub fn push(&mut self, item: T) -> Result<(), AllocError>
        ensures ok { OnOk result (self.new ≡ self.old ++ item ∷ []) }
        ensures err { OnErr result (self.new ≡ self.old) }
    {
        self.items.push(item)?;
        Ok(())
    }
}
