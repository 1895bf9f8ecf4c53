ghost use Rattle.std.specs.Prelude.{◌≡◌, ◌<◌, ◌≤◌, [], ◌∷◌, length, slice_get, slice_set, IfOk, MatchOption};
ghost use Rattle.std.specs.Option.{option_copied};
ghost use Rattle.mono_list.specs.Tiered.{Tiered, room, size, MatchTier};

use std::alloc::{AllocError, Global};
use std::marker::Model;

/// How many elements and how many lower tiers there is room for: the 16,384 items that a thread may have, and 128 more, so
/// that a step can put its items before they are counted.
const ROOM: usize = 16_512;

/// A stack in tiers, as the frames of a thread are: elements go on the top tier and off it, and a tier is opened above it or
/// closed. All memory is taken by `new`, so that no other call can want any. Contracts see the tiers as lists, each with its
/// top first.
#[derive(Drop)]
pub struct Tiers<T> {
    items: Vec<T>,
    from: usize,
    starts: Vec<usize>,
}

impl<T> Model for Tiers<T> {
    ghost use Rattle.std.specs.Prelude.{◌≡◌, ◌≤◌, reverse, length, vec_capacity};
    ghost use Rattle.mono_list.specs.Tiered.{Tiered, room, tiered, AreStarts};

    ghost Value = { Tiered T };

    ghost view = { λ t. tiered t.from (reverse t.starts.items) t.items.items };

    ghost invariant = { λ t. (t.from ≤ length t.items.items) × AreStarts (reverse t.starts.items) t.from × (vec_capacity t.items ≡ room) × (vec_capacity t.starts ≡ room) };
}

impl<T> Tiers<T> {
    /// How many elements there are in all tiers.
    pub fn len(&self) -> usize
        ensures size { result ≡ size self.now }
        ensures room { result ≤ room }
    {
        self.items.len()
    }

    /// How many tiers stand below the top one.
    pub fn lower(&self) -> usize
        ensures { result ≡ length (self.now).below }
    {
        self.starts.len()
    }

    /// Puts an element on top.
    pub fn push(&mut self, item: T)
        requires { size self.old < room }
        ensures { self.new ≡ record self.old { top = item ∷ (self.old).top } }
    {
        self.items.push_reserved(item);
    }

    /// Takes the top off.
    pub fn pop(&mut self) -> Option<T>
        ensures { MatchOption result (((self.old).top ≡ []) × (self.new ≡ self.old)) (λ top. self.old ≡ record self.new { top = top ∷ (self.new).top }) }
    {
        if self.items.len() <= self.from {
            return None;
        }
        self.items.pop()
    }

    /// The element that stands so far below the top, in the top tier.
    pub fn peek(&self, at: usize) -> Option<&T>
        ensures { option_copied result ≡ slice_get (self.now).top at }
    {
        let count = self.items.len() - self.from;
        if at < count {
            self.items.get(self.items.len() - 1 - at)
        } else {
            None
        }
    }
}

impl<T: Drop> Tiers<T> {
    /// One empty tier.
    pub fn new(alloc: Global) -> Result<Tiers<T>, AllocError>
        ensures { IfOk result (λ t. t ≡ record { top = []; below = [] }) }
    {
        let items = Vec::with_capacity(alloc, ROOM)?;
        let starts = Vec::with_capacity(alloc, ROOM)?;
        Ok(Tiers {
            items,
            from: 0,
            starts,
        })
    }

    /// Puts another element so far below the top, where one stands there.
    pub fn put(&mut self, at: usize, item: T)
        ensures { self.new ≡ record self.old { top = slice_set (self.old).top at item } }
    {
        let count = self.items.len() - self.from;
        if at < count {
            let place = self.items.len() - 1 - at;
            self.items[place] = item;
        }
    }

    /// One more tier on top.
    pub fn open(&mut self)
        requires { length (self.old).below < room }
        ensures { self.new ≡ record { top = []; below = (self.old).top ∷ (self.old).below } }
    {
        self.starts.push_reserved(self.from);
        self.from = self.items.len();
    }

    /// The top tier goes, where one is below it.
    pub fn close(&mut self)
        ensures { MatchTier self.old self.new }
    {
        if let Some(start) = self.starts.pop() {
            self.items.truncate(self.from);
            self.from = start;
        }
    }
}
