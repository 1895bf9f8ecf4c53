ghost use Rattle.std.specs.Prelude.{◌≡◌, [], ◌∷◌, ◌++◌, ◌≤◌, length, vec_len, reverse, take, drop, slice_get, slice_set, IfOk, MatchOption, OnOk, OnErr};
ghost use Rattle.std.specs.Option.{option_copied};

use sqlite_items::Items;
use std::alloc::{AllocError, Global};
use std::marker::Model;

/// A `Vec` whose end is the top. Contracts see it as the list of its elements, the top first.
#[derive(Drop)]
pub struct Stack<T> {
    items: Vec<T>,
}

impl<T> Model for Stack<T> {
    ghost use Rattle.std.specs.Prelude.{List, reverse};
    ghost use Rattle.std.specs.Coded.{coded_list};

    ghost Value = { List T };

    ghost coded = { coded_list T.code };

    ghost view = { λ s. reverse s.items.items };
}

impl<T> Stack<T> {
    /// The empty stack.
    pub fn new(alloc: Global) -> Stack<T>
        ensures { result ≡ [] }
    {
        Stack {
            items: Vec::new(alloc),
        }
    }

    /// How many elements there are.
    pub fn len(&self) -> usize
        ensures { result ≡ length self.now }
    {
        self.items.len()
    }

    /// The elements from the lowest to the top.
    pub fn bottom_up(&self) -> &[T]
        ensures { result.now ≡ reverse self.now }
    {
        self.items.as_slice()
    }

    /// The element that stands so far below the top.
    pub fn peek(&self, at: u64) -> Option<&T>
        ensures { option_copied result ≡ slice_get self.now at }
    {
        element_back(self.items.as_slice(), at)
    }

    /// Takes the top off.
    pub fn pop(&mut self) -> Option<T>
        ensures { MatchOption result ((self.old ≡ []) × (self.new ≡ [])) (λ top. self.old ≡ top ∷ self.new) }
    {
        self.items.pop()
    }
}

impl<T: Drop> Stack<T> {
    /// Puts another element so far below the top, where one stands there.
    pub fn put(&mut self, at: u64, item: T)
        ensures { self.new ≡ slice_set self.old at item }
    {
        put_back(&mut self.items, at, item);
    }

    /// Puts an element on top.
    pub fn push(&mut self, item: T) -> Result<(), AllocError>
        ensures ok { OnOk result (self.new ≡ item ∷ self.old) }
        ensures err { OnErr result (self.new ≡ self.old) }
    {
        self.items.push(item)?;
        Ok(())
    }

    /// Takes the topmost n elements, and gives them with the lowest first.
    pub fn pop_many(&mut self, n: usize) -> Result<Items<T>, AllocError>
        requires { n ≤ length self.old }
        ensures taken { IfOk result (λ taken. taken ≡ reverse (take n self.old)) }
        ensures rest { OnOk result (self.new ≡ drop n self.old) }
    {
        let taken = cut_off(&mut self.items, n)?;
        Ok(Items::from_vec(taken))
    }

    /// The first element on top.
    pub fn from_items(alloc: Global, mut items: Items<T>) -> Result<Stack<T>, AllocError>
        ensures { IfOk result (λ stack. stack ≡ items) }
    {
        let mut stack = Stack::new(alloc);
        while let Some(item) = items.pop() {
            stack.push(item)?;
        }
        Ok(stack)
    }

    /// The first element on top.
    pub fn from_vec(items: Vec<T>) -> Stack<T>
        ensures { result ≡ items.items }
    {
        let mut items = items;
        items.reverse();
        Stack { items }
    }
}

/// The last n elements, taken off.
#[tactic(auto, using(crate::proofs::Reversed::cut, crate::proofs::Reversed::kept))]
fn cut_off<T>(items: &mut Vec<T>, n: usize) -> Result<Vec<T>, AllocError>
    requires { n ≤ vec_len items.old }
    ensures taken { IfOk result (λ taken. taken.items ≡ reverse (take n (reverse items.old.items))) }
    ensures rest { OnOk result (reverse items.new.items ≡ drop n (reverse items.old.items)) }
{
    let at = items.len() - n;
    items.split_off(at)
}

/// The element that stands so far before the last.
fn element_back<T>(items: &[T], at: u64) -> Option<&T>
    ensures { option_copied result ≡ slice_get (reverse items.now) at }
{
    if at < items.len() as u64 {
        items.get(items.len() - 1 - at as usize)
    } else {
        None
    }
}

/// Puts another element so far before the last, where one stands there.
fn put_back<T: Drop>(items: &mut Vec<T>, at: u64, item: T)
    ensures { reverse items.new.items ≡ slice_set (reverse items.old.items) at item }
{
    if at < items.len() as u64 {
        let place = items.len() - 1 - at as usize;
        items[place] = item;
    }
}
