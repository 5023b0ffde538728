ghost use Rattle.std.specs.Prelude.{◌≡◌, [], ◌∷◌, ◌++◌, length, filter, not, IfOk, OnOk, OnErr};

use crate::OutOfMemory;
use iv_span::Span;
use seg_names::{Name, SegId, TaskId};
use std::alloc::Global;
use std::marker::Model;

/// A value of which a second one can be made, where there is memory.
pub trait Twin: Drop {
    /// An equal value. The error is want of memory.
    fn twin(&self, alloc: Global) -> Result<Self, OutOfMemory>
        ensures { IfOk result (λ twin. twin ≡ self.now) };
}

/// A `Vec` that contracts see as the list of its items.
#[derive(Debug, Drop)]
pub struct Items<T> {
    items: Vec<T>,
}

impl<T> Model for Items<T> {
    ghost use Rattle.std.specs.Prelude.{List};
    ghost use Rattle.std.specs.Coded.{coded_list};

    ghost Value = { List T };

    ghost coded = { coded_list T.code };

    ghost view = { λ a. a.items.items };
}

impl<T> Items<T> {
    /// No items.
    pub fn new(alloc: Global) -> Items<T>
        ensures { result ≡ [] }
    {
        Items {
            items: Vec::new(alloc),
        }
    }

    /// The items of a `Vec`.
    pub fn from_vec(items: Vec<T>) -> Items<T>
        ensures { result ≡ items.items }
    {
        Items { items }
    }

    /// The items as a `Vec`.
    pub fn into_vec(self) -> Vec<T>
        ensures { result.items ≡ self }
    {
        let Items { items } = self;
        items
    }

    /// The items, lent.
    pub fn as_slice(&self) -> &[T]
        ensures { result.now ≡ self.now }
    {
        self.items.as_slice()
    }

    /// How many items there are.
    pub fn len(&self) -> usize
        ensures { result ≡ length self.now }
    {
        self.items.len()
    }
}

impl<T: Drop> Items<T> {
    /// Adds an item at the end. The error is want of memory, and leaves the items as they were.
    pub fn push(&mut self, item: T) -> Result<(), OutOfMemory>
        ensures ok { OnOk result (self.new ≡ self.old ++ item ∷ []) }
        ensures err { OnErr result (self.new ≡ self.old) }
    {
        self.items.push(item)?;
        Ok(())
    }
}

fn remove_equal<T: Eq + Drop>(items: &mut Vec<T>, item: &T)
    ensures { items.new.items ≡ filter (λ x. not (T.eq x item.now)) items.old.items }
{
    items.retain(|x| *x != *item);
}

impl<T: Eq + Drop> Items<T> {
    /// Removes the items that equal this one.
    pub fn remove_equal(&mut self, item: &T)
        ensures { self.new ≡ filter (λ x. not (T.eq x item.now)) self.old }
    {
        remove_equal(&mut self.items, item);
    }
}

fn twins<T: Twin>(alloc: Global, items: &[T]) -> Result<Vec<T>, OutOfMemory>
    ensures { IfOk result (λ v. v.items ≡ items.now) }
{
    let mut copies = Vec::new(alloc);
    for item in items {
        copies.push(item.twin(alloc)?)?;
    }
    Ok(copies)
}

impl<T: Twin> Items<T> {
    /// Items equal to those of a slice. The error is want of memory.
    pub fn twin_of(alloc: Global, items: &[T]) -> Result<Items<T>, OutOfMemory>
        ensures { IfOk result (λ twin. twin ≡ items.now) }
    {
        Ok(Items {
            items: twins(alloc, items)?,
        })
    }
}

/// Twins of two values. The error is want of memory.
pub fn twin_both<A: Twin, B: Twin>(
    alloc: Global,
    first: &A,
    second: &B,
) -> Result<(A, B), OutOfMemory>
    ensures first { IfOk result (λ both. both.0 ≡ first.now) }
    ensures second { IfOk result (λ both. both.1 ≡ second.now) }
{
    let first = first.twin(alloc)?;
    let second = second.twin(alloc)?;
    Ok((first, second))
}

impl<T: Twin> Twin for Items<T> {
    fn twin(&self, alloc: Global) -> Result<Items<T>, OutOfMemory> {
        Ok(Items {
            items: twins(alloc, self.items.as_slice())?,
        })
    }
}

impl<T: Twin> Twin for Option<T> {
    fn twin(&self, alloc: Global) -> Result<Option<T>, OutOfMemory> {
        match self {
            Some(value) => Ok(Some(value.twin(alloc)?)),
            None => Ok(None),
        }
    }
}

impl Twin for u64 {
    fn twin(&self, _alloc: Global) -> Result<u64, OutOfMemory> {
        Ok(*self)
    }
}

impl Twin for Span {
    fn twin(&self, _alloc: Global) -> Result<Span, OutOfMemory> {
        Ok(*self)
    }
}

impl Twin for Name {
    fn twin(&self, alloc: Global) -> Result<Name, OutOfMemory> {
        self.twin(alloc)
    }
}

impl Twin for TaskId {
    fn twin(&self, alloc: Global) -> Result<TaskId, OutOfMemory> {
        self.twin(alloc)
    }
}

impl Twin for SegId {
    fn twin(&self, alloc: Global) -> Result<SegId, OutOfMemory> {
        self.twin(alloc)
    }
}
