//! Lists that are stored inline while they are short.

ghost use Rattle.std.specs.Prelude.{◌≡◌, ◌<◌, [], length, IsTrue, ◌↔◌};

use crate::short_list::ShortList;
use arrayvec::ArrayVec;
use std::marker::Model;

/// A list of any length. Up to `N` elements are stored in the value itself, without memory; a longer list is made from a
/// `Vec`. Contracts see the list.
#[derive(Drop)]
pub struct InlineVec<T, const N: usize> {
    held: Storage<T, N>,
}

#[derive(Drop)]
enum Storage<T, const N: usize> {
    Short(ShortList<T, N>),
    Long(Vec<T>),
}

impl<T, const N: usize> Model for InlineVec<T, N> {
    ghost use Rattle.std.specs.Prelude.{List};
    ghost use Rattle.std.specs.Coded.{coded_list};

    ghost Value = { List T };

    ghost coded = { coded_list T.code };

    ghost use Rattle.nr_header.specs.Storage.{items_of};

    ghost view = { λ f. items_of f.held };
}

impl<T, const N: usize> InlineVec<T, N> {
    /// The empty list. Takes no memory.
    pub fn new() -> Self
        ensures { result ≡ [] }
    {
        InlineVec::from_list(ShortList::new())
    }

    /// The elements of a list that was read. Takes no memory.
    pub(crate) fn from_list(items: ShortList<T, N>) -> Self
        ensures { result ≡ items }
    {
        InlineVec {
            held: Storage::Short(items),
        }
    }

    /// The elements of a short list. Takes no memory.
    pub fn from_short(items: ArrayVec<T, N>) -> Self
        ensures { result ≡ items.items }
    {
        InlineVec::from_list(ShortList::from_items(items))
    }

    /// The elements of a vector. Takes no memory.
    pub fn from_vec(items: Vec<T>) -> Self
        ensures { result ≡ items.items }
    {
        InlineVec {
            held: Storage::Long(items),
        }
    }

    /// The elements in order.
    pub fn as_slice(&self) -> &[T]
        ensures { result.now ≡ self.now }
    {
        match &self.held {
            Storage::Short(items) => items.as_slice(),
            Storage::Long(items) => items.as_slice(),
        }
    }

    /// How many elements there are.
    pub fn len(&self) -> usize
        ensures { result ≡ length self.now }
    {
        self.as_slice().len()
    }

    /// Whether there are no elements.
    pub fn is_empty(&self) -> bool
        ensures { IsTrue result ↔ (self.now ≡ []) }
    {
        self.as_slice().is_empty()
    }
}
