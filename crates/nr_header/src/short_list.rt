//! Lists without memory, which clear no room until they have two elements.

ghost use Rattle.std.specs.Prelude.{◌≡◌, ◌<◌, [], ◌∷◌, ◌++◌, length};

use arrayvec::ArrayVec;
use std::marker::Model;
use std::{mem, slice};

/// A list of at most `N` elements, which lie in the value itself. Contracts see the list.
#[derive(Drop)]
pub(crate) struct ShortList<T, const N: usize> {
    held: Room<T, N>,
}

#[derive(Drop)]
enum Room<T, const N: usize> {
    Empty,
    One(T),
    Many(ArrayVec<T, N>),
}

impl<T, const N: usize> Model for ShortList<T, N> {
    ghost use Rattle.std.specs.Prelude.{List};
    ghost use Rattle.std.specs.Coded.{coded_list};

    ghost Value = { List T };

    ghost coded = { coded_list T.code };

    ghost use Rattle.nr_header.specs.private.ShortItems.{short_items};

    ghost view = { λ f. short_items f.held };
}

impl<T, const N: usize> ShortList<T, N> {
    /// The empty list.
    pub(crate) fn new() -> Self
        ensures { result ≡ [] }
    {
        ShortList { held: Room::Empty }
    }

    /// These elements.
    pub(crate) fn from_items(items: ArrayVec<T, N>) -> Self
        ensures { result ≡ items.items }
    {
        ShortList {
            held: Room::Many(items),
        }
    }

    /// The elements in order.
    pub(crate) fn as_slice(&self) -> &[T]
        ensures { result.now ≡ self.now }
    {
        match &self.held {
            Room::Empty => &[],
            Room::One(item) => slice::from_ref(item),
            Room::Many(items) => items.as_slice(),
        }
    }
}

/// Two elements, with room for more.
fn pair<T: Default + Drop, const N: usize>(first: T, second: T) -> ArrayVec<T, N>
    requires { 1 < N }
    ensures { result.items ≡ first ∷ (second ∷ []) }
{
    let mut items = ArrayVec::new();
    items.push(first);
    items.push(second);
    items
}

impl<T: Default + Drop, const N: usize> ShortList<T, N> {
    /// Adds an element at the end.
    pub(crate) fn push(&mut self, item: T)
        requires { length self.old < N }
        ensures { self.new ≡ self.old ++ item ∷ [] }
    {
        match &mut self.held {
            Room::Empty => self.held = Room::One(item),
            Room::One(first) => {
                let first = mem::take(first);
                self.held = Room::Many(pair(first, item));
            }
            Room::Many(items) => items.push(item),
        }
    }
}
