//! Linked lists.

ghost use Rattle.std.specs.Prelude.{◌≡◌, []};
ghost use Rattle.nr_nfs_base.specs.Codec.{linked_list, linked_list_read, Answers, WritesValue, PushesNext, PushesValues, optional};
ghost use Rattle.nr_nfs_base.specs.Laws.{linked_list_lawful};

use crate::fault::ValueFault;
use crate::xdr::Xdr;
use nr_xdr::{Memory, Reader, RoomWriter};
use std::alloc::Global;
use std::marker::Model;

/// A linked list (RFC 4506 section 4.19): a 1 before each value, and a 0 at the end. Contracts see the list of the values.
#[derive(Drop)]
pub struct LinkedList<T> {
    values: Vec<T>,
}

impl<T> Model for LinkedList<T> {
    ghost use Rattle.std.specs.Prelude.{List};

    ghost Value = { List T };

    ghost view = { λ c. c.values.items };
}

impl<T> LinkedList<T> {
    /// The empty list.
    pub fn new(alloc: Global) -> LinkedList<T>
        ensures { result ≡ [] }
    {
        LinkedList {
            values: Vec::new(alloc),
        }
    }

    /// A list of the values of a vector. Takes no memory.
    pub fn from_vec(values: Vec<T>) -> LinkedList<T>
        ensures { result ≡ values.items }
    {
        LinkedList { values }
    }

    /// The values as a vector. Takes no memory.
    pub fn into_vec(self) -> Vec<T>
        ensures { result.items ≡ self }
    {
        self.values
    }

    /// The values, in order.
    pub fn as_slice(&self) -> &[T]
        ensures { result.now ≡ self.now }
    {
        self.values.as_slice()
    }
}

#[tactic(auto, unfolding(crate::specs::Codec::linked_list))]
impl<T: Xdr> Xdr for LinkedList<T> {
    ghost codec = { linked_list T.codec };

    ghost lawful = { linked_list_lawful T.codec T.lawful };

    fn read_from<'a>(
        alloc: Global,
        reader: Reader<'a>,
    ) -> Result<(LinkedList<T>, Reader<'a>), ValueFault> {
        let most = reader.rest().len();
        read_values(alloc, most, reader)
    }

    fn write_to(&self, writer: RoomWriter) -> Result<RoomWriter, Memory> {
        write_values(self.as_slice(), writer)
    }
}

/// Reads the values, up to the 0 after them. `most` bounds the number of flags.
fn read_values<'a, T: Xdr>(
    alloc: Global,
    most: usize,
    reader: Reader<'a>,
) -> Result<(LinkedList<T>, Reader<'a>), ValueFault>
    ensures { Answers result (linked_list_read T.codec most reader.entry) }
{
    let mut values = Vec::new(alloc);
    let reader = push_values(alloc, &mut values, most, reader)?;
    Ok((LinkedList { values }, reader))
}

/// Reads the values, up to the 0 after them, and pushes each. `most` bounds the number of flags.
fn push_values<'a, T: Xdr>(
    alloc: Global,
    values: &mut Vec<T>,
    most: usize,
    reader: Reader<'a>,
) -> Result<Reader<'a>, ValueFault>
    ensures { PushesValues values.old.items values.new.items result (linked_list_read T.codec most reader.entry) }
{
    let mut reader = reader;
    for _ in 0..most {
        let (is_value, behind) = push_next(alloc, values, reader)?;
        reader = behind;
        if !is_value {
            return Ok(reader);
        }
    }
    Err(ValueFault::Bad { at: reader.at() })
}

/// Reads a flag. If it is 1, the value after it is read and pushed.
fn push_next<'a, T: Xdr>(
    alloc: Global,
    values: &mut Vec<T>,
    reader: Reader<'a>,
) -> Result<(bool, Reader<'a>), ValueFault>
    ensures { PushesNext values.old.items values.new.items result ((optional T.codec).read reader.entry) }
{
    let (value, reader) = Option::<T>::read_from(alloc, reader)?;
    match value {
        None => Ok((false, reader)),
        Some(value) => {
            values.push(value)?;
            Ok((true, reader))
        }
    }
}

/// Writes the values, and the 0 after them.
fn write_values<T: Xdr>(values: &[T], writer: RoomWriter) -> Result<RoomWriter, Memory>
    ensures { WritesValue (linked_list T.codec) writer values.now result }
{
    let mut writer = writer;
    for value in values {
        writer = true.write_to(writer)?;
        writer = value.write_to(writer)?;
    }
    false.write_to(writer)
}
