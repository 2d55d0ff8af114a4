//! Variable-length arrays.

ghost use Rattle.std.specs.Prelude.{◌≡◌, ◌+◌, ◌^◌, ◌<◌, length, IfOk};
ghost use Rattle.std.specs.List.{flat_map, AllByRecursion};
ghost use Rattle.nr_nfs_base.specs.Codec.{array, values_read, Answers, WritesItems, PushesValues};
ghost use Rattle.nr_nfs_base.specs.Laws.{array_lawful};

use crate::fault::ValueFault;
use crate::xdr::Xdr;
use nr_xdr::{Memory, Reader, RoomWriter};
use std::alloc::Global;
use std::marker::Model;

/// A variable-length array of fewer than 2^32 values (RFC 4506 section 4.13): their number, and then the values. Contracts
/// see the list of the values.
#[derive(Drop)]
pub struct Array<T> {
    values: Vec<T>,
}

impl<T> Model for Array<T> {
    ghost use Rattle.std.specs.Prelude.{List, ◌^◌, ◌<◌, length};

    ghost Value = { List T };

    ghost view = { λ a. a.values.items };

    ghost invariant = { λ a. length a.values.items < 2 ^ 32 };
}

impl<T> Array<T> {
    /// An array of the values of a vector. Takes no memory.
    pub fn from_vec(values: Vec<T>) -> Array<T>
        requires { length values.items < 2 ^ 32 }
        ensures { result ≡ values.items }
    {
        Array { values }
    }

    /// The values as a vector. Takes no memory.
    pub fn into_vec(self) -> Vec<T>
        ensures value { result.items ≡ self }
        ensures bounded { length self < 2 ^ 32 }
    {
        self.values
    }

    /// The values, in order.
    pub fn as_slice(&self) -> &[T]
        ensures value { result.now ≡ self.now }
        ensures bounded { length self.now < 2 ^ 32 }
    {
        self.values.as_slice()
    }
}

#[tactic(auto, unfolding(crate::specs::Codec::array))]
impl<T: Xdr> Xdr for Array<T> {
    ghost codec = { array T.codec };

    ghost lawful = { array_lawful T.codec T.lawful };

    fn read_from<'a>(
        alloc: Global,
        reader: Reader<'a>,
    ) -> Result<(Array<T>, Reader<'a>), ValueFault> {
        let (count, reader) = u32::read_from(alloc, reader)?;
        read_values(alloc, count, reader)
    }

    fn write_to(&self, writer: RoomWriter) -> Result<RoomWriter, Memory> {
        let values = self.as_slice();
        let count = values.len() as u32;
        let writer = count.write_to(writer)?;
        write_values(values, writer)
    }
}

/// Reads `count` values.
fn read_values<'a, T: Xdr>(
    alloc: Global,
    count: u32,
    reader: Reader<'a>,
) -> Result<(Array<T>, Reader<'a>), ValueFault>
    ensures { Answers result (values_read T.codec count reader.entry) }
{
    let mut values = Vec::new(alloc);
    let reader = push_values(alloc, &mut values, count, reader)?;
    Ok((Array { values }, reader))
}

/// Reads `count` values, and pushes each.
fn push_values<'a, T: Xdr>(
    alloc: Global,
    values: &mut Vec<T>,
    count: u32,
    reader: Reader<'a>,
) -> Result<Reader<'a>, ValueFault>
    ensures exact { PushesValues values.old.items values.new.items result (values_read T.codec count reader.entry) }
    ensures counted { IfOk result (λ _. length values.new.items ≡ length values.old.items + count) }
{
    let mut reader = reader;
    for _ in 0..count {
        let (value, behind) = T::read_from(alloc, reader)?;
        reader = behind;
        values.push(value)?;
    }
    Ok(reader)
}

/// Writes the values, one after the other.
fn write_values<T: Xdr>(values: &[T], writer: RoomWriter) -> Result<RoomWriter, Memory>
    ensures { WritesItems writer (flat_map T.codec.items values.now) (AllByRecursion T.codec.fits values.now) result }
{
    let mut writer = writer;
    for value in values {
        writer = value.write_to(writer)?;
    }
    Ok(writer)
}
