//! Tests of nr_xdr.

use crate::compare::same;
use nr_xdr::*;
use std::alloc::Global;
use std::process::Abort;

/// The name `a.txt` as opaque data (RFC 4506 section 4.10), with a pad that isn't zero.
const NAME_WITH_OTHER_PAD: [u8; 12] = [0, 0, 0, 5, 0x61, 0x2e, 0x74, 0x78, 0x74, 0, 0, 0xff];

/// 100003, 2^56 + .., true, `a.txt` after its length, and `abcde` alone.
const ITEMS: [u8; 36] = [
    0, 1, 0x86, 0xa3, 1, 2, 3, 4, 5, 6, 7, 8, 0, 0, 0, 1, 0, 0, 0, 5, 0x61, 0x2e, 0x74, 0x78, 0x74,
    0, 0, 0, 0x61, 0x62, 0x63, 0x64, 0x65, 0, 0, 0,
];

/// The items of `ITEMS`, one after the other.
fn put_items(writer: &mut Writer) -> Result<(), Memory> {
    writer.u32(100_003)?;
    writer.u64(0x0102_0304_0506_0708)?;
    writer.boolean(true)?;
    writer.opaque(b"a.txt")?;
    writer.fixed(b"abcde")
}

#[test]
fn items_are_written(rt: HostRuntime) {
    one_reading();
    let mut writer = Writer::new(rt.alloc());
    put_items(&mut writer).expect(&rt, "memory");
    same(&rt, 0, writer.finish().as_slice(), ITEMS.as_slice());
}

/// The items of `ITEMS` up to the last, one after the other, in room for all but the data of the fourth.
fn items_in_room(alloc: Global) -> Result<Octets, Memory> {
    let mut writer = RoomWriter::with_room(alloc, 20)?;
    writer.u32(100_003)?;
    writer.u64(0x0102_0304_0506_0708)?;
    writer.boolean(true)?;
    writer.opaque(b"a.txt")?;
    Ok(writer.finish())
}

#[test]
fn items_are_written_into_room(rt: HostRuntime) {
    let bytes = items_in_room(rt.alloc()).expect(&rt, "memory");
    same(&rt, 0, bytes.as_slice(), &ITEMS[..28]);
    same(&rt, 1, RoomWriter::new(rt.alloc()).finish().len(), 0);
    let writer = Writer::with_capacity(rt.alloc(), 20).expect(&rt, "memory");
    same(&rt, 3, writer.finish().len(), 0);
    same(
        &rt,
        2,
        [pad_len(0), pad_len(1), pad_len(4), pad_len(7)],
        [0, 3, 0, 1],
    );
}

/// The numbers at the front.
fn numbers(reader: &mut Reader<'_>) -> Result<(u32, u64, bool), ItemFault> {
    Ok((reader.u32()?, reader.u64()?, reader.boolean()?))
}

#[test]
fn items_are_read(rt: HostRuntime) {
    let mut reader = Reader::new(&ITEMS);
    let want = Ok((100_003, 0x0102_0304_0506_0708, true));
    same(&rt, 0, numbers(&mut reader), want);
    same(&rt, 3, reader.opaque(5), Ok(b"a.txt".as_slice()));
    last_item(&rt, &mut reader);
}

/// The last of these items, which ends the bytes.
fn last_item(rt: &impl Abort, reader: &mut Reader<'_>) {
    same(rt, 4, (reader.at(), reader.rest().len()), (28, 8));
    same(rt, 5, reader.fixed(5), Ok(b"abcde".as_slice()));
    same(rt, 6, reader.at(), 36);
}

#[test]
fn pads_are_any_bytes(rt: HostRuntime) {
    let mut reader = Reader::new(&NAME_WITH_OTHER_PAD);
    same(&rt, 0, reader.opaque(255), Ok(b"a.txt".as_slice()));
    same(&rt, 1, reader.at(), 12);
}

const LONG: ItemFault = ItemFault::Long {
    at: 0,
    len: 5,
    max: 4,
};

const SHORT: ItemFault = ItemFault::Short { at: 0 };

// The front of the name above, the most bytes of its data, and the fault. The count is compared with the maximum before the
// data is looked for.
static DATA: [(&[u8], u32, ItemFault); 5] = [
    (&NAME_WITH_OTHER_PAD, 4, LONG),
    (&[0, 0, 0, 5, 0x61], 4, LONG),
    (&[0, 0, 0, 5, 0x61], 5, SHORT),
    (
        &[0, 0, 0, 5, 0x61, 0x2e, 0x74, 0x78, 0x74, 0, 0],
        255,
        SHORT,
    ),
    (&[0, 0, 0], 255, SHORT),
];

#[test]
fn data_faults(rt: HostRuntime) {
    for (row, (bytes, max, want)) in DATA.iter().enumerate() {
        let got = Reader::new(bytes).opaque(*max).err();
        same(&rt, row, got, Some(*want));
    }
    let places = (LONG.at(), ItemFault::BadBool { at: 7 }.at());
    same(&rt, 5, places, (0, 7));
}

#[test]
fn faults_at_the_front(rt: HostRuntime) {
    let mut reader = Reader::new(&NAME_WITH_OTHER_PAD);
    same(&rt, 0, reader.boolean(), Err(ItemFault::BadBool { at: 0 }));
    same(&rt, 1, reader.fixed(13), Err(SHORT));
    same(&rt, 2, reader.u32(), Ok(5));
    same(&rt, 3, reader.fixed(9), Err(ItemFault::Short { at: 4 }));
    same(&rt, 4, reader.u64().is_ok(), true);
}

/// The octets `hello`, with other bytes from the second on, and one more.
fn six_bytes(rt: &impl Abort, alloc: Global) -> Octets {
    let mut octets = Octets::from_slice(alloc, b"hello").expect(rt, "memory");
    octets.overwrite(1, b"ipp");
    same(rt, 0, octets.as_slice(), b"hippo".as_slice());
    octets.extend_from_slice(b"s").expect(rt, "memory");
    octets
}

#[test]
fn octets(rt: HostRuntime) {
    let octets = six_bytes(&rt, rt.alloc());
    same(&rt, 1, (octets.len(), octets.is_empty()), (6, false));
    let octets = Octets::from_vec(octets.into_vec());
    same(&rt, 2, octets.as_slice(), b"hippos".as_slice());
    same(&rt, 3, Octets::new(rt.alloc()).is_empty(), true);
}
