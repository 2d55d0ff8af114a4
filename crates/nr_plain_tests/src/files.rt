//! The pages of a file after writes and cuts, and what is read of them.

use crate::compare::same;
use nr_tree::{File, Tree};
use nr_xdr::Octets;
use std::alloc::Global;
use std::process::Abort;

fn file(rt: &impl Abort, alloc: Global, bytes: &[u8]) -> File {
    let mut file = File::new(alloc);
    if bytes.len() < 100 {
        file.write(0, bytes).expect(rt, "memory");
    }
    file
}

fn read(rt: &impl Abort, alloc: Global, file: &File, offset: u64, count: u32) -> Octets {
    Octets::from_slice(alloc, file.read(offset, count)).expect(rt, "memory")
}

/// A change of a file: another length, if one is given, or a piece that is written at an offset.
type Change = (Option<u64>, u64, &'static [u8]);

/// Changes of `hello`; the number of pages and the length after them; an offset, a count, and what is read there: at most to the
/// end of a page of 4096 bytes.
type Row = (&'static [Change], usize, u64, u64, u32, &'static [u8]);

static PAGES: [Row; 10] = [
    (&[], 1, 5, 0, 100, b"hello"),
    (
        &[(None, 16_777_215, b"\x01")],
        2,
        16_777_216,
        16_777_208,
        8,
        b"\0\0\0\0\0\0\0\x01",
    ),
    (
        &[(None, 16_777_215, b"\x01"), (Some(5), 0, b"")],
        1,
        5,
        0,
        100,
        b"hello",
    ),
    (&[(None, 0, b"\0\0\0\0\0")], 0, 5, 0, 100, b"\0\0\0\0\0"),
    (
        &[(None, 0, b"\0\0\0\0"), (None, 4, b"\0")],
        0,
        5,
        0,
        100,
        b"\0\0\0\0\0",
    ),
    (&[(None, 4094, b"abcd")], 2, 4098, 4094, 100, b"ab"),
    (&[(None, 4094, b"abcd")], 2, 4098, 4096, 100, b"cd"),
    (
        &[(Some(3), 0, b""), (Some(8), 0, b"")],
        1,
        8,
        0,
        100,
        b"hel\0\0\0\0\0",
    ),
    (
        &[
            (None, 8192, b"x"),
            (Some(8192), 0, b""),
            (Some(8193), 0, b""),
        ],
        1,
        8193,
        8192,
        100,
        b"\0",
    ),
    (
        &[(Some(1_099_511_627_776), 0, b"")],
        1,
        1_099_511_627_776,
        549_755_813_888,
        3,
        b"\0\0\0",
    ),
];

fn change(rt: &impl Abort, file: &mut File, change: &Change) {
    let (len, offset, piece) = change;
    match *len {
        Some(len) => file.set_len(len),
        None => {
            if *offset < 20_000_000 && piece.len() < 100 {
                file.write(*offset, piece).expect(rt, "memory");
            }
        }
    }
}

fn changed(rt: &impl Abort, alloc: Global, changes: &[Change]) -> File {
    let mut file = file(rt, alloc, b"hello");
    for each in changes {
        change(rt, &mut file, each);
    }
    file
}

#[test]
fn pages_of_files(rt: HostRuntime) {
    for (row, (changes, pages, len, offset, count, want)) in PAGES.iter().enumerate() {
        let file = changed(&rt, rt.alloc(), changes);
        same(&rt, row, file.pages(), *pages);
        same(&rt, row, file.len(), *len);
        let bytes = read(&rt, rt.alloc(), &file, *offset, *count);
        same(&rt, row, bytes.as_slice(), *want);
    }
}

/// A number of the drill's tree, and how many pages of its file are kept.
static PAGES_OF_NUMBERS: [(u64, Option<u32>); 5] = [
    (1, None),
    (2, Some(1)),
    (3, None),
    (5, Some(0)),
    (105, None),
];

#[test]
fn pages_of_numbers(rt: HostRuntime) {
    let tree = Tree::drill(rt.alloc()).expect(&rt, "memory");
    for (row, (number, want)) in PAGES_OF_NUMBERS.iter().enumerate() {
        same(&rt, row, tree.pages(*number), *want);
    }
    drop(tree);
}
