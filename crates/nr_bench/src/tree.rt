//! A benchmark, run by hand: calls of the plain server alone. The arguments are what is called, a size, and how often:
//! `readdir` and `readdirplus` list the last 100 files of a directory of that size. `churn` removes its oldest file and
//! makes a new one, `rename` gives its oldest file a new name, `create` makes a new one; `directories` removes the
//! oldest directory of a root of that many entries, half of them directories, and makes a new one. `scattered_churn` and
//! `scattered_rename` do the same to files in no order, and `scattered_lookup` looks them up. `read` and `write`
//! move 32 KiB at offsets of a file of that many bytes, `payloads` makes the payloads of such WRITEs alone, and `copy`
//! copies 32 KiB at the same offsets from one buffer to another. `sparse` writes a byte at 1 MiB into each of that many
//! files. It prints how many bytes the replies have.

use crate::calls::{
    create, list, lookup, mkdir, read, remove, rename, rmdir, write, write_payload,
};
use crate::words::number;
use nr_nfs_base::{Time, Verifier};
use nr_plain::Server;
use nr_tree::Tree;
use nr_xdr::{Memory, Octets};
use std::alloc::Global;
use std::env::Args;

/// How many bytes a READ or a WRITE moves.
const PIECE: usize = 32_768;

const NOW: Time = Time {
    seconds: 1,
    nanoseconds: 0,
};

/// A server of a root alone.
fn server(alloc: Global) -> Result<Server, Memory> {
    let tree = Tree::root_only(alloc, NOW)?;
    let export = Octets::from_slice(alloc, b"/")?;
    Ok(Server::open(tree, 1 << 62, Verifier { number: 1 }, export))
}

/// Makes this many files in the root.
fn fill(alloc: Global, server: &mut Server, size: u32) -> Option<()> {
    for count in 0..size {
        create(alloc, server, count)?;
    }
    Some(())
}

fn listed(alloc: Global, server: &mut Server, size: u32, rounds: u32, plus: bool) -> Option<u64> {
    fill(alloc, server, size)?;
    let mut total: u64 = 0;
    for _ in 0..rounds {
        let bytes = list(alloc, server, u64::from(size.saturating_sub(100)), plus)?;
        total = total.saturating_add(bytes);
    }
    Some(total)
}

/// What a round changes in the root.
#[derive(Clone, Copy)]
enum Change {
    /// The oldest file is removed, and a new one is made.
    Churn,
    /// The oldest file gets a new name.
    Rename,
    /// A new file is made.
    Create,
    /// The oldest directory is removed, and a new one is made.
    Directories,
    /// A file is looked up.
    Lookup,
}

/// Changes the root: `old` is the oldest name in it, `new` one that it does not have.
fn changed(alloc: Global, server: &mut Server, change: Change, old: u32, new: u32) -> Option<u64> {
    match change {
        Change::Churn => {
            remove(alloc, server, old)?;
            create(alloc, server, new)
        }
        Change::Rename => rename(alloc, server, old, new),
        Change::Create => create(alloc, server, new),
        Change::Directories => {
            rmdir(alloc, server, old)?;
            mkdir(alloc, server, new)
        }
        Change::Lookup => lookup(alloc, server, old),
    }
}

/// Fills the root with this many entries: files, or as many directories as files, since a directory has less than 65,536
/// links. Gives how many of them the rounds may change.
fn prepare(alloc: Global, server: &mut Server, change: Change, size: u32) -> Option<u32> {
    match change {
        Change::Directories => {
            for count in 0..size / 2 {
                mkdir(alloc, server, count)?;
                create(alloc, server, u32::MAX - count)?;
            }
            Some(size / 2)
        }
        _ => {
            fill(alloc, server, size)?;
            Some(size)
        }
    }
}

fn changes(
    alloc: Global,
    server: &mut Server,
    change: Change,
    size: u32,
    rounds: u32,
) -> Option<u64> {
    let names = prepare(alloc, server, change, size)?;
    let mut total: u64 = 0;
    for count in 0..rounds {
        let bytes = changed(alloc, server, change, count, names.saturating_add(count))?;
        total = total.saturating_add(bytes);
    }
    Some(total)
}

/// The numbers from 0 on.
fn numbers(alloc: Global, size: u32) -> Option<Vec<u32>> {
    let mut numbers = Vec::new(alloc);
    for number in 0..size {
        numbers.push(number).ok()?;
    }
    Some(numbers)
}

/// Which of so many names a round is about, in no order.
fn scattered_index(round: u32, size: u32) -> usize {
    (u64::from(round) * 2_654_435_761 / 4_096)
        .checked_rem(u64::from(size))
        .unwrap_or(0) as usize
}

/// Changes a file whose name stands in a list, which then has the new one, or looks it up.
fn change_listed(
    alloc: Global,
    server: &mut Server,
    change: Change,
    name: &mut u32,
    new: u32,
) -> Option<u64> {
    let bytes = changed(alloc, server, change, *name, new)?;
    if !matches!(change, Change::Lookup) {
        *name = new;
    }
    Some(bytes)
}

/// Changes of files of the root in no order.
fn scattered(
    alloc: Global,
    server: &mut Server,
    change: Change,
    size: u32,
    rounds: u32,
) -> Option<u64> {
    fill(alloc, server, size)?;
    let mut names = numbers(alloc, size)?;
    let mut total: u64 = 0;
    for round in 0..rounds {
        let name = names.get_mut(scattered_index(round, size))?;
        let bytes = change_listed(alloc, server, change, name, size.saturating_add(round))?;
        total = total.saturating_add(bytes);
    }
    Some(total)
}

/// Files with a byte at 1 MiB.
fn sparse(alloc: Global, server: &mut Server, size: u32) -> Option<u64> {
    let mut total: u64 = 0;
    for count in 0..size {
        create(alloc, server, count)?;
        let bytes = write(alloc, server, u64::from(count) + 2, 1 << 20, &[1, 0, 0, 0])?;
        total = total.saturating_add(bytes);
    }
    Some(total)
}

/// Copies 32 KiB of a buffer at the offsets of the moves.
fn copied(alloc: Global, size: u32, rounds: u32) -> Option<u64> {
    let from = vec![in alloc; 7u8; size as usize].ok()?;
    let mut to = vec![in alloc; 0u8; PIECE].ok()?;
    let mut total: u64 = 0;
    for round in 0..rounds {
        let (_, part) = from
            .as_slice()
            .split_at_checked(offset(round, size) as usize)?;
        let (part, _) = part.split_at_checked(PIECE)?;
        to.clear();
        to.extend_from_slice(part).ok()?;
        total = total.saturating_add(to.len() as u64);
    }
    Some(total)
}

/// Writes all of a file of this many bytes.
fn write_all(alloc: Global, server: &mut Server, size: u32, data: &[u8]) -> Option<()> {
    create(alloc, server, 0)?;
    for piece in 0..size / 32_768 {
        write(alloc, server, 2, u64::from(piece) * 32_768, data)?;
    }
    Some(())
}

/// The offset of one of the moves: any that leaves 32 KiB.
fn offset(round: u32, size: u32) -> u64 {
    let room = u64::from(size.saturating_sub(32_768)) + 1;
    u64::from(round) * 1_000_003 % room
}

fn moved(
    alloc: Global,
    server: &mut Server,
    size: u32,
    rounds: u32,
    data: &[u8],
    reads: bool,
) -> Option<u64> {
    write_all(alloc, server, size, data)?;
    let mut total: u64 = 0;
    for round in 0..rounds {
        let offset = offset(round, size);
        let bytes = if reads {
            read(alloc, server, 2, offset)?
        } else {
            write(alloc, server, 2, offset, data)?
        };
        total = total.saturating_add(bytes);
    }
    Some(total)
}

/// Makes the payloads of WRITEs alone, and gives how many bytes they have.
fn payloads(alloc: Global, size: u32, rounds: u32, data: &[u8]) -> Option<u64> {
    let mut total: u64 = 0;
    for round in 0..rounds {
        let payload = write_payload(alloc, 2, offset(round, size), data)?;
        total = total.saturating_add(payload.len() as u64);
    }
    Some(total)
}

/// The change that a word names.
fn change_named(word: &str) -> Option<Change> {
    match word {
        "churn" => Some(Change::Churn),
        "rename" => Some(Change::Rename),
        "create" => Some(Change::Create),
        "directories" => Some(Change::Directories),
        "lookup" => Some(Change::Lookup),
        _ => None,
    }
}

fn measured(alloc: Global, server: &mut Server, what: &str, size: u32, rounds: u32) -> Option<u64> {
    if let Some((_, what)) = what.split_once('_') {
        return scattered(alloc, server, change_named(what)?, size, rounds);
    }
    match change_named(what) {
        Some(change) => changes(alloc, server, change, size, rounds),
        None => listed_or_moved(alloc, server, what, size, rounds),
    }
}

fn listed_or_moved(
    alloc: Global,
    server: &mut Server,
    what: &str,
    size: u32,
    rounds: u32,
) -> Option<u64> {
    match what {
        "readdir" => listed(alloc, server, size, rounds, false),
        "readdirplus" => listed(alloc, server, size, rounds, true),
        "sparse" => sparse(alloc, server, size),
        "copy" => copied(alloc, size, rounds),
        _ => {
            let data = vec![in alloc; 7u8; PIECE].ok()?;
            if what == "payloads" {
                return payloads(alloc, size, rounds, data.as_slice());
            }
            moved(alloc, server, size, rounds, data.as_slice(), what == "read")
        }
    }
}

fn total(alloc: Global, what: &str, size: u32, rounds: u32) -> Option<u64> {
    let mut server = server(alloc).ok()?;
    let total = measured(alloc, &mut server, what, size, rounds);
    drop(server);
    total
}

/// Takes the words, and gives the bytes of the replies.
pub fn measure(alloc: Global, words: &mut Args) -> Option<u64> {
    let what = words.next()?;
    let size = number(words)?;
    let rounds = number(words)?;
    total(alloc, what.as_str(), size, rounds)
}
