//! Calls of the plain server, whose arguments are written word by word (RFC 1813 section 3.3).

use nr_outside::Moment;
use nr_plain::Server;
use nr_xdr::Octets;
use std::alloc::Global;

const NOW: Moment = Moment {
    seconds: 1,
    nanos: 0,
};

/// The directory of all files: the root.
const ROOT: u64 = 1;

/// The numbers of the procedures.
const LOOKUP: u32 = 3;

const READ: u32 = 6;

const WRITE: u32 = 7;

const CREATE: u32 = 8;

const MKDIR: u32 = 9;

const REMOVE: u32 = 12;

const RMDIR: u32 = 13;

const RENAME: u32 = 14;

const READDIR: u32 = 16;

const READDIRPLUS: u32 = 17;

fn put(args: &mut Octets, word: u32) -> Option<()> {
    args.extend_from_slice(&word.to_be_bytes()).ok()
}

fn put_long(args: &mut Octets, number: u64) -> Option<()> {
    args.extend_from_slice(&number.to_be_bytes()).ok()
}

fn put_handle(args: &mut Octets, number: u64) -> Option<()> {
    put(args, 8)?;
    put_long(args, number)
}

/// The name of the file that was made as this one: eight letters.
fn put_name(args: &mut Octets, count: u32) -> Option<()> {
    put(args, 8)?;
    let mut rest = count;
    for _ in 0..8 {
        args.extend_from_slice(&[b'a' + (rest % 16) as u8]).ok()?;
        rest /= 16;
    }
    Some(())
}

/// A call of NFS with a credential of AUTH_NONE, up to its arguments.
fn head(alloc: Global, proc: u32) -> Option<Octets> {
    let mut payload = Octets::new(alloc);
    for word in [1, 0, 2, 100_003, 3, proc, 0, 0, 0, 0] {
        put(&mut payload, word)?;
    }
    Some(payload)
}

/// Calls, and gives how many bytes the reply has; none if there is no reply, or a status other than 0.
fn call(alloc: Global, server: &mut Server, payload: &Octets) -> Option<u64> {
    let reply = server.execute(alloc, NOW, payload.as_slice()).ok()?;
    match reply.payload.as_slice().get(24..)? {
        [0, 0, 0, 0, ..] => Some(reply.payload.len() as u64),
        _ => None,
    }
}

/// A call whose arguments begin with the root and a name.
fn named(alloc: Global, proc: u32, count: u32) -> Option<Octets> {
    let mut payload = head(alloc, proc)?;
    put_handle(&mut payload, ROOT)?;
    put_name(&mut payload, count)?;
    Some(payload)
}

/// Makes a file in the root.
pub(crate) fn create(alloc: Global, server: &mut Server, count: u32) -> Option<u64> {
    let mut payload = named(alloc, CREATE, count)?;
    payload.extend_from_slice(&[0; 28]).ok()?;
    call(alloc, server, &payload)
}

/// Looks a file of the root up.
pub(crate) fn lookup(alloc: Global, server: &mut Server, count: u32) -> Option<u64> {
    let payload = named(alloc, LOOKUP, count)?;
    call(alloc, server, &payload)
}

/// Makes a directory in the root.
pub(crate) fn mkdir(alloc: Global, server: &mut Server, count: u32) -> Option<u64> {
    let mut payload = named(alloc, MKDIR, count)?;
    payload.extend_from_slice(&[0; 24]).ok()?;
    call(alloc, server, &payload)
}

/// Removes a file of the root.
pub(crate) fn remove(alloc: Global, server: &mut Server, count: u32) -> Option<u64> {
    let payload = named(alloc, REMOVE, count)?;
    call(alloc, server, &payload)
}

/// Removes a directory of the root.
pub(crate) fn rmdir(alloc: Global, server: &mut Server, count: u32) -> Option<u64> {
    let payload = named(alloc, RMDIR, count)?;
    call(alloc, server, &payload)
}

/// Gives a file of the root another name in the root.
pub(crate) fn rename(alloc: Global, server: &mut Server, from: u32, to: u32) -> Option<u64> {
    let mut payload = named(alloc, RENAME, from)?;
    put_handle(&mut payload, ROOT)?;
    put_name(&mut payload, to)?;
    call(alloc, server, &payload)
}

/// Lists the root after a cookie, as much as a listing may have.
pub(crate) fn list(alloc: Global, server: &mut Server, cookie: u64, plus: bool) -> Option<u64> {
    let proc = if plus { READDIRPLUS } else { READDIR };
    let mut payload = head(alloc, proc)?;
    put_handle(&mut payload, ROOT)?;
    put_long(&mut payload, cookie)?;
    put_long(&mut payload, 0)?;
    put(&mut payload, 32_768)?;
    if plus {
        put(&mut payload, 32_768)?;
    }
    call(alloc, server, &payload)
}

/// Reads 32 KiB of a file.
pub(crate) fn read(alloc: Global, server: &mut Server, number: u64, offset: u64) -> Option<u64> {
    let mut payload = head(alloc, READ)?;
    put_handle(&mut payload, number)?;
    put_long(&mut payload, offset)?;
    put(&mut payload, 32_768)?;
    call(alloc, server, &payload)
}

/// The payload of a WRITE of these bytes, whose number is a multiple of four.
pub(crate) fn write_payload(
    alloc: Global,
    number: u64,
    offset: u64,
    data: &[u8],
) -> Option<Octets> {
    let mut payload = head(alloc, WRITE)?;
    put_handle(&mut payload, number)?;
    put_long(&mut payload, offset)?;
    let count = u32::try_from(data.len()).ok()?;
    put(&mut payload, count)?;
    put(&mut payload, 2)?;
    put(&mut payload, count)?;
    payload.extend_from_slice(data).ok()?;
    Some(payload)
}

/// Writes these bytes, whose number is a multiple of four, over a file.
pub(crate) fn write(
    alloc: Global,
    server: &mut Server,
    number: u64,
    offset: u64,
    data: &[u8],
) -> Option<u64> {
    let payload = write_payload(alloc, number, offset, data)?;
    call(alloc, server, &payload)
}
