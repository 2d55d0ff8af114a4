//! The commands that move the bytes of a file.

ghost use Rattle.nr_outside.specs.Streams.{sink_at, source_at};
ghost use Rattle.nr_commands.specs.Commands.{GetsOver, IsSilent, PutsOver};

use crate::finding::{find, find_parent};
use nr_client::{Calls, ClientEnd, Session};
use nr_outside::{Sink, Source, raise_trim_threshold};
use nr_xdr::Octets;
use std::alloc::Global;

/// The size of the block by which the allocator is made to keep the memory of pieces of a file from one to the next, in
/// bytes.
const TRIM_BLOCK_LEN: usize = 1 << 24;

/// The allocator keeps the memory of the pieces of a file, which are allocated and freed one after another.
pub(crate) fn keep_pieces(alloc: Global) {
    raise_trim_threshold(alloc, TRIM_BLOCK_LEN);
}

/// No text, after a request that was done.
fn silent(alloc: Global, done: Result<(), ClientEnd>) -> Result<Octets, ClientEnd>
    ensures { IsSilent done result }
{
    match done {
        Ok(()) => Ok(Octets::new(alloc)),
        Err(end) => Err(end),
    }
}

/// `get`: the bytes of a file are written to an output. Nothing else is printed.
pub(crate) fn get<L: Calls, K: Sink>(
    alloc: Global,
    session: &mut Session<L>,
    export: &str,
    path: &str,
    out: &mut K,
) -> Result<Octets, ClientEnd>
    ensures { GetsOver L.relations session.old.uid session.old.gid export.now path.now
        (sink_at (K.taken out.old) (K.faults out.old)) (sink_at (K.taken out.new) (K.faults out.new)) (L.at session.old.link) (L.at session.new.link) result }
{
    let file = match find(alloc, session, export, path) {
        Ok(file) => file,
        Err(end) => return Err(end),
    };
    keep_pieces(alloc);
    let done = session.read_file(&file, out);
    silent(alloc, done)
}

/// `put`: the bytes of an input are written to a file, which is made or emptied first. Nothing is printed.
pub(crate) fn put<L: Calls, N: Source>(
    alloc: Global,
    session: &mut Session<L>,
    export: &str,
    path: &str,
    input: &mut N,
) -> Result<Octets, ClientEnd>
    ensures { PutsOver L.relations session.old.uid session.old.gid export.now path.now
        (source_at (N.left input.old) (N.given input.old) (N.faults input.old)) (source_at (N.left input.new) (N.given input.new) (N.faults input.new)) (L.at session.old.link) (L.at session.new.link) result }
{
    let place = match find_parent(alloc, session, export, path) {
        Ok(place) => place,
        Err(end) => return Err(end),
    };
    keep_pieces(alloc);
    let done = session.write_file(&place.0, &place.1, input);
    silent(alloc, done)
}
