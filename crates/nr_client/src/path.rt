//! The components of a path.

ghost use Rattle.std.specs.Prelude.{◌≡◌, ◌≤◌, ◌+◌, drop, length, IfErr};
ghost use Rattle.nr_client.specs.Paths.{path_names};
ghost use Rattle.nr_client.specs.Results.{Gives, KeepsCounts};
ghost use Rattle.nr_client.specs.private.Pieces.{PushesNames, piece_length};

use crate::client_end::ClientEnd;
use crate::limits::COMPONENT_MAX;
use crate::names::Names;
use nr_nfs_base::Name;
use std::alloc::Global;

/// The byte between the components of a path.
const SLASH: u8 = 47;

/// The end of the piece of a path that begins at this offset: the offset of the next slash, or the path's length.
fn piece_end(path: &[u8], from: usize) -> usize
    requires { from ≤ length path.now }
    ensures is { result ≡ from + piece_length (drop from path.now) }
    ensures within { result ≤ length path.now }
{
    let mut at = from;
    while at < path.len() && path[at] != SLASH {
        at += 1;
    }
    at
}

/// Adds the components of a path after some names.
fn push_components(alloc: Global, names: &mut Names, path: &[u8]) -> Result<(), ClientEnd>
    ensures pushes { PushesNames names.old names.new result (path_names path.now) }
    ensures keeps { IfErr result KeepsCounts }
{
    let mut at = 0;
    while at < path.len() {
        let end = piece_end(path, at);
        if end > at {
            if end - at > COMPONENT_MAX {
                return Err(ClientEnd::BadPath { at });
            }
            let Ok(name) = Name::from_slice(alloc, &path[at..end]) else {
                return Err(ClientEnd::Memory);
            };
            let Ok(()) = names.push(name) else {
                return Err(ClientEnd::Memory);
            };
        }
        at = end + 1;
    }
    Ok(())
}

/// The components of a path: it is cut at each slash, and empty pieces are dropped. `BadPath` if and only if a component has more than 255
/// bytes, at the offset of the first one.
pub fn components(alloc: Global, path: &[u8]) -> Result<Names, ClientEnd>
    ensures gives { Gives result (path_names path.now) }
    ensures keeps { IfErr result KeepsCounts }
{
    let mut names = Names::new(alloc);
    match push_components(alloc, &mut names, path) {
        Ok(()) => Ok(names),
        Err(end) => Err(end),
    }
}
