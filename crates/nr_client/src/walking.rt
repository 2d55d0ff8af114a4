//! Requests that go along a path.

ghost use Rattle.nr_client.specs.Following.{FollowsOver};
ghost use Rattle.nr_client.specs.Requests.{CountsFaultsOver, AsksOver, lookup_call};
ghost use Rattle.nr_client.specs.Walking.{object_result, parent_along, parent_next, walk_from, walk_next};

use crate::asking::ask_nfs;
use crate::client_end::ClientEnd;
use crate::link_calls::Calls;
use crate::path::components;
use crate::requests::lookup_call;
use nr_nfs_base::{Attributes, Handle, Name};
use nr_nfs_res::LookupOk;
use std::alloc::Global;

/// The file handle of a name in a directory.
fn object_over<L: Calls>(
    alloc: Global,
    link: &mut L,
    uid: u32,
    gid: u32,
    dir: &Handle,
    name: &Name,
) -> Result<Handle, ClientEnd>
    ensures asks { AsksOver L.relations object_result (lookup_call uid gid dir.now name.now) (L.at link.old) (L.at link.new) result }
    ensures faults { CountsFaultsOver L.relations result (L.at link.old) (L.at link.new) }
{
    let call = lookup_call(alloc, uid, gid, dir, name);
    match ask_nfs::<L, LookupOk, Option<Attributes>>(alloc, link, call) {
        Ok(LookupOk { object, .. }) => Ok(object),
        Err(end) => Err(end),
    }
}

/// The file handle to which names lead from a directory, one after another.
fn walk_names<L: Calls>(
    alloc: Global,
    link: &mut L,
    uid: u32,
    gid: u32,
    root: &Handle,
    names: &[Name],
) -> Result<Handle, ClientEnd>
    ensures follows { FollowsOver L.relations (walk_from uid gid root.now names.now) (L.at link.old) (L.at link.new) result }
    ensures faults { CountsFaultsOver L.relations result (L.at link.old) (L.at link.new) }
{
    let Ok(mut dir) = Handle::from_slice(alloc, root.as_slice()) else {
        return Err(ClientEnd::Memory);
    };
    for name in names {
        match object_over(alloc, link, uid, gid, &dir, name) {
            Ok(object) => dir = object,
            Err(end) => return Err(end),
        }
    }
    Ok(dir)
}

/// The file handle of the directory that the last of some names stands in, and that name. They end at this offset.
fn parent_of_names<L: Calls>(
    alloc: Global,
    link: &mut L,
    uid: u32,
    gid: u32,
    root: &Handle,
    at: usize,
    names: &[Name],
) -> Result<(Handle, Name), ClientEnd>
    ensures follows { FollowsOver L.relations (parent_along uid gid root.now at names.now) (L.at link.old) (L.at link.new) result }
    ensures faults { CountsFaultsOver L.relations result (L.at link.old) (L.at link.new) }
{
    if names.is_empty() {
        return Err(ClientEnd::BadPath { at });
    }
    let (before, last) = names.split_at(names.len() - 1);
    let Ok(name) = Name::from_slice(alloc, last[0].as_slice()) else {
        return Err(ClientEnd::Memory);
    };
    match walk_names(alloc, link, uid, gid, root, before) {
        Ok(dir) => Ok((dir, name)),
        Err(end) => Err(end),
    }
}

/// The file handle of a path.
pub(crate) fn walk_over<L: Calls>(
    alloc: Global,
    link: &mut L,
    uid: u32,
    gid: u32,
    root: &Handle,
    path: &[u8],
) -> Result<Handle, ClientEnd>
    ensures follows { FollowsOver L.relations (walk_next uid gid root.now path.now) (L.at link.old) (L.at link.new) result }
    ensures faults { CountsFaultsOver L.relations result (L.at link.old) (L.at link.new) }
{
    let names = match components(alloc, path) {
        Ok(names) => names,
        Err(end) => return Err(end),
    };
    walk_names(alloc, link, uid, gid, root, names.as_slice())
}

/// The file handle of the directory that a path's last component stands in, and that component.
pub(crate) fn walk_to_parent_over<L: Calls>(
    alloc: Global,
    link: &mut L,
    uid: u32,
    gid: u32,
    root: &Handle,
    path: &[u8],
) -> Result<(Handle, Name), ClientEnd>
    ensures follows { FollowsOver L.relations (parent_next uid gid root.now path.now) (L.at link.old) (L.at link.new) result }
    ensures faults { CountsFaultsOver L.relations result (L.at link.old) (L.at link.new) }
{
    let names = match components(alloc, path) {
        Ok(names) => names,
        Err(end) => return Err(end),
    };
    parent_of_names(alloc, link, uid, gid, root, path.len(), names.as_slice())
}
