//! READDIR and READDIRPLUS.

ghost use Rattle.std.specs.Prelude.{◌≡◌, ◌++◌, [], None, Some, IfOk, MatchResult};
ghost use Rattle.nr_xdr.specs.Items.{encodings};
ghost use Rattle.nr_nfs_base.specs.Attributes.{attributes_codec};
ghost use Rattle.nr_nfs_base.specs.Codec.{optional};
ghost use Rattle.nr_nfs_res.specs.Readdir.{listing_codec};
ghost use Rattle.nr_nfs_res.specs.Results.{nfs_result, readdir_res_codec, readdirplus_res_codec};
ghost use Rattle.nr_tree.specs.Rules.{first};
ghost use Rattle.nr_tree.specs.Entries.{NamesAreValid};
ghost use Rattle.nr_ops_list.specs.Readdir.{entries_behind, longest, readdir_reply, readdirplus_reply};
ghost use Rattle.nr_ops_list.specs.private.Sizes.{IsRange, are_within, rules_by, reply_by};

use crate::listed::{Listed, write_listing};
use crate::listings::{Detail, Limits, Range, directory_to_list, limits_of, range_within};
use nr_nfs_args::{ReaddirArgs, ReaddirplusArgs};
use nr_nfs_base::{Caller, Status, Verifier, Xdr, write_numbered};
use nr_nfs_res::{Entry, EntryPlus};
use nr_tree::{Tree, attributes_at, live_node};
use nr_xdr::{Memory, RoomWriter};

/// What a call asks for.
#[derive(Clone, Copy)]
struct Request<'a> {
    /// The handle of the directory.
    dir: &'a [u8],
    /// The cookie after which the listing begins.
    cookie: u64,
    verifier: Verifier,
    /// None if the results without entries are too large.
    limits: Option<Limits>,
}

/// Lists the entries of a directory after a cookie, as many as fit (RFC 1813 section 3.3.16): appends the items that encode
/// the results, entry by entry. `Err` is out of memory.
pub fn readdir(
    tree: &Tree,
    caller: &Caller,
    args: &ReaddirArgs,
    writer: RoomWriter,
) -> Result<RoomWriter, Memory>
    ensures { IfOk result (λ w. w.bytes ≡ writer.bytes ++ encodings (readdir_res_codec.items (readdir_reply tree.now caller.now args.now))) }
{
    let request = Request {
        dir: args.dir.as_slice(),
        cookie: args.cookie,
        verifier: args.verifier,
        limits: limits_of(Detail::Names, args.count, u32::MAX),
    };
    write_results::<Entry>(tree, caller, &request, writer)
}

/// Lists the entries of a directory after a cookie with their attributes and handles, as many as fit (RFC 1813 section
/// 3.3.17): appends the items that encode the results, entry by entry. `Err` is out of memory.
pub fn readdirplus(
    tree: &Tree,
    caller: &Caller,
    args: &ReaddirplusArgs,
    writer: RoomWriter,
) -> Result<RoomWriter, Memory>
    ensures { IfOk result (λ w. w.bytes ≡ writer.bytes ++ encodings (readdirplus_res_codec.items (readdirplus_reply tree.now caller.now args.now))) }
{
    let request = Request {
        dir: args.dir.as_slice(),
        cookie: args.cookie,
        verifier: args.verifier,
        limits: limits_of(Detail::Nodes, args.maxcount, args.dircount),
    };
    write_results::<EntryPlus>(tree, caller, &request, writer)
}

/// Appends the items that encode the results of a call.
fn write_results<E: Listed>(
    tree: &Tree,
    caller: &Caller,
    request: &Request<'_>,
    writer: RoomWriter,
) -> Result<RoomWriter, Memory>
    ensures { IfOk result (λ w. w.bytes ≡ writer.bytes ++ encodings ((nfs_result (listing_codec E.codec) (optional attributes_codec)).items
        (reply_by tree.now caller.now request.now.dir.now request.now.cookie request.now.verifier (are_within tree.now request.now.limits) (E.said tree.now)))) }
{
    let dir_attributes = attributes_at(tree, request.dir);
    match entries_to_list(tree, caller, request) {
        Ok(range) => {
            let writer = write_numbered(None::<Status>, writer)?;
            write_listing::<E>(dir_attributes, tree, &range, writer)
        }
        Err(status) => {
            let writer = write_numbered(Some(status), writer)?;
            dir_attributes.write_to(writer)
        }
    }
}

/// The entries that a call lists, or the first refusal.
fn entries_to_list<'a>(
    tree: &'a Tree,
    caller: &Caller,
    request: &Request<'_>,
) -> Result<Range<'a>, Status>
    ensures { MatchResult result
        (λ r. (first (rules_by tree.now caller.now request.now.dir.now request.now.cookie request.now.verifier (are_within tree.now request.now.limits)) ≡ None)
        × NamesAreValid r.dir.now.list
        × IsRange r.dir.now.list r.start r.end (longest (are_within tree.now request.now.limits) [] (entries_behind tree.now request.now.dir.now request.now.cookie)) (entries_behind tree.now request.now.dir.now request.now.cookie))
        (λ s. first (rules_by tree.now caller.now request.now.dir.now request.now.cookie request.now.verifier (are_within tree.now request.now.limits)) ≡ Some s) }
{
    tree.facts();
    let (_, node) = live_node(tree, request.dir)?;
    let dir = directory_to_list(caller, request.cookie, request.verifier, node)?;
    match &request.limits {
        Some(limits) => range_within(tree, dir, request.cookie, limits),
        None => Err(Status::Toosmall),
    }
}
