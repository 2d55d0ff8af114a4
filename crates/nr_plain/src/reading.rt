//! The procedures of NFS that only read the tree.

ghost use Rattle.std.specs.Prelude.{◌≡◌, IfOk};
ghost use Rattle.nr_nfs_base.specs.Codec.{read_all};
ghost use Rattle.nr_ops_file.specs.Attributes.{getattr_reply, access_reply};
ghost use Rattle.nr_ops_file.specs.Links.{readlink_reply};
ghost use Rattle.nr_ops_file.specs.Bytes.{read_reply, commit_reply};
ghost use Rattle.nr_ops_file.specs.FileSystem.{fsstat_reply, fsinfo_reply, pathconf_reply};
ghost use Rattle.nr_ops_list.specs.Lookup.{lookup_reply};
ghost use Rattle.nr_ops_list.specs.Readdir.{readdir_reply, readdirplus_reply};
ghost use Rattle.nr_nfs_args.specs.Bytes.{read_args_codec};
ghost use Rattle.nr_nfs_res.specs.Results.{read_res_codec};
ghost use Rattle.nr_plain.specs.private.Code.{reply_with};
ghost use Rattle.nr_plain.specs.Replies.{results_reply};

use crate::call::Call;
use crate::encoding::{HEAD_SIZE, SUCCESS, accepted, accepted_head, garbage, read_arguments};
use crate::procedure::{Listing, Reading};
use nr_nfs_args::{
    AccessArgs, CommitArgs, FsinfoArgs, FsstatArgs, GetattrArgs, LookupArgs, PathconfArgs,
    ReadArgs, ReaddirArgs, ReaddirplusArgs, ReadlinkArgs,
};
use nr_nfs_base::{Caller, LISTING_MAX, StatusUnion};
use nr_nfs_res::{
    AccessRes, CommitRes, FsinfoRes, FsstatRes, GetattrRes, LookupRes, PathconfRes, ReaddirRes,
    ReaddirplusRes, ReadlinkRes,
};
use nr_ops_file::ReadResPart;
use nr_rpc::write_reply_head;
use nr_tree::Tree;
use nr_xdr::{Memory, Octets, RoomWriter, pad_len};
use std::alloc::Global;

/// The reply to a call of the procedure with these arguments.
pub(crate) fn read<A: Reading>(alloc: Global, tree: &Tree, call: &Call) -> Result<Octets, Memory>
    ensures { IfOk result (λ o. o ≡ reply_with call.now.xid A.Results.codec (A.results tree.now call.now.caller.now call.now.space) (read_all A.codec call.now.arguments.now)) }
{
    match read_arguments::<A>(alloc, call.arguments)? {
        Some(arguments) => {
            let results = arguments.execute(alloc, tree, call)?;
            accepted(alloc, call.xid, &results)
        }
        None => garbage(alloc, call.xid),
    }
}

/// The bytes of a reply to a READ beside its data and their pad: the head, the status, the attributes, the count, the
/// flag and the length of the data.
const READ_SIZE: usize = HEAD_SIZE + 104;

/// The reply to a READ. Its data are copied once, from the tree into the room of the reply.
pub(crate) fn read_file(alloc: Global, tree: &Tree, call: &Call) -> Result<Octets, Memory>
    ensures { IfOk result (λ o. o ≡ reply_with call.now.xid read_res_codec (read_reply tree.now call.now.caller.now) (read_all read_args_codec call.now.arguments.now)) }
{
    match read_arguments::<ReadArgs>(alloc, call.arguments)? {
        Some(arguments) => {
            let results = nr_ops_file::read(tree, call.caller, &arguments);
            read_reply_of(alloc, call.xid, &results)
        }
        None => garbage(alloc, call.xid),
    }
}

/// How many bytes of data the results have.
fn data_len(results: &ReadResPart<'_>) -> usize {
    match results {
        StatusUnion::Done(done) => done.len(),
        StatusUnion::Failed { .. } => 0,
    }
}

/// The reply with these results of a READ.
fn read_reply_of(alloc: Global, xid: u32, results: &ReadResPart<'_>) -> Result<Octets, Memory>
    ensures { IfOk result (λ o. o ≡ results_reply xid read_res_codec results.now) }
{
    let data = data_len(results);
    let writer = RoomWriter::with_room(alloc, (READ_SIZE + pad_len(data)).saturating_add(data))?;
    let writer = write_reply_head(writer, &accepted_head(xid, SUCCESS))?;
    nr_ops_file::finish_read(results, writer)
}

/// The bytes of a reply to a listing beside what its caller counts: the head and the status.
const LISTING_FRONT: usize = HEAD_SIZE + 4;

/// The reply to a call that lists a directory. Its entries are written into the room of the reply.
pub(crate) fn read_directory<A: Listing>(
    alloc: Global,
    tree: &Tree,
    call: &Call,
) -> Result<Octets, Memory>
    ensures { IfOk result (λ o. o ≡ reply_with call.now.xid A.Results.codec (A.results tree.now call.now.caller.now) (read_all A.codec call.now.arguments.now)) }
{
    match read_arguments::<A>(alloc, call.arguments)? {
        Some(arguments) => listing_reply(alloc, tree, call, &arguments),
        None => garbage(alloc, call.xid),
    }
}

/// The reply with the results of a listing.
fn listing_reply<A: Listing>(
    alloc: Global,
    tree: &Tree,
    call: &Call,
    arguments: &A,
) -> Result<Octets, Memory>
    ensures { IfOk result (λ o. o ≡ results_reply call.now.xid A.Results.codec (A.results tree.now call.now.caller.now arguments.now)) }
{
    let count = arguments.count().min(LISTING_MAX);
    let writer = RoomWriter::with_room(alloc, LISTING_FRONT + count as usize)?;
    let writer = write_reply_head(writer, &accepted_head(call.xid, SUCCESS))?;
    let writer = arguments.write_results(tree, call.caller, writer)?;
    Ok(writer.finish())
}

impl Reading for GetattrArgs {
    type Results = GetattrRes;

    ghost results = { λ t c space a. getattr_reply t a };

    fn execute(&self, _alloc: Global, tree: &Tree, _call: &Call) -> Result<GetattrRes, Memory> {
        Ok(nr_ops_file::getattr(tree, self))
    }
}

impl Reading for LookupArgs {
    type Results = LookupRes;

    ghost results = { λ t c space a. lookup_reply t c a };

    fn execute(&self, alloc: Global, tree: &Tree, call: &Call) -> Result<LookupRes, Memory> {
        nr_ops_list::lookup(alloc, tree, call.caller, self)
    }
}

impl Reading for AccessArgs {
    type Results = AccessRes;

    ghost results = { λ t c space a. access_reply t c a };

    fn execute(&self, _alloc: Global, tree: &Tree, call: &Call) -> Result<AccessRes, Memory> {
        Ok(nr_ops_file::access(tree, call.caller, self))
    }
}

impl Reading for ReadlinkArgs {
    type Results = ReadlinkRes;

    ghost results = { λ t c space a. readlink_reply t a };

    fn execute(&self, alloc: Global, tree: &Tree, _call: &Call) -> Result<ReadlinkRes, Memory> {
        nr_ops_file::readlink(alloc, tree, self)
    }
}

impl Listing for ReaddirArgs {
    type Results = ReaddirRes;

    ghost results = { readdir_reply };

    fn count(&self) -> u32 {
        self.count
    }

    fn write_results(
        &self,
        tree: &Tree,
        caller: &Caller,
        writer: RoomWriter,
    ) -> Result<RoomWriter, Memory> {
        nr_ops_list::readdir(tree, caller, self, writer)
    }
}

impl Listing for ReaddirplusArgs {
    type Results = ReaddirplusRes;

    ghost results = { readdirplus_reply };

    fn count(&self) -> u32 {
        self.maxcount
    }

    fn write_results(
        &self,
        tree: &Tree,
        caller: &Caller,
        writer: RoomWriter,
    ) -> Result<RoomWriter, Memory> {
        nr_ops_list::readdirplus(tree, caller, self, writer)
    }
}

impl Reading for FsstatArgs {
    type Results = FsstatRes;

    ghost results = { λ t c space a. fsstat_reply t space a };

    fn execute(&self, _alloc: Global, tree: &Tree, call: &Call) -> Result<FsstatRes, Memory> {
        Ok(nr_ops_file::fsstat(tree, &call.space, self))
    }
}

impl Reading for FsinfoArgs {
    type Results = FsinfoRes;

    ghost results = { λ t c space a. fsinfo_reply t a };

    fn execute(&self, _alloc: Global, tree: &Tree, _call: &Call) -> Result<FsinfoRes, Memory> {
        Ok(nr_ops_file::fsinfo(tree, self))
    }
}

impl Reading for PathconfArgs {
    type Results = PathconfRes;

    ghost results = { λ t c space a. pathconf_reply t a };

    fn execute(&self, _alloc: Global, tree: &Tree, _call: &Call) -> Result<PathconfRes, Memory> {
        Ok(nr_ops_file::pathconf(tree, self))
    }
}

impl Reading for CommitArgs {
    type Results = CommitRes;

    ghost results = { λ t c space a. commit_reply t space a };

    fn execute(&self, _alloc: Global, tree: &Tree, call: &Call) -> Result<CommitRes, Memory> {
        Ok(nr_ops_file::commit(tree, &call.space, self))
    }
}
