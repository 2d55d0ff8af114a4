//! READ, WRITE and COMMIT.

ghost use Rattle.std.specs.Prelude.{◌≡◌, ◌+◌, ◌≤◌, take, true, None, Some, length, IfOk, OnOk, OnErr, MatchResult};
ghost use Rattle.nr_ops_file.specs.Bytes.{regular_rules, read_rules, piece_read, read_ok, read_reply, piece_rules, piece_written, write_rules, IsFileToWrite, write_tree, write_reply, commit_rules, commit_reply};
ghost use Rattle.nr_nfs_base.specs.Limits.{transfer_max};
ghost use Rattle.nr_tree.specs.Rules.{first, node_of_handle, IsWithinCapacity};
ghost use Rattle.nr_tree.specs.Sane.{file_size_max};
ghost use Rattle.nr_nfs_base.specs.declared.stable.StableHow.TheVariants.{FileSync};
ghost use Rattle.nr_tree.specs.Tree.{is_regular, bytes_of};

use crate::data::{ReadOkPart, ReadResPart};
use nr_nfs_args::{CommitArgs, ReadArgs, WriteArgsRef};
use nr_nfs_base::{
    Attributes, Caller, StableHow, Status, StatusUnion, TRANSFER_MAX, Time, WccData,
};
use nr_nfs_res::{CommitOk, CommitRes, WriteOk, WriteRes};
use nr_tree::{
    Content, FILE_SIZE_MAX, Node, Right, Space, Tree, attributes_at, check_space, live_node, may,
    refused, wcc_attributes_at, wcc_data,
};
use nr_xdr::Memory;

/// Whether the node has bytes to be read and written.
fn check_regular(node: &Node) -> Result<(), Status>
    ensures { MatchResult result (λ _. (first (regular_rules node.now) ≡ None) × (is_regular node.now ≡ true)) (λ s. first (regular_rules node.now) ≡ Some s) }
{
    if node.is_dir() {
        return Err(Status::Isdir);
    }
    if !node.is_regular() {
        return Err(Status::Inval);
    }
    Ok(())
}

/// Bytes of a regular file from an offset on, as many as are asked for, may be moved and are there (RFC 1813 section
/// 3.3.6). The data are those of the tree. Takes no memory.
pub fn read<'a>(tree: &'a Tree, caller: &Caller, args: &ReadArgs) -> ReadResPart<'a>
    ensures { result ≡ read_reply tree.now caller.now args.now }
{
    let attributes = attributes_at(tree, args.file.as_slice());
    match file_to_read(tree, caller, args) {
        Ok(node) => StatusUnion::Done(part_read(node, attributes, args)),
        Err(status) => StatusUnion::Failed {
            status,
            part: attributes,
        },
    }
}

/// The regular file that the caller may read.
fn file_to_read<'a>(tree: &'a Tree, caller: &Caller, args: &ReadArgs) -> Result<&'a Node, Status>
    ensures { MatchResult result (λ node. (first (read_rules tree.now caller.now args.now) ≡ None) × (node_of_handle tree.now args.now.file ≡ Some node.now) × (is_regular node.now ≡ true))
        (λ s. first (read_rules tree.now caller.now args.now) ≡ Some s) }
{
    let (_, node) = live_node(tree, args.file.as_slice())?;
    check_regular(node)?;
    if !may(caller, Right::Read, node) {
        return Err(Status::Acces);
    }
    Ok(node)
}

fn part_read<'a>(node: &'a Node, attributes: Option<Attributes>, args: &ReadArgs) -> ReadOkPart<'a>
    requires { is_regular node.now ≡ true }
    ensures { result ≡ read_ok attributes (bytes_of node.now.content) args.now.offset (piece_read (bytes_of node.now.content) args.now.offset args.now.count) }
{
    match &node.content {
        Content::Regular(file) => ReadOkPart::new(attributes, file, args.offset, args.count),
        _ => unreachable!(),
    }
}

/// Writes over the bytes of a regular file from an offset on, as many of the data as may be moved; a gap becomes zeros
/// (RFC 1813 section 3.3.7). After an `Err` the tree is as before.
pub fn write(
    tree: &mut Tree,
    now: Time,
    caller: &Caller,
    space: &Space,
    args: &WriteArgsRef<'_>,
) -> Result<WriteRes, Memory>
    requires space { IsWithinCapacity space.now }
    ensures result { IfOk result (λ r. r ≡ write_reply tree.old caller.now space.now now args.now) }
    ensures tree { OnOk result (tree.new ≡ write_tree tree.old caller.now space.now now args.now) }
    ensures err { OnErr result (tree.new ≡ tree.old) }
{
    let handle = args.file();
    match file_to_write(tree, caller, space, args) {
        Ok(number) => {
            let before = wcc_attributes_at(tree, handle);
            let piece = piece_of(args.bytes());
            tree.write(number, args.offset(), piece, now)?;
            let wcc = wcc_data(before, tree, handle);
            Ok(StatusUnion::Done(write_results(wcc, piece.len() as u32, space)))
        }
        Err(status) => Ok(refused(status, tree, handle)),
    }
}

/// What is written is on stable storage at once.
fn write_results(wcc: WccData, count: u32, space: &Space) -> WriteOk
    ensures { result ≡ record { wcc = wcc; count = count; committed = FileSync; verifier = space.now.verifier } }
{
    WriteOk {
        wcc,
        count,
        committed: StableHow::FileSync,
        verifier: space.verifier,
    }
}

/// The data that one call writes: at most `TRANSFER_MAX` bytes.
fn piece_of(bytes: &[u8]) -> &[u8]
    ensures value { result.now ≡ take transfer_max bytes.now }
    ensures bounded { length result.now ≤ transfer_max }
{
    let (piece, _) = bytes.split_at((TRANSFER_MAX as usize).min(bytes.len()));
    piece
}

/// Whether the count is the data's, and the piece lies within the maximum size of a file.
fn check_piece(args: &WriteArgsRef<'_>) -> Result<(), Status>
    ensures { MatchResult result (λ _. (first (piece_rules args.now) ≡ None) × (args.now.offset + length (piece_written args.now) ≤ file_size_max)) (λ s. first (piece_rules args.now) ≡ Some s) }
{
    let bytes = args.bytes();
    if args.count() as usize != bytes.len() {
        return Err(Status::Inval);
    }
    if args.offset() > FILE_SIZE_MAX - piece_of(bytes).len() as u64 {
        return Err(Status::Fbig);
    }
    Ok(())
}

/// The number of the regular file that the call may write.
fn file_to_write(
    tree: &Tree,
    caller: &Caller,
    space: &Space,
    args: &WriteArgsRef<'_>,
) -> Result<u64, Status>
    requires { IsWithinCapacity space.now }
    ensures { MatchResult result (λ n. (first (write_rules tree.now caller.now space.now args.now) ≡ None) × IsFileToWrite tree.now args.now n)
        (λ s. first (write_rules tree.now caller.now space.now args.now) ≡ Some s) }
{
    let (number, node) = live_node(tree, args.file())?;
    check_regular(node)?;
    if !may(caller, Right::Write, node) {
        return Err(Status::Acces);
    }
    check_piece(args)?;
    check_space(space)?;
    Ok(number)
}

/// Whether all that was written of a regular file is on stable storage, which it always is (RFC 1813 section 3.3.21).
/// Takes no memory.
pub fn commit(tree: &Tree, space: &Space, args: &CommitArgs) -> CommitRes
    ensures { result ≡ commit_reply tree.now space.now args.now }
{
    let handle = args.file.as_slice();
    match check_commit(tree, args) {
        Ok(()) => StatusUnion::Done(CommitOk {
            wcc: wcc_data(wcc_attributes_at(tree, handle), tree, handle),
            verifier: space.verifier,
        }),
        Err(status) => refused(status, tree, handle),
    }
}

/// Whether the call names a regular file.
fn check_commit(tree: &Tree, args: &CommitArgs) -> Result<(), Status>
    ensures { MatchResult result (λ _. first (commit_rules tree.now args.now) ≡ None) (λ s. first (commit_rules tree.now args.now) ≡ Some s) }
{
    let (_, node) = live_node(tree, args.file.as_slice())?;
    check_regular(node)
}
