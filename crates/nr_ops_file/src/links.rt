//! READLINK.

ghost use Rattle.std.specs.Prelude.{◌≡◌, ◌≤◌, None, Some, length, IfOk, MatchResult};
ghost use Rattle.nr_ops_file.specs.Bytes.{bytes_at};
ghost use Rattle.nr_ops_file.specs.Links.{readlink_rules, readlink_reply};
ghost use Rattle.nr_tree.specs.Rules.{first};
ghost use Rattle.nr_nfs_base.specs.Limits.{link_target_max};

use nr_nfs_args::ReadlinkArgs;
use nr_nfs_base::{Path, Status, StatusUnion};
use nr_nfs_res::{ReadlinkOk, ReadlinkRes};
use nr_tree::{Content, Tree, attributes_at, live_node};
use nr_xdr::Memory;
use std::alloc::Global;

/// The path in a symbolic link (RFC 1813 section 3.3.5). An `Err` is out of memory.
pub fn readlink(alloc: Global, tree: &Tree, args: &ReadlinkArgs) -> Result<ReadlinkRes, Memory>
    ensures { IfOk result (λ r. r ≡ readlink_reply tree.now args.now) }
{
    let attributes = attributes_at(tree, args.symlink.as_slice());
    match path_of_link(tree, args) {
        Ok(path) => Ok(StatusUnion::Done(ReadlinkOk {
            attributes,
            path: Path::from_slice(alloc, path)?,
        })),
        Err(status) => Ok(StatusUnion::Failed {
            status,
            part: attributes,
        }),
    }
}

/// The path of the symbolic link that the call names.
fn path_of_link<'a>(tree: &'a Tree, args: &ReadlinkArgs) -> Result<&'a [u8], Status>
    ensures { MatchResult result (λ path. (first (readlink_rules tree.now args.now) ≡ None) × (path.now ≡ bytes_at tree.now args.now.symlink) × (length path.now ≤ link_target_max))
        (λ s. first (readlink_rules tree.now args.now) ≡ Some s) }
{
    tree.facts();
    let (_, node) = live_node(tree, args.symlink.as_slice())?;
    match &node.content {
        Content::Link(path) => Ok(path.as_slice()),
        _ => Err(Status::Inval),
    }
}
