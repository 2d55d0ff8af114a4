//! LINK.

ghost use Rattle.std.specs.Prelude.{◌≡◌, None, Some, MatchResult, IfOk, OnOk, OnErr};
ghost use Rattle.nr_nfs_base.specs.declared.status_union.StatusUnion.TheVariants.{Done};
ghost use Rattle.nr_tree.specs.Steps.{IsBounded, CanAddLink};
ghost use Rattle.nr_tree.specs.Changes.{tree_with_link};
ghost use Rattle.nr_tree.specs.Rules.{first, number_of_handle, IsWithinCapacity};
ghost use Rattle.nr_tree.specs.Replies.{attributes_at as attributes_of_handle};
ghost use Rattle.nr_ops_dir.specs.Links.{link_place_rules, link_rules, link_tree, link_reply, link_wcc as wcc_of_link};

use crate::entries::{check_directory, check_links, is_dir_at, is_taken, live_number};
use nr_nfs_args::LinkArgs;
use nr_nfs_base::{Caller, Status, StatusUnion, Time, WccAttributes};
use nr_nfs_res::{LinkRes, LinkWcc};
use nr_tree::{Space, Tree, attributes_at, check_name, check_space, wcc_attributes_at, wcc_data};
use nr_xdr::Memory;

/// The numbers of the file and of the directory.
#[tactic(auto, unfolding(crate::specs::Links::link_place_rules))]
fn file_and_directory(tree: &Tree, caller: &Caller, args: &LinkArgs) -> Result<(u64, u64), Status>
    ensures { MatchResult result
        (λ n. (first (link_place_rules tree.now caller.now args.now) ≡ None) × (n.0 ≡ number_of_handle args.now.file) × (n.1 ≡ number_of_handle args.now.dir))
        (λ s. first (link_place_rules tree.now caller.now args.now) ≡ Some s) }
{
    let file = live_number(tree, args.file.as_slice())?;
    let directory = live_number(tree, args.dir.as_slice())?;
    if is_dir_at(tree, file) {
        return Err(Status::Isdir);
    }
    check_name(args.name.as_slice())?;
    check_directory(tree, caller, directory)?;
    Ok((file, directory))
}

/// The numbers of the file and of the directory, or the first refusal.
#[tactic(auto, unfolding(crate::specs::Links::link_rules))]
fn link_to_add(
    tree: &Tree,
    caller: &Caller,
    space: &Space,
    args: &LinkArgs,
) -> Result<(u64, u64), Status>
    requires space { IsWithinCapacity space.now }
    ensures { MatchResult result
        (λ n. (first (link_rules tree.now caller.now space.now args.now) ≡ None) × (n.0 ≡ number_of_handle args.now.file) × (n.1 ≡ number_of_handle args.now.dir))
        (λ s. first (link_rules tree.now caller.now space.now args.now) ≡ Some s) }
{
    let (file, directory) = file_and_directory(tree, caller, args)?;
    if is_taken(tree, directory, args.name.as_slice()) {
        return Err(Status::Exist);
    }
    check_links(tree, file)?;
    check_space(space)?;
    Ok((file, directory))
}

/// The attributes of the file, and the directory before and after.
fn link_wcc(before: Option<WccAttributes>, tree: &Tree, file: &[u8], dir: &[u8]) -> LinkWcc
    ensures { result ≡ record { attributes = attributes_of_handle tree.now file.now; dir_wcc = record { before = before; after = attributes_of_handle tree.now dir.now } } }
{
    LinkWcc {
        attributes: attributes_at(tree, file),
        dir_wcc: wcc_data(before, tree, dir),
    }
}

/// Adds the link. After an `Err` the tree is as before.
fn add_link(
    tree: &mut Tree,
    now: Time,
    args: LinkArgs,
    file: u64,
    directory: u64,
) -> Result<LinkRes, Memory>
    requires bounded { IsBounded tree.old }
    requires allowed { CanAddLink tree.old directory args.name file }
    ensures result { IfOk result (λ r. r ≡ Done (wcc_of_link tree.old (tree_with_link tree.old now directory args.name file) args)) }
    ensures tree { OnOk result (tree.new ≡ tree_with_link tree.old now directory args.name file) }
    ensures err { OnErr result (tree.new ≡ tree.old) }
{
    let before = wcc_attributes_at(tree, args.dir.as_slice());
    tree.add_link(directory, args.name.into_octets().into_vec(), file, now)?;
    Ok(StatusUnion::Done(link_wcc(before, tree, args.file.as_slice(), args.dir.as_slice())))
}

/// Puts an entry for a file that is there into a directory (RFC 1813 section 3.3.15). After an `Err` the tree is as before.
#[tactic(auto, using(crate::proofs::Passed::can_add_link))]
pub fn link(
    tree: &mut Tree,
    now: Time,
    caller: &Caller,
    space: &Space,
    args: LinkArgs,
) -> Result<LinkRes, Memory>
    requires bounded { IsBounded tree.old }
    requires space { IsWithinCapacity space.now }
    ensures result { IfOk result (λ r. r ≡ link_reply tree.old caller.now space.now now args) }
    ensures tree { OnOk result (tree.new ≡ link_tree tree.old caller.now space.now now args) }
    ensures err { OnErr result (tree.new ≡ tree.old) }
{
    match link_to_add(tree, caller, space, &args) {
        Ok((file, directory)) => add_link(tree, now, args, file, directory),
        Err(status) => {
            let before = wcc_attributes_at(tree, args.dir.as_slice());
            let part = link_wcc(before, tree, args.file.as_slice(), args.dir.as_slice());
            Ok(StatusUnion::Failed { status, part })
        }
    }
}
