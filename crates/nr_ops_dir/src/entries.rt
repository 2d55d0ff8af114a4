//! What the procedures look up in a tree, and what they ask of a directory that gets or loses an entry.

ghost use Rattle.std.specs.Prelude.{◌≡◌, nat_lt, length, None, Some, MatchResult};
ghost use Rattle.nr_tree.specs.Rules.{first, handle_rule, number_of_handle};
ghost use Rattle.nr_tree.specs.Steps.{is_dir_at as is_directory_at, links_at as links_of_number};
ghost use Rattle.nr_tree.specs.Tree.{entries_in};
ghost use Rattle.nr_ops_dir.specs.Entries.{number_of_entry as number_under, has_entries as has_entries_at, is_taken as is_taken_name, directory_rule, entry_rules, links_rule};

use nr_nfs_base::{Caller, Status};
use nr_tree::{
    Content, LINKS_MAX, Node, Tree, check_changeable, check_name, is_dot_name, live_node,
};

/// Whether the node under a number is a directory.
pub(crate) fn is_dir_at(tree: &Tree, number: u64) -> bool
    ensures { result ≡ is_directory_at tree.now number }
{
    match tree.get(number) {
        Some(node) => node.is_dir(),
        None => false,
    }
}

fn node_has_entries(node: &Node) -> bool
    ensures { result ≡ nat_lt 0 (length (entries_in node.now)) }
{
    match &node.content {
        Content::Directory(entries) => entries.len() > 0,
        _ => false,
    }
}

/// Whether the node under a number is a directory with entries.
pub(crate) fn has_entries(tree: &Tree, number: u64) -> bool
    ensures { result ≡ has_entries_at tree.now number }
{
    match tree.get(number) {
        Some(node) => node_has_entries(node),
        None => false,
    }
}

/// The number of the node that a directory has under a name.
pub(crate) fn number_of_entry(tree: &Tree, directory: u64, name: &[u8]) -> Option<u64>
    ensures { result ≡ number_under tree.now directory name.now }
{
    match tree.get(directory) {
        Some(dir) => dir.lookup(name),
        None => None,
    }
}

/// Whether a new entry of a directory cannot have the name: it is `.` or `..`, or is there.
pub(crate) fn is_taken(tree: &Tree, directory: u64, name: &[u8]) -> bool
    ensures { result ≡ is_taken_name tree.now directory name.now }
{
    is_dot_name(name) || number_of_entry(tree, directory, name).is_some()
}

/// The number of the live node that a handle names.
pub(crate) fn live_number(tree: &Tree, handle: &[u8]) -> Result<u64, Status>
    ensures { MatchResult result (λ n. (handle_rule tree.now handle.now ≡ None) × (n ≡ number_of_handle handle.now)) (λ s. handle_rule tree.now handle.now ≡ Some s) }
{
    let (number, _) = live_node(tree, handle)?;
    Ok(number)
}

/// Whether the caller may change a directory.
pub(crate) fn check_directory(tree: &Tree, caller: &Caller, directory: u64) -> Result<(), Status>
    ensures { MatchResult result (λ _. directory_rule tree.now caller.now directory ≡ None) (λ s. directory_rule tree.now caller.now directory ≡ Some s) }
{
    match tree.get(directory) {
        Some(dir) => check_changeable(caller, dir),
        None => Ok(()),
    }
}

/// The number of the directory that a handle names, if an entry of the name may be put in or taken out.
#[tactic(auto, unfolding(crate::specs::Entries::entry_rules))]
pub(crate) fn check_entry(
    tree: &Tree,
    caller: &Caller,
    handle: &[u8],
    name: &[u8],
) -> Result<u64, Status>
    ensures { MatchResult result
        (λ d. (first (entry_rules tree.now caller.now handle.now name.now) ≡ None) × (d ≡ number_of_handle handle.now))
        (λ s. first (entry_rules tree.now caller.now handle.now name.now) ≡ Some s) }
{
    let directory = live_number(tree, handle)?;
    check_name(name)?;
    check_directory(tree, caller, directory)?;
    Ok(directory)
}

fn links_at(tree: &Tree, number: u64) -> u32
    ensures { result ≡ links_of_number tree.now number }
{
    match tree.get(number) {
        Some(node) => node.metadata.links,
        None => 0,
    }
}

/// Whether a node may get another link.
pub(crate) fn check_links(tree: &Tree, number: u64) -> Result<(), Status>
    ensures { MatchResult result (λ _. links_rule tree.now number ≡ None) (λ s. links_rule tree.now number ≡ Some s) }
{
    if links_at(tree, number) >= LINKS_MAX {
        return Err(Status::Mlink);
    }
    Ok(())
}
