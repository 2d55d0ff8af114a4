//! LOOKUP.

ghost use Rattle.std.specs.Prelude.{◌≡◌, None, Some, IfOk, MatchResult};
ghost use Rattle.nr_tree.specs.Rules.{first};
ghost use Rattle.nr_ops_list.specs.Lookup.{number_of_name as number_by_name, lookup_rules, found_by, lookup_reply};

use nr_nfs_args::LookupArgs;
use nr_nfs_base::{Caller, Status, StatusUnion};
use nr_nfs_res::{LookupOk, LookupRes};
use nr_tree::{
    Node, Right, Tree, attributes_at, attributes_of_number, check_name, handle_of, is_dot,
    is_dot_dot, live_node, may,
};
use nr_xdr::Memory;
use std::alloc::Global;

/// Finds the node of a name in a directory (RFC 1813 section 3.3.3). `Err` is out of memory.
pub fn lookup(
    alloc: Global,
    tree: &Tree,
    caller: &Caller,
    args: &LookupArgs,
) -> Result<LookupRes, Memory>
    ensures { IfOk result (λ r. r ≡ lookup_reply tree.now caller.now args.now) }
{
    let dir_attributes = attributes_at(tree, args.dir.as_slice());
    match found(tree, caller, args) {
        Err(status) => {
            Ok(StatusUnion::Failed {
                status,
                part: dir_attributes,
            })
        }
        Ok(number) => {
            let object = handle_of(alloc, number)?;
            Ok(StatusUnion::Done(LookupOk {
                object,
                attributes: attributes_of_number(tree, number),
                dir_attributes,
            }))
        }
    }
}

/// The number of the node, or the first refusal.
#[tactic(auto, unfolding(crate::specs::Lookup::lookup_rules, crate::specs::Lookup::lookup_in, crate::specs::Lookup::found_by))]
fn found(tree: &Tree, caller: &Caller, args: &LookupArgs) -> Result<u64, Status>
    ensures { MatchResult result (λ n. (first (lookup_rules tree.now caller.now args.now) ≡ None) × (found_by tree.now args.now ≡ Some n))
        (λ s. first (lookup_rules tree.now caller.now args.now) ≡ Some s) }
{
    let (number, dir) = live_node(tree, args.dir.as_slice())?;
    if !dir.is_dir() {
        return Err(Status::Notdir);
    }
    if !may(caller, Right::Execute, dir) {
        return Err(Status::Acces);
    }
    let name = args.name.as_slice();
    check_name(name)?;
    match number_of_name(number, name, dir) {
        Some(number) => Ok(number),
        None => Err(Status::Noent),
    }
}

fn number_of_name(number: u64, name: &[u8], dir: &Node) -> Option<u64>
    ensures { result ≡ number_by_name number name.now dir.now }
{
    if is_dot(name) {
        Some(number)
    } else if is_dot_dot(name) {
        Some(dir.parent)
    } else {
        dir.lookup(name)
    }
}
