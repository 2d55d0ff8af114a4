//! Procedures of NFS, by the types of their arguments.

use crate::call::Call;
use nr_nfs_base::{Caller, StatusUnion, Xdr};
use nr_tree::Tree;
use nr_xdr::{Memory, RoomWriter};
use std::alloc::Global;

/// The arguments of a procedure that only reads the tree.
pub(crate) trait Reading: Xdr {
    ghost use Rattle.std.specs.Prelude.{◌≡◌, IfOk};
    ghost use Rattle.nr_nfs_base.specs.declared.caller.Caller.{Caller};
    ghost use Rattle.nr_tree.specs.Tree.{Tree};
    ghost use Rattle.nr_tree.specs.declared.rules.Space.{Space};

    /// What the procedure answers.
    type Results: Xdr;

    /// The results over a tree.
    ghost results: { Tree → Caller → Space → Self → Self.Results };

    /// Gives the results.
    fn execute(&self, alloc: Global, tree: &Tree, call: &Call) -> Result<Self::Results, Memory>
        ensures { IfOk result (λ r. r ≡ results tree.now call.now.caller.now call.now.space self.now) };
}

/// The arguments of a procedure that lists a directory.
pub(crate) trait Listing: Xdr {
    ghost use Rattle.std.specs.Prelude.{◌≡◌, ◌++◌, IfOk};
    ghost use Rattle.nr_xdr.specs.Items.{encodings};
    ghost use Rattle.nr_nfs_base.specs.declared.caller.Caller.{Caller};
    ghost use Rattle.nr_tree.specs.Tree.{Tree};

    /// What the procedure answers.
    type Results: Xdr;

    /// The results over a tree.
    ghost results: { Tree → Caller → Self → Self.Results };

    /// How many bytes the results may have on success.
    fn count(&self) -> u32;

    /// Appends the items that encode the results.
    fn write_results(
        &self,
        tree: &Tree,
        caller: &Caller,
        writer: RoomWriter,
    ) -> Result<RoomWriter, Memory>
        ensures { IfOk result (λ w. w.bytes ≡ writer.bytes ++ encodings (Self.Results.codec.items (results tree.now caller.now self.now))) };
}

/// The arguments of a procedure that may change the tree.
pub(crate) trait Changing: Xdr {
    ghost use Rattle.std.specs.Prelude.{◌≡◌, ◌≤◌, length, IfOk, OnOk, OnErr};
    ghost use Rattle.nr_xdr.specs.Items.{encodings};
    ghost use Rattle.nr_nfs_base.specs.declared.caller.Caller.{Caller};
    ghost use Rattle.nr_nfs_base.specs.declared.status.Status.{Status};
    ghost use Rattle.nr_nfs_base.specs.declared.status_union.StatusUnion.{StatusUnion};
    ghost use Rattle.nr_nfs_base.specs.declared.time.Time.{Time};
    ghost use Rattle.nr_nfs_res.specs.Results.{nfs_result};
    ghost use Rattle.nr_tree.specs.Rules.{IsWithinCapacity};
    ghost use Rattle.nr_tree.specs.Steps.{IsBounded};
    ghost use Rattle.nr_tree.specs.Tree.{Tree};
    ghost use Rattle.nr_tree.specs.declared.rules.Space.{Space};
    ghost use Rattle.nr_plain.specs.ReplySizes.{results_max};

    /// The results on success.
    type Done: Xdr;

    /// What follows the status of a failure.
    type Failed: Xdr;

    /// The results over a tree.
    ghost results: { Tree → Caller → Space → Time → Self → StatusUnion Self.Done Self.Failed Status };

    /// The tree after the call.
    ghost changed: { Tree → Caller → Space → Time → Self → Tree };

    /// Changes the tree, and gives the results. After an `Err` the tree is as before.
    fn execute(
        self,
        alloc: Global,
        tree: &mut Tree,
        call: &Call,
    ) -> Result<StatusUnion<Self::Done, Self::Failed>, Memory>
        requires bounded { IsBounded tree.old }
        requires space { IsWithinCapacity call.now.space }
        ensures result { IfOk result (λ r. r ≡ results tree.old call.now.caller.now call.now.space call.now.time self) }
        // They fit into the room of a reply.
        ensures fits { IfOk result (λ r. length (encodings ((nfs_result Self.Done.codec Self.Failed.codec).items r)) ≤ results_max) }
        ensures tree { OnOk result (tree.new ≡ changed tree.old call.now.caller.now call.now.space call.now.time self) }
        ensures err { OnErr result (tree.new ≡ tree.old) };
}
