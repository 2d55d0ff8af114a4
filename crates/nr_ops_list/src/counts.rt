//! What a listing may ask for.

ghost use Rattle.std.specs.Prelude.{◌≡◌, ◌≤◌, ◌↔◌, Bool, true, false, List, [], length};
ghost use Rattle.nr_nfs_base.specs.Limits.{listing_max};
ghost use Rattle.nr_ops_list.specs.Readdir.{longest, name_size, readdir_fits, readdir_ok, readdir_reply, readdirplus_fits, readdirplus_ok, readdirplus_reply, total, IsLongest};
ghost use Rattle.nr_nfs_res.specs.Readdir.{readdir_ok_codec, readdirplus_ok_codec};
ghost use Rattle.nr_tree.specs.Entries.{Entry};
ghost use Rattle.nr_tree.specs.Tree.{Tree};
ghost use Rattle.nr_xdr.specs.Items.{encodings};

use nr_nfs_args::{ReaddirArgs, ReaddirplusArgs};
use nr_nfs_base::Caller;

/// A READDIR or READDIRPLUS of at most `LISTING_MAX` bytes, which FSINFO gives as the preferred size (RFC 1813 section 3.3.19), is
/// bounded by its own counts alone: entries fit if and only if their results have at most that many bytes, and those of READDIRPLUS
/// at most `dircount` bytes of names. One of more gives what one of `LISTING_MAX` bytes gives. Entries are taken in their order, as
/// long as they fit.
pub fn listing_limit()
    ensures within { (t : Tree) (args : ReaddirArgs) (taken : List Entry) → args.count ≤ listing_max →
        (readdir_fits t args taken ≡ true) ↔ (length (encodings (readdir_ok_codec.items (readdir_ok t args.dir taken false))) ≤ args.count) }
    ensures above { (t : Tree) (caller : Caller) (args : ReaddirArgs) → listing_max ≤ args.count →
        readdir_reply t caller args ≡ readdir_reply t caller (record args { count = listing_max }) }
    ensures plus_within { (t : Tree) (args : ReaddirplusArgs) (taken : List Entry) → args.maxcount ≤ listing_max →
        (readdirplus_fits t args taken ≡ true)
        ↔ ((length (encodings (readdirplus_ok_codec.items (readdirplus_ok t args.dir taken false))) ≤ args.maxcount) × (total name_size taken ≤ args.dircount)) }
    ensures plus_above { (t : Tree) (caller : Caller) (args : ReaddirplusArgs) → listing_max ≤ args.maxcount →
        readdirplus_reply t caller args ≡ readdirplus_reply t caller (record args { maxcount = listing_max }) }
    ensures longest { (fits : List Entry → Bool) (left : List Entry) → IsLongest fits (longest fits [] left) left }
{}
