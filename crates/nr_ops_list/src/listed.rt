//! The entries of a listing as they are sent.

ghost use Rattle.std.specs.Prelude.{◌≡◌, ◌++◌, ◌<◌, ◌≤◌, ◌^◌, ◌==◌, ◌-◌, None, Some, take, drop, length, map, IfOk};
ghost use Rattle.nr_nfs_base.specs.Attributes.{attributes_codec};
ghost use Rattle.nr_nfs_base.specs.Codec.{linked_list, optional};
ghost use Rattle.nr_nfs_base.specs.Names.{handle_codec};
ghost use Rattle.nr_nfs_res.specs.Readdir.{listing_codec};
ghost use Rattle.nr_tree.specs.Entries.{NamesAreValid};
ghost use Rattle.nr_tree.specs.Rules.{handle_of as handle_of_number};
ghost use Rattle.nr_xdr.specs.Items.{encodings};
ghost use Rattle.nr_tree.specs.Replies.{attributes_of_number, handle_of_live};
ghost use Rattle.nr_ops_list.specs.Readdir.{listed, listed_plus};
ghost use Rattle.nr_ops_list.specs.private.Sizes.{listing_of};

use crate::listings::{Range, next_entry};
use nr_nfs_base::{
    Attributes, HANDLE_MAX, Handle, UNLIMITED, Verifier, Xdr, write_opaque, write_two,
};
use nr_nfs_res::{Entry, EntryPlus};
use nr_tree::{EntryCursor, Slot, Tree};
use nr_xdr::{Memory, RoomWriter};

/// What a listing says of an entry of a directory.
pub(crate) trait Listed: Xdr {
    ghost use Rattle.std.specs.Prelude.{◌≡◌, ◌++◌, ◌<◌, ◌^◌, length, IfOk};
    ghost use Rattle.nr_tree.specs.Tree.{Tree};
    ghost use Rattle.nr_tree.specs.Entries.{Entry};
    ghost use Rattle.nr_xdr.specs.Items.{encodings};

    /// What it says, over a tree.
    ghost said: { Tree → Entry → Self };

    /// Appends the items that encode what it says of the entry of this name.
    fn write_entry(
        tree: &Tree,
        name: &[u8],
        slot: Slot,
        writer: RoomWriter,
    ) -> Result<RoomWriter, Memory>
        requires { length name.now < 2 ^ 32 }
        ensures { IfOk result (λ w. w.bytes ≡ writer.bytes ++ encodings (Self.codec.items (said tree.now (record { cookie = slot.cookie; name = name.now; number = slot.number })))) };
}

impl Listed for Entry {
    ghost said = { λ t. listed };

    #[tactic(auto, unfolding(nr_nfs_res::specs::Readdir::entry_codec))]
    fn write_entry(
        _tree: &Tree,
        name: &[u8],
        slot: Slot,
        writer: RoomWriter,
    ) -> Result<RoomWriter, Memory> {
        let writer = slot.number.write_to(writer)?;
        let writer = write_opaque::<UNLIMITED>(name, writer)?;
        slot.cookie.write_to(writer)
    }
}

impl Listed for EntryPlus {
    ghost said = { listed_plus };

    #[tactic(auto, unfolding(nr_nfs_res::specs::Readdir::entry_plus_codec))]
    fn write_entry(
        tree: &Tree,
        name: &[u8],
        slot: Slot,
        writer: RoomWriter,
    ) -> Result<RoomWriter, Memory> {
        let writer = slot.number.write_to(writer)?;
        let writer = write_opaque::<UNLIMITED>(name, writer)?;
        let writer = slot.cookie.write_to(writer)?;
        write_node(tree, slot.number, writer)
    }
}

/// Appends the handle of a number, after the flag 1.
fn write_handle(number: u64, writer: RoomWriter) -> Result<RoomWriter, Memory>
    ensures { IfOk result (λ w. w.bytes ≡ writer.bytes ++ encodings ((optional handle_codec).items (Some (handle_of_number number)))) }
{
    let writer = true.write_to(writer)?;
    write_opaque::<HANDLE_MAX>(&number.to_be_bytes(), writer)
}

/// Appends the attributes and the handle of the node under a number, if it is live, each after a flag.
fn write_node(tree: &Tree, number: u64, writer: RoomWriter) -> Result<RoomWriter, Memory>
    ensures { IfOk result (λ w. w.bytes ≡ writer.bytes ++ encodings ((optional attributes_codec).items (attributes_of_number tree.now number) ++ (optional handle_codec).items (handle_of_live tree.now number))) }
{
    match tree.get(number) {
        Some(node) => {
            let writer = Some(node.attributes(number)).write_to(writer)?;
            write_handle(number, writer)
        }
        None => write_two(&None::<Attributes>, &None::<Handle>, writer),
    }
}

/// Appends the items that encode the first entries of a directory that are left, as a linked list.
fn write_entries<E: Listed>(
    tree: &Tree,
    left: &mut EntryCursor<'_>,
    count: usize,
    writer: RoomWriter,
) -> Result<RoomWriter, Memory>
    requires count { count ≤ length left.old }
    requires names { NamesAreValid left.old }
    ensures { IfOk result (λ w. w.bytes ≡ writer.bytes ++ encodings ((linked_list E.codec).items (map (E.said tree.now) (take count left.old)))) }
{
    let mut writer = writer;
    'entries: for _ in 0..count {
        let (name, slot) = next_entry(left);
        writer = true.write_to(writer)?;
        writer = E::write_entry(tree, name, slot, writer)?;
    }
    false.write_to(writer)
}

/// The verifier of every cookie: entries keep their cookies.
const COOKIE_VERIFIER: Verifier = Verifier { number: 0 };

/// Appends the items that encode a listing.
#[tactic(auto, unfolding(nr_nfs_res::specs::Readdir::listing_codec))]
pub(crate) fn write_listing<E: Listed>(
    dir_attributes: Option<Attributes>,
    tree: &Tree,
    range: &Range<'_>,
    writer: RoomWriter,
) -> Result<RoomWriter, Memory>
    requires rises { range.now.start ≤ range.now.end }
    requires bounded { range.now.end ≤ length range.now.dir.now.list }
    requires names { NamesAreValid range.now.dir.now.list }
    ensures { IfOk result (λ w. w.bytes ≡ writer.bytes ++ encodings ((listing_codec E.codec).items
        (listing_of dir_attributes (E.said tree.now) (take (range.now.end - range.now.start) (drop range.now.start range.now.dir.now.list)) (range.now.end == length range.now.dir.now.list)))) }
{
    let writer = dir_attributes.write_to(writer)?;
    let writer = COOKIE_VERIFIER.write_to(writer)?;
    let mut left = range.dir.entries_from(range.start);
    let writer = write_entries::<E>(tree, &mut left, range.end - range.start, writer)?;
    range.is_last().write_to(writer)
}
