//! FSSTAT, FSINFO and PATHCONF.

ghost use Rattle.std.specs.Prelude.{◌≡◌, ◌∷◌, []};
ghost use Rattle.nr_nfs_base.specs.declared.status_union.StatusUnion.TheVariants.{Done, Failed};
ghost use Rattle.nr_tree.specs.Rules.{first, answer, handle_rule};
ghost use Rattle.nr_ops_file.specs.FileSystem.{fsstat_ok, fsstat_reply, fsinfo_ok, fsinfo_reply, pathconf_ok, pathconf_reply};

use nr_nfs_args::{FsinfoArgs, FsstatArgs, PathconfArgs};
use nr_nfs_base::{Attributes, LISTING_MAX, NAME_LENGTH_MAX, StatusUnion, TRANSFER_MAX, Time};
use nr_nfs_res::{FsinfoOk, FsinfoRes, FsstatOk, FsstatRes, PathconfOk, PathconfRes};
use nr_tree::{ENTRY_COST, FILE_SIZE_MAX, LINKS_MAX, Space, Tree, attributes_at, live_node};

/// What the bytes of a READ and of a WRITE should be a multiple of.
const TRANSFER_MULTIPLE: u32 = 4096;

/// The resolution of times: a nanosecond.
const TIME_STEP: Time = Time {
    seconds: 0,
    nanoseconds: 1,
};

/// Hard links, symbolic links, PATHCONF the same everywhere, times that can be set (RFC 1813 section 3.3.19).
const PROPERTIES: u32 = 0x01 + 0x02 + 0x08 + 0x10;

/// The results of a call that tests its handle alone.
fn results_if_live<D: Copy>(
    tree: &Tree,
    handle: &[u8],
    attributes: Option<Attributes>,
    done: D,
) -> StatusUnion<D, Option<Attributes>>
    ensures { result ≡ answer (first (handle_rule tree.now handle.now ∷ [])) (λ s. Failed s attributes) (Done done) }
{
    match live_node(tree, handle) {
        Ok(_) => StatusUnion::Done(done),
        Err(status) => StatusUnion::Failed {
            status,
            part: attributes,
        },
    }
}

/// How much of the journal's capacity there is and is left, in bytes and in files (RFC 1813 section 3.3.18). Takes no
/// memory.
pub fn fsstat(tree: &Tree, space: &Space, args: &FsstatArgs) -> FsstatRes
    ensures { result ≡ fsstat_reply tree.now space.now args.now }
{
    let handle = args.fsroot.as_slice();
    let attributes = attributes_at(tree, handle);
    results_if_live(tree, handle, attributes, fsstat_results(space, attributes))
}

fn fsstat_results(space: &Space, attributes: Option<Attributes>) -> FsstatOk
    ensures { result ≡ fsstat_ok space.now attributes }
{
    let free = space.capacity.saturating_sub(space.used);
    FsstatOk {
        attributes,
        tbytes: space.capacity,
        fbytes: free,
        abytes: free,
        tfiles: space.capacity / ENTRY_COST,
        ffiles: free / ENTRY_COST,
        afiles: free / ENTRY_COST,
        invarsec: 0,
    }
}

/// The sizes that the server takes and prefers (RFC 1813 section 3.3.19). Takes no memory.
pub fn fsinfo(tree: &Tree, args: &FsinfoArgs) -> FsinfoRes
    ensures { result ≡ fsinfo_reply tree.now args.now }
{
    let handle = args.fsroot.as_slice();
    let attributes = attributes_at(tree, handle);
    results_if_live(tree, handle, attributes, fsinfo_results(attributes))
}

fn fsinfo_results(attributes: Option<Attributes>) -> FsinfoOk
    ensures { result ≡ fsinfo_ok attributes }
{
    FsinfoOk {
        attributes,
        rtmax: TRANSFER_MAX,
        rtpref: TRANSFER_MAX,
        rtmult: TRANSFER_MULTIPLE,
        wtmax: TRANSFER_MAX,
        wtpref: TRANSFER_MAX,
        wtmult: TRANSFER_MULTIPLE,
        dtpref: LISTING_MAX,
        maxfilesize: FILE_SIZE_MAX,
        time_delta: TIME_STEP,
        properties: PROPERTIES,
    }
}

/// The limits of names and links (RFC 1813 section 3.3.20). Takes no memory.
pub fn pathconf(tree: &Tree, args: &PathconfArgs) -> PathconfRes
    ensures { result ≡ pathconf_reply tree.now args.now }
{
    let handle = args.object.as_slice();
    let attributes = attributes_at(tree, handle);
    results_if_live(tree, handle, attributes, pathconf_results(attributes))
}

fn pathconf_results(attributes: Option<Attributes>) -> PathconfOk
    ensures { result ≡ pathconf_ok attributes }
{
    PathconfOk {
        attributes,
        linkmax: LINKS_MAX,
        name_max: NAME_LENGTH_MAX,
        no_trunc: true,
        chown_restricted: true,
        case_insensitive: false,
        case_preserving: true,
    }
}
