//! Which entries of a directory a listing has.

ghost use Rattle.std.specs.Prelude.{◌≡◌, ◌==◌, ◌+◌, ◌-◌, ◌<◌, ◌≤◌, ◌^◌, ◌∷◌, false, None, Some, [], take, drop, length, min, SomeIff, MatchResult};
ghost use Rattle.nr_tree.specs.Rules.{first};
ghost use Rattle.nr_tree.specs.Listing.{entries_after};
ghost use Rattle.nr_tree.specs.declared.node.Content.TheVariants.{Directory as DirectoryNode};
ghost use Rattle.nr_nfs_base.specs.declared.status.Status.TheVariants.{Toosmall as TooSmall};
ghost use Rattle.nr_xdr.specs.Item.{pad_len};
ghost use Rattle.nr_ops_list.specs.Readdir.{longest, goes_on, listing_rules};
ghost use Rattle.nr_nfs_base.specs.Limits.{listing_max};
ghost use Rattle.nr_ops_list.specs.private.Sizes.{size_of_name_in, AreLive, within, empty_size, IsRange};

use nr_nfs_base::{Caller, LISTING_MAX, Status, Verifier};
use nr_tree::{Content, Directory, EntryCursor, Node, Right, Slot, Steps, Tree, may};
use std::marker::Brand;
use std::sync::ledger::{Blank, Ledger};

/// What a listing says of each entry.
#[derive(Clone, Copy)]
pub(crate) enum Detail {
    /// Its name and number (READDIR).
    Names,
    /// Its node too (READDIRPLUS).
    Nodes,
}

/// What a listing may have, in bytes.
#[derive(Clone, Copy)]
pub(crate) struct Limits {
    pub(crate) detail: Detail,
    /// All entries.
    pub(crate) entries: u32,
    /// Their numbers, cookies and names.
    pub(crate) names: u32,
}

/// The bytes of a name in a listing, with its length and its pad bytes.
fn padded_size(name: &[u8]) -> u64
    ensures size { result ≡ 4 + (length name.now + pad_len (length name.now)) }
    ensures bounded { result ≤ 2 ^ 63 + 8 }
{
    let len = name.len() as u64;
    4 + len + (4 - len % 4) % 4
}

/// The bytes of the attributes and the handle of a live node, each after a flag.
const NODE_SIZE: u64 = 104;

/// The bytes of the entry of a name in a listing, whose node is live.
fn entry_size(detail: Detail, name: &[u8]) -> u64
    ensures size { result ≡ size_of_name_in detail name.now }
    ensures bounded { result ≤ 2 ^ 63 + 256 }
{
    let size = 20 + padded_size(name);
    match detail {
        Detail::Names => size,
        Detail::Nodes => size + NODE_SIZE,
    }
}

/// The first entry that is left, and goes past it.
pub(crate) fn next_entry<'a>(left: &mut EntryCursor<'a>) -> (&'a [u8], Slot)
    requires { 0 < length left.old }
    ensures { left.old ≡ record { cookie = result.1.cookie; name = result.0.now; number = result.1.number } ∷ left.new }
{
    match left.advance() {
        Some(entry) => entry,
        None => unreachable!(),
    }
}

/// How many entries from an index on are within the limits. Takes no memory.
pub(crate) fn count_within(tree: &Tree, dir: &Directory, place: usize, limits: &Limits) -> usize
    requires place { place ≤ length dir.now.list }
    requires live { AreLive tree.now dir.now.list }
    ensures bounded { place + result ≤ length dir.now.list }
    ensures entries { take result (drop place dir.now.list) ≡ longest (within tree.now limits.now) [] (drop place dir.now.list) }
{
    let mut left = dir.entries_from(place);
    let mut entries = 0;
    let mut names = 0;
    let mut count = 0;
    'counting: while let Some((name, _)) = left.advance() {
        entries += entry_size(limits.detail, name);
        names += 16 + padded_size(name);
        if entries > limits.entries as u64 || names > limits.names as u64 {
            return count;
        }
        count += 1;
    }
    count
}

/// The bytes of the results without entries: the attributes of the directory, the verifier, the end of the list, and eof.
const EMPTY_SIZE: u32 = 104;

/// The limits of a listing of at most `count` bytes, whose entries have at most `names` bytes of numbers, cookies and names;
/// none if the results without entries are larger.
pub(crate) fn limits_of(detail: Detail, count: u32, names: u32) -> Option<Limits>
    ensures { SomeIff result (empty_size ≤ min count listing_max) (record { detail = detail; entries = min count listing_max - empty_size; names = names }) }
{
    let most = count.min(LISTING_MAX);
    if most < EMPTY_SIZE {
        return None;
    }
    Some(Limits {
        detail,
        entries: most - EMPTY_SIZE,
        names,
    })
}

/// The directory that a node is, if the caller may list it with this cookie.
pub(crate) fn directory_to_list<'a>(
    caller: &Caller,
    cookie: u64,
    verifier: Verifier,
    node: &'a Node,
) -> Result<&'a Directory, Status>
    ensures { MatchResult result
        (λ dir. (first (listing_rules caller.now cookie verifier node.now) ≡ None) × (node.now.content ≡ DirectoryNode dir.now))
        (λ s. first (listing_rules caller.now cookie verifier node.now) ≡ Some s) }
{
    let dir = match &node.content {
        Content::Directory(dir) => dir,
        _ => return Err(Status::Notdir),
    };
    if !may(caller, Right::Read, node) {
        return Err(Status::Acces);
    }
    if cookie != 0 && verifier.number != 0 {
        return Err(Status::BadCookie);
    }
    Ok(dir)
}

/// Entries of a directory, from one index up to another.
#[derive(Clone, Copy)]
pub(crate) struct Range<'a> {
    pub(crate) dir: &'a Directory,
    pub(crate) start: usize,
    pub(crate) end: usize,
}

impl Range<'_> {
    /// Whether no entry follows these.
    pub(crate) fn is_last(&self) -> bool
        ensures { result ≡ (self.now.end == length self.now.dir.now.list) }
    {
        self.end == self.dir.len()
    }
}

/// How many entries of a directory have a cookie that is at most the given one: found in a number of steps, which nobody reads, that
/// `Directory::place_after` bounds.
fn place_after<L: Ledger>(dir: &Directory, cookie: u64, blank: Blank) -> usize
    requires name { blank.name ≡ L.name }
    requires parts { blank.parts ≡ L.parts }
    requires some { 0 < L.parts }
    ensures within { result ≤ length dir.now.list }
    ensures entries { drop result dir.now.list ≡ entries_after cookie dir.now.list }
{
    let mut steps = Steps::<L>::new(blank);
    dir.place_after(cookie, &mut steps)
}

/// The entries after a cookie that are within the limits, or the status TOOSMALL if the first one isn't.
pub(crate) fn range_within<'a>(
    tree: &Tree,
    dir: &'a Directory,
    cookie: u64,
    limits: &Limits,
) -> Result<Range<'a>, Status>
    requires { AreLive tree.now dir.now.list }
    ensures { MatchResult result
        (λ r. (r.dir.now ≡ dir.now) × IsRange dir.now.list r.start r.end (longest (within tree.now limits.now) [] (entries_after cookie dir.now.list)) (entries_after cookie dir.now.list))
        (λ s. (s ≡ TooSmall) × (goes_on (longest (within tree.now limits.now) [] (entries_after cookie dir.now.list)) (entries_after cookie dir.now.list) ≡ false)) }
{
    let len = dir.len();
    let start = place_after::<Brand>(dir, cookie, Blank::new(1));
    let count = count_within(tree, dir, start, limits);
    if count == 0 && start < len {
        return Err(Status::Toosmall);
    }
    let end = start + count;
    Ok(Range { dir, start, end })
}
