//! The rules by which a call is refused.

ghost use Rattle.std.specs.Prelude.{◌≡◌, ◌==◌, ◌<◌, None, Some, SomeIff, length, MatchResult};
ghost use Rattle.std.specs.List.{list_any};
ghost use Rattle.nr_tree.specs.Rules.{first, name_rules, bit_of, may as has_right, has_byte, is_in_group, class_of, change_rules, handle_rule, node_of_handle, number_of_handle, is_dot as is_one_dot, is_dot_dot as is_two_dots, is_dot_name as is_dot_or_dot_dot, differs_if_given as is_another, same_name, space_rule, IsWithinCapacity, is_invalid_time, time_rule, is_too_large, size_rule, time_after as time_set};

use crate::node::Node;
use crate::tree::Tree;
use nr_nfs_base::{Caller, NAME_LENGTH_MAX, SetAttributes, SetTime, Status, Time, Verifier};

/// A right on a node (RFC 1813 section 2.5, the mode of `fattr3`).
#[derive(Clone, Copy)]
pub enum Right {
    /// To read a file, and to list a directory.
    Read,
    /// To write a file, and to change the entries of a directory.
    Write,
    /// To execute a file, and to search a directory.
    Execute,
}

impl Right {
    /// The bit of the right within a class.
    fn bit(self) -> u32
        ensures value { result ≡ bit_of self }
        ensures positive { 0 < result }
    {
        match self {
            Right::Read => 4,
            Right::Write => 2,
            Right::Execute => 1,
        }
    }
}

/// The maximum number of links of a node.
pub const LINKS_MAX: u32 = 65_535;

/// How many modes there are: a mode has twelve bits (RFC 1813 section 2.5, the mode of `fattr3`).
pub const MODE_COUNT: u32 = 0o10000;

/// The maximum size of a regular file in bytes.
pub const FILE_SIZE_MAX: u64 = 16_777_216;

/// The cost of an entry of the journal in bytes, beside its arguments.
pub const ENTRY_COST: u64 = 64;

fn is_among(gids: &[u32], gid: u32) -> bool
    ensures { result ≡ list_any (λ g. g == gid) gids.now }
{
    gids.iter().any(|g| *g == gid)
}

fn in_group(caller: &Caller, gid: u32) -> bool
    ensures { result ≡ is_in_group caller.now gid }
{
    caller.gid == gid || is_among(caller.gids.as_slice(), gid)
}

/// The bits of the caller's class: the owner's, the group's or the others'.
fn class(caller: &Caller, node: &Node) -> u32
    ensures { result ≡ class_of caller.now node.now }
{
    let mode = node.metadata.mode;
    let gid = node.metadata.gid;
    if caller.uid == node.metadata.uid {
        mode / 64
    } else if in_group(caller, gid) {
        mode / 8
    } else {
        mode
    }
}

/// Whether the caller has a right on the node.
pub fn may(caller: &Caller, right: Right, node: &Node) -> bool
    ensures { result ≡ has_right caller.now right node.now }
{
    caller.uid == 0 || (class(caller, node) / right.bit()) % 2 == 1
}

fn contains_byte(bytes: &[u8], byte: u8) -> bool
    ensures { result ≡ has_byte byte bytes.now }
{
    bytes.iter().any(|b| *b == byte)
}

/// Whether an entry may have the name.
pub fn check_name(name: &[u8]) -> Result<(), Status>
    ensures { MatchResult result (λ _. first (name_rules name.now) ≡ None) (λ s. first (name_rules name.now) ≡ Some s) }
{
    if name.is_empty() {
        return Err(Status::Acces);
    }
    if contains_byte(name, 0) || contains_byte(name, b'/') {
        return Err(Status::Acces);
    }
    if name.len() > NAME_LENGTH_MAX as usize {
        return Err(Status::Nametoolong);
    }
    Ok(())
}

/// Whether the caller may change the directory.
pub fn check_changeable(caller: &Caller, node: &Node) -> Result<(), Status>
    ensures { MatchResult result (λ _. first (change_rules caller.now node.now) ≡ None) (λ s. first (change_rules caller.now node.now) ≡ Some s) }
{
    if !node.is_dir() {
        return Err(Status::Notdir);
    }
    if !may(caller, Right::Write, node) {
        return Err(Status::Acces);
    }
    if !may(caller, Right::Execute, node) {
        return Err(Status::Acces);
    }
    Ok(())
}

/// The number that a handle of eight bytes spells.
pub fn handle_number(handle: &[u8]) -> Option<u64>
    ensures { SomeIff result (length handle.now ≡ 8) (number_of_handle handle.now) }
{
    if handle.len() != 8 {
        return None;
    }
    Some(u64::from_be_bytes([
        handle[0], handle[1], handle[2], handle[3], handle[4], handle[5], handle[6], handle[7],
    ]))
}

/// The live node that a handle names, and its number.
pub fn live_node<'a>(tree: &'a Tree, handle: &[u8]) -> Result<(u64, &'a Node), Status>
    ensures { MatchResult result (λ x. (handle_rule tree.now handle.now ≡ None) × (node_of_handle tree.now handle.now ≡ Some x.1.now) × (x.0 ≡ number_of_handle handle.now))
        (λ s. handle_rule tree.now handle.now ≡ Some s) }
{
    let number = match handle_number(handle) {
        Some(number) if number > 0 && number < tree.next() => number,
        _ => return Err(Status::Badhandle),
    };
    match tree.get(number) {
        Some(node) => Ok((number, node)),
        None => Err(Status::Stale),
    }
}

fn same(a: &[u8], b: &[u8]) -> bool
    ensures { result ≡ same_name a.now b.now }
{
    a == b
}

/// `.`, the directory itself.
pub fn is_dot(name: &[u8]) -> bool
    ensures { result ≡ is_one_dot name.now }
{
    same(name, b".")
}

/// `..`, the directory that names it.
pub fn is_dot_dot(name: &[u8]) -> bool
    ensures { result ≡ is_two_dots name.now }
{
    same(name, b"..")
}

/// `.` or `..`.
pub fn is_dot_name(name: &[u8]) -> bool
    ensures { result ≡ is_dot_or_dot_dot name.now }
{
    is_dot(name) || is_dot_dot(name)
}

/// What a call finds of the server beside its tree.
#[derive(Clone, Copy)]
pub struct Space {
    /// What the journal may cost in all.
    pub capacity: u64,
    /// What the journal costs so far.
    pub used: u64,
    /// The bytes of this call's arguments.
    pub arguments: u64,
    /// The write verifier of the server (RFC 1813 section 3.3.7).
    pub verifier: Verifier,
}

/// Whether the journal may have the call's entry.
pub fn check_space(space: &Space) -> Result<(), Status>
    requires { IsWithinCapacity space.now }
    ensures { MatchResult result (λ _. space_rule space.now ≡ None) (λ s. space_rule space.now ≡ Some s) }
{
    let left = space.capacity - space.used;
    if left < ENTRY_COST || left - ENTRY_COST < space.arguments {
        return Err(Status::Nospc);
    }
    Ok(())
}

/// Whether a time may be set: a client's time has fewer than 10^9 nanoseconds.
fn is_invalid(time: SetTime) -> bool
    ensures { result ≡ is_invalid_time time }
{
    match time {
        SetTime::Leave => false,
        SetTime::ServerTime => false,
        SetTime::ClientTime(time) => time.nanoseconds >= NANOS_PER_SEC,
    }
}

const NANOS_PER_SEC: u32 = 1_000_000_000;

/// Whether the times that a call sets may be set.
pub fn check_times(attributes: &SetAttributes) -> Result<(), Status>
    ensures { MatchResult result (λ _. time_rule attributes.now ≡ None) (λ s. time_rule attributes.now ≡ Some s) }
{
    if is_invalid(attributes.atime) || is_invalid(attributes.mtime) {
        return Err(Status::Inval);
    }
    Ok(())
}

fn is_above_limit(size: Option<u64>) -> bool
    ensures { result ≡ is_too_large size }
{
    match size {
        Some(size) => size > FILE_SIZE_MAX,
        None => false,
    }
}

/// Whether a regular file may get the size, if one is set.
pub fn check_size(size: Option<u64>) -> Result<(), Status>
    ensures { MatchResult result (λ _. size_rule size ≡ None) (λ s. size_rule size ≡ Some s) }
{
    if is_above_limit(size) {
        return Err(Status::Fbig);
    }
    Ok(())
}

/// Whether a number is given, and is another than the present one.
pub fn differs_if_given(given: Option<u32>, present: u32) -> bool
    ensures { result ≡ is_another given present }
{
    match given {
        Some(given) => given != present,
        None => false,
    }
}

/// A time after a call that sets it.
pub fn time_after(now: Time, before: Time, how: SetTime) -> Time
    ensures { result ≡ time_set now before how }
{
    match how {
        SetTime::Leave => before,
        SetTime::ServerTime => now,
        SetTime::ClientTime(time) => time,
    }
}
