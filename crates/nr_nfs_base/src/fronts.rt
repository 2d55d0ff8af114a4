//! The fields before the data of WRITE and READ, before the paths of SYMLINK and READLINK, and before the counts of READ,
//! READDIR and READDIRPLUS, and functions that skip them without memory.

ghost use Rattle.std.specs.Prelude.{◌≡◌};
ghost use Rattle.nr_nfs_base.specs.Codec.{cursor_after};
ghost use Rattle.nr_nfs_base.specs.Fronts.{each_success, read_args_front, read_res_front, readdir_args_front, readdirplus_args_front, readlink_res_front, success_codec, success_lawful, success_number, successes, symlink_args_front, write_args_front};

use crate::attributes::Attributes;
use crate::fault::ValueFault;
use crate::names::{Handle, Name};
use crate::numbered::{Numbered, read_numbered, write_numbered};
use crate::set_attributes::SetAttributes;
use crate::skip::{Skip, skip_numbered};
use crate::stable::StableHow;
use crate::verifier::Verifier;
use crate::xdr::Xdr;
use nr_xdr::{Memory, Reader, RoomWriter};
use std::alloc::Global;

/// The arguments of WRITE before the data (RFC 1813 section 3.3.7): file, offset, count and stable.
pub type WriteArgsFront = (Handle, (u64, (u32, StableHow)));

/// The arguments of SYMLINK before the path (RFC 1813 section 3.3.10): directory, name and attributes.
pub type SymlinkArgsFront = (Handle, (Name, SetAttributes));

/// The arguments of READ before the count (RFC 1813 section 3.3.6): file and offset.
pub type ReadArgsFront = (Handle, u64);

/// The arguments of READDIR before the count (RFC 1813 section 3.3.16): directory, cookie and verifier.
pub type ReaddirArgsFront = (Handle, (u64, Verifier));

/// The arguments of READDIRPLUS before the maxcount (RFC 1813 section 3.3.17): directory, cookie, verifier and dircount.
pub type ReaddirplusArgsFront = (Handle, (u64, (Verifier, u32)));

/// What READ gives before the data (RFC 1813 section 3.3.6): attributes, count and eof.
pub type ReadOkFront = (Option<Attributes>, (u32, bool));

/// What READLINK gives before the path (RFC 1813 section 3.3.5): attributes.
pub type ReadlinkOkFront = Option<Attributes>;

/// The status 0: the call succeeded (RFC 1813 section 2.5, `NFS3_OK` of `nfsstat3`).
#[derive(Clone, Copy)]
pub struct Success;

impl Numbered for Success {
    ghost number = { success_number };

    ghost all = { successes };

    ghost each = { each_success };

    fn number(self) -> u32 {
        0
    }

    fn from_number(word: u32) -> Option<Success> {
        if word == 0 { Some(Success) } else { None }
    }
}

#[tactic(auto, unfolding(crate::specs::Fronts::success_codec))]
impl Xdr for Success {
    ghost codec = { success_codec };

    ghost lawful = { success_lawful };

    fn read_from<'a>(
        alloc: Global,
        reader: Reader<'a>,
    ) -> Result<(Success, Reader<'a>), ValueFault> {
        read_numbered(alloc, reader)
    }

    fn write_to(&self, writer: RoomWriter) -> Result<RoomWriter, Memory> {
        write_numbered(*self, writer)
    }
}

#[tactic(auto, unfolding(crate::specs::Fronts::success_codec))]
impl Skip for Success {
    fn skip_from<'a>(reader: Reader<'a>) -> Option<Reader<'a>> {
        skip_numbered::<Success>(reader)
    }
}

/// The reader at the length word of WRITE's data. `arguments` is at the first byte of WRITE's arguments. `None` if an
/// item before the data fails. Takes no memory.
pub fn skip_to_write_data<'a>(arguments: Reader<'a>) -> Option<Reader<'a>>
    ensures { result ≡ cursor_after (write_args_front.read arguments.entry) }
{
    WriteArgsFront::skip_from(arguments)
}

/// The reader at the length word of SYMLINK's path. `arguments` is at the first byte of SYMLINK's arguments. `None` if an
/// item before the path fails. Takes no memory.
pub fn skip_to_symlink_path<'a>(arguments: Reader<'a>) -> Option<Reader<'a>>
    ensures { result ≡ cursor_after (symlink_args_front.read arguments.entry) }
{
    SymlinkArgsFront::skip_from(arguments)
}

/// The reader at the count of READ. `arguments` is at the first byte of READ's arguments. `None` if an item before the
/// count fails. Takes no memory.
pub fn skip_to_read_count<'a>(arguments: Reader<'a>) -> Option<Reader<'a>>
    ensures { result ≡ cursor_after (read_args_front.read arguments.entry) }
{
    ReadArgsFront::skip_from(arguments)
}

/// The reader at the count of READDIR. `arguments` is at the first byte of READDIR's arguments. `None` if an item before
/// the count fails. Takes no memory.
pub fn skip_to_readdir_count<'a>(arguments: Reader<'a>) -> Option<Reader<'a>>
    ensures { result ≡ cursor_after (readdir_args_front.read arguments.entry) }
{
    ReaddirArgsFront::skip_from(arguments)
}

/// The reader at the maxcount of READDIRPLUS. `arguments` is at the first byte of READDIRPLUS's arguments. `None` if an
/// item before the maxcount fails. Takes no memory.
pub fn skip_to_readdirplus_maxcount<'a>(arguments: Reader<'a>) -> Option<Reader<'a>>
    ensures { result ≡ cursor_after (readdirplus_args_front.read arguments.entry) }
{
    ReaddirplusArgsFront::skip_from(arguments)
}

/// The reader at the length word of READ's data. `results` is at the status of READ's results. `None` if the status isn't
/// 0 or an item before the data fails. Takes no memory.
pub fn skip_to_read_data<'a>(results: Reader<'a>) -> Option<Reader<'a>>
    ensures { result ≡ cursor_after (read_res_front.read results.entry) }
{
    <(Success, ReadOkFront)>::skip_from(results)
}

/// The reader at the length word of READLINK's path. `results` is at the status of READLINK's results. `None` if the
/// status isn't 0 or an item before the path fails. Takes no memory.
pub fn skip_to_readlink_path<'a>(results: Reader<'a>) -> Option<Reader<'a>>
    ensures { result ≡ cursor_after (readlink_res_front.read results.entry) }
{
    <(Success, ReadlinkOkFront)>::skip_from(results)
}
