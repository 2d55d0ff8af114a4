//! The calls that take nothing.

ghost use Rattle.nr_nfs_args.specs.Null.{null_args_codec, null_args_lawful};

use nr_nfs_base::{ValueFault, Xdr};
use nr_xdr::{Memory, Reader, RoomWriter};
use std::alloc::Global;

/// The arguments of NULL of NFS and of MOUNT: none (RFC 1813 sections 3.3.0 and 5.2.0).
#[derive(Clone, Copy)]
pub struct NullArgs;

#[tactic(auto, unfolding(crate::specs::Null::null_args_codec))]
impl Xdr for NullArgs {
    ghost codec = { null_args_codec };

    ghost lawful = { null_args_lawful };

    fn read_from<'a>(
        _alloc: Global,
        reader: Reader<'a>,
    ) -> Result<(NullArgs, Reader<'a>), ValueFault> {
        Ok((NullArgs, reader))
    }

    fn write_to(&self, writer: RoomWriter) -> Result<RoomWriter, Memory> {
        Ok(writer)
    }
}
