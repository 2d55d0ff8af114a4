//! NULL.

ghost use Rattle.nr_nfs_res.specs.Null.{null_res_codec, null_res_lawful};

use nr_nfs_base::{ValueFault, Xdr};
use nr_xdr::{Memory, Reader, RoomWriter};
use std::alloc::Global;

/// The results of NULL, of NFS and of MOUNT: none (RFC 1813 sections 3.3.0 and 5.2.0).
#[derive(Clone, Copy)]
pub struct NullRes;

#[tactic(auto, unfolding(crate::specs::Null::null_res_codec))]
impl Xdr for NullRes {
    ghost codec = { null_res_codec };

    ghost lawful = { null_res_lawful };

    fn read_from<'a>(
        _alloc: Global,
        reader: Reader<'a>,
    ) -> Result<(NullRes, Reader<'a>), ValueFault> {
        Ok((NullRes, reader))
    }

    fn write_to(&self, writer: RoomWriter) -> Result<RoomWriter, Memory> {
        Ok(writer)
    }
}
