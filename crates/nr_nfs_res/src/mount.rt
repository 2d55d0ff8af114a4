//! MNT, UMNT and UMNTALL.

ghost use Rattle.nr_nfs_res.specs.Mount.{mount_ok_codec, mount_ok_lawful, umnt_res_codec, umnt_res_lawful, umntall_res_codec, umntall_res_lawful};

use nr_nfs_base::{Array, Handle, MountStatus, StatusUnion, ValueFault, Xdr, write_two};
use nr_xdr::{Memory, Reader, RoomWriter};
use std::alloc::Global;

/// The results of MNT on success (RFC 1813 section 5.2.1, `mountres3_ok`).
#[derive(Drop)]
pub struct MountOk {
    /// `fhandle`: the file handle of the directory.
    pub handle: Handle,
    /// The flavors of credentials that the server accepts.
    pub flavors: Array<u32>,
}

#[tactic(auto, unfolding(crate::specs::Mount::mount_ok_codec))]
impl Xdr for MountOk {
    ghost codec = { mount_ok_codec };

    ghost lawful = { mount_ok_lawful };

    fn read_from<'a>(
        alloc: Global,
        reader: Reader<'a>,
    ) -> Result<(MountOk, Reader<'a>), ValueFault> {
        let ((handle, flavors), reader) = <(Handle, Array<u32>)>::read_from(alloc, reader)?;
        Ok((MountOk { handle, flavors }, reader))
    }

    fn write_to(&self, writer: RoomWriter) -> Result<RoomWriter, Memory> {
        write_two(&self.handle, &self.flavors, writer)
    }
}

/// The results of MNT (RFC 1813 section 5.2.1).
pub type MntRes = StatusUnion<MountOk, (), MountStatus>;

/// The results of UMNT: none (RFC 1813 section 5.2.3).
#[derive(Clone, Copy)]
pub struct UmntRes;

#[tactic(auto, unfolding(crate::specs::Mount::umnt_res_codec))]
impl Xdr for UmntRes {
    ghost codec = { umnt_res_codec };

    ghost lawful = { umnt_res_lawful };

    fn read_from<'a>(
        _alloc: Global,
        reader: Reader<'a>,
    ) -> Result<(UmntRes, Reader<'a>), ValueFault> {
        Ok((UmntRes, reader))
    }

    fn write_to(&self, writer: RoomWriter) -> Result<RoomWriter, Memory> {
        Ok(writer)
    }
}

/// The results of UMNTALL: none (RFC 1813 section 5.2.4).
#[derive(Clone, Copy)]
pub struct UmntallRes;

#[tactic(auto, unfolding(crate::specs::Mount::umntall_res_codec))]
impl Xdr for UmntallRes {
    ghost codec = { umntall_res_codec };

    ghost lawful = { umntall_res_lawful };

    fn read_from<'a>(
        _alloc: Global,
        reader: Reader<'a>,
    ) -> Result<(UmntallRes, Reader<'a>), ValueFault> {
        Ok((UmntallRes, reader))
    }

    fn write_to(&self, writer: RoomWriter) -> Result<RoomWriter, Memory> {
        Ok(writer)
    }
}
