//! REMOVE, RMDIR, RENAME and LINK.

ghost use Rattle.nr_nfs_res.specs.Remove.{link_wcc_codec, link_wcc_lawful, rename_wcc_codec, rename_wcc_lawful};

use nr_nfs_base::{Attributes, StatusUnion, ValueFault, WccData, Xdr, write_two};
use nr_xdr::{Memory, Reader, RoomWriter};
use std::alloc::Global;

/// The results of RMDIR (RFC 1813 section 3.3.13).
pub type RmdirRes = StatusUnion<WccData, WccData>;

/// The results of REMOVE (RFC 1813 section 3.3.12).
pub type RemoveRes = StatusUnion<WccData, WccData>;

/// The directories of RENAME before and after it (RFC 1813 section 3.3.14).
#[derive(Clone, Copy)]
pub struct RenameWcc {
    /// `fromdir_wcc`: the directory `from.dir` before and after the call.
    pub from_dir: WccData,
    /// `todir_wcc`: the directory `to.dir` before and after the call.
    pub to_dir: WccData,
}

#[tactic(auto, unfolding(crate::specs::Remove::rename_wcc_codec))]
impl Xdr for RenameWcc {
    ghost codec = { rename_wcc_codec };

    ghost lawful = { rename_wcc_lawful };

    fn read_from<'a>(
        alloc: Global,
        reader: Reader<'a>,
    ) -> Result<(RenameWcc, Reader<'a>), ValueFault> {
        let ((from_dir, to_dir), reader) = <(WccData, WccData)>::read_from(alloc, reader)?;
        Ok((RenameWcc { from_dir, to_dir }, reader))
    }

    fn write_to(&self, writer: RoomWriter) -> Result<RoomWriter, Memory> {
        write_two(&self.from_dir, &self.to_dir, writer)
    }
}

/// The results of RENAME (RFC 1813 section 3.3.14).
pub type RenameRes = StatusUnion<RenameWcc, RenameWcc>;

/// The attributes of the file and the `wcc_data` of the directory of LINK (RFC 1813 section 3.3.15).
#[derive(Clone, Copy)]
pub struct LinkWcc {
    /// Those of the file.
    pub attributes: Option<Attributes>,
    /// `linkdir_wcc`: the directory `link.dir` before and after the call.
    pub dir_wcc: WccData,
}

#[tactic(auto, unfolding(crate::specs::Remove::link_wcc_codec))]
impl Xdr for LinkWcc {
    ghost codec = { link_wcc_codec };

    ghost lawful = { link_wcc_lawful };

    fn read_from<'a>(
        alloc: Global,
        reader: Reader<'a>,
    ) -> Result<(LinkWcc, Reader<'a>), ValueFault> {
        let ((attributes, dir_wcc), reader) = <(Option<Attributes>, WccData)>::read_from(
            alloc, reader,
        )?;
        Ok((
            LinkWcc {
                attributes,
                dir_wcc,
            },
            reader,
        ))
    }

    fn write_to(&self, writer: RoomWriter) -> Result<RoomWriter, Memory> {
        write_two(&self.attributes, &self.dir_wcc, writer)
    }
}

/// The results of LINK (RFC 1813 section 3.3.15).
pub type LinkRes = StatusUnion<LinkWcc, LinkWcc>;
