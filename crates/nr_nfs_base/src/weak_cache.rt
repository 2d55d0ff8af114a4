//! Weak cache consistency.

ghost use Rattle.nr_nfs_base.specs.WeakCache.{wcc_attributes_codec, wcc_attributes_lawful, wcc_data_codec, wcc_data_lawful};

use crate::attributes::Attributes;
use crate::fault::ValueFault;
use crate::pair::{write_three, write_two};
use crate::time::Time;
use crate::xdr::Xdr;
use nr_xdr::{Memory, Reader, RoomWriter};
use std::alloc::Global;

/// The attributes by which a client sees that a cached file has changed (RFC 1813 section 2.5, `wcc_attr`).
#[derive(Clone, Copy)]
pub struct WccAttributes {
    /// In bytes.
    pub size: u64,
    /// The time of the last change of the contents.
    pub mtime: Time,
    /// The time of the last change of the attributes.
    pub ctime: Time,
}

#[tactic(auto, unfolding(crate::specs::WeakCache::wcc_attributes_codec))]
impl Xdr for WccAttributes {
    ghost codec = { wcc_attributes_codec };

    ghost lawful = { wcc_attributes_lawful };

    fn read_from<'a>(
        alloc: Global,
        reader: Reader<'a>,
    ) -> Result<(WccAttributes, Reader<'a>), ValueFault> {
        let ((size, (mtime, ctime)), reader) = <(u64, (Time, Time))>::read_from(alloc, reader)?;
        Ok((WccAttributes { size, mtime, ctime }, reader))
    }

    fn write_to(&self, writer: RoomWriter) -> Result<RoomWriter, Memory> {
        write_three(&self.size, &self.mtime, &self.ctime, writer)
    }
}

/// A file before and after a call that may change it (RFC 1813 section 2.5, `wcc_data`).
#[derive(Clone, Copy)]
pub struct WccData {
    /// The attributes before the call, if the server knows them.
    pub before: Option<WccAttributes>,
    /// The attributes after the call, if the server knows them.
    pub after: Option<Attributes>,
}

#[tactic(auto, unfolding(crate::specs::WeakCache::wcc_data_codec))]
impl Xdr for WccData {
    ghost codec = { wcc_data_codec };

    ghost lawful = { wcc_data_lawful };

    fn read_from<'a>(
        alloc: Global,
        reader: Reader<'a>,
    ) -> Result<(WccData, Reader<'a>), ValueFault> {
        let ((before, after), reader) = <(Option<WccAttributes>, Option<Attributes>)>::read_from(
            alloc, reader,
        )?;
        Ok((WccData { before, after }, reader))
    }

    fn write_to(&self, writer: RoomWriter) -> Result<RoomWriter, Memory> {
        write_two(&self.before, &self.after, writer)
    }
}
