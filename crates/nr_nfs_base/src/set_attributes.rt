//! The attributes that a call sets.

ghost use Rattle.nr_nfs_base.specs.SetAttributes.{each_time_how, set_attributes_codec, set_attributes_lawful, set_time_codec, set_time_lawful, time_how_codec, time_how_lawful, time_how_number, time_hows};

use crate::fault::ValueFault;
use crate::numbered::{Numbered, read_numbered, write_numbered};
use crate::pair::write_two;
use crate::time::Time;
use crate::xdr::Xdr;
use nr_xdr::{Memory, Reader, RoomWriter};
use std::alloc::Global;

/// How a time is to be set (RFC 1813 section 2.5, `time_how`).
#[derive(Clone, Copy)]
pub enum TimeHow {
    /// The time stays as it is.
    DontChange = 0,
    /// The server's time of the call.
    SetToServerTime = 1,
    /// The time that the call gives.
    SetToClientTime = 2,
}

impl Numbered for TimeHow {
    ghost number = { time_how_number };

    ghost all = { time_hows };

    ghost each = { each_time_how };

    fn number(self) -> u32 {
        self as u32
    }

    fn from_number(word: u32) -> Option<TimeHow> {
        match word {
            0 => Some(TimeHow::DontChange),
            1 => Some(TimeHow::SetToServerTime),
            2 => Some(TimeHow::SetToClientTime),
            _ => None,
        }
    }
}

#[tactic(auto, unfolding(crate::specs::SetAttributes::time_how_codec))]
impl Xdr for TimeHow {
    ghost codec = { time_how_codec };

    ghost lawful = { time_how_lawful };

    fn read_from<'a>(
        alloc: Global,
        reader: Reader<'a>,
    ) -> Result<(TimeHow, Reader<'a>), ValueFault> {
        read_numbered(alloc, reader)
    }

    fn write_to(&self, writer: RoomWriter) -> Result<RoomWriter, Memory> {
        write_numbered(*self, writer)
    }
}

/// What a time is to be set to (RFC 1813 section 2.5, `set_atime` and `set_mtime`).
#[derive(Clone, Copy)]
pub enum SetTime {
    /// The time is not changed.
    Leave,
    /// The server's time.
    ServerTime,
    /// This time.
    ClientTime(Time),
}

#[tactic(auto, unfolding(crate::specs::SetAttributes::set_time_codec))]
impl Xdr for SetTime {
    ghost codec = { set_time_codec };

    ghost lawful = { set_time_lawful };

    fn read_from<'a>(
        alloc: Global,
        reader: Reader<'a>,
    ) -> Result<(SetTime, Reader<'a>), ValueFault> {
        let (tag, reader) = TimeHow::read_from(alloc, reader)?;
        match tag {
            TimeHow::DontChange => Ok((SetTime::Leave, reader)),
            TimeHow::SetToServerTime => Ok((SetTime::ServerTime, reader)),
            TimeHow::SetToClientTime => {
                let (value, reader) = Time::read_from(alloc, reader)?;
                Ok((SetTime::ClientTime(value), reader))
            }
        }
    }

    fn write_to(&self, writer: RoomWriter) -> Result<RoomWriter, Memory> {
        match self {
            SetTime::Leave => TimeHow::DontChange.write_to(writer),
            SetTime::ServerTime => TimeHow::SetToServerTime.write_to(writer),
            SetTime::ClientTime(value) => { write_two(&TimeHow::SetToClientTime, value, writer) }
        }
    }
}

/// The attributes that a call sets; one that is absent stays (RFC 1813 section 2.5, `sattr3`).
#[derive(Clone, Copy)]
pub struct SetAttributes {
    /// The permission bits.
    pub mode: Option<u32>,
    /// The user ID of the owner.
    pub uid: Option<u32>,
    /// The group ID of the owner's group.
    pub gid: Option<u32>,
    /// In bytes.
    pub size: Option<u64>,
    /// The time of the last access.
    pub atime: SetTime,
    /// The time of the last change of the contents.
    pub mtime: SetTime,
}

/// The fields of `SetAttributes`, in order.
pub(crate) type SetAttributesParts = (
    Option<u32>,
    (
        Option<u32>,
        (Option<u32>, (Option<u64>, (SetTime, SetTime))),
    ),
);

#[tactic(auto, unfolding(crate::specs::SetAttributes::set_attributes_codec))]
impl Xdr for SetAttributes {
    ghost codec = { set_attributes_codec };

    ghost lawful = { set_attributes_lawful };

    fn read_from<'a>(
        alloc: Global,
        reader: Reader<'a>,
    ) -> Result<(SetAttributes, Reader<'a>), ValueFault> {
        let (parts, reader) = SetAttributesParts::read_from(alloc, reader)?;
        let (mode, (uid, (gid, (size, (atime, mtime))))) = parts;
        let value = SetAttributes {
            mode,
            uid,
            gid,
            size,
            atime,
            mtime,
        };
        Ok((value, reader))
    }

    fn write_to(&self, writer: RoomWriter) -> Result<RoomWriter, Memory> {
        let times = (self.atime, self.mtime);
        let parts = (self.mode, (self.uid, (self.gid, (self.size, times))));
        parts.write_to(writer)
    }
}
