//! Times.

ghost use Rattle.nr_nfs_base.specs.Time.{time_codec, time_lawful};

use crate::fault::ValueFault;
use crate::pair::write_two;
use crate::xdr::Xdr;
use nr_xdr::{Memory, Reader, RoomWriter};
use std::alloc::Global;

/// A time: seconds and nanoseconds since the start of 1970 (RFC 1813 section 2.5, `nfstime3`).
#[derive(Clone, Copy)]
pub struct Time {
    /// Since the start of 1970.
    pub seconds: u32,
    /// Any number is read and written. A server refuses 10^9 and more.
    pub nanoseconds: u32,
}

#[tactic(auto, unfolding(crate::specs::Time::time_codec))]
impl Xdr for Time {
    ghost codec = { time_codec };

    ghost lawful = { time_lawful };

    fn read_from<'a>(alloc: Global, reader: Reader<'a>) -> Result<(Time, Reader<'a>), ValueFault> {
        let ((seconds, nanoseconds), reader) = <(u32, u32)>::read_from(alloc, reader)?;
        Ok((
            Time {
                seconds,
                nanoseconds,
            },
            reader,
        ))
    }

    fn write_to(&self, writer: RoomWriter) -> Result<RoomWriter, Memory> {
        write_two(&self.seconds, &self.nanoseconds, writer)
    }
}
