//! Unions over a status.

ghost use Rattle.nr_nfs_base.specs.Codec.{Answers, arm_value};
ghost use Rattle.nr_nfs_base.specs.declared.status_union.StatusUnion.TheVariants.{Done, Failed};
ghost use Rattle.nr_nfs_base.specs.StatusUnion.{status_tag_number, status_tags, each_status_tag, status_union_codec, status_union_lawful};

use crate::fault::ValueFault;
use crate::numbered::{Failure, Numbered, read_numbered, write_numbered};
use crate::status::Status;
use crate::xdr::Xdr;
use nr_xdr::{Memory, Reader, RoomWriter};
use std::alloc::Global;

/// The results of a procedure: one part on success, or the status of a failure and another part (RFC 1813 section 3.3, the unions over `nfsstat3`; section 5.2.1, that over `mountstat3`).
#[derive(Drop)]
pub enum StatusUnion<D, F, S = Status> {
    /// Status 0.
    Done(D),
    /// Another status.
    Failed { status: S, part: F },
}

/// A status: `None` is 0, which means success, and `Some` is the number of a failure.
impl<S: Failure> Numbered for Option<S> {
    ghost number = { status_tag_number S.number };

    ghost all = { status_tags S.all };

    ghost each = { each_status_tag S.number S.all S.not_ok S.each };

    fn number(self) -> u32 {
        match self {
            None => 0,
            Some(status) => status.number(),
        }
    }

    fn from_number(word: u32) -> Option<Option<S>> {
        if word == 0 {
            return Some(None);
        }
        match S::from_number(word) {
            None => None,
            Some(status) => Some(Some(status)),
        }
    }
}

#[tactic(auto, unfolding(crate::specs::StatusUnion::status_union_codec))]
impl<D: Xdr, F: Xdr, S: Failure> Xdr for StatusUnion<D, F, S> {
    ghost codec = { status_union_codec S.number S.all D.codec F.codec };

    ghost lawful = { status_union_lawful S.number S.all S.not_ok S.each D.codec F.codec D.lawful F.lawful };

    fn read_from<'a>(
        alloc: Global,
        reader: Reader<'a>,
    ) -> Result<(StatusUnion<D, F, S>, Reader<'a>), ValueFault> {
        let (tag, reader) = read_numbered::<Option<S>>(alloc, reader)?;
        match tag {
            None => read_done(alloc, reader),
            Some(status) => read_failed(alloc, status, reader),
        }
    }

    fn write_to(&self, writer: RoomWriter) -> Result<RoomWriter, Memory> {
        match self {
            StatusUnion::Done(done) => {
                let writer = write_numbered(None::<S>, writer)?;
                done.write_to(writer)
            }
            StatusUnion::Failed { status, part } => {
                let writer = write_numbered(Some(*status), writer)?;
                part.write_to(writer)
            }
        }
    }
}

/// Reads the part after the status 0.
fn read_done<'a, D: Xdr, F: Xdr, S: Failure>(
    alloc: Global,
    reader: Reader<'a>,
) -> Result<(StatusUnion<D, F, S>, Reader<'a>), ValueFault>
    ensures { Answers result (arm_value Done (D.codec.read reader.entry)) }
{
    let (done, reader) = D::read_from(alloc, reader)?;
    Ok((StatusUnion::Done(done), reader))
}

/// Reads the part after another status.
fn read_failed<'a, D: Xdr, F: Xdr, S: Failure>(
    alloc: Global,
    status: S,
    reader: Reader<'a>,
) -> Result<(StatusUnion<D, F, S>, Reader<'a>), ValueFault>
    ensures { Answers result (arm_value (Failed status) (F.codec.read reader.entry)) }
{
    let (part, reader) = F::read_from(alloc, reader)?;
    Ok((StatusUnion::Failed { status, part }, reader))
}
