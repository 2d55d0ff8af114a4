//! READDIR and READDIRPLUS.

ghost use Rattle.nr_nfs_args.specs.Readdir.{readdir_args_codec, readdir_args_lawful, readdirplus_args_codec, readdirplus_args_lawful};

use nr_nfs_base::{
    Handle, ReaddirArgsFront, ReaddirplusArgsFront, ValueFault, Verifier, Xdr, write_four,
    write_three,
};
use nr_xdr::{Memory, Reader, RoomWriter};
use std::alloc::Global;

/// The arguments of READDIR (RFC 1813 section 3.3.16).
#[derive(Drop)]
pub struct ReaddirArgs {
    /// The directory.
    pub dir: Handle,
    /// The cookie of the last known entry, or 0.
    pub cookie: u64,
    /// `cookieverf`: that of the results which had the cookie, or 0.
    pub verifier: Verifier,
    /// The maximum length of the results on success, without the status, in bytes.
    pub count: u32,
}

#[tactic(auto, unfolding(crate::specs::Readdir::readdir_args_codec))]
impl Xdr for ReaddirArgs {
    ghost codec = { readdir_args_codec };

    ghost lawful = { readdir_args_lawful };

    fn read_from<'a>(
        alloc: Global,
        reader: Reader<'a>,
    ) -> Result<(ReaddirArgs, Reader<'a>), ValueFault> {
        let ((front, count), reader) = <(ReaddirArgsFront, u32)>::read_from(alloc, reader)?;
        let (dir, (cookie, verifier)) = front;
        Ok((
            ReaddirArgs {
                dir,
                cookie,
                verifier,
                count,
            },
            reader,
        ))
    }

    fn write_to(&self, writer: RoomWriter) -> Result<RoomWriter, Memory> {
        let writer = write_three(&self.dir, &self.cookie, &self.verifier, writer)?;
        self.count.write_to(writer)
    }
}

/// The arguments of READDIRPLUS (RFC 1813 section 3.3.17).
#[derive(Drop)]
pub struct ReaddirplusArgs {
    /// The directory.
    pub dir: Handle,
    /// The cookie of the last known entry, or 0.
    pub cookie: u64,
    /// `cookieverf`: that of the results which had the cookie, or 0.
    pub verifier: Verifier,
    /// The maximum length of names, file numbers and cookies in the results, in bytes.
    pub dircount: u32,
    /// The maximum length of the results on success, without the status, in bytes.
    pub maxcount: u32,
}

#[tactic(auto, unfolding(crate::specs::Readdir::readdirplus_args_codec))]
impl Xdr for ReaddirplusArgs {
    ghost codec = { readdirplus_args_codec };

    ghost lawful = { readdirplus_args_lawful };

    fn read_from<'a>(
        alloc: Global,
        reader: Reader<'a>,
    ) -> Result<(ReaddirplusArgs, Reader<'a>), ValueFault> {
        let ((front, maxcount), reader) = <(ReaddirplusArgsFront, u32)>::read_from(alloc, reader)?;
        let (dir, (cookie, (verifier, dircount))) = front;
        let value = ReaddirplusArgs {
            dir,
            cookie,
            verifier,
            dircount,
            maxcount,
        };
        Ok((value, reader))
    }

    fn write_to(&self, writer: RoomWriter) -> Result<RoomWriter, Memory> {
        let writer = write_four(
            &self.dir,
            &self.cookie,
            &self.verifier,
            &self.dircount,
            writer,
        )?;
        self.maxcount.write_to(writer)
    }
}
