//! FSSTAT, FSINFO and PATHCONF.

ghost use Rattle.nr_nfs_res.specs.FileSystem.{fsinfo_ok_codec, fsinfo_ok_lawful, fsstat_ok_codec, fsstat_ok_lawful, pathconf_ok_codec, pathconf_ok_lawful};

use nr_nfs_base::{Attributes, StatusUnion, Time, ValueFault, Xdr};
use nr_xdr::{Memory, Reader, RoomWriter};
use std::alloc::Global;

/// The results of FSSTAT on success (RFC 1813 section 3.3.18).
#[derive(Clone, Copy)]
pub struct FsstatOk {
    /// `obj_attributes`: the attributes of the object.
    pub attributes: Option<Attributes>,
    /// The size of the file system in bytes.
    pub tbytes: u64,
    /// Free bytes.
    pub fbytes: u64,
    /// Free bytes for the caller.
    pub abytes: u64,
    /// The number of files that the file system has room for.
    pub tfiles: u64,
    /// The number of files that may still be created.
    pub ffiles: u64,
    /// The number of files that the caller may still create.
    pub afiles: u64,
    /// The seconds for which these numbers are not expected to change.
    pub invarsec: u32,
}

#[tactic(auto, unfolding(crate::specs::FileSystem::fsstat_ok_codec))]
impl Xdr for FsstatOk {
    ghost codec = { fsstat_ok_codec };

    ghost lawful = { fsstat_ok_lawful };

    fn read_from<'a>(
        alloc: Global,
        reader: Reader<'a>,
    ) -> Result<(FsstatOk, Reader<'a>), ValueFault> {
        let (
            (attributes, (tbytes, (fbytes, (abytes, (tfiles, (ffiles, (afiles, invarsec))))))),
            reader,
        ) = <(
            Option<Attributes>,
            (u64, (u64, (u64, (u64, (u64, (u64, u32)))))),
        )>::read_from(alloc, reader)?;
        let value = FsstatOk {
            attributes,
            tbytes,
            fbytes,
            abytes,
            tfiles,
            ffiles,
            afiles,
            invarsec,
        };
        Ok((value, reader))
    }

    fn write_to(&self, writer: RoomWriter) -> Result<RoomWriter, Memory> {
        let fields = (
            self.attributes,
            (
                self.tbytes,
                (
                    self.fbytes,
                    (
                        self.abytes,
                        (self.tfiles, (self.ffiles, (self.afiles, self.invarsec))),
                    ),
                ),
            ),
        );
        fields.write_to(writer)
    }
}

/// The results of FSSTAT (RFC 1813 section 3.3.18).
pub type FsstatRes = StatusUnion<FsstatOk, Option<Attributes>>;

/// The results of FSINFO on success (RFC 1813 section 3.3.19).
#[derive(Clone, Copy)]
pub struct FsinfoOk {
    /// `obj_attributes`: the attributes of the object.
    pub attributes: Option<Attributes>,
    /// The maximum size of a READ in bytes.
    pub rtmax: u32,
    /// The preferred size of a READ in bytes.
    pub rtpref: u32,
    /// The suggested multiple for the size of a READ.
    pub rtmult: u32,
    /// The maximum size of a WRITE in bytes.
    pub wtmax: u32,
    /// The preferred size of a WRITE in bytes.
    pub wtpref: u32,
    /// The suggested multiple for the size of a WRITE.
    pub wtmult: u32,
    /// The preferred size of a READDIR in bytes.
    pub dtpref: u32,
    /// The maximum size of a file in bytes.
    pub maxfilesize: u64,
    /// The resolution of the times of files.
    pub time_delta: Time,
    /// A bit for each property.
    pub properties: u32,
}

#[tactic(auto, unfolding(crate::specs::FileSystem::fsinfo_ok_codec))]
impl Xdr for FsinfoOk {
    ghost codec = { fsinfo_ok_codec };

    ghost lawful = { fsinfo_ok_lawful };

    fn read_from<'a>(
        alloc: Global,
        reader: Reader<'a>,
    ) -> Result<(FsinfoOk, Reader<'a>), ValueFault> {
        let (
            (
                attributes,
                (
                    rtmax,
                    (
                        rtpref,
                        (
                            rtmult,
                            (
                                wtmax,
                                (
                                    wtpref,
                                    (wtmult, (dtpref, (maxfilesize, (time_delta, properties)))),
                                ),
                            ),
                        ),
                    ),
                ),
            ),
            reader,
        ) = <(
            Option<Attributes>,
            (
                u32,
                (u32, (u32, (u32, (u32, (u32, (u32, (u64, (Time, u32)))))))),
            ),
        )>::read_from(alloc, reader)?;
        let value = FsinfoOk {
            attributes,
            rtmax,
            rtpref,
            rtmult,
            wtmax,
            wtpref,
            wtmult,
            dtpref,
            maxfilesize,
            time_delta,
            properties,
        };
        Ok((value, reader))
    }

    fn write_to(&self, writer: RoomWriter) -> Result<RoomWriter, Memory> {
        let fields = (
            self.attributes,
            (
                self.rtmax,
                (
                    self.rtpref,
                    (
                        self.rtmult,
                        (
                            self.wtmax,
                            (
                                self.wtpref,
                                (
                                    self.wtmult,
                                    (
                                        self.dtpref,
                                        (self.maxfilesize, (self.time_delta, self.properties)),
                                    ),
                                ),
                            ),
                        ),
                    ),
                ),
            ),
        );
        fields.write_to(writer)
    }
}

/// The results of FSINFO (RFC 1813 section 3.3.19).
pub type FsinfoRes = StatusUnion<FsinfoOk, Option<Attributes>>;

/// The results of PATHCONF on success (RFC 1813 section 3.3.20).
#[derive(Clone, Copy)]
pub struct PathconfOk {
    /// `obj_attributes`: the attributes of the object.
    pub attributes: Option<Attributes>,
    /// The maximum number of hard links of a file.
    pub linkmax: u32,
    /// The maximum length of a name in bytes.
    pub name_max: u32,
    /// A longer name is refused, not truncated.
    pub no_trunc: bool,
    /// Only a privileged caller may change owners.
    pub chown_restricted: bool,
    /// Names that differ only in case name the same file.
    pub case_insensitive: bool,
    /// The case of a name is kept.
    pub case_preserving: bool,
}

#[tactic(auto, unfolding(crate::specs::FileSystem::pathconf_ok_codec))]
impl Xdr for PathconfOk {
    ghost codec = { pathconf_ok_codec };

    ghost lawful = { pathconf_ok_lawful };

    fn read_from<'a>(
        alloc: Global,
        reader: Reader<'a>,
    ) -> Result<(PathconfOk, Reader<'a>), ValueFault> {
        let (
            (
                attributes,
                (
                    linkmax,
                    (name_max, (no_trunc, (chown_restricted, (case_insensitive, case_preserving)))),
                ),
            ),
            reader,
        ) = <(
            Option<Attributes>,
            (u32, (u32, (bool, (bool, (bool, bool))))),
        )>::read_from(alloc, reader)?;
        let value = PathconfOk {
            attributes,
            linkmax,
            name_max,
            no_trunc,
            chown_restricted,
            case_insensitive,
            case_preserving,
        };
        Ok((value, reader))
    }

    fn write_to(&self, writer: RoomWriter) -> Result<RoomWriter, Memory> {
        let fields = (
            self.attributes,
            (
                self.linkmax,
                (
                    self.name_max,
                    (
                        self.no_trunc,
                        (
                            self.chown_restricted,
                            (self.case_insensitive, self.case_preserving),
                        ),
                    ),
                ),
            ),
        );
        fields.write_to(writer)
    }
}

/// The results of PATHCONF (RFC 1813 section 3.3.20).
pub type PathconfRes = StatusUnion<PathconfOk, Option<Attributes>>;
