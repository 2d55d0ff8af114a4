//! READDIR and READDIRPLUS.

ghost use Rattle.nr_nfs_res.specs.Readdir.{entry_codec, entry_lawful, entry_plus_codec, entry_plus_lawful, listing_codec, listing_lawful};

use nr_nfs_base::{
    Attributes, Handle, LinkedList, Name, StatusUnion, ValueFault, Verifier, Xdr, write_four,
    write_three,
};
use nr_xdr::{Memory, Reader, RoomWriter};
use std::alloc::Global;

/// An entry of a directory (RFC 1813 section 3.3.16, `entry3`).
#[derive(Drop)]
pub struct Entry {
    /// The number of the object.
    pub fileid: u64,
    /// The name of the entry.
    pub name: Name,
    /// From which a listing goes on after this entry.
    pub cookie: u64,
}

#[tactic(auto, unfolding(crate::specs::Readdir::entry_codec))]
impl Xdr for Entry {
    ghost codec = { entry_codec };

    ghost lawful = { entry_lawful };

    fn read_from<'a>(alloc: Global, reader: Reader<'a>) -> Result<(Entry, Reader<'a>), ValueFault> {
        let ((fileid, (name, cookie)), reader) = <(u64, (Name, u64))>::read_from(alloc, reader)?;
        Ok((
            Entry {
                fileid,
                name,
                cookie,
            },
            reader,
        ))
    }

    fn write_to(&self, writer: RoomWriter) -> Result<RoomWriter, Memory> {
        write_three(&self.fileid, &self.name, &self.cookie, writer)
    }
}

/// A part of a directory: the results of READDIR and READDIRPLUS on success (RFC 1813 sections 3.3.16 and 3.3.17).
#[derive(Drop)]
pub struct Listing<E> {
    /// The attributes of the directory.
    pub dir_attributes: Option<Attributes>,
    /// `cookieverf`: the verifier of the cookies.
    pub verifier: Verifier,
    /// The entries in order.
    pub entries: LinkedList<E>,
    /// No entry follows these.
    pub eof: bool,
}

#[tactic(auto, unfolding(crate::specs::Readdir::listing_codec))]
impl<E: Xdr> Xdr for Listing<E> {
    ghost codec = { listing_codec E.codec };

    ghost lawful = { listing_lawful E.codec E.lawful };

    fn read_from<'a>(
        alloc: Global,
        reader: Reader<'a>,
    ) -> Result<(Listing<E>, Reader<'a>), ValueFault> {
        let ((dir_attributes, (verifier, (entries, eof))), reader) = <(
            Option<Attributes>,
            (Verifier, (LinkedList<E>, bool)),
        )>::read_from(alloc, reader)?;
        Ok((
            Listing {
                dir_attributes,
                verifier,
                entries,
                eof,
            },
            reader,
        ))
    }

    fn write_to(&self, writer: RoomWriter) -> Result<RoomWriter, Memory> {
        write_four(
            &self.dir_attributes,
            &self.verifier,
            &self.entries,
            &self.eof,
            writer,
        )
    }
}

/// The results of READDIR on success (RFC 1813 section 3.3.16).
pub type ReaddirOk = Listing<Entry>;

/// The results of READDIR (RFC 1813 section 3.3.16).
pub type ReaddirRes = StatusUnion<ReaddirOk, Option<Attributes>>;

/// An entry of a directory and what it names (RFC 1813 section 3.3.17, `entryplus3`).
#[derive(Drop)]
pub struct EntryPlus {
    /// The number of the object.
    pub fileid: u64,
    /// The name of the entry.
    pub name: Name,
    /// From which a listing goes on after this entry.
    pub cookie: u64,
    /// `name_attributes`: the attributes of the object of the entry.
    pub attributes: Option<Attributes>,
    /// `name_handle`: the file handle of the object of the entry.
    pub handle: Option<Handle>,
}

#[tactic(auto, unfolding(crate::specs::Readdir::entry_plus_codec))]
impl Xdr for EntryPlus {
    ghost codec = { entry_plus_codec };

    ghost lawful = { entry_plus_lawful };

    fn read_from<'a>(
        alloc: Global,
        reader: Reader<'a>,
    ) -> Result<(EntryPlus, Reader<'a>), ValueFault> {
        let ((fileid, (name, (cookie, (attributes, handle)))), reader) = <(
            u64,
            (Name, (u64, (Option<Attributes>, Option<Handle>))),
        )>::read_from(alloc, reader)?;
        let value = EntryPlus {
            fileid,
            name,
            cookie,
            attributes,
            handle,
        };
        Ok((value, reader))
    }

    fn write_to(&self, writer: RoomWriter) -> Result<RoomWriter, Memory> {
        let writer = self.fileid.write_to(writer)?;
        write_four(
            &self.name,
            &self.cookie,
            &self.attributes,
            &self.handle,
            writer,
        )
    }
}

/// The results of READDIRPLUS on success (RFC 1813 section 3.3.17).
pub type ReaddirplusOk = Listing<EntryPlus>;

/// The results of READDIRPLUS (RFC 1813 section 3.3.17).
pub type ReaddirplusRes = StatusUnion<ReaddirplusOk, Option<Attributes>>;
