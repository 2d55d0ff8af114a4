//! What a tree has under a number.

use crate::directory::Directory;
use crate::file::File;
use crate::steps::Steps;
use nr_nfs_base::{Attributes, FileType, SpecialData, Time, Verifier};
use nr_xdr::Octets;
use std::sync::ledger::Ledger;

/// What is kept of each node, whatever it is.
#[derive(Clone, Copy)]
pub struct Metadata {
    /// The permission bits.
    pub mode: u32,
    /// The number of hard links.
    pub links: u32,
    /// The user ID of the owner.
    pub uid: u32,
    /// The group ID of the owner's group.
    pub gid: u32,
    /// The time of the last access to the data.
    pub atime: Time,
    /// The time of the last modification of the data.
    pub mtime: Time,
    /// The time of the last change of the attributes.
    pub ctime: Time,
}

/// What a node is, with its bytes, entries, device or path.
#[derive(Drop)]
pub enum Content {
    /// A regular file, with its bytes.
    Regular(File),
    /// A directory, with its entries.
    Directory(Directory),
    /// A block device.
    Block(SpecialData),
    /// A character device.
    Character(SpecialData),
    /// A symbolic link, with its path.
    Link(Octets),
    /// A socket.
    Socket,
    /// A named pipe.
    Fifo,
}

/// A file, a directory or the like. Only a directory's parent means something: the directory that names it.
#[derive(Drop)]
pub struct Node {
    /// Its attributes but for type, size and file number.
    pub metadata: Metadata,
    /// The number of the directory that names it. It means something only of a directory.
    pub parent: u64,
    /// The verifier that an exclusive CREATE made it with.
    pub verifier: Option<Verifier>,
    /// What it is, with its bytes, entries, device or path.
    pub content: Content,
}

ghost use Rattle.std.specs.Prelude.{◌≡◌, ◌+◌, ◌-◌, ◌*◌, ◌≤◌, ◌^◌, if◌then◌else◌, None, Some, IfSome, is_some, length};
ghost use Rattle.nr_tree.specs.Listing.{count_until};
ghost use Rattle.nr_tree.specs.Pages.{pages_of};
ghost use Rattle.std.specs.Option.{option_map};
ghost use Rattle.nr_tree.specs.Entries.{entry_of_name};
ghost use Rattle.nr_tree.specs.Tree.{is_dir as is_directory_node, is_regular as is_regular_node, entries_in, type_of, bytes_of, device_of, attributes_of};
ghost use Rattle.nr_tree.specs.Replies.{size_of};

impl Node {
    /// Whether the node is a directory.
    pub fn is_dir(&self) -> bool
        ensures { result ≡ is_directory_node self.now }
    {
        matches!(self.content, Content::Directory(_))
    }

    /// Whether the node is a regular file.
    pub fn is_regular(&self) -> bool
        ensures { result ≡ is_regular_node self.now }
    {
        matches!(self.content, Content::Regular(_))
    }

    /// The number that a directory has under a name.
    pub fn lookup(&self, name: &[u8]) -> Option<u64>
        ensures { result ≡ option_map (λ e. e.number) (entry_of_name name.now (entries_in self.now)) }
    {
        match &self.content {
            Content::Directory(entries) => entries.number_of(name),
            _ => None,
        }
    }

    /// How many pages of a regular file are kept: those with a byte that isn't 0; none if the node is no regular file.
    pub(crate) fn pages(&self) -> Option<usize>
        ensures { result ≡ (if is_regular_node self.now then Some (pages_of (bytes_of self.now.content)) else None) }
    {
        match &self.content {
            Content::Regular(file) => Some(file.pages()),
            _ => None,
        }
    }

    /// How many entries of a directory have a cookie that is at most the given one; none if the node is no directory.
    pub(crate) fn place_after<L: Ledger>(&self, cookie: u64, steps: &mut Steps<L>) -> Option<usize>
        ensures directory { is_some result ≡ is_directory_node self.now }
        ensures place { IfSome result (λ place. place ≡ count_until cookie (entries_in self.now)) }
        ensures rises { steps.old ≤ steps.new }
        ensures cost { 2 ^ (steps.new - steps.old) ≤ 2 * length (entries_in self.now) + 1 }
        ensures counted { length (entries_in self.now) + 2 ≤ 2 * 2 ^ (steps.new - steps.old) }
    {
        match &self.content {
            Content::Directory(entries) => Some(entries.place_after(cookie, steps)),
            _ => None,
        }
    }

    /// In bytes: of a regular file and of a link's path; nothing else has a size.
    pub fn size(&self) -> u64
        ensures { result ≡ size_of self.now }
    {
        self.content.size()
    }

    /// The attributes of the node under this number (RFC 1813 section 2.5, `fattr3`). Takes no memory.
    pub fn attributes(&self, number: u64) -> Attributes
        ensures { result ≡ attributes_of number self.now }
    {
        let size = self.size();
        Attributes {
            file_type: self.content.file_type(),
            mode: self.metadata.mode,
            nlink: self.metadata.links,
            uid: self.metadata.uid,
            gid: self.metadata.gid,
            size,
            used: size,
            rdev: self.content.device(),
            fsid: 1,
            fileid: number,
            atime: self.metadata.atime,
            mtime: self.metadata.mtime,
            ctime: self.metadata.ctime,
        }
    }
}

impl Content {
    fn file_type(&self) -> FileType
        ensures { result ≡ type_of self.now }
    {
        match self {
            Content::Regular(_) => FileType::Reg,
            Content::Directory(_) => FileType::Dir,
            Content::Block(_) => FileType::Blk,
            Content::Character(_) => FileType::Chr,
            Content::Link(_) => FileType::Lnk,
            Content::Socket => FileType::Sock,
            Content::Fifo => FileType::Fifo,
        }
    }

    /// In bytes: of a regular file and of a link's path.
    fn size(&self) -> u64
        ensures { result ≡ length (bytes_of self.now) }
    {
        match self {
            Content::Regular(file) => file.len(),
            Content::Link(path) => path.len() as u64,
            _ => 0,
        }
    }

    /// The device of a special file.
    fn device(&self) -> SpecialData
        ensures { result ≡ device_of self.now }
    {
        match self {
            Content::Block(device) => *device,
            Content::Character(device) => *device,
            _ => SpecialData { major: 0, minor: 0 },
        }
    }
}
