//! Statuses of NFS.

ghost use Rattle.nr_nfs_base.specs.Status.{each_status, status_not_ok, status_number, statuses};

use crate::numbered::{Failure, Numbered};

/// Why an NFS call failed (RFC 1813 section 2.5, `nfsstat3` but for `NFS3_OK`; section 2.6).
#[derive(Clone, Copy)]
pub enum Status {
    /// Not the owner.
    Perm = 1,
    /// No such file or directory.
    Noent = 2,
    /// A hard I/O error.
    Io = 5,
    /// No such device or address.
    Nxio = 6,
    /// Permission denied.
    Acces = 13,
    /// The file exists already.
    Exist = 17,
    /// A link across file systems.
    Xdev = 18,
    /// No such device.
    Nodev = 19,
    /// Not a directory.
    Notdir = 20,
    /// A directory.
    Isdir = 21,
    /// An invalid argument.
    Inval = 22,
    /// The file would grow too large.
    Fbig = 27,
    /// No space is left.
    Nospc = 28,
    /// The file system is read-only.
    Rofs = 30,
    /// Too many hard links.
    Mlink = 31,
    /// The name is too long.
    Nametoolong = 63,
    /// The directory has entries.
    Notempty = 66,
    /// The quota is used up.
    Dquot = 69,
    /// The file of the handle no longer exists.
    Stale = 70,
    /// Too many levels of remote in a path.
    Remote = 71,
    /// The handle is invalid.
    Badhandle = 10001,
    /// The guard of SETATTR differs from the change time.
    NotSync = 10002,
    /// The cookie is stale.
    BadCookie = 10003,
    /// Not supported.
    Notsupp = 10004,
    /// The count is too small for an entry.
    Toosmall = 10005,
    /// An error that no other status describes.
    Serverfault = 10006,
    /// The server does not support files of this type.
    Badtype = 10007,
    /// Try again later.
    Jukebox = 10008,
}

impl Numbered for Status {
    ghost number = { status_number };

    ghost all = { statuses };

    ghost each = { each_status };

    fn number(self) -> u32 {
        self as u32
    }

    fn from_number(word: u32) -> Option<Status> {
        match word {
            1 => Some(Status::Perm),
            2 => Some(Status::Noent),
            5 => Some(Status::Io),
            6 => Some(Status::Nxio),
            13 => Some(Status::Acces),
            17 => Some(Status::Exist),
            18 => Some(Status::Xdev),
            19 => Some(Status::Nodev),
            20 => Some(Status::Notdir),
            21 => Some(Status::Isdir),
            22 => Some(Status::Inval),
            27 => Some(Status::Fbig),
            28 => Some(Status::Nospc),
            30 => Some(Status::Rofs),
            31 => Some(Status::Mlink),
            63 => Some(Status::Nametoolong),
            66 => Some(Status::Notempty),
            69 => Some(Status::Dquot),
            70 => Some(Status::Stale),
            71 => Some(Status::Remote),
            10001 => Some(Status::Badhandle),
            10002 => Some(Status::NotSync),
            10003 => Some(Status::BadCookie),
            10004 => Some(Status::Notsupp),
            10005 => Some(Status::Toosmall),
            10006 => Some(Status::Serverfault),
            10007 => Some(Status::Badtype),
            10008 => Some(Status::Jukebox),
            _ => None,
        }
    }
}

impl Failure for Status {
    ghost not_ok = { status_not_ok };
}
