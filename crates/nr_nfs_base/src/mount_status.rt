//! Statuses of MOUNT.

ghost use Rattle.nr_nfs_base.specs.MountStatus.{each_mount_status, mount_status_not_ok, mount_status_number, mount_statuses};

use crate::numbered::{Failure, Numbered};

/// Why a MOUNT call failed (RFC 1813 section 5.1.5, `mountstat3` but for `MNT3_OK`).
#[derive(Clone, Copy)]
pub enum MountStatus {
    /// Not the owner.
    Perm = 1,
    /// No such file or directory.
    Noent = 2,
    /// A hard I/O error.
    Io = 5,
    /// Permission denied.
    Acces = 13,
    /// Not a directory.
    Notdir = 20,
    /// An invalid argument.
    Inval = 22,
    /// The path is too long.
    Nametoolong = 63,
    /// Not supported.
    Notsupp = 10004,
    /// An error that no other status describes.
    Serverfault = 10006,
}

impl Numbered for MountStatus {
    ghost number = { mount_status_number };

    ghost all = { mount_statuses };

    ghost each = { each_mount_status };

    fn number(self) -> u32 {
        self as u32
    }

    fn from_number(word: u32) -> Option<MountStatus> {
        match word {
            1 => Some(MountStatus::Perm),
            2 => Some(MountStatus::Noent),
            5 => Some(MountStatus::Io),
            13 => Some(MountStatus::Acces),
            20 => Some(MountStatus::Notdir),
            22 => Some(MountStatus::Inval),
            63 => Some(MountStatus::Nametoolong),
            10004 => Some(MountStatus::Notsupp),
            10006 => Some(MountStatus::Serverfault),
            _ => None,
        }
    }
}

impl Failure for MountStatus {
    ghost not_ok = { mount_status_not_ok };
}
