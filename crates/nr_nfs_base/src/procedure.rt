//! The procedures of NFS and MOUNT.

ghost use Rattle.std.specs.Prelude.{◌≡◌};
ghost use Rattle.nr_nfs_base.specs.Procedures.{each_mount_procedure, each_nfs_procedure, mount_procedure_number, mount_procedures, nfs_procedure_number, nfs_procedures, procedure_of};

use crate::numbered::Numbered;

/// The program number of NFS (RFC 1813 section 2.2).
pub const NFS_PROGRAM: u32 = 100_003;

/// The version of NFS (RFC 1813 section 2.2).
pub const NFS_VERSION: u32 = 3;

/// The program number of MOUNT (RFC 1813 section 5.1.2).
pub const MOUNT_PROGRAM: u32 = 100_005;

/// The version of MOUNT (RFC 1813 section 5.1.2).
pub const MOUNT_VERSION: u32 = 3;

/// A procedure of NFS version 3, by its number (RFC 1813 section 3.3).
#[derive(Clone, Copy)]
pub enum NfsProcedure {
    /// Does nothing (section 3.3.0).
    Null = 0,
    /// Get the attributes of a file (section 3.3.1).
    Getattr = 1,
    /// Set attributes of a file (section 3.3.2).
    Setattr = 2,
    /// Find the object of a name in a directory (section 3.3.3).
    Lookup = 3,
    /// Check which accesses are permitted (section 3.3.4).
    Access = 4,
    /// Read the path in a symbolic link (section 3.3.5).
    Readlink = 5,
    /// Read bytes of a file (section 3.3.6).
    Read = 6,
    /// Write bytes into a file (section 3.3.7).
    Write = 7,
    /// Create a regular file (section 3.3.8).
    Create = 8,
    /// Create a directory (section 3.3.9).
    Mkdir = 9,
    /// Create a symbolic link (section 3.3.10).
    Symlink = 10,
    /// Create a special device, a socket or a pipe (section 3.3.11).
    Mknod = 11,
    /// Remove a name that is no directory's (section 3.3.12).
    Remove = 12,
    /// Remove an empty directory (section 3.3.13).
    Rmdir = 13,
    /// Give an object another name or directory (section 3.3.14).
    Rename = 14,
    /// Give a file one more name (section 3.3.15).
    Link = 15,
    /// List the entries of a directory (section 3.3.16).
    Readdir = 16,
    /// List them with their attributes and handles (section 3.3.17).
    Readdirplus = 17,
    /// What room a file system has (section 3.3.18).
    Fsstat = 18,
    /// The limits and preferred sizes of a file system (section 3.3.19).
    Fsinfo = 19,
    /// The limits on names (section 3.3.20).
    Pathconf = 20,
    /// Put what was written into stable storage (section 3.3.21).
    Commit = 21,
}

impl Numbered for NfsProcedure {
    ghost number = { nfs_procedure_number };

    ghost all = { nfs_procedures };

    ghost each = { each_nfs_procedure };

    fn number(self) -> u32 {
        self as u32
    }

    fn from_number(word: u32) -> Option<NfsProcedure> {
        match word {
            0 => Some(NfsProcedure::Null),
            1 => Some(NfsProcedure::Getattr),
            2 => Some(NfsProcedure::Setattr),
            3 => Some(NfsProcedure::Lookup),
            4 => Some(NfsProcedure::Access),
            5 => Some(NfsProcedure::Readlink),
            6 => Some(NfsProcedure::Read),
            7 => Some(NfsProcedure::Write),
            8 => Some(NfsProcedure::Create),
            9 => Some(NfsProcedure::Mkdir),
            10 => Some(NfsProcedure::Symlink),
            11 => Some(NfsProcedure::Mknod),
            12 => Some(NfsProcedure::Remove),
            13 => Some(NfsProcedure::Rmdir),
            14 => Some(NfsProcedure::Rename),
            15 => Some(NfsProcedure::Link),
            16 => Some(NfsProcedure::Readdir),
            17 => Some(NfsProcedure::Readdirplus),
            18 => Some(NfsProcedure::Fsstat),
            19 => Some(NfsProcedure::Fsinfo),
            20 => Some(NfsProcedure::Pathconf),
            21 => Some(NfsProcedure::Commit),
            _ => None,
        }
    }
}

/// A procedure of MOUNT version 3, by its number (RFC 1813 section 5.2): DUMP and EXPORT are left out.
#[derive(Clone, Copy)]
pub enum MountProcedure {
    /// Does nothing (section 5.2.0).
    Null = 0,
    /// The file handle of the root of an export (section 5.2.1).
    Mnt = 1,
    /// The client no longer uses an export (section 5.2.3).
    Umnt = 3,
    /// The client no longer uses any export (section 5.2.4).
    Umntall = 4,
}

impl Numbered for MountProcedure {
    ghost number = { mount_procedure_number };

    ghost all = { mount_procedures };

    ghost each = { each_mount_procedure };

    fn number(self) -> u32 {
        self as u32
    }

    fn from_number(word: u32) -> Option<MountProcedure> {
        match word {
            0 => Some(MountProcedure::Null),
            1 => Some(MountProcedure::Mnt),
            3 => Some(MountProcedure::Umnt),
            4 => Some(MountProcedure::Umntall),
            _ => None,
        }
    }
}

/// A procedure of one of the two programs.
#[derive(Clone, Copy)]
pub enum Procedure {
    /// A procedure of NFS version 3.
    Nfs(NfsProcedure),
    /// A procedure of MOUNT version 3.
    Mount(MountProcedure),
}

/// The procedure of a call, by the numbers of its program, version and procedure. `None` for any other numbers.
pub fn procedure_of(program: u32, version: u32, procedure: u32) -> Option<Procedure>
    ensures { result ≡ procedure_of program version procedure }
{
    if program == NFS_PROGRAM && version == NFS_VERSION {
        NfsProcedure::from_number(procedure).map(Procedure::Nfs)
    } else if program == MOUNT_PROGRAM && version == MOUNT_VERSION {
        MountProcedure::from_number(procedure).map(Procedure::Mount)
    } else {
        None
    }
}
