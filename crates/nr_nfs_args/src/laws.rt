//! The arguments of each procedure.

ghost use Rattle.nr_nfs_base.specs.Same.{Same};
ghost use Rattle.nr_nfs_base.specs.declared.procedure.MountProcedure.TheVariants as mount;
ghost use Rattle.nr_nfs_base.specs.declared.procedure.NfsProcedure.TheVariants as nfs;
ghost use Rattle.nr_nfs_base.specs.declared.procedure.Procedure.TheVariants.{Nfs, Mount};
ghost use Rattle.nr_nfs_args.specs.Arguments.{arguments_codec};

use crate::attributes::{AccessArgs, GetattrArgs, SetattrArgs};
use crate::bytes::{CommitArgs, ReadArgs, WriteArgs};
use crate::create::{CreateArgs, MkdirArgs};
use crate::file_system::{FsinfoArgs, FsstatArgs, PathconfArgs};
use crate::lookup::{LookupArgs, ReadlinkArgs};
use crate::mount::{MntArgs, UmntArgs, UmntallArgs};
use crate::null::NullArgs;
use crate::readdir::{ReaddirArgs, ReaddirplusArgs};
use crate::remove::{LinkArgs, RemoveArgs, RenameArgs, RmdirArgs};
use crate::special::{MknodArgs, SymlinkArgs};
use nr_nfs_base::Xdr;

/// The type of this crate for the arguments of each procedure of NFS (RFC 1813 sections 3.3.0 to 3.3.21) and MOUNT
/// (sections 5.2.0, 5.2.1, 5.2.3 and 5.2.4) has the codec that the table of the procedures gives.
pub fn arguments()
    ensures nfs_null { Same ⟦<NullArgs as Xdr>⟧.codec (arguments_codec (Nfs nfs.Null)) }
    ensures nfs_getattr { Same ⟦<GetattrArgs as Xdr>⟧.codec (arguments_codec (Nfs nfs.Getattr)) }
    ensures nfs_setattr { Same ⟦<SetattrArgs as Xdr>⟧.codec (arguments_codec (Nfs nfs.Setattr)) }
    ensures nfs_lookup { Same ⟦<LookupArgs as Xdr>⟧.codec (arguments_codec (Nfs nfs.Lookup)) }
    ensures nfs_access { Same ⟦<AccessArgs as Xdr>⟧.codec (arguments_codec (Nfs nfs.Access)) }
    ensures nfs_readlink { Same ⟦<ReadlinkArgs as Xdr>⟧.codec (arguments_codec (Nfs nfs.Readlink)) }
    ensures nfs_read { Same ⟦<ReadArgs as Xdr>⟧.codec (arguments_codec (Nfs nfs.Read)) }
    ensures nfs_write { Same ⟦<WriteArgs as Xdr>⟧.codec (arguments_codec (Nfs nfs.Write)) }
    ensures nfs_create { Same ⟦<CreateArgs as Xdr>⟧.codec (arguments_codec (Nfs nfs.Create)) }
    ensures nfs_mkdir { Same ⟦<MkdirArgs as Xdr>⟧.codec (arguments_codec (Nfs nfs.Mkdir)) }
    ensures nfs_symlink { Same ⟦<SymlinkArgs as Xdr>⟧.codec (arguments_codec (Nfs nfs.Symlink)) }
    ensures nfs_mknod { Same ⟦<MknodArgs as Xdr>⟧.codec (arguments_codec (Nfs nfs.Mknod)) }
    ensures nfs_remove { Same ⟦<RemoveArgs as Xdr>⟧.codec (arguments_codec (Nfs nfs.Remove)) }
    ensures nfs_rmdir { Same ⟦<RmdirArgs as Xdr>⟧.codec (arguments_codec (Nfs nfs.Rmdir)) }
    ensures nfs_rename { Same ⟦<RenameArgs as Xdr>⟧.codec (arguments_codec (Nfs nfs.Rename)) }
    ensures nfs_link { Same ⟦<LinkArgs as Xdr>⟧.codec (arguments_codec (Nfs nfs.Link)) }
    ensures nfs_readdir { Same ⟦<ReaddirArgs as Xdr>⟧.codec (arguments_codec (Nfs nfs.Readdir)) }
    ensures nfs_readdirplus { Same ⟦<ReaddirplusArgs as Xdr>⟧.codec (arguments_codec (Nfs nfs.Readdirplus)) }
    ensures nfs_fsstat { Same ⟦<FsstatArgs as Xdr>⟧.codec (arguments_codec (Nfs nfs.Fsstat)) }
    ensures nfs_fsinfo { Same ⟦<FsinfoArgs as Xdr>⟧.codec (arguments_codec (Nfs nfs.Fsinfo)) }
    ensures nfs_pathconf { Same ⟦<PathconfArgs as Xdr>⟧.codec (arguments_codec (Nfs nfs.Pathconf)) }
    ensures nfs_commit { Same ⟦<CommitArgs as Xdr>⟧.codec (arguments_codec (Nfs nfs.Commit)) }
    ensures mount_null { Same ⟦<NullArgs as Xdr>⟧.codec (arguments_codec (Mount mount.Null)) }
    ensures mount_mnt { Same ⟦<MntArgs as Xdr>⟧.codec (arguments_codec (Mount mount.Mnt)) }
    ensures mount_umnt { Same ⟦<UmntArgs as Xdr>⟧.codec (arguments_codec (Mount mount.Umnt)) }
    ensures mount_umntall { Same ⟦<UmntallArgs as Xdr>⟧.codec (arguments_codec (Mount mount.Umntall)) }
{}
