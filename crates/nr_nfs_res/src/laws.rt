//! The results of each procedure.

ghost use Rattle.std.specs.Prelude.{◌≡◌, ◌++◌};
ghost use Rattle.nr_nfs_base.specs.Fronts.{read_res_front, readlink_res_front};
ghost use Rattle.nr_nfs_base.specs.Names.{text_codec};
ghost use Rattle.nr_nfs_base.specs.Same.{Same};
ghost use Rattle.nr_nfs_base.specs.declared.procedure.MountProcedure.TheVariants as mount;
ghost use Rattle.nr_nfs_base.specs.declared.procedure.NfsProcedure.TheVariants as nfs;
ghost use Rattle.nr_nfs_base.specs.declared.procedure.Procedure.TheVariants.{Nfs, Mount};
ghost use Rattle.nr_nfs_base.specs.declared.status_union.StatusUnion.TheVariants.{Done};
ghost use Rattle.nr_nfs_res.specs.Results.{before_read_data, before_readlink_path, results_codec, read_res_codec, readlink_res_codec};
ghost use Rattle.nr_nfs_res.specs.declared.bytes.ReadOk.{ReadOk};
ghost use Rattle.nr_nfs_res.specs.declared.lookup.ReadlinkOk.{ReadlinkOk};

use crate::attributes::{AccessRes, GetattrRes, SetattrRes};
use crate::bytes::{CommitRes, ReadRes, WriteRes};
use crate::create::{CreateRes, MkdirRes, MknodRes, SymlinkRes};
use crate::file_system::{FsinfoRes, FsstatRes, PathconfRes};
use crate::lookup::{LookupRes, ReadlinkRes};
use crate::mount::{MntRes, UmntRes, UmntallRes};
use crate::null::NullRes;
use crate::readdir::{ReaddirRes, ReaddirplusRes};
use crate::remove::{LinkRes, RemoveRes, RenameRes, RmdirRes};
use nr_nfs_base::Xdr;

/// The type of this crate for the results of each procedure of NFS (RFC 1813 sections 3.3.0 to 3.3.21) and MOUNT
/// (sections 5.2.0, 5.2.1, 5.2.3 and 5.2.4) has the codec that the table of the procedures gives.
pub fn results()
    ensures nfs_null { Same ⟦<NullRes as Xdr>⟧.codec (results_codec (Nfs nfs.Null)) }
    ensures nfs_getattr { Same ⟦<GetattrRes as Xdr>⟧.codec (results_codec (Nfs nfs.Getattr)) }
    ensures nfs_setattr { Same ⟦<SetattrRes as Xdr>⟧.codec (results_codec (Nfs nfs.Setattr)) }
    ensures nfs_lookup { Same ⟦<LookupRes as Xdr>⟧.codec (results_codec (Nfs nfs.Lookup)) }
    ensures nfs_access { Same ⟦<AccessRes as Xdr>⟧.codec (results_codec (Nfs nfs.Access)) }
    ensures nfs_readlink { Same ⟦<ReadlinkRes as Xdr>⟧.codec (results_codec (Nfs nfs.Readlink)) }
    ensures nfs_read { Same ⟦<ReadRes as Xdr>⟧.codec (results_codec (Nfs nfs.Read)) }
    ensures nfs_write { Same ⟦<WriteRes as Xdr>⟧.codec (results_codec (Nfs nfs.Write)) }
    ensures nfs_create { Same ⟦<CreateRes as Xdr>⟧.codec (results_codec (Nfs nfs.Create)) }
    ensures nfs_mkdir { Same ⟦<MkdirRes as Xdr>⟧.codec (results_codec (Nfs nfs.Mkdir)) }
    ensures nfs_symlink { Same ⟦<SymlinkRes as Xdr>⟧.codec (results_codec (Nfs nfs.Symlink)) }
    ensures nfs_mknod { Same ⟦<MknodRes as Xdr>⟧.codec (results_codec (Nfs nfs.Mknod)) }
    ensures nfs_remove { Same ⟦<RemoveRes as Xdr>⟧.codec (results_codec (Nfs nfs.Remove)) }
    ensures nfs_rmdir { Same ⟦<RmdirRes as Xdr>⟧.codec (results_codec (Nfs nfs.Rmdir)) }
    ensures nfs_rename { Same ⟦<RenameRes as Xdr>⟧.codec (results_codec (Nfs nfs.Rename)) }
    ensures nfs_link { Same ⟦<LinkRes as Xdr>⟧.codec (results_codec (Nfs nfs.Link)) }
    ensures nfs_readdir { Same ⟦<ReaddirRes as Xdr>⟧.codec (results_codec (Nfs nfs.Readdir)) }
    ensures nfs_readdirplus { Same ⟦<ReaddirplusRes as Xdr>⟧.codec (results_codec (Nfs nfs.Readdirplus)) }
    ensures nfs_fsstat { Same ⟦<FsstatRes as Xdr>⟧.codec (results_codec (Nfs nfs.Fsstat)) }
    ensures nfs_fsinfo { Same ⟦<FsinfoRes as Xdr>⟧.codec (results_codec (Nfs nfs.Fsinfo)) }
    ensures nfs_pathconf { Same ⟦<PathconfRes as Xdr>⟧.codec (results_codec (Nfs nfs.Pathconf)) }
    ensures nfs_commit { Same ⟦<CommitRes as Xdr>⟧.codec (results_codec (Nfs nfs.Commit)) }
    ensures mount_null { Same ⟦<NullRes as Xdr>⟧.codec (results_codec (Mount mount.Null)) }
    ensures mount_mnt { Same ⟦<MntRes as Xdr>⟧.codec (results_codec (Mount mount.Mnt)) }
    ensures mount_umnt { Same ⟦<UmntRes as Xdr>⟧.codec (results_codec (Mount mount.Umnt)) }
    ensures mount_umntall { Same ⟦<UmntallRes as Xdr>⟧.codec (results_codec (Mount mount.Umntall)) }
{}

/// The results of a READ and of a READLINK that succeeded are the status 0 and the fields before the data or the path, which
/// `skip_to_read_data` and `skip_to_readlink_path` of `nr_nfs_base` skip, and then the data or the path.
pub fn fronts_of_results()
    ensures read { (v : ReadOk) → read_res_codec.items (Done v) ≡ read_res_front.items (before_read_data v) ++ text_codec.items v.bytes }
    ensures readlink { (v : ReadlinkOk) → readlink_res_codec.items (Done v) ≡ readlink_res_front.items (before_readlink_path v) ++ text_codec.items v.path }
{}
