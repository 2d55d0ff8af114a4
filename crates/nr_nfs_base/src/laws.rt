//! Laws of the values: the limits of handles, names, paths and data, and that a value is read in one way.

ghost use Rattle.std.specs.Prelude.{◌≡◌, ℕ, List, ◌++◌};
ghost use Rattle.nr_nfs_base.specs.Codec.{ReadsAs};
ghost use Rattle.nr_nfs_base.specs.Names.{handle_codec, text_codec, mount_path_codec};
ghost use Rattle.nr_nfs_base.specs.Same.{Same};

use crate::names::{Data, Handle, MountPath, Name, Path};
use crate::xdr::Xdr;

/// Each is opaque data with its limit: 64 bytes for a handle (RFC 1813 section 2.4, `NFS3_FHSIZE`), 1024 for a path to
/// mount (section 5.1.4, `MNTPATHLEN`), and for names, link paths and data what a count word can say (RFC 4506 section
/// 4.10).
pub fn opaque_limits()
    ensures handle { Same ⟦<Handle as Xdr>⟧.codec handle_codec }
    ensures mount_path { Same ⟦<MountPath as Xdr>⟧.codec mount_path_codec }
    ensures name { Same ⟦<Name as Xdr>⟧.codec text_codec }
    ensures path { Same ⟦<Path as Xdr>⟧.codec text_codec }
    ensures bytes { Same ⟦<Data as Xdr>⟧.codec text_codec }
{}

/// If some bytes begin with readings of two values of one type, the values are equal and both readings have the same
/// length.
pub fn one_value<T: Xdr>()
    ensures { (v w : T) (x y more others : List ℕ) → ReadsAs T.codec v x → ReadsAs T.codec w y →
        x ++ more ≡ y ++ others → (v ≡ w) × (more ≡ others) }
{}
