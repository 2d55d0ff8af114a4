//! Values of NFS version 3 and MOUNT version 3 (RFC 1813) that many procedures share, and the trait by which all values
//! are read and written.
//!
//! [`Xdr`] is that trait. Its ghost member `codec` describes the encoding of a type (RFC 4506): the items that encode a
//! value, whether a value is within the limits of its type, and what is read at an offset. Its law says that reading and
//! encoding are inverse. The codec of a structure is made of the codecs of its fields, and that of a union of the codecs of
//! its tag and its arms, so a type is described as briefly as in the RFC.
//!
//! `read` gives the value that all of the bytes are read as, whatever their pad bytes are. If there is none, it gives the
//! offset of the first item that fails, or of the first byte left over. `write` gives the one encoding of a value, with
//! zeros as pad bytes. It accepts every value. [`one_value`] says that no reading of a value is a proper prefix of another,
//! and [`opaque_limits`] states the limits of handles, names, paths and data.
//!
//! [`Skip`] finds the end of a value without memory. The `skip_to_..` functions use it to find the data of WRITE and READ,
//! the paths of SYMLINK and READLINK, and the counts of READ, READDIR and READDIRPLUS.
//!
//! The items are those of `nr_xdr`, the crate below. The arguments and the results of each procedure are in `nr_nfs_args`
//! and `nr_nfs_res`, the crates above. What a server does with a value is not part of this crate.
#![tactic(auto)]

mod array;
mod attributes;
mod caller;
mod fault;
mod file_type;
mod fronts;
mod items;
mod laws;
mod limits;
mod linked_list;
mod mount_status;
mod names;
mod numbered;
mod opaque;
mod optional;
mod pair;
mod procedure;
mod set_attributes;
mod skip;
mod stable;
mod status;
mod status_union;
mod time;
mod verifier;
mod weak_cache;
mod xdr;

pub use array::Array;
pub use attributes::{Attributes, SpecialData};
pub use caller::Caller;
pub use fault::ValueFault;
pub use file_type::FileType;
pub use fronts::{
    ReadArgsFront, ReadOkFront, ReaddirArgsFront, ReaddirplusArgsFront, ReadlinkOkFront, Success,
    SymlinkArgsFront, WriteArgsFront, skip_to_read_count, skip_to_read_data, skip_to_readdir_count,
    skip_to_readdirplus_maxcount, skip_to_readlink_path, skip_to_symlink_path, skip_to_write_data,
};
pub use laws::{one_value, opaque_limits};
pub use limits::{
    HANDLE_MAX, LINK_TARGET_MAX, LISTING_MAX, MOUNT_PATH_MAX, NAME_LENGTH_MAX, TRANSFER_MAX,
};
pub use linked_list::LinkedList;
pub use mount_status::MountStatus;
pub use names::{Data, Handle, MountPath, Name, Path, UNLIMITED};
pub use numbered::{Failure, Numbered, read_numbered, write_numbered};
pub use opaque::{Opaque, write_opaque};
pub use pair::{write_four, write_three, write_two};
pub use procedure::{
    MOUNT_PROGRAM, MOUNT_VERSION, MountProcedure, NFS_PROGRAM, NFS_VERSION, NfsProcedure,
    Procedure, procedure_of,
};
pub use set_attributes::{SetAttributes, SetTime, TimeHow};
pub use skip::{Skip, skip_numbered};
pub use stable::StableHow;
pub use status::Status;
pub use status_union::StatusUnion;
pub use time::Time;
pub use verifier::Verifier;
pub use weak_cache::{WccAttributes, WccData};
pub use xdr::Xdr;
