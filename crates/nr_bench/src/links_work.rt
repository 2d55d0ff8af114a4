//! What is called.

use nr_nfs_base::{NfsProcedure, Numbered};
use nr_xdr::{Memory, Octets};
use std::alloc::{AllocError, Global};

/// The arguments of a GETATTR of the root: its handle.
static GETATTR_ARGS: [u8; 12] = [0, 0, 0, 8, 0, 0, 0, 0, 0, 0, 0, 1];

/// How the arguments of a READ and of a WRITE begin: the handle of file 2, and the offset. The count follows, and those of a WRITE go on
/// with FILE_SYNC, the length of the data, and the data.
static FILE_AND_OFFSET: [u8; 20] = [0, 0, 0, 8, 0, 0, 0, 0, 0, 0, 0, 2, 0, 0, 0, 0, 0, 0, 0, 0];

/// The word of FILE_SYNC.
static FILE_SYNC: [u8; 4] = [0, 0, 0, 2];

/// What is called; a READ or a WRITE with how many bytes it moves.
#[derive(Clone, Copy)]
pub enum Work {
    Null,
    Getattr,
    Read { size: u32 },
    Write { size: u32 },
}

/// The data of a WRITE of this size.
pub fn data(alloc: Global, size: u32) -> Result<Vec<u8>, AllocError> {
    vec![in alloc; 7u8; size as usize]
}

/// How the arguments of a READ or a WRITE of this size begin, up to the count.
fn range_args(alloc: Global, size: u32) -> Result<Octets, Memory> {
    let mut args = Octets::from_slice(alloc, &FILE_AND_OFFSET)?;
    args.extend_from_slice(&size.to_be_bytes())?;
    Ok(args)
}

impl Work {
    /// The work of a word, with the size of a READ or a WRITE.
    pub fn of(word: &str, size: u32) -> Option<Work> {
        match word {
            "null" => Some(Work::Null),
            "getattr" => Some(Work::Getattr),
            "read" => Some(Work::Read { size }),
            "write" => Some(Work::Write { size }),
            _ => None,
        }
    }

    /// The procedure of NFS version 3.
    pub fn procedure(self) -> u32 {
        let procedure = match self {
            Work::Null => NfsProcedure::Null,
            Work::Getattr => NfsProcedure::Getattr,
            Work::Read { .. } => NfsProcedure::Read,
            Work::Write { .. } => NfsProcedure::Write,
        };
        procedure.number()
    }

    /// The arguments of a call.
    pub fn args(self, alloc: Global) -> Result<Octets, Memory> {
        match self {
            Work::Null => Ok(Octets::from_vec(Vec::new(alloc))),
            Work::Getattr => Octets::from_slice(alloc, &GETATTR_ARGS),
            Work::Read { size } => range_args(alloc, size),
            Work::Write { size } => {
                let data = data(alloc, size)?;
                let mut args = range_args(alloc, size)?;
                args.extend_from_slice(&FILE_SYNC)?;
                args.extend_from_slice(&size.to_be_bytes())?;
                args.extend_from_slice(data.as_slice())?;
                Ok(args)
            }
        }
    }

    /// How many calls or bytes a reply confirms, if it has status 0: READ's count stands after the attributes of the file, WRITE's after
    /// those of before and after.
    pub fn confirmed(self, reply: &[u8]) -> Option<u64> {
        if let Work::Null = self {
            return Some(1);
        }
        if word(reply, 24)? != 0 {
            return None;
        }
        match self {
            Work::Read { .. } => Some(u64::from(word(reply, 116)?)),
            Work::Write { .. } => Some(u64::from(word(reply, 144)?)),
            _ => Some(1),
        }
    }
}

fn word(bytes: &[u8], at: usize) -> Option<u32> {
    match bytes.get(at..)? {
        [a, b, c, d, ..] => Some(u32::from_be_bytes([*a, *b, *c, *d])),
        _ => None,
    }
}
