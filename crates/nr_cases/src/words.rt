//! Calls that are written as words of 32 bits, as they stand in XDR.

use crate::fault::CaseFault;

/// The numbers of the procedures and of the statuses that cases name (RFC 1813 sections 3 and 2.6).
static NAMES: [(&str, u32); 41] = [
    ("NULL", 0),
    ("GETATTR", 1),
    ("SETATTR", 2),
    ("LOOKUP", 3),
    ("ACCESS", 4),
    ("READLINK", 5),
    ("READ", 6),
    ("WRITE", 7),
    ("CREATE", 8),
    ("MKDIR", 9),
    ("SYMLINK", 10),
    ("MKNOD", 11),
    ("REMOVE", 12),
    ("RMDIR", 13),
    ("RENAME", 14),
    ("LINK", 15),
    ("READDIR", 16),
    ("READDIRPLUS", 17),
    ("FSSTAT", 18),
    ("FSINFO", 19),
    ("PATHCONF", 20),
    ("COMMIT", 21),
    ("NFS3_OK", 0),
    ("NFS3ERR_PERM", 1),
    ("NFS3ERR_NOENT", 2),
    ("NFS3ERR_ACCES", 13),
    ("NFS3ERR_EXIST", 17),
    ("NFS3ERR_NOTDIR", 20),
    ("NFS3ERR_ISDIR", 21),
    ("NFS3ERR_INVAL", 22),
    ("NFS3ERR_FBIG", 27),
    ("NFS3ERR_NOSPC", 28),
    ("NFS3ERR_MLINK", 31),
    ("NFS3ERR_NAMETOOLONG", 63),
    ("NFS3ERR_NOTEMPTY", 66),
    ("NFS3ERR_STALE", 70),
    ("NFS3ERR_BADHANDLE", 10001),
    ("NFS3ERR_NOT_SYNC", 10002),
    ("NFS3ERR_BAD_COOKIE", 10003),
    ("NFS3ERR_TOOSMALL", 10005),
    ("NFS3ERR_BADTYPE", 10007),
];

/// A decimal number.
pub fn number(text: &str) -> Result<u64, CaseFault> {
    text.parse::<u64>().map_err(|_| CaseFault::Format)
}

/// A word in hexadecimal, or by its name.
fn word(token: &str) -> Result<u32, CaseFault> {
    for (name, number) in &NAMES {
        if *name == token {
            return Ok(*number);
        }
    }
    u32::from_str_radix(token, 16).map_err(|_| CaseFault::Format)
}

/// A word, and how often it stands there.
fn repeated(token: &str) -> Result<(u32, u64), CaseFault> {
    match token.split_once('*') {
        Some((one, times)) => Ok((word(one)?, number(times)?)),
        None => Ok((word(token)?, 1)),
    }
}

/// Appends a word.
pub fn put_word(bytes: &mut Vec<u8>, word: u32) -> Result<(), CaseFault> {
    bytes.extend_from_slice(&word.to_be_bytes())?;
    Ok(())
}

/// Appends what a token says: `+3` is three zero bytes, `0*6` six zero words.
fn put_token(bytes: &mut Vec<u8>, token: &str) -> Result<(), CaseFault> {
    if let Some(zeros) = token.strip_prefix('+') {
        for _ in 0..number(zeros)? {
            bytes.push(0)?;
        }
        return Ok(());
    }
    let (word, times) = repeated(token)?;
    for _ in 0..times {
        put_word(bytes, word)?;
    }
    Ok(())
}

/// Appends words, between spaces.
pub fn put_words(bytes: &mut Vec<u8>, text: &str) -> Result<(), CaseFault> {
    for token in text.split_whitespace() {
        put_token(bytes, token)?;
    }
    Ok(())
}

/// A text's first word, and what comes after the space.
pub fn parted(text: &str) -> (&str, &str) {
    match text.split_once(' ') {
        Some(parts) => parts,
        None => (text, ""),
    }
}
