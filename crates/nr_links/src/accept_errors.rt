//! Errors of accept(2) on Linux, and what an acceptor does after each.

use std::io;

/// What an acceptor does after an error.
#[derive(Clone, Copy)]
pub(crate) enum AfterError {
    /// It tries again at once: the error belongs to one connection, which is gone, or to the network.
    Again,
    /// It waits and tries again: descriptors or memory ran out, and connections that end give some back.
    Later,
    /// It fails.
    Never,
}

/// EPERM, EINTR, EAGAIN, ENONET, EPROTO, ENOPROTOOPT, EOPNOTSUPP, ENETDOWN, ENETUNREACH, ECONNABORTED, EHOSTDOWN and EHOSTUNREACH.
const AGAIN: [i32; 12] = [1, 4, 11, 64, 71, 92, 95, 100, 101, 103, 112, 113];

/// ENOMEM, ENFILE, EMFILE and ENOBUFS.
const LATER: [i32; 4] = [12, 23, 24, 105];

/// What an acceptor does after this error.
pub(crate) fn after_error(error: &io::Error) -> AfterError {
    let Some(code) = error.raw_os_error() else {
        return AfterError::Never;
    };
    if AGAIN.contains(&code) {
        AfterError::Again
    } else if LATER.contains(&code) {
        AfterError::Later
    } else {
        AfterError::Never
    }
}
