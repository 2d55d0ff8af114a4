//! Programs.

/// A program's number and version (RFC 5531 section 8.1).
#[derive(Clone, Copy)]
pub struct Program {
    /// The number of the program.
    pub prog: u32,
    /// The version of the program.
    pub vers: u32,
}
