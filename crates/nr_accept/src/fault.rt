/// Why no more links were taken, before all were.
#[derive(Clone, Copy, Debug, PartialEq, Eq)]
pub enum ServeFault {
    /// The acceptor failed: its fault count rose.
    AcceptFault,
    /// Memory ran out.
    Memory,
}
