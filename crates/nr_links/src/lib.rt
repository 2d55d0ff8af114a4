//! Links between two programs, and clocks.
//!
//! A link is a source and a sink. A [`Dialer`] makes links to an address, an [`Acceptor`] takes those that come to an
//! address at which it listens, and a [`Clock`] gives moments. Each counts its faults, and a call answers
//! [`Failed`](nr_outside::Failed) only if the count of that object rises. A second count, `lost`, rises if and only if a
//! link that is hung up had a fault.
//!
//! In memory the contracts also see which addresses were asked for, what each link carried and which moments were given:
//! [`MemDialer`] and [`MemAcceptor`] make links from a list of plans, and [`MemClock`] gives the moments of a list. Over
//! TCP and the system's clock the adapters [`TcpDialer`], [`TcpAcceptor`] and [`SystemClock`] count faults; what they carry
//! is unknown to the proof.
#![tactic(auto)]

mod accept_errors;
mod clock;
mod counted;
mod limits;
mod link_halves;
mod links;
mod mem_acceptor;
mod mem_clock;
mod mem_dialer;
mod mem_links;
mod numbered;
mod peeked;
mod system_clock;
mod tcp;
mod tcp_acceptor;
mod tcp_dialer;

pub use clock::Clock;
pub use counted::Counted;
pub use limits::{IDLE_SECONDS, PIECE_MAX, READ_MAX};
pub use link_halves::{LinkSink, LinkSource};
pub use links::{Acceptor, Dialer};
pub use mem_acceptor::MemAcceptor;
pub use mem_clock::MemClock;
pub use mem_dialer::MemDialer;
pub use mem_links::{LinkPlan, MemLink};
pub use numbered::{LinkNumber, NumberedSink, NumberedSource};
pub use peeked::Peeked;
pub use system_clock::SystemClock;
pub use tcp::{SendHalf, TcpSink, TcpSource};
pub use tcp_acceptor::TcpAcceptor;
pub use tcp_dialer::TcpDialer;
