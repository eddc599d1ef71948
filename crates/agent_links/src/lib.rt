//! The outside of an agent that serves: acceptors of sessions, what listens, and points at which a test holds a thread.
//!
//! The traits `Post`, `Yard` and `Gate` have implementations in memory and over the network. As in `agent_bytes`, a
//! call answers `Failed` only where a count of faults rose.
#![tactic(auto)]

mod acceptor;
mod connection;
mod count;
pub mod laws;
mod listener_factory;
mod mem_acceptor;
mod mem_factory;
mod schedule_hook;
mod shares;
mod tcp_acceptor;
mod tcp_factory;
mod tcp_sink;
mod tcp_source;

pub use acceptor::Post;
pub use listener_factory::{Yard, YardRefusal};
pub use mem_acceptor::MemPost;
pub use mem_factory::MemYard;
pub use schedule_hook::{Always, Gate, Point};
pub use tcp_acceptor::TcpPost;
pub use tcp_factory::TcpYard;
pub use tcp_sink::TcpOut;
pub use tcp_source::TcpIn;
