//! Links and ports: what `serve` reads requests from and writes answers to, and where the links come from.
//! They report by ghost members what they have left, what they were given, which links are to come and which were
//! closed, and how often they failed. `MemPorts` give links in memory and fail at chosen calls; `TcpPorts` give the
//! connections to a port of this machine, and count a fault for each call that fails.
#![tactic(auto)]

mod link;
mod mem_link;
mod mem_ports;
mod ports;
mod tcp_link;
mod tcp_ports;

pub use link::Link;
pub use mem_link::MemLink;
pub use mem_ports::MemPorts;
pub use ports::Ports;
pub use tcp_link::{TcpInput, TcpLink};
pub use tcp_ports::TcpPorts;
