//! Links, which bytes come from and go to, and who gives them: dials, which call, and doors, which
//! are called; in memory, and over TCP. Start with `dial`.
#![tactic(auto)]

mod dial;
mod door;
mod fault;
mod mem_dial;
mod mem_door;
mod mem_link;
mod past_link;
mod past_links;
mod tcp_dial;
mod tcp_door;
mod tcp_link;
#[cfg(test)]
mod tests;
mod turns;

pub use dial::Dial;
pub use door::Door;
pub use fault::DialFault;
pub use mem_dial::MemDial;
pub use mem_door::MemDoor;
pub use mem_link::MemLink;
pub use past_link::PastLink;
pub use tcp_dial::TcpDial;
pub use tcp_door::TcpDoor;
pub use tcp_link::TcpLink;
