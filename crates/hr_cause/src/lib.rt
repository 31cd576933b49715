//! The devices that bytes come from and go to. Each counts its faults, so that an answer `Failed`
//! has its cause in a contract. Start with `stream`.
#![tactic(auto)]

mod calls;
mod edges;
mod mem_sink;
mod mem_source;
mod sending;
mod stream;

pub use edges::{StdSink, StdSource};
pub use mem_sink::MemSink;
pub use mem_source::MemSource;
pub use sending::send;
pub use stream::{Counted, Failed, Sink, Source, Stream};

#[cfg(test)]
mod tests;
