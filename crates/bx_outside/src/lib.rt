//! What lies outside the program: sources of bytes and sinks for them, links to clients, and clocks.
#![tactic(auto)]

mod clock;
mod datagram;
mod line_reader;
mod link;
mod mem_clock;
mod mem_link;
mod mem_sink;
mod mem_source;
mod sink;
mod source;
mod streams;

pub use clock::Clock;
pub use datagram::Datagram;
pub use line_reader::{LineError, LineReader, Next};
pub use link::{Link, LinkError};
pub use mem_clock::MemClock;
pub use mem_link::MemLink;
pub use mem_sink::MemSink;
pub use mem_source::MemSource;
pub use sink::{Sink, WriteFault, write_all};
pub use source::{ReadFault, Source};
pub use streams::Stream;
