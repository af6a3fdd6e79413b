//! Ports: where bytes come from and where they go, disks, clocks, nonces, connections, and whose signatures are accepted.
//!
//! A fault of a port comes only if the port's own count of faults rose.
//! A port in memory tells its bytes, and fails only if it was to or if a growth is refused. A disk in
//! memory can be stopped, and is then as one of the outcomes of a crash.
#![tactic(auto)]

mod accepted;
mod clock;
mod disk;
mod disk_call;
mod faults;
mod image;
mod listener;
mod memory_disk;
mod nonces;
mod pieces;
mod signatures;
mod sinks;
mod sources;
mod streams;
mod tcp_port;

pub use accepted::Accepted;
pub use clock::{Clock, SetClock, SystemClock};
pub use disk::Disk;
pub use disk_call::DiskCall;
pub use faults::Failed;
pub use listener::{Listener, MemoryListener};
pub use memory_disk::MemoryDisk;
pub use nonces::{ListNonces, NONCE_LEN, Nonces, UrandomNonces};
pub use pieces::{PIECE_LEN, new_piece, read_piece};
pub use signatures::Signatures;
pub use sinks::{MemorySink, Sink, StdSink};
pub use sources::{MemorySource, Source, StdSource};
pub use streams::{INPUT_LIMIT, TakeFault, read_to_end, write_all};
pub use tcp_port::TcpPort;
