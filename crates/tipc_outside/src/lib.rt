//! What lies outside a node: where input comes from and output goes, bearers, clocks and gates, each with its
//! count of faults; the frames that go out; and forms of these over memory and over the standard streams.
#![tactic(auto)]

mod medium;
mod memory_bearer;
mod outgoing;
mod pacing;
mod standard;
mod streams;
mod transport;

pub use medium::Medium;
pub use memory_bearer::MemoryBearer;
pub use outgoing::{Class, Outbox, Outgoing};
pub use pacing::{Clock, FreeGate, Gate, StepClock};
pub use standard::{StdClock, StdSink, StdSource};
pub use streams::{Failed, MemorySink, MemorySource, Sink, SinkFault, Source};
pub use transport::{Bearer, BearerFault, Heard, is_for};
