//! Where code points come from and where bytes go: sources and sinks.
//!
//! A trait says by ghost members what an implementation means, and code above is proved once against that meaning.
//! Proved here: the array source, the byte source and the preprocessing layer are sources with exactly the lists that
//! their rules give; the buffer sink and the comparing sink are sinks that take exactly the bytes that their rules
//! name; and bytes emitted to any sink are taken one after another up to the first that it refuses.
#![tactic(auto)]

mod array;
mod buffer;
mod comparing;
mod emission;
mod octets;
mod preprocess;
mod sink;
mod source;

pub use array::ArraySource;
pub use buffer::BufferSink;
pub use comparing::ComparingSink;
pub use emission::{emit, emit_code_point};
pub use octets::ByteSource;
pub use preprocess::{Preprocess, preprocessing_settles};
pub use sink::Sink;
pub use source::{Source, Step};
