//! The sink that stores bytes.
ghost use Rattle.std.specs.Prelude.{◌≡◌, ◌≤◌, [], IfOk, vec_len, vec_capacity, nat_lt};

use crate::sink::Sink;
use refusal::Fault;
use std::alloc::{AllocError, Global};

/// Takes any byte while cells are free.
#[derive(Drop)]
pub struct BufferSink {
    bytes: Vec<u8>,
}

impl BufferSink {
    /// An empty buffer of so many cells.
    pub fn new(heap: Global, cells: usize) -> Result<BufferSink, AllocError>
        ensures { IfOk result (λ b. (b.bytes.items ≡ []) × (vec_capacity b.bytes ≡ cells)) }
    {
        let bytes = Vec::with_capacity(heap, cells)?;
        Ok(BufferSink { bytes })
    }

    /// The bytes held.
    pub fn bytes(&self) -> &[u8]
        ensures { result.now ≡ self.now.bytes.items }
    {
        self.bytes.as_slice()
    }
}

impl Sink for BufferSink {
    ghost held = { λ s. s.bytes.items };

    ghost takes = { λ s b. nat_lt (vec_len s.bytes) (vec_capacity s.bytes) };

    fn take(&mut self, byte: u8) -> Result<(), Fault> {
        let len = self.bytes.len();
        if len >= self.bytes.capacity() {
            return Err(Fault::NotTaken(len));
        }
        self.bytes.push_reserved(byte);
        Ok(())
    }
}
