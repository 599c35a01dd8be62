//! Readers and writers that fail, and a writer that records growths of memory.

use crate::heap::Refusing;
use std::alloc::Global;
use std::io::{self, ErrorKind, Read, Write};

/// A reader that returns at most ten bytes a call. One of its calls fails; those after it return
/// bytes again.
#[derive(Drop)]
pub(crate) struct FailingReader<'t> {
    pub text: &'t [u8],
    /// Which call fails: 1 for the first one, 0 for none.
    pub fails_at: usize,
    pub kind: ErrorKind,
    pub calls: usize,
}

impl Read for FailingReader<'_> {
    fn read(&mut self, into: &mut [u8]) -> io::Result<usize> {
        self.calls = self.calls.saturating_add(1);
        if self.calls == self.fails_at {
            return Err(io::Error::from(self.kind));
        }
        let count = self.text.len().min(into.len()).min(10);
        into[..count].copy_from_slice(&self.text[..count]);
        self.text = &self.text[count..];
        Ok(count)
    }
}

/// What a write that takes no byte returns.
#[derive(Clone, Copy)]
pub(crate) enum Stop {
    Fails(ErrorKind),
    TakesNothing,
}

/// A writer that takes one byte a call. After a given number of bytes one call takes none; those
/// after it take bytes again.
#[derive(Drop)]
pub(crate) struct StoppingWriter {
    pub taken: Vec<u8>,
    /// After how many bytes a call takes none.
    pub stops_after: usize,
    pub stop: Stop,
    pub calls: usize,
}

impl Write for StoppingWriter {
    fn write(&mut self, bytes: &[u8]) -> io::Result<usize> {
        let before = self.calls;
        self.calls = self.calls.saturating_add(1);
        if before == self.stops_after {
            return match self.stop {
                Stop::Fails(kind) => Err(io::Error::from(kind)),
                Stop::TakesNothing => Ok(0),
            };
        }
        match bytes.first() {
            Some(byte) => match self.taken.push(*byte) {
                Ok(()) => Ok(1),
                Err(_) => Err(io::Error::from(ErrorKind::OutOfMemory)),
            },
            None => Ok(0),
        }
    }

    fn flush(&mut self) -> io::Result<()> {
        Ok(())
    }
}

/// A writer that keeps what it takes, and the count of an allocator at its first call and at its
/// last.
#[derive(Drop)]
pub(crate) struct GrowthWatching<'h> {
    heap: &'h Refusing<Global>,
    pub taken: Vec<u8>,
    pub calls: usize,
    /// The count at the first call.
    first_count: u64,
    /// The count at the last call.
    last_count: u64,
}

impl<'h> GrowthWatching<'h> {
    /// A writer that has taken nothing yet.
    pub(crate) fn new(alloc: Global, heap: &'h Refusing<Global>) -> GrowthWatching<'h> {
        GrowthWatching {
            heap,
            taken: Vec::new(alloc),
            calls: 0,
            first_count: 0,
            last_count: 0,
        }
    }

    /// Whether no memory was requested between the first write and the last.
    pub(crate) fn no_growth_between(&self) -> bool {
        self.first_count == self.last_count
    }
}

impl Write for GrowthWatching<'_> {
    fn write(&mut self, bytes: &[u8]) -> io::Result<usize> {
        self.last_count = self.heap.count();
        if self.calls == 0 {
            self.first_count = self.last_count;
        }
        self.calls = self.calls.saturating_add(1);
        match self.taken.extend_from_slice(bytes) {
            Ok(()) => Ok(bytes.len()),
            Err(_) => Err(io::Error::from(ErrorKind::OutOfMemory)),
        }
    }

    fn flush(&mut self) -> io::Result<()> {
        Ok(())
    }
}
