//! A source that gives a few bytes at a time.
use verity_io::{Failed, MemorySource, Source};

/// Bytes in memory, of which each read gives at most a few.
#[derive(Drop)]
pub struct ShortReads<'a> {
    bytes: MemorySource<'a>,
    most: usize,
}

impl<'a> ShortReads<'a> {
    /// A source of these bytes of which each read gives this many at most.
    pub fn new(bytes: &'a [u8], most: usize) -> Self {
        ShortReads {
            bytes: MemorySource::new(bytes),
            most,
        }
    }

    /// The remaining bytes.
    pub fn rest(&self) -> &'a [u8] {
        self.bytes.rest()
    }
}

impl<'a> Source for ShortReads<'a> {
    ghost use Rattle.std.specs.Prelude.{[]};

    // What it gives is tested, not proved.
    ghost tells = { λ _. ⊥ };

    ghost remaining = { λ _. [] };

    ghost failures = { λ _. 0 };

    fn read(&mut self, buf: &mut [u8]) -> Result<usize, Failed> {
        let count = buf.len().min(self.most);
        self.bytes.read(&mut buf[..count])
    }
}
