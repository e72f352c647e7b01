//! An opener that doesn't tell its files, and states lengths of its own for them.
ghost use Rattle.std.specs.Prelude.{◌≡◌, ℕ, List, [], length};

use fsverity::Opener;
use verity_io::{Failed, MemorySource};

/// Files in memory, each with the length that is stated for it.
#[derive(Drop)]
pub struct StatingOpener<'a> {
    files: &'a [(&'a [u8], u64)],
    next: usize,
}

impl<'a> StatingOpener<'a> {
    pub fn new(files: &'a [(&'a [u8], u64)]) -> Self
        ensures count { ⟦<StatingOpener<'a> as Opener>⟧.count result ≡ length files.now }
        ensures next { ⟦<StatingOpener<'a> as Opener>⟧.next result ≡ 0 }
    {
        StatingOpener { files, next: 0 }
    }
}

impl<'a> Opener for StatingOpener<'a> {
    type Stream = MemorySource<'a>;

    ghost count = { λ o. length o.files.now };

    ghost tells = { λ _. ⊥ };

    ghost files = { λ _. [] };

    ghost next = { λ o. o.next };

    ghost failures = { λ _. 0 };

    ghost counted = { λ _ untold. absurd untold };

    fn start(&mut self) -> Result<(u64, MemorySource<'a>), Failed> {
        let (bytes, length) = self.files[self.next];
        self.next += 1;
        Ok((length, MemorySource::new(bytes)))
    }

    fn end(&mut self, stream: MemorySource<'a>) {
        drop(stream);
    }
}
