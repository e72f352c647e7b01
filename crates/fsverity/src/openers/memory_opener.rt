//! An opener over files in memory.
ghost use Rattle.std.specs.Prelude.{◌≡◌, ◌≤◌, ◌+◌, ℕ, List, map, length, option_map};
ghost use Rattle.std.proofs.lemmas.List.{length-map};

use crate::openers::opener::Opener;
use verity_io::{Failed, MemorySource};

/// Opens files in memory, each of them its bytes or absent. The sources borrow the bytes, so they need no memory. Only
/// an absent file fails.
#[derive(Drop)]
pub struct MemoryOpener<'a> {
    files: &'a [Option<&'a [u8]>],
    next: usize,
}

impl<'a> MemoryOpener<'a> {
    /// An opener of these files; `None` is an absent one.
    pub fn new(files: &'a [Option<&'a [u8]>]) -> Self
        ensures told { ⟦<MemoryOpener<'a> as Opener>⟧.tells result }
        ensures files { ⟦<MemoryOpener<'a> as Opener>⟧.files result ≡ map (option_map (λ b. b.now)) files.now }
        ensures count { ⟦<MemoryOpener<'a> as Opener>⟧.count result ≡ length files.now }
        ensures next { ⟦<MemoryOpener<'a> as Opener>⟧.next result ≡ 0 }
        ensures failures { ⟦<MemoryOpener<'a> as Opener>⟧.failures result ≡ 0 }
    {
        MemoryOpener { files, next: 0 }
    }
}

impl<'a> Opener for MemoryOpener<'a> {
    type Stream = MemorySource<'a>;

    ghost count = { λ o. length o.files.now };

    ghost tells = { λ _. Unit {0} };

    ghost files = { λ o. map (option_map (λ b. b.now)) o.files.now };

    ghost next = { λ o. o.next };

    ghost failures = { λ _. 0 };

    ghost counted = { λ o _. length-map o.files.now (option_map (λ b. b.now)) };

    fn start(&mut self) -> Result<(u64, MemorySource<'a>), Failed> {
        let file = self.files[self.next];
        self.next += 1;
        match file {
            Some(bytes) => Ok((bytes.len() as u64, MemorySource::new(bytes))),
            None => Err(Failed),
        }
    }

    fn end(&mut self, stream: MemorySource<'a>) {
        drop(stream);
    }
}
