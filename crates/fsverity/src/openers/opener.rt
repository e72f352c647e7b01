//! Openers, which open files one after another.
ghost use Rattle.std.specs.Prelude.{◌≡◌, ◌≤◌, ◌+◌, ◌<◌, ℕ, List, Option, length, min, IfOk, OnErr};
ghost use Rattle.verity_io.specs.Counting.{last_count};
ghost use Rattle.fsverity.specs.Openers.Opening.{CountsOpening, FailsFor, IsFileAt, SameFiles};

use verity_io::{Failed, Source};

/// Files that are opened for reading one after another, each once. Laws on their bytes hold if the opener tells its
/// files, as one over memory does and one over files of the system doesn't.
pub trait Opener {
    /// The source of a file's bytes.
    type Stream: Source;

    /// How many files there are.
    ghost count: { Self → ℕ };

    /// Whether the files are told.
    ghost tells: { Self → Type 0 };

    /// The files, if they are told: the bytes of each, or that it is absent.
    ghost files: { Self → List (Option (List ℕ)) };

    /// The index of the next file.
    ghost next: { Self → ℕ };

    /// How many calls of the opener and of the sources that it took back have failed, up to the last value of a u64.
    ghost failures: { Self → ℕ };

    /// Opens the next file: its length in bytes, and a source of its bytes. `Failed` if the file is absent or can't be
    /// opened; the file after it is then the next one.
    fn start(&mut self) -> Result<(u64, Self::Stream), Failed>
        requires { next self.old < count self.old }
        ensures next { next self.new ≡ next self.old + 1 }
        ensures same { SameFiles tells files count self.old self.new }
        ensures fresh { IfOk result (λ opened. Self.Stream.failures opened.1 ≡ 0) }
        ensures ok { tells self.old → IfOk result (λ opened.
            Self.Stream.tells opened.1
            × IsFileAt (files self.old) (next self.old) opened.0 (Self.Stream.remaining opened.1)) }
        ensures failures { CountsOpening (failures self.old) (failures self.new) result }
        ensures failed { OnErr result (FailsFor (tells self.old) (files self.old) (next self.old)
            (failures self.old) (failures self.new)) };

    /// Takes a source back, and adds its count of failures.
    fn end(&mut self, stream: Self::Stream)
        ensures next { next self.new ≡ next self.old }
        ensures same { SameFiles tells files count self.old self.new }
        ensures failures { failures self.new ≡ min (failures self.old + Self.Stream.failures stream) last_count }
        ensures kept { failures self.old ≤ failures self.new };

    // An opener that tells its files tells all of them.
    ghost counted: { (o : Self) → tells o → length (files o) ≡ count o };
}
