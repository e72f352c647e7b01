//! An opener over files of the system.
ghost use Rattle.std.specs.Prelude.{◌≡◌, ◌≤◌, ◌+◌, ◌<◌, ℕ, List, [], Some, length, slice_get, IfOk, OnErr};
ghost use Rattle.fsverity.specs.Openers.Opening.{CountsOpening, FailsFor, IsFileAt, SameFiles};

use crate::openers::opener::Opener;
use command_line::{MeasuredFile, ProgressReader, ProgressRuntime, ShownProgress, open_measured};
use std::rt::Files;
use verity_io::{Failed, FileSource, Source};

/// Opens files of the system by their names, and shows the progress of reading each. It doesn't tell them.
#[derive(Drop)]
pub struct FileOpener<'a, R> {
    rt: &'a R,
    progress: &'a ShownProgress<'a, R>,
    names: &'a [&'a str],
    next: usize,
    failures: u64,
}

impl<'a, R: Files + ProgressRuntime> FileOpener<'a, R> {
    /// An opener of the files of these names. None of them is opened yet.
    pub fn new(rt: &'a R, progress: &'a ShownProgress<'a, R>, names: &'a [&'a str]) -> Self
        ensures names { result.names.now ≡ names.now }
        ensures count { ⟦<FileOpener<'a, R> as Opener>⟧.count result ≡ length names.now }
        ensures next { ⟦<FileOpener<'a, R> as Opener>⟧.next result ≡ 0 }
        ensures failures { ⟦<FileOpener<'a, R> as Opener>⟧.failures result ≡ 0 }
    {
        FileOpener {
            rt,
            progress,
            names,
            next: 0,
            failures: 0,
        }
    }
}

impl<'a, R: Files + ProgressRuntime> Opener for FileOpener<'a, R> {
    type Stream = MeasuredFile<'a, FileSource<ProgressReader<'a, R, R::File>>>;

    ghost count = { λ o. length o.names.now };

    ghost tells = { λ _. ⊥ };

    ghost files = { λ _. [] };

    ghost next = { λ o. o.next };

    ghost failures = { λ o. o.failures };

    ghost counted = { λ _ untold. absurd untold };

    fn start(
        &mut self,
    ) -> Result<
        (
            u64,
            MeasuredFile<'a, FileSource<ProgressReader<'a, R, R::File>>>,
        ),
        Failed,
    >
        requires { self.old.next < length self.old.names.now }
        ensures next { self.new.next ≡ self.old.next + 1 }
        ensures same { SameFiles (λ _. ⊥) (λ _. []) (λ o. length o.names.now) self.old self.new }
        ensures fresh { IfOk result (λ opened.
            ⟦<MeasuredFile<'a, FileSource<ProgressReader<'a, R, R::File>>> as Source>⟧.failures opened.1 ≡ 0) }
        ensures ok { ⊥ → IfOk result (λ opened.
            ⟦<MeasuredFile<'a, FileSource<ProgressReader<'a, R, R::File>>> as Source>⟧.tells opened.1
            × IsFileAt [] self.old.next opened.0
            (⟦<MeasuredFile<'a, FileSource<ProgressReader<'a, R, R::File>>> as Source>⟧.remaining opened.1)) }
        ensures failures { CountsOpening self.old.failures self.new.failures result }
        ensures failed { OnErr result (FailsFor ⊥ [] self.old.next self.old.failures self.new.failures) }

        // What is opened was asked for by the next name, and has the length that was found at opening.
        ensures named { IfOk result (λ opened. slice_get self.old.names.now self.old.next
            ≡ Some opened.1.opened.path) }
        ensures measured { IfOk result (λ opened. opened.0 ≡ opened.1.length) }
    {
        let name = self.names[self.next];
        self.next += 1;
        match open_measured(self.rt, name) {
            Ok(measured) => {
                let length = measured.length();
                Ok((length, measured.into_source(length, self.progress)))
            }
            Err(_) => {
                self.failures = self.failures.saturating_add(1);
                Err(Failed)
            }
        }
    }

    fn end(&mut self, stream: MeasuredFile<'a, FileSource<ProgressReader<'a, R, R::File>>>) {
        let failures = stream.opened().file().failures();
        self.failures = self.failures.saturating_add(failures);
    }
}
