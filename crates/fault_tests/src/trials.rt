//! Every fault of a run in turn, compared with how its steps say that it ends.
use crate::endings::{CALLS, Ending, STEADY, Trial};
use crate::scene::{Program, Scene};
use crate::steps::Files;
use fixtures::{LimitedWriter, RunOutput, same};
use memory_runtime::{Call, Disk, Kind, MemoryRuntime};
use std::alloc::Global;
use std::io;
use std::test::Fail;
use veritysetup::ShownProgress;

/// The files of these names that are on a disk.
fn files_on(alloc: Global, disk: &Disk, names: &Files) -> io::Result<Files> {
    let mut files = Vec::new(alloc);
    for (name, _) in names {
        if disk.has(name)? {
            files.push((*name, disk.bytes_of(name)?))?;
        }
    }
    Ok(files)
}

/// How often each of `CALLS` was made over a disk.
fn calls_on(disk: &Disk) -> io::Result<[u64; 6]> {
    let mut calls = [0; 6];
    for (kind, made) in CALLS.iter().zip(calls.iter_mut()) {
        *made = disk.calls(*kind)?;
    }
    Ok(calls)
}

/// The calls that may be made more or less often if a call of this kind fails: if the root folder can't be opened,
/// others are tried; a seek that fails may be the end of a file; and if the system doesn't say that HASH is there,
/// its folder is synced.
fn calls_after(call: Call) -> &'static [Call] {
    match call {
        Call::Open | Call::Seek => &[Call::Open, Call::Seek],
        Call::Metadata => &[Call::Open, Call::Sync],
        Call::Read | Call::Write | Call::Sync => &[],
    }
}

impl Scene {
    /// A disk with the root folder, the current folder and the files, of which a call fails.
    fn disk(&self, (call, number): (Call, u64)) -> io::Result<Disk> {
        let disk = Disk::new(self.alloc);
        disk.make_kind("/", Kind::Folder, Vec::new(self.alloc))?;
        disk.make_kind(".", Kind::Folder, Vec::new(self.alloc))?;
        self.make_files(&disk)?;
        disk.fail(call, number)?;
        Ok(disk)
    }

    /// Makes the files on a disk.
    fn make_files(&self, disk: &Disk) -> io::Result<()> {
        for (name, bytes) in &self.files {
            disk.make(name, bytes.to_vec(self.alloc)?)?;
        }
        Ok(())
    }

    /// Runs the program over a disk.
    fn run(&self, disk: &Disk, trial: &Trial) -> RunOutput {
        let runtime = MemoryRuntime::new(self.alloc, disk, self.words.as_str());
        let progress = ShownProgress::new(&runtime);
        let mut out = LimitedWriter::new(Vec::new(self.alloc), trial.room, 7);
        out.takes_nothing = trial.takes_nothing;
        let mut msgs = LimitedWriter::new(Vec::new(self.alloc), trial.message_room, 7);
        let status = match self.program {
            Program::Veritysetup => {
                veritysetup::run_program(&runtime, &progress, &mut out, &mut msgs)
            }
            Program::Fsverity => fsverity::run_program(&runtime, &progress, &mut out, &mut msgs),
        };
        RunOutput {
            status,
            out: out.bytes,
            msgs: msgs.bytes,
        }
    }

    /// How the run ends in a trial. The files are those of these names.
    fn found(&self, trial: &Trial, names: &Files) -> io::Result<Ending> {
        let disk = self.disk(trial.failing)?;
        Ok(Ending {
            output: self.run(&disk, trial),
            files: files_on(self.alloc, &disk, names)?,
            calls: calls_on(&disk)?,
        })
    }

    /// What differs in a trial from how the steps say that the run ends. The files compared are those of a run that
    /// goes through.
    fn wrong(&self, trial: &Trial, whole: &Ending) -> Result<Option<&'static str>, Fail> {
        let found = self.found(trial, &whole.files)?;
        let expected = self.ending(trial)?;
        let (call, number) = trial.failing;
        let fails = (1..=whole.made(call)).contains(&number);
        Ok(expected.differs(&found, if fails { calls_after(call) } else { &[] }))
    }

    /// An error if a trial doesn't end as the steps say: the command, the call that fails and its number, the room for
    /// the output, whether nothing is taken at its end, the room for the messages, and what is wrong.
    fn try_one(&self, trial: Trial, whole: &Ending) -> Result<(), Fail> {
        let wrong = self.wrong(&trial, whole)?;
        let faults = (
            trial.failing,
            trial.room,
            trial.takes_nothing,
            trial.message_room,
        );
        same(format_args!("{}, {faults:?}", self.words), wrong, None)
    }

    /// Each call of a kind fails in turn, and then one more than there are, so that nothing fails.
    fn calls_fail(&self, whole: &Ending) -> Result<(), Fail> {
        let mut trial = STEADY;
        for call in &CALLS {
            for number in 1..=whole.made(*call).saturating_add(1) {
                trial.failing = (*call, number);
                self.try_one(trial, whole)?;
            }
        }
        Ok(())
    }

    /// The output ends at each length, and fails there or takes nothing.
    fn output_ends(&self, whole: &Ending) -> Result<(), Fail> {
        let mut trial = STEADY;
        for takes_nothing in &[false, true] {
            trial.takes_nothing = *takes_nothing;
            for room in 0..=whole.output.out.len() {
                trial.room = room;
                self.try_one(trial, whole)?;
            }
        }
        Ok(())
    }

    /// The messages end at each length after the first call of this kind has failed.
    fn messages_end(&self, whole: &Ending, first: Call) -> Result<(), Fail> {
        let mut trial = STEADY;
        trial.failing = (first, 1);
        for room in 0..=self.ending(&trial)?.output.msgs.len() {
            trial.message_room = room;
            self.try_one(trial, whole)?;
        }
        Ok(())
    }

    /// An error if a trial doesn't end as it should. The messages end after the first call of this kind has failed.
    pub fn try_all(&self, first: Call) -> Result<(), Fail> {
        let whole = self.ending(&STEADY)?;
        self.calls_fail(&whole)?;
        self.output_ends(&whole)?;
        self.messages_end(&whole, first)
    }
}
