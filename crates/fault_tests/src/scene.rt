//! A command over some files, as a list of steps: which call each makes, the message if that call fails, and what it
//! leaves.
use crate::steps::{Effect, Files, Step, number_of};
use memory_runtime::Call;
use std::alloc::{AllocError, Global};

/// One of the two programs.
#[derive(Clone, Copy)]
pub enum Program {
    Veritysetup,
    Fsverity,
}

impl Program {
    /// The status of a file that fails.
    pub fn failed(self) -> u8 {
        match self {
            Program::Veritysetup => 4,
            Program::Fsverity => 1,
        }
    }

    /// The message for output that can't be written.
    pub fn unwritten(self) -> &'static [u8] {
        match self {
            Program::Veritysetup => b"Cannot write output.\n",
            Program::Fsverity => b"fsverity: cannot write output.\n",
        }
    }

    /// The message for a file that can't be opened.
    fn unopened(self, alloc: Global, name: &str) -> Result<String, AllocError> {
        let what = match self {
            Program::Veritysetup => "Cannot",
            Program::Fsverity => "fsverity: cannot",
        };
        [what, " open ", name, ".\n"].concat(alloc)
    }
}

/// A command over some files, and the steps that it takes.
#[derive(Drop)]
pub struct Scene {
    pub alloc: Global,
    pub program: Program,
    /// The words of the command line, the program's name first.
    pub words: String,
    /// The files before the run.
    pub files: Files,
    pub steps: Vec<Step>,
}

impl Scene {
    /// A command with these words and no files, which opens a placeholder for each standard stream. The null device is
    /// the last that is tried.
    pub fn new(alloc: Global, program: Program, words: String) -> Result<Scene, AllocError> {
        let mut scene = Scene {
            alloc,
            program,
            words,
            files: Vec::new(alloc),
            steps: Vec::new(alloc),
        };
        for _ in 0..3 {
            scene.opens("/dev/null", Effect::Nothing)?;
        }
        Ok(scene)
    }

    /// One more file is there before the run.
    pub fn adds_file(&mut self, name: &'static str, bytes: Vec<u8>) -> Result<(), AllocError> {
        self.files.push((name, bytes))?;
        Ok(())
    }

    /// One more call of a file, the message if it fails, and what it leaves.
    pub fn calls(&mut self, call: Call, message: &str, effect: Effect) -> Result<(), AllocError> {
        let message = String::from_str(self.alloc, message)?;
        self.steps.push(Step::Calls(call, message, effect))?;
        Ok(())
    }

    /// One more call, after which the run goes on in any case.
    pub fn asks(&mut self, call: Call) -> Result<(), AllocError> {
        self.steps.push(Step::Asks(call))?;
        Ok(())
    }

    /// More calls, which have one message and leave nothing.
    pub fn calls_all(&mut self, calls: &[Call], message: &str) -> Result<(), AllocError> {
        for call in calls {
            self.calls(*call, message, Effect::Nothing)?;
        }
        Ok(())
    }

    /// One more text is printed.
    pub fn prints(&mut self, text: String) -> Result<(), AllocError> {
        self.steps.push(Step::Prints(text))?;
        Ok(())
    }

    /// A file is opened.
    pub fn opens(&mut self, name: &str, effect: Effect) -> Result<(), AllocError> {
        let message = self.program.unopened(self.alloc, name)?;
        self.calls(Call::Open, message.as_str(), effect)
    }

    /// A file is opened to be written. If it isn't there, it is opened once more, to be made.
    pub fn opens_to_write(&mut self, name: &'static str, effect: Effect) -> Result<(), AllocError> {
        if number_of(&self.files, name).is_none() {
            self.opens(name, Effect::Nothing)?;
        }
        self.opens(name, effect)
    }

    /// A file is opened to be read, if the system says that it is no folder.
    pub fn opens_to_read(&mut self, name: &str) -> Result<(), AllocError> {
        self.opens_with(name, &[Call::Open, Call::Metadata])
    }

    /// A file is opened to be read, and its length is found by a seek to its end, from which the run goes back to its
    /// start.
    pub fn measures(&mut self, name: &str) -> Result<(), AllocError> {
        self.opens_with(name, &[Call::Open, Call::Metadata, Call::Seek, Call::Seek])
    }

    /// A file is opened by these calls.
    fn opens_with(&mut self, name: &str, calls: &[Call]) -> Result<(), AllocError> {
        let message = self.program.unopened(self.alloc, name)?;
        self.calls_all(calls, message.as_str())
    }
}
