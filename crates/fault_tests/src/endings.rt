//! How the steps of a command say that its run ends, whatever fails in it.
use crate::scene::{Program, Scene};
use crate::steps::{Files, Step};
use fixtures::RunOutput;
use memory_runtime::Call;
use std::alloc::{AllocError, Global};

/// What fails in a run.
#[derive(Clone, Copy)]
pub struct Trial {
    /// The call that fails and its number, counted from 1; 0 for none.
    pub failing: (Call, u64),
    /// How many bytes the output takes.
    pub room: usize,
    /// How many bytes the messages take.
    pub message_room: usize,
    /// Whether a full output takes nothing instead of failing.
    pub takes_nothing: bool,
}

/// Nothing fails.
pub const STEADY: Trial = Trial {
    failing: (Call::Open, 0),
    room: usize::MAX,
    message_room: usize::MAX,
    takes_nothing: false,
};

/// The kinds of calls, in the order of `Call`.
pub const CALLS: [Call; 6] = [
    Call::Open,
    Call::Read,
    Call::Write,
    Call::Seek,
    Call::Sync,
    Call::Metadata,
];

/// How a run ends.
#[derive(Drop)]
pub struct Ending {
    pub output: RunOutput,
    /// The files after the run.
    pub files: Files,
    /// How often each of `CALLS` was made.
    pub calls: [u64; 6],
}

/// The first bytes, up to what there is room for.
fn front(bytes: &[u8], room: usize) -> &[u8] {
    bytes.get(..room).unwrap_or(bytes)
}

impl Ending {
    /// How often a call was made.
    pub fn made(&self, call: Call) -> u64 {
        self.calls.get(call as usize).copied().unwrap_or(0)
    }

    /// Counts a call. The result is its number.
    fn count(&mut self, call: Call) -> u64 {
        if let Some(made) = self.calls.get_mut(call as usize) {
            *made = made.saturating_add(1);
        }
        self.made(call)
    }

    /// Prints a text, as far as there is room. The result is whether there was room for all of it.
    fn print(&mut self, text: &[u8], room: usize) -> Result<bool, AllocError> {
        let left = room.saturating_sub(self.output.out.len());
        self.output.out.extend_from_slice(front(text, left))?;
        Ok(text.len() <= left)
    }

    /// Takes a step. The result is whether the run goes on.
    fn take(
        &mut self,
        alloc: Global,
        step: &Step,
        trial: &Trial,
        program: Program,
    ) -> Result<bool, AllocError> {
        let (goes_on, message) = match step {
            Step::Prints(text) => (
                self.print(text.as_bytes(), trial.room)?,
                program.unwritten(),
            ),
            Step::Asks(call) => {
                let _number = self.count(*call);
                (true, b"".as_slice())
            }
            Step::Calls(call, message, effect) => {
                let goes_on = trial.failing != (*call, self.count(*call));
                if goes_on {
                    effect.leave(alloc, &mut self.files)?;
                }
                (goes_on, message.as_bytes())
            }
        };
        if !goes_on && !message.is_empty() {
            self.output.status = program.failed();
            let front = front(message, trial.message_room);
            self.output.msgs.extend_from_slice(front)?;
        }
        Ok(goes_on)
    }

    /// The first difference from how a run ended. Each call must be made just as often, or each but these.
    pub fn differs(&self, found: &Ending, but: &[Call]) -> Option<&'static str> {
        let RunOutput { status, out, msgs } = &self.output;
        if let Some(what) = found
            .output
            .differs(*status, out.as_slice(), msgs.as_slice())
        {
            Some(what)
        } else if self.files != found.files {
            Some("the files")
        } else if !self.has_calls_of(found, but) {
            Some("the number of calls")
        } else {
            None
        }
    }

    /// Whether each call is made just as often, or each but these.
    fn has_calls_of(&self, found: &Ending, but: &[Call]) -> bool {
        for call in &CALLS {
            if self.made(*call) != found.made(*call) && !but.contains(call) {
                return false;
            }
        }
        true
    }
}

impl Scene {
    /// The files before the run, and nothing done yet.
    fn start(&self) -> Result<Ending, AllocError> {
        let mut files = Vec::new(self.alloc);
        for (name, bytes) in &self.files {
            files.push((*name, bytes.to_vec(self.alloc)?))?;
        }
        let output = RunOutput {
            status: 0,
            out: Vec::new(self.alloc),
            msgs: Vec::new(self.alloc),
        };
        Ok(Ending {
            output,
            files,
            calls: [0; 6],
        })
    }

    /// How the steps say that the run ends.
    pub fn ending(&self, trial: &Trial) -> Result<Ending, AllocError> {
        let mut ending = self.start()?;
        for step in &self.steps {
            if !ending.take(self.alloc, step, trial, self.program)? {
                break;
            }
        }
        Ok(ending)
    }
}
