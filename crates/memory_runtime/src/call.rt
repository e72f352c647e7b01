//! Calls of a disk and of opened files, counted.

/// A call of a disk or of an opened file.
#[derive(Clone, Copy, Debug, PartialEq, Eq)]
pub enum Call {
    Open,
    Read,
    Write,
    Seek,
    Sync,
    /// What the system says of a path or of an opened file.
    Metadata,
}

/// The calls of a disk and all its files.
#[derive(Clone, Copy)]
pub struct Calls {
    /// How often each was made, in the order of `Call`.
    made: [u64; 6],
    /// The call that fails, and its number, counted from 1; 0 for none.
    pub failing: (Call, u64),
}

impl Calls {
    /// None was made, and none fails.
    pub const NONE: Calls = Calls {
        made: [0; 6],
        failing: (Call::Open, 0),
    };

    /// How often a call was made.
    pub fn made(&self, call: Call) -> u64 {
        self.made.get(call as usize).copied().unwrap_or(0)
    }

    /// Counts a call. The result is whether it fails.
    pub fn fails(&mut self, call: Call) -> bool {
        if let Some(made) = self.made.get_mut(call as usize) {
            *made = made.saturating_add(1);
        }
        self.failing == (call, self.made(call))
    }
}
