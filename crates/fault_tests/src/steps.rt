//! The steps of a run, and what they leave.
use fixtures::lay;
use memory_runtime::Call;
use std::alloc::{AllocError, Global};

/// What a step leaves if its call goes through.
#[derive(Drop)]
pub enum Effect {
    /// Nothing is changed.
    Nothing,
    /// The file of this name is there, made if it was missing.
    Made(&'static str),
    /// The file of this name is there, and empty.
    Emptied(&'static str),
    /// These bytes stand at this offset of the file of this name.
    Put(&'static str, usize, Vec<u8>),
}

/// A step of a run.
#[derive(Drop)]
pub enum Step {
    /// A call of a file, the message if it fails, and what it leaves. Without a message the run still ends there if the
    /// call fails, but with status 0.
    Calls(Call, String, Effect),
    /// A call after which the run goes on, whether it fails or not.
    Asks(Call),
    /// A text is printed.
    Prints(String),
}

/// Files by their names.
pub type Files = Vec<(&'static str, Vec<u8>)>;

/// The number of the file of a name.
pub fn number_of(files: &Files, name: &str) -> Option<usize> {
    for (number, (other, _)) in files.iter().enumerate() {
        if *other == name {
            return Some(number);
        }
    }
    None
}

/// The number of the file of a name, made if it is missing.
fn file_of(alloc: Global, files: &mut Files, name: &'static str) -> Result<usize, AllocError> {
    if let Some(number) = number_of(files, name) {
        return Ok(number);
    }
    files.push((name, Vec::new(alloc)))?;
    Ok(files.len().saturating_sub(1))
}

impl Effect {
    /// Changes some files as the step does.
    pub fn leave(&self, alloc: Global, files: &mut Files) -> Result<(), AllocError> {
        let (name, at, bytes) = match self {
            Effect::Nothing => return Ok(()),
            Effect::Made(name) | Effect::Emptied(name) => (*name, 0, [].as_slice()),
            Effect::Put(name, at, bytes) => (*name, *at, bytes.as_slice()),
        };
        let number = file_of(alloc, files, name)?;
        if let Some((_, file)) = files.get_mut(number) {
            if matches!(self, Effect::Emptied(_)) {
                file.clear();
            }
            let end = at.saturating_add(bytes.len());
            file.resize(file.len().max(end), 0)?;
            lay(file.as_mut_slice(), &[(at, bytes)]);
        }
        Ok(())
    }
}
