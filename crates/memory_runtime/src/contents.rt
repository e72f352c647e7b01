//! What a disk holds, and what was done to it.
use crate::disk::refused;
use crate::kind::Kind;
use crate::stored::Stored;
use std::alloc::{AllocError, Global};
use std::fs::OpenOptions;
use std::io;
use std::io::ErrorKind;

/// How options end that ask for the usual permissions of a new file: reading and writing for everybody, 0666 in octal,
/// from which the system takes what the umask forbids (open(2), umask(2)).
const USUAL_MODE: &str = "mode: 438 }";

/// Names with the numbers of their files. A name that stands here twice leads to the last.
type Names = Vec<(String, usize)>;

/// The number beside the last of some names that is this one.
fn number_in(names: &Names, name: &str) -> Option<usize> {
    for (other, number) in names.iter().rev() {
        if other.as_str() == name {
            return Some(*number);
        }
    }
    None
}

/// The first of some names with this number beside it.
fn first_name(names: &Names, number: usize) -> Option<&str> {
    for (name, other) in names {
        if *other == number {
            return Some(name.as_str());
        }
    }
    None
}

/// Adds a name with a number.
fn add(names: &mut Names, alloc: Global, name: &str, number: usize) -> Result<(), AllocError> {
    names.push((String::from_str(alloc, name)?, number))?;
    Ok(())
}

/// Whether options ask for the usual permissions of a new file. They show them, but lend them to nobody.
fn asks_usual_mode(alloc: Global, how: &OpenOptions) -> Result<bool, AllocError> {
    Ok(format!(in alloc; "{how:?}")?.as_str().ends_with(USUAL_MODE))
}

/// Files with their names, and what was opened and written to standard error.
#[derive(Drop)]
pub struct Contents {
    names: Names,
    /// A name, and two more: as soon as the first is opened, the second leads to the file of the third.
    leads: Vec<(String, String, String)>,
    files: Vec<Stored>,
    /// What was opened, a line each.
    pub opened: String,
    /// What was opened, synced and closed again, a line each.
    pub held: String,
    /// What was written to standard error.
    pub standard_error: Vec<u8>,
}

impl Contents {
    pub fn new(alloc: Global) -> Contents {
        Contents {
            names: Vec::new(alloc),
            leads: Vec::new(alloc),
            files: Vec::new(alloc),
            opened: String::new(alloc),
            held: String::new(alloc),
            standard_error: Vec::new(alloc),
        }
    }

    /// The number of the file with this name.
    pub fn number_of(&self, name: &str) -> Option<usize> {
        number_in(&self.names, name)
    }

    /// The file of a number.
    pub fn file(&mut self, number: usize) -> io::Result<&mut Stored> {
        match self.files.get_mut(number) {
            Some(stored) => Ok(stored),
            None => refused(ErrorKind::NotFound),
        }
    }

    /// The file of a name.
    pub fn file_of(&mut self, name: &str) -> io::Result<&mut Stored> {
        match self.number_of(name) {
            Some(number) => self.file(number),
            None => refused(ErrorKind::NotFound),
        }
    }

    /// The kind of the file of a number.
    pub fn kind_of(&self, number: usize) -> Option<Kind> {
        Some(self.files.get(number)?.kind)
    }

    /// Gives the file of a name another name as well.
    pub fn link(&mut self, alloc: Global, name: &str, other: &str) -> io::Result<()> {
        match self.number_of(name) {
            Some(number) => Ok(add(&mut self.names, alloc, other, number)?),
            None => refused(ErrorKind::NotFound),
        }
    }

    /// Lets a name lead to the file of another as soon as a name is opened.
    pub fn lead(
        &mut self,
        alloc: Global,
        opened: &str,
        name: &str,
        other: &str,
    ) -> Result<(), AllocError> {
        let opened = String::from_str(alloc, opened)?;
        let name = String::from_str(alloc, name)?;
        self.leads
            .push((opened, name, String::from_str(alloc, other)?))?;
        Ok(())
    }

    /// Lets names lead elsewhere, as they do once this name is opened.
    fn follow(&mut self, alloc: Global, opened: &str) -> Result<(), AllocError> {
        for (first, name, other) in &self.leads {
            if first.as_str() == opened
                && let Some(number) = number_in(&self.names, other.as_str())
            {
                add(&mut self.names, alloc, name.as_str(), number)?;
            }
        }
        Ok(())
    }

    /// Makes a file. The result is its number.
    pub fn make(&mut self, alloc: Global, name: &str, stored: Stored) -> Result<usize, AllocError> {
        let number = self.files.len();
        self.files.push(stored)?;
        add(&mut self.names, alloc, name, number)?;
        Ok(number)
    }

    /// Records that a file was opened, synced or closed, by its first name.
    pub fn hold(&mut self, word: &str, number: usize) -> Result<(), AllocError> {
        match first_name(&self.names, number) {
            Some(name) => write!(self.held, "{word} {name}\n"),
            None => Ok(()),
        }
    }

    /// Records how a name is opened.
    pub fn write_down(
        &mut self,
        alloc: Global,
        how: &OpenOptions,
        name: &str,
    ) -> Result<(), AllocError> {
        for &(asked, word) in &[
            (true, name),
            (true, ":"),
            (how.asks_read(), " read"),
            (how.asks_write(), " write"),
            (how.asks_append(), " append"),
            (how.asks_truncate(), " truncate"),
            (how.asks_create(), " create"),
            (how.asks_create_new(), " create_new"),
            (!asks_usual_mode(alloc, how)?, " other_mode"),
            (true, "\n"),
        ] {
            if asked {
                self.opened.push_str(word)?;
            }
        }
        Ok(())
    }

    /// Opens a name: finds its file, or makes it if that is asked for, and empties it if that is; and records it. The
    /// result is its number.
    pub fn open(&mut self, alloc: Global, how: &OpenOptions, name: &str) -> io::Result<usize> {
        let number = match self.number_of(name) {
            Some(number) => {
                self.file(number)?.open(how)?;
                number
            }
            None => self.make_if_asked(alloc, how, name)?,
        };
        self.follow(alloc, name)?;
        self.hold("open", number)?;
        Ok(number)
    }

    /// Makes a file of this name if that is asked for. The result is its number.
    fn make_if_asked(&mut self, alloc: Global, how: &OpenOptions, name: &str) -> io::Result<usize> {
        if !how.asks_create() && !how.asks_create_new() {
            return refused(ErrorKind::NotFound);
        }
        let stored = Stored::new(alloc, Kind::Plain, Vec::new(alloc));
        Ok(self.make(alloc, name, stored)?)
    }
}
