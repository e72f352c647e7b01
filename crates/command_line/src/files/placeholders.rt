//! What is held open in the place of standard streams that may be closed.
ghost use Rattle.std.specs.Prelude.{◌↔◌, IsTrue};
ghost use Rattle.command_line.specs.Placeholders.{AreOpen};

use std::fs::File;
use std::rt::Files;

/// The null device (null(4)).
pub const NULL_DEVICE: &str = "/dev/null";

/// A placeholder is the first of these that can be opened. No command takes a folder for a file, so a name that leads
/// to one, such as `/dev/fd/3`, can't be opened. Such names lie in `/proc` (proc_pid_fd(5)). The null device comes last,
/// where no folder can be opened, as in a sandbox: a name that leads there is taken, for a file without bytes or one
/// that keeps nothing.
const PLACES: [&str; 3] = ["/", "/proc", NULL_DEVICE];

/// A placeholder for each standard stream. Otherwise a file that is opened later could get the number of a standard
/// stream that is closed, and a message would be written into that file. They are opened for reading only, so a write to
/// such a number is refused.
#[derive(Drop)]
pub struct Placeholders<F> {
    first: Option<F>,
    second: Option<F>,
    third: Option<F>,
}

impl<F> Placeholders<F> {
    /// Opens the three. Keep the value for as long as other files are opened.
    pub fn open<R: Files<File = F>>(rt: &R) -> Self {
        Placeholders {
            first: open_placeholder(rt),
            second: open_placeholder(rt),
            third: open_placeholder(rt),
        }
    }

    /// Whether each of the three could be opened.
    pub fn are_open(&self) -> bool
        ensures { IsTrue result ↔ AreOpen self.now }
    {
        self.first.is_some() && self.second.is_some() && self.third.is_some()
    }
}

/// The first of the places that can be opened for reading.
fn open_placeholder<R: Files>(rt: &R) -> Option<R::File> {
    PLACES.iter().find_map(|path| File::open(rt, *path).ok())
}
