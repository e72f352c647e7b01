//! What a command did.

use crate::runs::completed::Completed;
use crate::runs::digest::Printed;
use crate::runs::outputs::Written;

/// What a command did, as the run says that did it.
#[derive(Drop)]
pub(crate) enum Done<'a> {
    /// Each file has its line.
    Printed(Printed),
    /// The one file has its line, and the output files are written.
    Written(Written<'a>),
}

impl Completed for Done<'_> {}
