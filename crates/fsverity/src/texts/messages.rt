//! Messages, one line each.
ghost use Rattle.std.specs.Prelude.{◌≡◌, IfOk, string_bytes};
ghost use Rattle.fsverity.specs.Texts.Messages.{digest_message, option_message};

use crate::{DigestFault, FsOptionFault};
use std::alloc::{AllocError, Global};

/// There is no memory. The text is fixed, so that it needs none.
pub(crate) const OUT_OF_MEMORY: &str = "fsverity: out of memory.\n";

/// How the message of a file that can't be opened begins; the file's name follows. It is made of pieces, so that it
/// needs no memory.
pub(crate) const CANNOT_OPEN: &str = "fsverity: cannot open ";

/// The descriptor is not written whole.
pub(crate) const DESCRIPTOR_UNWRITTEN: &str = "fsverity: cannot write descriptor.\n";

/// The line of a file is not written whole.
pub(crate) const OUTPUT_UNWRITTEN: &str = "fsverity: cannot write output.\n";

/// The message of a refused option: one line, with its newline.
pub fn option_message(fault: &FsOptionFault) -> &'static str
    ensures { result.now ≡ option_message fault.now }
{
    match fault {
        FsOptionFault::UnknownHash => "fsverity: unknown hash algorithm.\n",
        FsOptionFault::BadBlockSize => "fsverity: block size is not valid.\n",
        FsOptionFault::BadSalt => "fsverity: salt is not valid.\n",
        FsOptionFault::OneFileOnly => "fsverity: output files need exactly one input file.\n",
    }
}

/// The message of a fault at the file of this name: one line, with its newline. The error is out of memory.
pub fn digest_message(alloc: Global, fault: &DigestFault, name: &str) -> Result<String, AllocError>
    ensures { IfOk result (λ text. string_bytes text ≡ digest_message fault.now name.now) }
{
    match fault {
        DigestFault::TooLarge => format!(in alloc; "fsverity: file is too large: {name}.\n"),
        DigestFault::SourceShort(block) => {
            format!(in alloc; "fsverity: file ends before the end of block {block}: {name}.\n")
        }
        DigestFault::SourceFailed(block) => {
            format!(in alloc; "fsverity: cannot read block {block}: {name}.\n")
        }
        DigestFault::DeviceFailed { level, block } => {
            format!(in alloc; "fsverity: cannot write tree block {block} of level {level}.\n")
        }
        DigestFault::Memory => String::from_str(alloc, OUT_OF_MEMORY),
    }
}
