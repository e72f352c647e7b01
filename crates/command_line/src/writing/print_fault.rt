//! Writing a text whole, and why that fails: there is no memory, or the writer takes no more.
ghost use Rattle.std.specs.Prelude.{◌≡◌, ℕ, List, Err, IfOk, IsErr, string_bytes};
ghost use Rattle.command_line.specs.Writing.{WritesText};

use std::alloc::AllocError;
use std::io::Write;
use verity_io::{PutFault, put_all};

/// Why a text is not written whole.
#[derive(Clone, Copy, Debug, PartialEq, Eq)]
pub enum PrintFault {
    /// There is no memory for it.
    Memory,
    /// The writer took only so many of its bytes, fewer than all.
    Output(usize),
}

ghost use Rattle.command_line.specs.declared.writing.print_fault.PrintFault.TheVariants.{Memory};

/// Writes a text whole, if there was memory for it.
///
/// # Errors
///
/// [`PrintFault::Memory`] if there was none: nothing is written. [`PrintFault::Output`] if the writer takes no more: it
/// says how many of the text's first bytes are written.
pub fn write_whole<W: Write>(
    text: Result<String, AllocError>,
    out: &mut W,
) -> Result<(), PrintFault>
    ensures written { (bytes : List ℕ) → IfOk text (λ s. string_bytes s ≡ bytes)
        → WritesText result bytes (W.contents out.old) (W.contents out.new) }
    ensures memory { result ≡ Err Memory → IsErr text }
{
    match text {
        Ok(text) => match put_all(out, text.as_bytes()) {
            Ok(()) => Ok(()),
            Err(PutFault(count)) => Err(PrintFault::Output(count)),
        },
        Err(_) => Err(PrintFault::Memory),
    }
}
