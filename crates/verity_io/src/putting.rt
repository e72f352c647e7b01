//! Writing a whole text.
ghost use Rattle.std.specs.Prelude.{◌≢◌, ◌≤◌, ◌<◌, take, length, IfErr, IfOk, OnOk};
ghost use Rattle.std.specs.Io.KnownBytes.{Appends, WriteAppends};
ghost use Rattle.std.specs.IoError.{error_kind};
ghost use Rattle.verity_io.specs.Putting.{bytes_taken};

use std::io;
use std::io::{ErrorKind, Write};

/// This many of the first bytes of a text were taken, and then a write failed or took nothing.
#[derive(Clone, Copy, Debug, PartialEq, Eq)]
pub struct PutFault(pub usize);

/// Writes a whole text, in as many writes as it takes. The fault says how many of its bytes, fewer than all, were taken
/// before a write failed or took nothing.
pub fn put_all<W: Write>(writer: &mut W, text: &[u8]) -> Result<(), PutFault>
    ensures whole { OnOk result (Appends (W.contents writer.old) (W.contents writer.new) text.now) }
    ensures fewer { IfErr result (λ fault. bytes_taken fault < length text.now) }
    ensures prefix { IfErr result
        (λ fault. Appends (W.contents writer.old) (W.contents writer.new) (take (bytes_taken fault) text.now)) }
{
    let mut start = 0;
    while start < text.len() {
        match write_retrying(writer, &text[start..]) {
            Ok(count) => {
                if count == 0 {
                    return Err(PutFault(start));
                }
                start += count;
            }
            Err(_) => return Err(PutFault(start)),
        }
    }
    Ok(())
}

/// One write, tried again if a signal interrupts it: how many bytes were taken. The error is never an interrupt: it is
/// the writer's own, or says that every try was interrupted.
fn write_retrying<W: Write>(writer: &mut W, text: &[u8]) -> io::Result<usize>
    ensures bound { IfOk result (λ count. count ≤ length text.now) }
    ensures prefix { WriteAppends (W.contents writer.old) (W.contents writer.new) result text.now }
    ensures retried { IfErr result (λ error. error_kind error ≢ ErrorKind.Interrupted) }
{
    for _ in 0..u64::MAX {
        match writer.write(text) {
            Ok(count) => return Ok(count),
            Err(error) => {
                if error.kind() != ErrorKind::Interrupted {
                    return Err(error);
                }
            }
        }
    }
    Err(io::Error::from(ErrorKind::TimedOut))
}
