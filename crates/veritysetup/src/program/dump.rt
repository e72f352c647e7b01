//! `veritysetup dump` over the files of a runtime.
ghost use Rattle.std.specs.Prelude.{◌≡◌, IfErr, IfOk, None};
ghost use Rattle.std.specs.Io.KnownBytes.{Appends};
ghost use Rattle.veritysetup.specs.Texts.TextChanges.{Grows};
ghost use Rattle.veritysetup.specs.Texts.Reports.{report_text, uuid_text};
ghost use Rattle.veritysetup.specs.Program.Refusals.{EndsRefused, line_offset};
ghost use Rattle.veritysetup.specs.Program.Steps.{IsDumpedByLine};

use crate::Line;
use crate::fault::Fault;
use crate::options::hash_offset::offset_of;
use crate::runs::dump::{Dumped, dump_opened};
use command_line::open_readable;
use std::alloc::AllocGlobal;
use std::io::Write;
use std::rt::Files;

/// Prints what the superblock of a hash device says. A refused option opens no file.
pub(crate) fn dump_file<'a, R, O>(
    rt: &R,
    line: &Line,
    hash_path: &'a str,
    out: &mut O,
) -> Result<Dumped<'a>, Fault<'a>>
where
    R: Files + AllocGlobal,
    O: Write,
    ensures by { IfOk result (IsDumpedByLine line.now) }
    ensures hash { IfOk result (λ dumped. dumped.hash ≡ hash_path.entry) }
    ensures report { IfOk result (λ dumped. Appends (O.contents out.old) (O.contents out.new)
        (report_text hash_path.now (uuid_text dumped.superblock.uuid) dumped.superblock None)) }
    ensures grows { Grows (O.contents out.old) (O.contents out.new) }
    ensures refused { IfErr (line_offset line.now) (EndsRefused result) }
    ensures unprinted { IfErr (line_offset line.now) (λ _. out.new ≡ out.old) }
{
    let offset = match offset_of(&line.raw(false)) {
        Ok(offset) => offset,
        Err(fault) => return Err(Fault::Option(fault)),
    };
    match open_readable(rt, hash_path) {
        Ok(opened) => dump_opened(rt.alloc(), offset, &mut opened.into_device(), out),
        Err(_) => Err(Fault::Unopened(hash_path)),
    }
}
