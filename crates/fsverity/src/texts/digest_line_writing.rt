//! Writing a digest line.
ghost use Rattle.std.specs.Prelude.{◌≡◌, length};
ghost use Rattle.verity_hash.specs.declared.salting.SaltRule.TheVariants.{PaddedBefore};
ghost use Rattle.verity_plan.specs.Settings.{digest_len};
ghost use Rattle.fsverity.specs.Texts.Lines.{digest_line};
ghost use Rattle.command_line.specs.Writing.{WritesText};

use crate::{FileDigest, Form, digest_line};
use command_line::{PrintFault, write_whole};
use std::alloc::Global;
use std::io::Write;
use verity_plan::TreeSettings;

/// Writes the digest line of a file, which is made whole first.
pub(crate) fn write_digest_line<W: Write>(
    alloc: Global,
    settings: &TreeSettings,
    form: Form,
    name: &str,
    made: &FileDigest,
    out: &mut W,
) -> Result<(), PrintFault>
    requires settings { settings.now.rule ≡ PaddedBefore }
    requires digest { length made.now.digest ≡ digest_len settings.now }
    ensures { WritesText result (digest_line form settings.now.algorithm made.now.digest name.now)
        (W.contents out.old) (W.contents out.new) }
{
    // For the proof: its contract says that the settings are valid, so the algorithm is one of fs-verity's.
    let _valid = settings.data_block();
    write_whole(
        digest_line(alloc, form, settings.algorithm(), &made.digest, name),
        out,
    )
}
