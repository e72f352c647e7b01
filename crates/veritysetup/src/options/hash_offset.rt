//! Where the hash area begins on a hash device, in bytes.
ghost use Rattle.std.specs.Prelude.{◌≡◌, option_copied};
ghost use Rattle.veritysetup.specs.Options.Choices.{offset_of};

use crate::options::numbers::number_option;
use crate::options::option_fault::{OptionFault, OptionName};
use crate::options::raw_options::RawOptions;
use verity_plan::{SUPERBLOCK_SIZE, multiple_of};

/// The byte at which the superblock stands that dump or verify reads, by default 0 (veritysetup(8), `--hash-offset`).
/// `BadNumber` if the text is no number, `BadHashOffset` if it is no multiple of 512.
pub fn offset_of(raw: &RawOptions) -> Result<u64, OptionFault>
    ensures { result ≡ offset_of (option_copied raw.now.hash_offset) }
{
    let offset = number_option(OptionName::HashOffset, 0, raw.hash_offset)?;
    multiple_of(SUPERBLOCK_SIZE as u64, offset).ok_or(OptionFault::BadHashOffset)
}
