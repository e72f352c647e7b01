//! Messages, one line each.
ghost use Rattle.std.specs.Prelude.{◌≡◌, IfOk, string_bytes};
ghost use Rattle.veritysetup.specs.Texts.Messages.{option_message, super_message, short_message, unread_message, build_message};
ghost use Rattle.veritysetup.specs.Texts.Messages.{difference_message, compare_message};

use crate::{OptionFault, OptionName};
use std::alloc::{AllocError, Global};
use verity_format::SuperFault;
use verity_pass::{BuildFault, CompareFault, Part};

/// The data holds no whole block, or a superblock describes none.
const NO_DATA: &str = "No data blocks.\n";

/// The data area or the hash area is past its limit.
pub(crate) const TOO_LARGE: &str = "Data or hash area is too large.\n";

/// There is no memory. The text is fixed, so that it needs none.
pub(crate) const OUT_OF_MEMORY: &str = "Out of memory.\n";

/// The command line is accepted, but without a file that it must have.
pub(crate) const INCOMPLETE_LINE: &str = "error: the command line is not complete\n";

/// What stands before the path of a file that can't be opened.
pub(crate) const CANNOT_OPEN: &str = "Cannot open ";

/// What stands before the path of a file that the system does not keep as it was written.
pub(crate) const CANNOT_WRITE: &str = "Cannot write ";

/// What stands after such a path.
pub(crate) const LINE_END: &str = ".\n";

/// There are no random bytes.
pub(crate) const NO_RANDOM_BYTES: &str = "Cannot get random bytes.\n";

/// The superblock could not be read from the device.
pub(crate) const SUPERBLOCK_UNREAD: &str = "Cannot read superblock.\n";

/// The superblock could not be written.
pub(crate) const SUPERBLOCK_UNWRITTEN: &str = "Cannot write superblock.\n";

/// The report could not be written.
pub(crate) const OUTPUT_UNWRITTEN: &str = "Cannot write output.\n";

/// The message of a refused option.
pub fn option_message(alloc: Global, fault: &OptionFault) -> Result<String, AllocError>
    ensures { IfOk result (λ s. string_bytes s ≡ option_message fault.now) }
{
    let text = match fault {
        OptionFault::BadNumber(option) => {
            return format!(in alloc; "Option --{} is not a number.\n", option.name());
        }
        OptionFault::BadBlockSize(option) => {
            return format!(in alloc; "Option --{} is not a valid block size.\n", option.name());
        }
        OptionFault::UnknownHash => "Unknown hash algorithm.\n",
        OptionFault::BadHashType => "Hash type must be 0 or 1.\n",
        OptionFault::BadSalt => "Salt is not valid.\n",
        OptionFault::BadUuid => "UUID is not valid.\n",
        OptionFault::BadHashOffset => "Hash offset is not valid.\n",
        OptionFault::NoData => NO_DATA,
        OptionFault::TooLarge => TOO_LARGE,
        OptionFault::Overlap => "Data area and hash area overlap.\n",
        OptionFault::BadRoot => "Root hash is not valid.\n",
    };
    String::from_str(alloc, text)
}

/// The message of bytes that are no superblock.
pub fn super_message(alloc: Global, fault: &SuperFault) -> Result<String, AllocError>
    ensures { IfOk result (λ s. string_bytes s ≡ super_message fault.now) }
{
    let text = match fault {
        SuperFault::Version(version) => {
            return format!(in alloc; "Superblock version {version} is not supported.\n");
        }
        SuperFault::HashType(number) => {
            return format!(in alloc; "Superblock hash type {number} is not supported.\n");
        }
        SuperFault::DataBlockSize(size) => {
            return format!(in alloc; "Superblock data block size {size} is not valid.\n");
        }
        SuperFault::HashBlockSize(size) => {
            return format!(in alloc; "Superblock hash block size {size} is not valid.\n");
        }
        SuperFault::SaltSize(size) => {
            return format!(in alloc; "Superblock salt size {size} is not valid.\n");
        }
        SuperFault::Short => "Superblock is too short.\n",
        SuperFault::Signature => "No verity superblock.\n",
        SuperFault::Algorithm => "Superblock hash algorithm is not supported.\n",
        SuperFault::NoData => NO_DATA,
        SuperFault::TooLarge => TOO_LARGE,
    };
    String::from_str(alloc, text)
}

/// The message of a tree that could not be built.
pub fn build_message(alloc: Global, fault: &BuildFault) -> Result<String, AllocError>
    ensures { IfOk result (λ s. string_bytes s ≡ build_message fault.now) }
{
    match fault {
        BuildFault::SourceShort(block) => short_message(alloc, *block),
        BuildFault::SourceFailed(block) => unread_message(alloc, *block),
        BuildFault::DeviceFailed { level, block } => {
            format!(in alloc; "Cannot write hash block {block} of level {level}.\n")
        }
    }
}

/// The message of a comparison that could not be finished, or that found a difference.
pub fn compare_message(alloc: Global, fault: &CompareFault) -> Result<String, AllocError>
    ensures { IfOk result (λ s. string_bytes s ≡ compare_message fault.now) }
{
    match fault {
        CompareFault::SourceShort(block) => short_message(alloc, *block),
        CompareFault::SourceFailed(block) => unread_message(alloc, *block),
        CompareFault::DeviceFailed { level, block } => {
            format!(in alloc; "Cannot read hash block {block} of level {level}.\n")
        }
        CompareFault::Differs { level, block, part } => {
            difference_message(alloc, *level, *block, *part)
        }
        CompareFault::RootDiffers(root) => {
            let digits = hex::encode(alloc, root.as_bytes())?;
            format!(in alloc; "Verification failed: root hash is {digits}.\n")
        }
    }
}

/// The message of data that ends before the end of a block.
fn short_message(alloc: Global, block: u64) -> Result<String, AllocError>
    ensures { IfOk result (λ s. string_bytes s ≡ short_message block) }
{
    format!(in alloc; "Data ends before the end of block {block}.\n")
}

/// The message of a data block that could not be read.
fn unread_message(alloc: Global, block: u64) -> Result<String, AllocError>
    ensures { IfOk result (λ s. string_bytes s ≡ unread_message block) }
{
    format!(in alloc; "Cannot read data block {block}.\n")
}

/// The message of a stored hash block that is not the computed one.
fn difference_message(
    alloc: Global,
    level: usize,
    block: u64,
    part: Part,
) -> Result<String, AllocError>
    ensures { IfOk result (λ s. string_bytes s ≡ difference_message level block part) }
{
    match part {
        Part::Missing => {
            format!(in alloc; "Verification failed: level {level} block {block} is missing.\n")
        }
        Part::Child(child) => {
            format!(in alloc; "Verification failed: level {level} block {block}, child {child}.\n")
        }
        Part::Spare => {
            format!(in alloc; "Verification failed: level {level} block {block}, spare bytes.\n")
        }
    }
}
