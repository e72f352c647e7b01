//! The tree that the options choose: what it is made by.
ghost use Rattle.std.specs.Prelude.{◌≡◌, IfOk, option_and_then};
ghost use Rattle.verity_hash.specs.declared.salting.SaltRule.TheVariants.{PaddedBefore};
ghost use Rattle.fsverity.specs.Options.Settings.{checked_block_size, tree_of};

use crate::FsOptionFault;
use verity_hash::{Algorithm, ShortBytes};
use verity_plan::{SettingFault, TreeSettings};

/// What the tree is made by, or the first fault: that fs-verity doesn't have the algorithm, the block size, or that
/// there is no salt.
pub fn tree_of(
    algorithm: Algorithm,
    size: Option<u64>,
    salt: Option<ShortBytes<32>>,
) -> Result<TreeSettings, FsOptionFault>
    ensures value { result ≡ tree_of algorithm size salt }
    ensures rule { IfOk result (λ tree. tree.rule ≡ PaddedBefore) }
{
    let is_given = salt.is_some();
    let bytes = salt.unwrap_or(ShortBytes::zeros(0));
    match TreeSettings::fsverity(algorithm, bytes.as_bytes(), block_size(size)) {
        Err(SettingFault::Algorithm) => Err(FsOptionFault::UnknownHash),
        Err(SettingFault::DataBlockSize) => Err(FsOptionFault::BadBlockSize),
        Err(_) => Err(FsOptionFault::BadSalt),
        Ok(tree) if is_given => Ok(tree),
        Ok(_) => Err(FsOptionFault::BadSalt),
    }
}

/// This number as the size of a block. One of 2^32 or more is none, and neither is 0, which stands for it and for a text
/// that is no number.
fn block_size(number: Option<u64>) -> u32
    ensures { (algorithm : Algorithm) → checked_block_size algorithm result
        ≡ option_and_then (checked_block_size algorithm) number }
{
    match number {
        Some(number) => u32::try_from(number).unwrap_or(0),
        None => 0,
    }
}
