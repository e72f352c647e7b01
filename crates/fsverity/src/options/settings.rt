//! The settings that the options of `fsverity digest` give.
ghost use Rattle.std.specs.Prelude.{◌≡◌, IfOk, option_copied};
ghost use Rattle.verity_hash.specs.declared.salting.SaltRule.TheVariants.{PaddedBefore};
ghost use Rattle.fsverity.specs.Options.Settings.{digest_settings};

use crate::options::tree::tree_of;
use crate::{DigestOptions, FsOptionFault};
use command_line::{DEFAULT_BLOCK_SIZE, algorithm_or_default, number_or, read_salt};
use verity_plan::TreeSettings;

/// The settings that the options give, or the first option that is refused: the algorithm, then the block size,
/// then the salt (Linux kernel, fs-verity page, "FS_IOC_ENABLE_VERITY"), then an output file with more than one input.
pub fn digest_settings(options: &DigestOptions<'_>) -> Result<TreeSettings, FsOptionFault>
    ensures value { result ≡ digest_settings (option_copied options.now.hash_alg)
        (option_copied options.now.block_size) (option_copied options.now.salt)
        options.now.files options.now.out_files }
    ensures rule { IfOk result (λ settings. settings.rule ≡ PaddedBefore) }
{
    let algorithm = algorithm_or_default(options.hash_alg).ok_or(FsOptionFault::UnknownHash)?;
    let size = number_or(DEFAULT_BLOCK_SIZE, options.block_size);
    let salt = read_salt(options.salt.unwrap_or(""));
    let tree = tree_of(algorithm, size, salt)?;
    if options.out_files && options.files > 1 {
        return Err(FsOptionFault::OneFileOnly);
    }
    Ok(tree)
}
