//! The settings and plans that parameters make.
ghost use Rattle.std.specs.Prelude.{◌≡◌, take};
ghost use Rattle.verity_c_api.specs.Parameters.{algorithm_of, fsverity_plan_of, fsverity_settings_of, fsverity_tree_of};
ghost use Rattle.verity_c_api.specs.Parameters.{if_salt_fits, number_of, plan_of, tree_of};

use verity_c_api::{Fault, FsverityParams, VerityParams};
use verity_hash::Algorithm;
use verity_plan::{HashType, Plan, SettingFault, TreeSettings, multiple_of, offset_unit, plan_at};

/// The hash function of a number in verity.h.
pub(crate) fn algorithm_of(number: u32) -> Option<Algorithm>
    ensures { result ≡ algorithm_of number }
{
    match number {
        1 => Some(Algorithm::Sha256),
        2 => Some(Algorithm::Sha512),
        3 => Some(Algorithm::Sha1),
        4 => Some(Algorithm::Sha224),
        5 => Some(Algorithm::Sha384),
        _ => None,
    }
}

/// The number of a hash function in verity.h.
pub(crate) fn number_of(algorithm: Algorithm) -> u32
    ensures { result ≡ number_of algorithm }
{
    match algorithm {
        Algorithm::Sha256 => 1,
        Algorithm::Sha512 => 2,
        Algorithm::Sha1 => 3,
        Algorithm::Sha224 => 4,
        Algorithm::Sha384 => 5,
    }
}

/// The bytes of a salt that count, as far as there are as many.
fn counting(salt: &[u8], size: u32) -> &[u8]
    ensures { result.now ≡ take size salt.now }
{
    &salt[..salt.len().min(size as usize)]
}

/// The settings, if no more bytes of the salt are to count than there can be, or the first fault: that of the settings,
/// `SaltSize`.
fn if_salt_fits(
    tree: Result<TreeSettings, SettingFault>,
    size: u32,
    most: usize,
) -> Result<TreeSettings, Fault>
    ensures { result ≡ if_salt_fits tree size most }
{
    match tree {
        Ok(tree) if size as usize <= most => Ok(tree),
        Ok(_) => Err(Fault::SaltSize),
        Err(fault) => Err(Fault::of_setting(fault)),
    }
}

/// The settings of dm-verity that parameters make, or the first of `Algorithm`, `HashType`, `DataBlockSize`,
/// `HashBlockSize`, `SaltSize`.
fn tree_of(params: &VerityParams) -> Result<TreeSettings, Fault>
    ensures { result ≡ tree_of params.now }
{
    let Some(algorithm) = algorithm_of(params.hash_algorithm) else {
        return Err(Fault::Algorithm);
    };
    let Some(hash_type) = HashType::from_number(u64::from(params.hash_type)) else {
        return Err(Fault::HashType);
    };
    let salt = counting(&params.salt, params.salt_size);
    let (data_block, hash_block) = (params.data_block_size, params.hash_block_size);
    let tree = TreeSettings::verity(algorithm, hash_type, salt, data_block, hash_block);
    if_salt_fits(tree, params.salt_size, params.salt.len())
}

/// The plan of dm-verity that parameters make, or the first fault: that of the settings, `HashOffset`, `NoData`,
/// `TooLarge`.
pub(crate) fn plan_of(params: &VerityParams) -> Result<Plan, Fault>
    ensures { result ≡ plan_of params.now }
{
    let tree = tree_of(params)?;
    let superblock = params.no_superblock == 0;
    let Some(offset) = multiple_of(offset_unit(superblock, &tree), params.hash_offset) else {
        return Err(Fault::HashOffset);
    };
    match plan_at(&tree, params.data_blocks, offset, superblock) {
        Ok(plan) => Ok(plan),
        Err(fault) => Err(Fault::of_plan(fault)),
    }
}

/// The settings of fs-verity that parameters make, whether or not there are as many bytes of the salt as are to count; or
/// the first fault.
pub(crate) fn fsverity_settings_of(params: &FsverityParams) -> Result<TreeSettings, SettingFault>
    ensures { result ≡ fsverity_settings_of params.now }
{
    let Some(algorithm) = algorithm_of(params.hash_algorithm) else {
        return Err(SettingFault::Algorithm);
    };
    let salt = counting(&params.salt, params.salt_size);
    TreeSettings::fsverity(algorithm, salt, params.block_size)
}

/// The settings of fs-verity that parameters make, or the first of `Algorithm`, `DataBlockSize`, `SaltSize`.
pub(crate) fn fsverity_tree_of(params: &FsverityParams) -> Result<TreeSettings, Fault>
    ensures { result ≡ fsverity_tree_of params.now }
{
    let made = fsverity_settings_of(params);
    if_salt_fits(made, params.salt_size, params.salt.len())
}

/// The plan of fs-verity that parameters make, or the first fault: that of the settings, `NoData`, `TooLarge`.
pub(crate) fn fsverity_plan_of(params: &FsverityParams) -> Result<Plan, Fault>
    ensures { result ≡ fsverity_plan_of params.now }
{
    let tree = fsverity_tree_of(params)?;
    match Plan::for_bytes(&tree, params.size, 0) {
        Ok(plan) => Ok(plan),
        Err(fault) => Err(Fault::of_plan(fault)),
    }
}
