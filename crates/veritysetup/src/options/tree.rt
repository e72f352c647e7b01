//! The tree that the options choose: what it is made by, and its plan.
ghost use Rattle.std.specs.Prelude.{◌≡◌, IfOk};
ghost use Rattle.verity_plan.specs.Settings.{rule_of};
ghost use Rattle.veritysetup.specs.Options.Choices.{accepted_plan, tree_of};
ghost use Rattle.veritysetup.specs.Options.OptionTexts.{block_size_of};

use crate::options::option_fault::{OptionFault, OptionName};
use verity_hash::{Algorithm, ShortBytes};
use verity_plan::{HashType, MOST_SALT, Plan, PlanFault, SettingFault, TreeSettings};

/// What the tree is made by, or the first fault: the data block size, the hash block size, or that there is no salt.
pub fn tree_of(
    algorithm: Algorithm,
    hash_type: HashType,
    data_block: u64,
    hash_block: u64,
    salt: Option<ShortBytes<MOST_SALT>>,
) -> Result<TreeSettings, OptionFault>
    ensures value { result ≡ tree_of algorithm hash_type data_block hash_block salt }
    ensures of_type { IfOk result (λ tree. tree.rule ≡ rule_of hash_type) }
{
    let is_given = salt.is_some();
    let bytes = salt.unwrap_or(ShortBytes::zeros(0));
    let data = block_size(data_block);
    let hash = block_size(hash_block);
    match TreeSettings::verity(algorithm, hash_type, bytes.as_bytes(), data, hash) {
        Err(SettingFault::DataBlockSize) => Err(OptionFault::BadBlockSize(
            OptionName::DataBlockSize,
        )),
        Err(SettingFault::HashBlockSize) => Err(OptionFault::BadBlockSize(
            OptionName::HashBlockSize,
        )),
        Err(_) => Err(OptionFault::BadSalt),
        Ok(tree) if is_given => Ok(tree),
        Ok(_) => Err(OptionFault::BadSalt),
    }
}

/// This number as the size of a block. A number of 2^32 or more becomes 0, since neither is the size of a block.
fn block_size(number: u64) -> u32
    ensures { block_size_of result ≡ block_size_of number }
{
    u32::try_from(number).unwrap_or(0)
}

/// The plan, or why there is none: no data, too much of it, or in one file a hash area within the covered data.
pub fn accepted_plan(
    planned: Result<Plan, PlanFault>,
    same_file: bool,
    offset: u64,
) -> Result<Plan, OptionFault>
    ensures { result ≡ accepted_plan same_file offset planned }
{
    match planned {
        Ok(plan) if same_file && offset < plan.wanted() => Err(OptionFault::Overlap),
        Ok(plan) => Ok(plan),
        Err(PlanFault::NoData) => Err(OptionFault::NoData),
        Err(PlanFault::TooLarge) => Err(OptionFault::TooLarge),
    }
}
