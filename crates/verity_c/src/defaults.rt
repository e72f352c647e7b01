//! The parameters of a tree for which nothing is chosen.
ghost use Rattle.std.specs.Prelude.{◌≡◌};
ghost use Rattle.verity_c_api.specs.Answers.{default_params_in, value_or};
ghost use Rattle.verity_c_api.specs.Parameters.{default_params};
ghost use Rattle.verity_c_api.specs.Statuses.{status_of};

use crate::plans::{number_of, plan_of};
use verity_c_api::{DONE, VerityParams};
use verity_hash::Algorithm;
use verity_plan::HashType;

/// Fills parameters with what `veritysetup format` takes where no option says otherwise (veritysetup(8)): SHA-256, hash
/// type 1, data and hash blocks of 4096 bytes, and a superblock at byte 0 of the hash device. Their salt is empty and
/// their UUID zeros: `format` draws both, and here the caller does.
///
/// The status is 0, or that of the first of `NoData`, `TooLarge`. Then the parameters stay as they were.
#[unsafe(no_mangle)]
pub extern "C" fn verity_default_params(data_blocks: u64, params: &mut VerityParams) -> i32
    ensures status { result ≡ status_of (default_params_in data_blocks) }
    ensures params { params.new ≡ value_or params.old (default_params_in data_blocks) }
{
    let defaults = default_params(data_blocks);
    match plan_of(&defaults) {
        Ok(_) => {
            *params = defaults;
            DONE
        }
        Err(fault) => fault.status(),
    }
}

/// The parameters of so many data blocks, perhaps more than a tree can have.
fn default_params(data_blocks: u64) -> VerityParams
    ensures { result ≡ default_params data_blocks }
{
    VerityParams {
        hash_algorithm: number_of(Algorithm::Sha256),
        hash_type: HashType::Current.number(),
        data_block_size: 4096,
        hash_block_size: 4096,
        data_blocks,
        hash_offset: 0,
        no_superblock: 0,
        salt_size: 0,
        salt: [0; 256],
        uuid: [0; 16],
    }
}
