//! Reading a superblock into parameters, and writing it from them.
ghost use Rattle.std.specs.Prelude.{◌≡◌, ◌≤◌, length};
ghost use Rattle.verity_hash.specs.Hashing.{with_zeros};
ghost use Rattle.verity_plan.specs.Settings.{most_verity_salt};
ghost use Rattle.verity_format.specs.CheckedSuperblocks.{superblock_fault};
ghost use Rattle.verity_c_api.specs.Answers.{ReadsParameters, superblock_in, superblock_status, value_or};
ghost use Rattle.verity_c_api.specs.Parameters.{parameters_of, plan_of};
ghost use Rattle.verity_c_api.specs.Statuses.{status_of};

use crate::plans::{number_of, plan_of};
use verity_c_api::{DONE, Fault, VerityParams};
use verity_format::laws::bytes_say_a_superblock_or_fail_a_test;
use verity_format::{Superblock, read_superblock, write_superblock};
use verity_plan::SUPERBLOCK_SIZE;

/// Reads the superblock that the first 512 bytes say into parameters (cryptsetup's on-disk format page, "dm-verity
/// header"). The hash offset, the byte of the hash device at which these bytes stand, goes into them as it is given.
///
/// The status is 0, or that of the first of `Short`, `Signature`, `Version`, `HashType`, `DataBlockSize`,
/// `HashBlockSize`, `Algorithm`, `SaltSize`, `NoData`, `TooLarge`. Then the parameters stay as they were.
#[unsafe(no_mangle)]
pub extern "C" fn verity_read_superblock(
    bytes: &[u8],
    hash_offset: u64,
    params: &mut VerityParams,
) -> i32
    ensures status { result ≡ superblock_status (superblock_fault bytes.now) }
    ensures params { ReadsParameters (superblock_fault bytes.now) bytes.now hash_offset params.old params.new }
{
    bytes_say_a_superblock_or_fail_a_test();
    match read_superblock(bytes) {
        Ok(superblock) => {
            *params = parameters_of(&superblock, hash_offset);
            DONE
        }
        Err(fault) => Fault::of_superblock(fault).status(),
    }
}

/// Writes the 512 bytes of the superblock of the tree with these parameters and their UUID (cryptsetup's on-disk format
/// page, "dm-verity header"). Parameters that `verity_read_superblock` has read write a superblock of the same fields, if
/// they make a plan. Neither the hash offset nor whether a superblock stands there goes into it.
///
/// The status is 0, or that of the first fault of the parameters, or of `Length`. Then the bytes stay as they were.
#[unsafe(no_mangle)]
pub extern "C" fn verity_write_superblock(params: &VerityParams, bytes: &mut [u8]) -> i32
    ensures status { result
        ≡ status_of (superblock_in (plan_of params.now) params.now.uuid (length bytes.old)) }
    ensures bytes { bytes.new
        ≡ value_or bytes.old (superblock_in (plan_of params.now) params.now.uuid (length bytes.old)) }
{
    let plan = match plan_of(params) {
        Ok(plan) => plan,
        Err(fault) => return fault.status(),
    };
    if bytes.len() != SUPERBLOCK_SIZE {
        return Fault::Length.status();
    }
    // Parameters that make a plan have a superblock, so this is never answered.
    let Some(superblock) = Superblock::new(plan.settings(), params.uuid, plan.blocks()) else {
        return Fault::Algorithm.status();
    };
    bytes.copy_from_slice(&write_superblock(&superblock));
    DONE
}

/// The parameters that a superblock at this hash offset says.
fn parameters_of(superblock: &Superblock, hash_offset: u64) -> VerityParams
    ensures { result ≡ parameters_of superblock.now hash_offset }
{
    let tree = superblock.tree();
    let salt = tree.salt();
    VerityParams {
        hash_algorithm: number_of(tree.algorithm()),
        hash_type: superblock.hash_type().number(),
        data_block_size: tree.data_block(),
        hash_block_size: tree.hash_block(),
        data_blocks: superblock.blocks(),
        hash_offset,
        no_superblock: 0,
        salt_size: salt.len() as u32,
        salt: salt_field(salt),
        uuid: superblock.uuid(),
    }
}

/// A salt, and zeros after it.
fn salt_field(salt: &[u8]) -> [u8; 256]
    requires { length salt.now ≤ most_verity_salt }
    ensures { result ≡ with_zeros most_verity_salt salt.now }
{
    let mut field = [0; 256];
    field[..salt.len()].copy_from_slice(salt);
    field
}
