//! What bytes say as a superblock.
ghost use Rattle.std.specs.Prelude.{◌≡◌, ◌≤◌, ◌+◌, ◌==◌, length, position, IfOk, IfErr, Some, None, nat_le, true};
ghost use Rattle.verity_hash.specs.declared.salting.SaltRule.TheVariants.{Before};
ghost use Rattle.verity_plan.specs.Plans.{superblock_size};
ghost use Rattle.verity_plan.specs.Settings.{most_salt, IsValid, rule_of};
ghost use Rattle.verity_plan.specs.CheckedSettings.{is_verity_block_size};
ghost use Rattle.verity_format.specs.Superblocks.{IsSuperblock, number_at, until_zero};
ghost use Rattle.verity_format.specs.SuperblockSteps.{AreSettings, settings_tests};
ghost use Rattle.verity_format.specs.CheckedSuperblocks.{superblock_fault, first_failed};

use crate::layout::{
    ALGORITHM_AT, DATA_BLOCK_SIZE_AT, DATA_BLOCKS_AT, HASH_BLOCK_SIZE_AT, HASH_TYPE_AT, SALT_AT,
    SALT_SIZE_AT, UUID_AT, VERSION_AT,
};
use crate::writing::VERSION;
use crate::{SuperFault, Superblock};
use byteorder::{ByteOrder, LittleEndian};
use verity_hash::Algorithm;
use verity_plan::{HashType, MOST_SALT, SUPERBLOCK_SIZE, TreeSettings, is_verity_block_size};

/// The superblock that the first 512 bytes say, or the first test that they fail (cryptsetup's on-disk format page,
/// "dm-verity header"). Pads, what follows the name's first zero, what follows the salt, and bytes after the 512th are
/// ignored.
pub fn read_superblock(bytes: &[u8]) -> Result<Superblock, SuperFault>
    ensures value { IfOk result (λ superblock. IsSuperblock bytes.now superblock) }
    ensures fault { IfErr result (λ fault. superblock_fault bytes.now ≡ Some fault) }
{
    if bytes.len() < SUPERBLOCK_SIZE {
        return Err(SuperFault::Short);
    }
    if &bytes[..VERSION_AT] != b"verity\0\0".as_slice() {
        return Err(SuperFault::Signature);
    }
    let version = u32_at(bytes, VERSION_AT);
    if version != VERSION {
        return Err(SuperFault::Version(version));
    }
    let number = u32_at(bytes, HASH_TYPE_AT);
    let Some(hash_type) = HashType::from_number(u64::from(number)) else {
        return Err(SuperFault::HashType(number));
    };
    let tree = read_settings(bytes, hash_type)?;
    let blocks = u64_at(bytes, DATA_BLOCKS_AT);
    if blocks == 0 {
        return Err(SuperFault::NoData);
    }
    let mut uuid = [0; 16];
    uuid.copy_from_slice(&bytes[UUID_AT..ALGORITHM_AT]);
    match Superblock::new(&tree, uuid, blocks) {
        Some(superblock) => Ok(superblock),
        None => Err(SuperFault::TooLarge),
    }
}

/// The settings that a superblock's bytes say.
fn read_settings(bytes: &[u8], hash_type: HashType) -> Result<TreeSettings, SuperFault>
    requires { superblock_size ≤ length bytes.now }
    ensures value { IfOk result (λ tree. AreSettings bytes.now tree) }
    ensures valid { IfOk result (λ tree. IsValid tree) }
    ensures of_type { IfOk result (λ tree. tree.rule ≡ rule_of hash_type) }
    ensures passed { IfOk result (λ _. first_failed (settings_tests bytes.now) ≡ None) }
    ensures fault { IfErr result (λ fault. first_failed (settings_tests bytes.now) ≡ Some fault) }
{
    let data_block = u32_at(bytes, DATA_BLOCK_SIZE_AT);
    if !is_verity_block_size(u64::from(data_block)) {
        return Err(SuperFault::DataBlockSize(data_block));
    }
    let hash_block = u32_at(bytes, HASH_BLOCK_SIZE_AT);
    if !is_verity_block_size(u64::from(hash_block)) {
        return Err(SuperFault::HashBlockSize(hash_block));
    }
    let Some(algorithm) = Algorithm::from_name(until_zero(&bytes[ALGORITHM_AT..DATA_BLOCK_SIZE_AT]))
    else {
        return Err(SuperFault::Algorithm);
    };
    let salt_size = u16_at(bytes, SALT_SIZE_AT);
    if salt_size as usize > MOST_SALT {
        return Err(SuperFault::SaltSize(salt_size));
    }
    let salt = &bytes[SALT_AT..SALT_AT + salt_size as usize];
    Ok(settings_within_limits(algorithm, hash_type, salt, data_block, hash_block))
}

/// The settings made of these parts, if they are within dm-verity's limits.
fn settings_within_limits(
    algorithm: Algorithm,
    hash_type: HashType,
    salt: &[u8],
    data_block: u32,
    hash_block: u32,
) -> TreeSettings
    requires data_block_size { is_verity_block_size data_block ≡ true }
    requires hash_block_size { is_verity_block_size hash_block ≡ true }
    requires salt_size { length salt.now ≤ most_salt Before }
    ensures value { result ≡ record {
      algorithm = algorithm;
      rule = rule_of hash_type;
      salt = salt.now;
      data_block = data_block;
      hash_block = hash_block;
    } }
    ensures valid { IsValid result }
{
    TreeSettings::verity(algorithm, hash_type, salt, data_block, hash_block).unwrap()
}

/// The number in two bytes.
#[tactic(auto, unfolding(crate::specs::Superblocks::number_at))]
fn u16_at(bytes: &[u8], at: usize) -> u16
    requires { at + 2 ≤ length bytes.now }
    ensures { result ≡ number_at at 2 bytes.now }
{
    LittleEndian::read_u16(&bytes[at..])
}

/// The number in four bytes.
#[tactic(auto, unfolding(crate::specs::Superblocks::number_at))]
fn u32_at(bytes: &[u8], at: usize) -> u32
    requires { at + 4 ≤ length bytes.now }
    ensures { result ≡ number_at at 4 bytes.now }
{
    LittleEndian::read_u32(&bytes[at..])
}

/// The number in eight bytes.
#[tactic(auto, unfolding(crate::specs::Superblocks::number_at))]
fn u64_at(bytes: &[u8], at: usize) -> u64
    requires { at + 8 ≤ length bytes.now }
    ensures { result ≡ number_at at 8 bytes.now }
{
    LittleEndian::read_u64(&bytes[at..])
}

fn first_zero(text: &[u8]) -> Option<usize>
    ensures { result ≡ position (λ byte. byte == 0) text.now }
{
    text.iter().position(|byte| *byte == 0)
}

/// The bytes before the first zero, or all of them.
fn until_zero(text: &[u8]) -> &[u8]
    ensures { result.now ≡ until_zero text.now }
{
    match first_zero(text) {
        Some(end) => &text[..end],
        None => text,
    }
}
