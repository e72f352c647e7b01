//! What a tree is made by.
ghost use Rattle.std.specs.Prelude.{true, ◌≡◌, ℕ, ◌*◌, ◌≤◌, ◌<◌, [], length, slice_index_or};
ghost use Rattle.std.specs.Fork.{slice_chunk};
ghost use Rattle.verity_plan.specs.Settings.{TreeSettingsFields, IsValid, hash, fan, slot_width, digest_len, least_block};
ghost use Rattle.verity_plan.specs.Settings.{is_block_size, is_of_fsverity, most_block, most_salt, least_power};
ghost use Rattle.verity_plan.specs.Settings.{rule_of};
ghost use Rattle.verity_plan.specs.CheckedSettings.{is_verity_block_size, checked_settings, verity_settings};
ghost use Rattle.verity_plan.specs.CheckedSettings.{fsverity_settings};
ghost use Rattle.verity_hash.specs.Hashing.{digest_len_of};

use crate::{HashType, SettingFault};
use std::marker::Model;
use verity_hash::{Algorithm, Digest, SaltRule, ShortBytes, salted, salted_rows};

/// What a tree is made by: algorithm, salt and where it goes, block sizes. Valid by its type.
#[derive(Clone, Copy, Debug, PartialEq, Eq)]
pub struct TreeSettings {
    algorithm: Algorithm,
    rule: SaltRule,
    salt: ShortBytes<MOST_SALT>,
    data_block: u32,
    hash_block: u32,
}

impl Model for TreeSettings {
    ghost use Rattle.verity_plan.specs.Settings.{TreeSettingsFields, IsValid};

    ghost Value = { TreeSettingsFields };

    ghost view = { λ t. record {
      algorithm = t.algorithm;
      rule = t.rule;
      salt = t.salt;
      data_block = t.data_block;
      hash_block = t.hash_block;
    } };

    ghost invariant = { λ t. IsValid
        (record {
          algorithm = t.algorithm;
          rule = t.rule;
          salt = t.salt;
          data_block = t.data_block;
          hash_block = t.hash_block;
        }) };

    ghost inverse = { λ s. record {
      algorithm = s.algorithm;
      rule = s.rule;
      salt = s.salt;
      data_block = s.data_block;
      hash_block = s.hash_block;
    } };
}

ghost use Rattle.verity_hash.specs.declared.salting.SaltRule.TheVariants.{PaddedBefore};

impl TreeSettings {
    /// Settings of dm-verity: block sizes are powers of two from 512 to 524288, the salt has up to 256 bytes
    /// (cryptsetup's on-disk format page; veritysetup(8)). The first parameter past its limits is the fault.
    pub fn verity(
        algorithm: Algorithm,
        hash_type: HashType,
        salt: &[u8],
        data_block: u32,
        hash_block: u32,
    ) -> Result<TreeSettings, SettingFault>
        ensures { result ≡ verity_settings algorithm hash_type salt.now data_block hash_block }
    {
        TreeSettings::try_new(algorithm, hash_type.rule(), salt, data_block, hash_block)
    }

    /// Settings of fs-verity: data and tree blocks have one size, a power of two of at least twice the digest's length
    /// (fsverity(1), `--block-size`; Linux kernel, fs-verity page, "FS_IOC_ENABLE_VERITY"), and at most 524288, a limit
    /// of this project's own; the salt has up to 32 bytes (the kernel's page again). The hash function is SHA-256 or
    /// SHA-512, else the fault is `Algorithm`; then the first parameter past its limits is the fault: a bad block size
    /// is always `DataBlockSize`, never `HashBlockSize`.
    pub fn fsverity(
        algorithm: Algorithm,
        salt: &[u8],
        block: u32,
    ) -> Result<TreeSettings, SettingFault>
        ensures { result ≡ fsverity_settings algorithm salt.now block }
    {
        if !is_of_fsverity(algorithm) {
            return Err(SettingFault::Algorithm);
        }
        TreeSettings::try_new(algorithm, SaltRule::PaddedBefore, salt, block, block)
    }

    fn try_new(
        algorithm: Algorithm,
        rule: SaltRule,
        salt: &[u8],
        data_block: u32,
        hash_block: u32,
    ) -> Result<TreeSettings, SettingFault>
        requires one_size { rule ≡ PaddedBefore → data_block ≡ hash_block }
        requires known { rule ≡ PaddedBefore → is_of_fsverity algorithm ≡ true }
        ensures { result
            ≡ checked_settings (record {
              algorithm = algorithm;
              rule = rule;
              salt = salt.now;
              data_block = data_block;
              hash_block = hash_block;
            }) }
    {
        let least = least_block(rule, algorithm);
        if !is_block_size(least, data_block) {
            return Err(SettingFault::DataBlockSize);
        }
        if !is_block_size(least, hash_block) {
            return Err(SettingFault::HashBlockSize);
        }
        if salt.len() > most_salt(rule) {
            return Err(SettingFault::SaltSize);
        }
        match ShortBytes::from_bytes(salt) {
            Some(salt) => Ok(TreeSettings {
                algorithm,
                rule,
                salt,
                data_block,
                hash_block,
            }),
            None => Err(SettingFault::SaltSize),
        }
    }

    /// The hash function.
    pub fn algorithm(&self) -> Algorithm
        ensures { result ≡ self.now.algorithm }
    {
        self.algorithm
    }

    /// Where the salt goes.
    pub fn rule(&self) -> SaltRule
        ensures { result ≡ self.now.rule }
    {
        self.rule
    }

    /// The salt, 0 to 256 bytes.
    pub fn salt(&self) -> &[u8]
        ensures value { result.now ≡ self.now.salt }
        ensures valid { IsValid self.now }
    {
        self.salt.as_bytes()
    }

    /// The size of a data block in bytes.
    pub fn data_block(&self) -> u32
        ensures value { result ≡ self.now.data_block }
        ensures valid { IsValid self.now }
    {
        self.data_block
    }

    /// The size of a hash block in bytes.
    pub fn hash_block(&self) -> u32
        ensures value { result ≡ self.now.hash_block }
        ensures valid { IsValid self.now }
    {
        self.hash_block
    }

    /// The number of slots of a hash block (Linux kernel, dm-verity page, "Hash Tree").
    pub fn fan(&self) -> usize
        ensures value { result ≡ fan self.now }
        ensures two { 2 ≤ result }
        ensures most { result ≤ most_block }
        ensures fits { fan self.now * slot_width self.now ≤ self.now.hash_block }
    {
        // As many digests fit as powers of two that hold one: of those the exponents do it, faster than a division.
        let block = self.hash_block.ilog2();
        let least = least_power(self.algorithm.digest_len()).ilog2();
        1 << (block - least)
    }

    /// The width of a slot in bytes (cryptsetup's on-disk format page).
    #[tactic(auto, unfolding(crate::specs::Settings::slot_width))]
    pub fn slot_width(&self) -> usize
        ensures value { result ≡ slot_width self.now }
        ensures most { result ≤ 128 }
    {
        let len = self.algorithm.digest_len();
        match self.rule {
            SaltRule::Before => least_power(len),
            SaltRule::After | SaltRule::PaddedBefore => len,
        }
    }

    /// The salted hash of a block.
    #[tactic(auto, unfolding(crate::specs::Settings::hash))]
    pub fn hash(&self, block: &[u8]) -> Digest
        ensures { result ≡ hash self.now block.now }
    {
        salted(self.algorithm, self.rule, self.salt.as_bytes(), block)
    }

    /// The salted hashes of `count` blocks of `size` bytes each, one to eight, which stand one after another in
    /// `rows`. The digests after theirs count for nothing.
    #[tactic(auto, unfolding(crate::specs::Settings::hash))]
    pub fn hash_rows(&self, rows: &[u8], size: usize, count: usize) -> [Digest; 8]
        requires whole { length rows.now ≡ count * size }
        requires some { 0 < count }
        requires most { count ≤ 8 }
        ensures { (r : ℕ) → r < count → slice_index_or result r [] ≡ hash self.now (slice_chunk rows.now size r) }
    {
        let salt = self.salt.as_bytes();
        salted_rows(self.algorithm, self.rule, salt, rows, size, count)
    }
}

/// Whether fs-verity knows the algorithm: SHA-256 and SHA-512 (Linux kernel, fs-verity page, "fs-verity descriptor").
fn is_of_fsverity(algorithm: Algorithm) -> bool
    ensures { result ≡ is_of_fsverity algorithm }
{
    matches!(algorithm, Algorithm::Sha256 | Algorithm::Sha512)
}

/// The smallest block size of dm-verity, in bytes (cryptsetup's on-disk format page, "dm-verity header").
const LEAST_BLOCK: u32 = 512;

/// The smallest block size.
fn least_block(rule: SaltRule, algorithm: Algorithm) -> u32
    ensures { result ≡ least_block rule (digest_len_of algorithm) }
{
    match rule {
        SaltRule::Before | SaltRule::After => LEAST_BLOCK,
        SaltRule::PaddedBefore => 2 * algorithm.digest_len() as u32,
    }
}

/// The longest salt of dm-verity, in bytes (cryptsetup's on-disk format page, "dm-verity header").
pub const MOST_SALT: usize = 256;

/// The longest salt.
fn most_salt(rule: SaltRule) -> usize
    ensures { result ≡ most_salt rule }
{
    match rule {
        SaltRule::Before | SaltRule::After => MOST_SALT,
        SaltRule::PaddedBefore => 32,
    }
}

/// The largest block size, in bytes (cryptsetup's on-disk format page; for fs-verity a limit of this project's own).
const MOST_BLOCK: u32 = 524288;

/// Whether a block size is a power of two within its limits.
fn is_block_size(least: u32, size: u32) -> bool
    ensures { result ≡ is_block_size least size }
{
    size.is_power_of_two() && least <= size && size <= MOST_BLOCK
}

/// Whether a block size, in bytes, is one of dm-verity's: a power of two from 512 to 524288 (cryptsetup's on-disk
/// format page, "dm-verity header").
pub fn is_verity_block_size(size: u64) -> bool
    ensures { result ≡ is_verity_block_size size }
{
    match u32::try_from(size) {
        Ok(size) => is_block_size(LEAST_BLOCK, size),
        Err(_) => false,
    }
}

/// The least power of two that is not below a length.
fn least_power(len: usize) -> usize
    requires { len ≤ 64 }
    ensures value { result ≡ least_power len }
    ensures most { result ≤ 128 }
{
    len.next_power_of_two()
}
