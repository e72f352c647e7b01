//! dm-verity's hash types.
ghost use Rattle.std.specs.Prelude.{◌≡◌};
ghost use Rattle.verity_plan.specs.Settings.{rule_of, type_number};
ghost use Rattle.verity_plan.specs.CheckedSettings.{type_of_number};

use verity_hash::SaltRule;

/// dm-verity's hash type (cryptsetup's on-disk format page, "hash type").
#[derive(Clone, Copy, Debug, PartialEq, Eq)]
pub enum HashType {
    /// Type 0, of the first Chrome OS images: the salt comes after the block, and a slot is as wide as the digest.
    Original,
    /// Type 1: the salt comes before the block, and slots are padded to a power of two.
    Current,
}

impl HashType {
    /// Where the salt goes.
    pub fn rule(self) -> SaltRule
        ensures { result ≡ rule_of self }
    {
        match self {
            HashType::Original => SaltRule::After,
            HashType::Current => SaltRule::Before,
        }
    }

    /// The number in superblocks and of the option `--format`.
    pub fn number(self) -> u32
        ensures { result ≡ type_number self }
    {
        match self {
            HashType::Original => 0,
            HashType::Current => 1,
        }
    }

    /// The hash type of a number, or `None` if no type has it.
    pub fn from_number(number: u64) -> Option<HashType>
        ensures { result ≡ type_of_number number }
    {
        match number {
            0 => Some(HashType::Original),
            1 => Some(HashType::Current),
            _ => None,
        }
    }
}
