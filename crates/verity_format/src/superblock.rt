//! The value of a superblock.
ghost use Rattle.std.specs.Prelude.{◌≡◌};
ghost use Rattle.verity_format.specs.Superblocks.{IsValidSuperblock};
ghost use Rattle.verity_format.specs.CheckedSuperblocks.{superblock_of, hash_type_of};

use std::marker::Model;
use verity_hash::SaltRule;
use verity_io::MOST_BYTES;
use verity_plan::{HashType, TreeSettings};

/// A superblock of dm-verity, version 1: how a tree on a device was made (cryptsetup's on-disk format page, "dm-verity
/// header"). Valid by its type, so that it can be written.
#[derive(Clone, Copy, Debug, PartialEq, Eq)]
pub struct Superblock {
    hash_type: HashType,
    tree: TreeSettings,
    uuid: [u8; 16],
    blocks: u64,
}

impl Model for Superblock {
    ghost use Rattle.verity_format.specs.Superblocks.{SuperblockFields, IsValidSuperblock};

    ghost Value = { SuperblockFields };

    ghost view = { λ s. record { hash_type = s.hash_type; tree = s.tree; uuid = s.uuid; blocks = s.blocks } };

    ghost invariant = { λ s. IsValidSuperblock
        (record { hash_type = s.hash_type; tree = s.tree; uuid = s.uuid; blocks = s.blocks }) };

    ghost inverse = { λ v. record { hash_type = v.hash_type; tree = v.tree; uuid = v.uuid; blocks = v.blocks } };
}

/// dm-verity's hash type that puts its salt there.
fn hash_type_of(rule: SaltRule) -> Option<HashType>
    ensures { result ≡ hash_type_of rule }
{
    match rule {
        SaltRule::Before => Some(HashType::Current),
        SaltRule::After => Some(HashType::Original),
        SaltRule::PaddedBefore => None,
    }
}

impl Superblock {
    /// The superblock of a tree over this many data blocks. `None` for settings of fs-verity, for no data blocks, and
    /// for more than 2^63 - 1 bytes of data.
    pub fn new(tree: &TreeSettings, uuid: [u8; 16], blocks: u64) -> Option<Superblock>
        ensures { result ≡ superblock_of tree.now uuid blocks }
    {
        let Some(hash_type) = hash_type_of(tree.rule()) else {
            return None;
        };
        let Some(size) = blocks.checked_mul(u64::from(tree.data_block())) else {
            return None;
        };
        if blocks == 0 || size > MOST_BYTES {
            return None;
        }
        Some(Superblock {
            hash_type,
            tree: *tree,
            uuid,
            blocks,
        })
    }

    /// How the tree is made: algorithm, salt and block sizes.
    pub fn tree(&self) -> &TreeSettings
        ensures value { result.now ≡ self.now.tree }
        ensures valid { IsValidSuperblock self.now }
    {
        &self.tree
    }

    /// dm-verity's hash type.
    pub fn hash_type(&self) -> HashType
        ensures { result ≡ self.now.hash_type }
    {
        self.hash_type
    }

    /// The volume's UUID, its bytes in the order of its text.
    pub fn uuid(&self) -> [u8; 16]
        ensures { result ≡ self.now.uuid }
    {
        self.uuid
    }

    /// The number of data blocks, at least 1.
    pub fn blocks(&self) -> u64
        ensures { result ≡ self.now.blocks }
    {
        self.blocks
    }
}
