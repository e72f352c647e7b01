//! Trees to be made, and the same trees made from plain lists of bytes by the kernel's pages.
ghost use Rattle.std.specs.Prelude.{◌<◌};

use fixtures::{Shape, Tree, data, with_zeros};
use std::alloc::{AllocError, Global};
use std::test::Fail;
use verity_hash::{Algorithm, Digest, SaltRule};
use verity_tree::{HashType, MemoryDevice, Plan, SettingFault, TreeSettings};

pub const SHA1: Algorithm = Algorithm::Sha1;

pub const SHA224: Algorithm = Algorithm::Sha224;

pub const SHA256: Algorithm = Algorithm::Sha256;

pub const SHA384: Algorithm = Algorithm::Sha384;

pub const SHA512: Algorithm = Algorithm::Sha512;

/// dm-verity, hash type 1: the salt comes before each block.
pub const BEFORE: SaltRule = SaltRule::Before;

/// dm-verity, hash type 0: the salt comes after each block.
pub const AFTER: SaltRule = SaltRule::After;

/// fs-verity: the salt comes before each block, padded with zeros to an input block of the hash function.
pub const PADDED: SaltRule = SaltRule::PaddedBefore;

/// The format, by its rule for salts; the function and the salt; the sizes of a data block and a hash block; the
/// number and the width of a hash block's slots; the number of bytes of data, and of levels above them.
pub type Row = (
    SaltRule,
    Algorithm,
    &'static [u8],
    (u32, u32),
    (usize, usize),
    (usize, usize),
);

/// The input block of FIPS 180-4, figure 1.
fn input_block(algorithm: Algorithm) -> usize
    ensures { 0 < result }
{
    match algorithm {
        Algorithm::Sha1 | Algorithm::Sha224 | Algorithm::Sha256 => 64,
        Algorithm::Sha384 | Algorithm::Sha512 => 128,
    }
}

/// How blocks of no size are hashed with a salt.
pub fn salted_shape(
    alloc: Global,
    algorithm: Algorithm,
    rule: SaltRule,
    salt: &[u8],
) -> Result<Shape, AllocError> {
    let mut shape = Shape::new(alloc, algorithm, (0, 0), (0, 0));
    match rule {
        SaltRule::Before => shape.before = Vec::from_slice(alloc, salt)?,
        SaltRule::After => shape.after = Vec::from_slice(alloc, salt)?,
        SaltRule::PaddedBefore => {
            let width = salt.len().next_multiple_of(input_block(algorithm));
            shape.before = with_zeros(alloc, &[salt], width)?;
        }
    }
    Ok(shape)
}

/// The settings of a format, by its rule for salts. fs-verity has blocks of one size, the second.
pub fn settings(
    rule: SaltRule,
    algorithm: Algorithm,
    salt: &[u8],
    (data_block, hash_block): (u32, u32),
) -> Result<TreeSettings, SettingFault> {
    let hash_type = match rule {
        SaltRule::Before => HashType::Current,
        SaltRule::After => HashType::Original,
        SaltRule::PaddedBefore => return TreeSettings::fsverity(algorithm, salt, hash_block),
    };
    TreeSettings::verity(algorithm, hash_type, salt, data_block, hash_block)
}

/// A row's plan, whose hash area begins after one hash block.
pub fn plan_of(row: &Row) -> Result<Plan, Fail> {
    let settings = settings(row.0, row.1, row.2, row.3)?;
    Ok(Plan::for_bytes(&settings, row.5.0 as u64, 1)?)
}

/// How a row's blocks are hashed and laid out.
fn shape_of(alloc: Global, row: &Row) -> Result<Shape, AllocError> {
    let mut shape = salted_shape(alloc, row.1, row.0, row.2)?;
    (shape.data_block, shape.hash_block) = (row.3.0 as usize, row.3.1 as usize);
    (shape.slots, shape.width) = row.4;
    Ok(shape)
}

/// The root hash of a tree made from plain lists.
pub fn root_of(tree: &Tree) -> Result<Digest, Fail> {
    Ok(Digest::from_bytes(tree.root.as_slice()).ok_or("a root hash")?)
}

/// A row and its plan, whose hash area begins after one hash block; its data, and the tree made from plain lists, with
/// its root hash.
#[derive(Drop)]
pub struct Case {
    pub row: Row,
    pub plan: Plan,
    pub root: Digest,
    pub shape: Shape,
    pub data: Vec<u8>,
    pub tree: Tree,
}

impl Case {
    pub fn new(alloc: Global, row: &Row) -> Result<Case, Fail> {
        let plan = plan_of(row)?;
        let shape = shape_of(alloc, row)?;
        let (size, levels) = row.5;
        let data = data(alloc, size)?;
        let tree = shape.tree(alloc, data.as_slice(), levels)?;
        Ok(Case {
            row: *row,
            plan,
            root: root_of(&tree)?,
            shape,
            data,
            tree,
        })
    }

    /// A device of one hash block of zeros, which stands before the tree.
    pub fn device(&self, alloc: Global) -> Result<MemoryDevice, AllocError> {
        Ok(MemoryDevice::new(vec![in alloc; 0u8; self.shape.hash_block]?))
    }

    /// Whether a device holds the tree after that hash block.
    pub fn is_on(&self, alloc: Global, device: &MemoryDevice) -> Result<bool, AllocError> {
        let expected = self.tree.on_device(alloc, self.shape.hash_block)?;
        Ok(device.bytes() == expected.as_slice())
    }
}
