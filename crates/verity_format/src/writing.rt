//! A superblock's bytes.
ghost use Rattle.std.specs.Prelude.{◌≡◌};
ghost use Rattle.verity_format.specs.Superblocks.{superblock_bytes};

use crate::Superblock;
use crate::field_writer::FieldWriter;
use crate::layout::{ALGORITHM_AT, DATA_BLOCK_SIZE_AT};
use verity_plan::SUPERBLOCK_SIZE;

/// The only version that is written and read.
pub(crate) const VERSION: u32 = 1;

/// The 512 bytes of a superblock (cryptsetup's on-disk format page, "dm-verity header"): numbers are little-endian, and
/// what no field covers is zero.
pub fn write_superblock(superblock: &Superblock) -> [u8; SUPERBLOCK_SIZE]
    ensures { result ≡ superblock_bytes superblock.now }
{
    let tree = superblock.tree();
    let salt = tree.salt();
    let mut fields = FieldWriter::new();
    fields.append(b"verity\0\0");
    fields.append_u32(VERSION);
    fields.append_u32(superblock.hash_type().number());
    fields.append(&superblock.uuid());
    fields.append_with_zeros(
        DATA_BLOCK_SIZE_AT - ALGORITHM_AT,
        tree.algorithm().name().as_bytes(),
    );
    fields.append_u32(tree.data_block());
    fields.append_u32(tree.hash_block());
    fields.append_u64(superblock.blocks());
    fields.append_u16(salt.len() as u16);
    fields.append_zeros(6);
    fields.append(salt);
    fields.finish()
}
