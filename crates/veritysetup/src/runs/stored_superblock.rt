//! The superblock that a hash device holds.
ghost use Rattle.std.specs.Prelude.{IfErr};
ghost use Rattle.veritysetup.specs.Runs.OnlyRead.{IsOnlyRead};
ghost use Rattle.veritysetup.specs.Runs.StoredSuperblock.{IsSuperblockFault, ReadsSuperblock};

use crate::fault::Fault;
use verity_format::{Superblock, read_superblock};
use verity_io::{Device, Failed};
use verity_plan::SUPERBLOCK_SIZE;

/// Reads the superblock at an offset, in bytes, of a hash device (cryptsetup's on-disk format page).
pub fn stored_superblock<D: Device>(
    device: &mut D,
    offset: u64,
) -> Result<Superblock, Fault<'static>>
    ensures only_read { IsOnlyRead D.tells D.content D.failures device.old device.new result }
    ensures superblock { D.tells device.old → ReadsSuperblock result offset (D.content device.old) }
    ensures possible { IfErr result IsSuperblockFault }
{
    let mut bytes = [0; SUPERBLOCK_SIZE];
    match device.read_at(offset, &mut bytes) {
        Ok(count) => match read_superblock(&bytes[..count]) {
            Ok(superblock) => Ok(superblock),
            Err(fault) => Err(Fault::Superblock(fault)),
        },
        Err(Failed) => Err(Fault::SuperblockUnread),
    }
}
