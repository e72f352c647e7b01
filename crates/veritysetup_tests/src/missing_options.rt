//! The settings of format if no option is given: the defaults, and random bytes for the salt and the UUID.
use fixtures::same;
use std::test::Fail;
use verity_hash::Algorithm;
use verity_plan::HashType;
use veritysetup::{RawOptions, settings_of};

/// No option is given.
const DEFAULTS: RawOptions<'static> = RawOptions {
    hash: None,
    format: None,
    data_block_size: None,
    hash_block_size: None,
    data_blocks: None,
    salt: None,
    uuid: None,
    hash_offset: None,
    root: None,
    no_superblock: false,
    same_file: false,
};

/// The random bytes 0, 1, .. 47.
const RANDOM: [u8; 48] = [
    0x00, 0x01, 0x02, 0x03, 0x04, 0x05, 0x06, 0x07, 0x08, 0x09, 0x0a, 0x0b, 0x0c, 0x0d, 0x0e, 0x0f,
    0x10, 0x11, 0x12, 0x13, 0x14, 0x15, 0x16, 0x17, 0x18, 0x19, 0x1a, 0x1b, 0x1c, 0x1d, 0x1e, 0x1f,
    0x20, 0x21, 0x22, 0x23, 0x24, 0x25, 0x26, 0x27, 0x28, 0x29, 0x2a, 0x2b, 0x2c, 0x2d, 0x2e, 0x2f,
];

/// The UUID that the last 16 of them stand for.
const UUID: [u8; 16] = [
    0x20, 0x21, 0x22, 0x23, 0x24, 0x25, 0x46, 0x27, 0xa8, 0x29, 0x2a, 0x2b, 0x2c, 0x2d, 0x2e, 0x2f,
];

/// The settings of a file of 8191 bytes, if no option is given.
#[test]
fn random_bytes_stand_for_what_is_missing() -> Result<(), Fail> {
    let settings = settings_of(&DEFAULTS, 8191, Some(&RANDOM))?;
    let plan = settings.plan();
    let tree = plan.settings();
    let kinds = (settings.hash_type(), tree.algorithm());
    same("kinds", kinds, (HashType::Current, Algorithm::Sha256))?;
    let numbers = [
        tree.data_block().into(),
        tree.hash_block().into(),
        plan.blocks(),
        plan.base(),
    ];
    same("numbers", numbers, [4096_u64, 4096, 1, 1])?;
    same("the salt", tree.salt(), &RANDOM[..32])?;
    same("the UUID", settings.uuid(), UUID)
}
