//! Where a superblock's fields begin, in bytes (cryptsetup's on-disk format page, "dm-verity header").

pub(crate) const VERSION_AT: usize = 8;

pub(crate) const HASH_TYPE_AT: usize = 12;

pub(crate) const UUID_AT: usize = 16;

pub(crate) const ALGORITHM_AT: usize = 32;

pub(crate) const DATA_BLOCK_SIZE_AT: usize = 64;

pub(crate) const HASH_BLOCK_SIZE_AT: usize = 68;

pub(crate) const DATA_BLOCKS_AT: usize = 72;

pub(crate) const SALT_SIZE_AT: usize = 80;

pub(crate) const SALT_AT: usize = 88;
