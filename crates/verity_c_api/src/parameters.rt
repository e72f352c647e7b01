//! What a tree is made by and where it stands, as plain numbers and bytes.

/// Parameters of a dm-verity tree: `struct verity_params` of verity.h. Any numbers may stand in it; each call checks
/// them.
#[repr(C)]
#[derive(Clone, Copy)]
pub struct VerityParams {
    /// The hash function: 1 SHA-256, 2 SHA-512, 3 SHA-1, 4 SHA-224, 5 SHA-384.
    pub hash_algorithm: u32,
    /// dm-verity's hash type, 0 or 1 (cryptsetup's on-disk format page, "dm-verity header").
    pub hash_type: u32,
    /// The size of a data block, in bytes.
    pub data_block_size: u32,
    /// The size of a hash block, in bytes.
    pub hash_block_size: u32,
    /// The number of data blocks.
    pub data_blocks: u64,
    /// The byte of the hash device at which the superblock stands, or without one the tree (veritysetup(8),
    /// `--hash-offset`).
    pub hash_offset: u64,
    /// 0 if a superblock stands at the hash offset; any other number if none does (veritysetup(8), `--no-superblock`).
    pub no_superblock: u32,
    /// How many bytes of `salt` count.
    pub salt_size: u32,
    /// The salt, and bytes that don't count.
    pub salt: [u8; 256],
    /// The UUID, its bytes in the order of its text. Reading a superblock fills it, and writing one looks at it.
    pub uuid: [u8; 16],
}

/// Parameters of a file's fs-verity tree: `struct fsverity_params` of verity.h. Any numbers may stand in it; each call
/// checks them.
#[repr(C)]
#[derive(Clone, Copy)]
pub struct FsverityParams {
    /// The hash function: 1 SHA-256, 2 SHA-512 (Linux kernel, `FS_VERITY_HASH_ALG_*`).
    pub hash_algorithm: u32,
    /// The size of a block, in bytes: data blocks and tree blocks have one size.
    pub block_size: u32,
    /// The size of the file, in bytes; while its tree is built, how many bytes were fed.
    pub size: u64,
    /// How many bytes of `salt` count.
    pub salt_size: u32,
    /// The salt, and bytes that don't count.
    pub salt: [u8; 32],
}
