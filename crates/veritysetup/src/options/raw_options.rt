//! Options as the command line gives them.

/// What format, dump and verify are asked for: the texts of the options and the ROOT of verify, each `None` if it is not
/// given (veritysetup(8)), and whether DATA and HASH are one file.
#[derive(Clone, Copy)]
pub struct RawOptions<'a> {
    /// `--hash`: the name of the hash algorithm. By default sha256.
    pub hash: Option<&'a str>,
    /// `--format`: the hash type. By default 1.
    pub format: Option<&'a str>,
    /// `--data-block-size`: in bytes, by default 4096.
    pub data_block_size: Option<&'a str>,
    /// `--hash-block-size`: in bytes, by default 4096.
    pub hash_block_size: Option<&'a str>,
    /// `--data-blocks`: how many data blocks. By default as many whole blocks as the data has.
    pub data_blocks: Option<&'a str>,
    /// `--salt`: hexadecimal digits, or `-` for no salt. By default random.
    pub salt: Option<&'a str>,
    /// `--uuid`: by default random.
    pub uuid: Option<&'a str>,
    /// `--hash-offset`: the byte at which the hash area begins. By default 0.
    pub hash_offset: Option<&'a str>,
    /// ROOT of verify: the hexadecimal digits of a root hash.
    pub root: Option<&'a str>,
    /// `--no-superblock`: the hash area is the tree alone.
    pub no_superblock: bool,
    /// Whether DATA and HASH are one file.
    pub same_file: bool,
}
