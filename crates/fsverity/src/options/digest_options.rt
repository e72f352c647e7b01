//! Options as the command line gives them.

/// The texts of the options (fsverity(1), "fsverity digest").
#[derive(Clone, Copy, Debug)]
pub struct DigestOptions<'a> {
    /// The hash algorithm's name; `None` means sha256.
    pub hash_alg: Option<&'a str>,
    /// The block size in bytes, in decimal; `None` means 4096.
    pub block_size: Option<&'a str>,
    /// The salt in hexadecimal; `None` means an empty salt.
    pub salt: Option<&'a str>,
    /// How many input files there are.
    pub files: usize,
    /// Whether an output file is named, for the tree or for the descriptor.
    pub out_files: bool,
}
