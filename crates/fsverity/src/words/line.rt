//! Command lines.
ghost use Rattle.std.specs.Prelude.{◌≡◌, ◌||◌, is_some, length, option_map, option_copied, string_bytes};
ghost use Rattle.fsverity.specs.Texts.Lines.{form_of};

use crate::{DigestOptions, Form};
use command_line::text_of;

/// A command line of `fsverity digest`: copies of what its words say.
#[derive(Debug, Drop)]
pub struct Line {
    /// The value of `--hash-alg`.
    pub hash_alg: Option<String>,
    /// The value of `--block-size`.
    pub block_size: Option<String>,
    /// The value of `--salt`.
    pub salt: Option<String>,
    /// Whether `--compact` is given.
    pub compact: bool,
    /// Whether `--for-builtin-sig` is given.
    pub for_builtin_sig: bool,
    /// The value of `--out-merkle-tree`, the name of the tree's file.
    pub out_merkle_tree: Option<String>,
    /// The value of `--out-descriptor`, the name of the descriptor's file.
    pub out_descriptor: Option<String>,
    /// The names of the files, in order.
    pub files: Vec<String>,
}

impl Line {
    /// The texts of the options, the number of files, and whether an output file is named.
    pub fn options(&self) -> DigestOptions<'_>
        ensures hash_alg { option_copied result.hash_alg ≡ option_map string_bytes self.now.hash_alg }
        ensures block_size { option_copied result.block_size ≡ option_map string_bytes self.now.block_size }
        ensures salt { option_copied result.salt ≡ option_map string_bytes self.now.salt }
        ensures files { result.files ≡ length self.now.files.items }
        ensures out_files { result.out_files
            ≡ (is_some self.now.out_merkle_tree || is_some self.now.out_descriptor) }
    {
        DigestOptions {
            hash_alg: text_of(&self.hash_alg),
            block_size: text_of(&self.block_size),
            salt: text_of(&self.salt),
            files: self.files.len(),
            out_files: self.out_merkle_tree.is_some() || self.out_descriptor.is_some(),
        }
    }

    /// The form of the lines that are printed.
    pub fn form(&self) -> Form
        ensures { result ≡ form_of self.now.compact self.now.for_builtin_sig }
    {
        match (self.compact, self.for_builtin_sig) {
            (false, false) => Form::Full,
            (true, false) => Form::Compact,
            (false, true) => Form::Builtin,
            (true, true) => Form::CompactBuiltin,
        }
    }
}
