//! What a command line holds.
ghost use Rattle.std.specs.Prelude.{◌≡◌, map, option_map, option_copied, string_bytes};
ghost use Rattle.veritysetup.specs.Words.RawWords.{root_word};

use crate::{CommandName, RawOptions};
use command_line::text_of;

/// What a command line of `veritysetup` holds, as copies of its own. Each option is `None` if it is not given.
#[derive(Debug, Drop)]
pub struct Line {
    /// The command.
    pub command: CommandName,
    /// The value of `--hash`.
    pub hash: Option<String>,
    /// The value of `--format`.
    pub format: Option<String>,
    /// The value of `--data-block-size`.
    pub data_block_size: Option<String>,
    /// The value of `--hash-block-size`.
    pub hash_block_size: Option<String>,
    /// The value of `--data-blocks`.
    pub data_blocks: Option<String>,
    /// The value of `--salt`.
    pub salt: Option<String>,
    /// The value of `--uuid`.
    pub uuid: Option<String>,
    /// The value of `--hash-offset`.
    pub hash_offset: Option<String>,
    /// Whether `--no-superblock` is given.
    pub no_superblock: bool,
    /// The words beside the options: DATA, HASH and ROOT, those that the command has, in this order.
    pub files: Vec<String>,
}

impl Line {
    /// The texts of the options as they are given, with the ROOT of verify; `same_file` says whether data and hash area
    /// are in one file.
    pub fn raw(&self, same_file: bool) -> RawOptions<'_>
        ensures hash { option_copied result.hash ≡ option_map string_bytes self.now.hash }
        ensures format { option_copied result.format ≡ option_map string_bytes self.now.format }
        ensures data_block_size { option_copied result.data_block_size
            ≡ option_map string_bytes self.now.data_block_size }
        ensures hash_block_size { option_copied result.hash_block_size
            ≡ option_map string_bytes self.now.hash_block_size }
        ensures data_blocks { option_copied result.data_blocks ≡ option_map string_bytes self.now.data_blocks }
        ensures salt { option_copied result.salt ≡ option_map string_bytes self.now.salt }
        ensures uuid { option_copied result.uuid ≡ option_map string_bytes self.now.uuid }
        ensures hash_offset { option_copied result.hash_offset ≡ option_map string_bytes self.now.hash_offset }
        ensures root { option_copied result.root ≡ root_word self.now.command (map string_bytes self.now.files.items) }
        ensures no_superblock { result.no_superblock ≡ self.now.no_superblock }
        ensures same_file { result.same_file ≡ same_file }
    {
        RawOptions {
            hash: text_of(&self.hash),
            format: text_of(&self.format),
            data_block_size: text_of(&self.data_block_size),
            hash_block_size: text_of(&self.hash_block_size),
            data_blocks: text_of(&self.data_blocks),
            salt: text_of(&self.salt),
            uuid: text_of(&self.uuid),
            hash_offset: text_of(&self.hash_offset),
            root: self.root_text(),
            no_superblock: self.no_superblock,
            same_file,
        }
    }

    /// ROOT, the third word of verify.
    fn root_text(&self) -> Option<&str>
        ensures { option_copied result ≡ root_word self.now.command (map string_bytes self.now.files.items) }
    {
        match (self.command, self.files.as_slice()) {
            (CommandName::Verify, [_, _, root]) => Some(root.as_str()),
            _ => None,
        }
    }
}
