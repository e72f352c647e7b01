//! Why options are refused.
ghost use Rattle.std.specs.Prelude.{◌≡◌};
ghost use Rattle.veritysetup.specs.Texts.Messages.{option_name};

/// An option that takes a number.
#[derive(Clone, Copy, Debug, PartialEq, Eq)]
pub enum OptionName {
    /// `--format`.
    Format,
    /// `--data-block-size`.
    DataBlockSize,
    /// `--hash-block-size`.
    HashBlockSize,
    /// `--data-blocks`.
    DataBlocks,
    /// `--hash-offset`.
    HashOffset,
}

impl OptionName {
    /// The long name without its dashes.
    pub fn name(self) -> &'static str
        ensures { result.now ≡ option_name self }
    {
        match self {
            OptionName::Format => "format",
            OptionName::DataBlockSize => "data-block-size",
            OptionName::HashBlockSize => "hash-block-size",
            OptionName::DataBlocks => "data-blocks",
            OptionName::HashOffset => "hash-offset",
        }
    }
}

/// The first reason for which options are refused.
#[derive(Clone, Copy, Debug, PartialEq, Eq)]
pub enum OptionFault {
    /// The option is no number.
    BadNumber(OptionName),
    /// No known hash algorithm has this name.
    UnknownHash,
    /// The hash type is neither 0 nor 1.
    BadHashType,
    /// The block size is no power of two from 512 to 524288.
    BadBlockSize(OptionName),
    /// The text is no salt, or there is none and there are no random bytes.
    BadSalt,
    /// The text is no UUID.
    BadUuid,
    /// The hash offset is no multiple of 512, or without a superblock none of the hash block size.
    BadHashOffset,
    /// The data holds no whole block, or none is wanted.
    NoData,
    /// The data area or the hash area is larger than 2^63 - 1 bytes.
    TooLarge,
    /// Data and hash area are in one file, and the hash area begins within the covered data.
    Overlap,
    /// The root hash is no digest of the hash algorithm in hexadecimal digits.
    BadRoot,
}
