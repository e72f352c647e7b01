//! Numbers in the texts of options.
ghost use Rattle.std.specs.Prelude.{◌≡◌, option_copied};
ghost use Rattle.command_line.specs.Options.{number_of, number_or};

/// The size of a block in bytes if none is given (veritysetup(8), `--data-block-size`; fsverity(1), `--block-size`).
pub const DEFAULT_BLOCK_SIZE: u64 = 4096;

/// The number that a text of ASCII digits stands for, such as a block size in bytes (veritysetup(8),
/// `--data-block-size`; fsverity(1), `--block-size`): one digit or more, leading zeros allowed, no sign. `None` if the
/// text is anything else, or if the number is 2 to the 64 or more.
pub fn read_number(text: &str) -> Option<u64>
    ensures { result ≡ number_of text.now }
{
    if text.starts_with('+') {
        return None;
    }
    text.parse().ok()
}

/// The number of an option, or its default if the option is not given. `None` if its text is not a number.
pub fn number_or(default: u64, text: Option<&str>) -> Option<u64>
    ensures { result ≡ number_or default (option_copied text.entry) }
{
    match text {
        Some(text) => read_number(text),
        None => Some(default),
    }
}
