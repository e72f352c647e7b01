//! How the program and its commands are used.

use crate::CommandName;

/// The usage text if no command is known.
pub(crate) const USAGE: &str = "veritysetup format [options] DATA HASH
       veritysetup dump [--hash-offset BYTES] HASH
       veritysetup verify [options] DATA HASH ROOT";

/// The usage text of `format`.
pub(crate) const FORMAT_USAGE: &str =
    "veritysetup format [--hash NAME] [--format TYPE] [--data-block-size BYTES]
           [--hash-block-size BYTES] [--data-blocks NUMBER] [--salt HEX] [--uuid UUID]
           [--hash-offset BYTES] [--no-superblock] DATA HASH";

/// The usage text of `dump`.
pub(crate) const DUMP_USAGE: &str = "veritysetup dump [--hash-offset BYTES] HASH";

/// The usage text of `verify`.
pub(crate) const VERIFY_USAGE: &str =
    "veritysetup verify [--hash NAME] [--format TYPE] [--data-block-size BYTES]
           [--hash-block-size BYTES] [--data-blocks NUMBER] [--salt HEX]
           [--hash-offset BYTES] [--no-superblock] DATA HASH ROOT";

/// The usage text of the command that a command line names, or of all commands if it names none.
pub(crate) fn usage_of(words: &[&str]) -> &'static str {
    match words.get(1) {
        Some(name) => match CommandName::from_name(name) {
            Some(CommandName::Format) => FORMAT_USAGE,
            Some(CommandName::Dump) => DUMP_USAGE,
            Some(CommandName::Verify) => VERIFY_USAGE,
            None => USAGE,
        },
        None => USAGE,
    }
}
