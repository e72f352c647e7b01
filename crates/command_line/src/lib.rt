//! What the two programs share: the texts of options and their defaults, the words of the command line, the arguments
//! that clap reads, the writing of texts and messages, the opening of files, and the progress of long work.
#![tactic(auto)]

mod files;
mod options;
mod progress;
mod words;
mod writing;

pub use files::identity::{
    FileIdentity, Identities, StatFields, are_same_file, paths_are_same_file,
};
pub use files::opening::{
    MeasuredFile, OpenedFile, is_folder, open_measured, open_readable, open_truncated,
    open_writable,
};
pub use files::placeholders::{NULL_DEVICE, Placeholders};
pub use options::algorithms::algorithm_or_default;
pub use options::numbers::{DEFAULT_BLOCK_SIZE, number_or, read_number};
pub use options::salts::read_salt;
pub use progress::progress_reader::ProgressReader;
pub use progress::progress_runtime::ProgressRuntime;
pub use progress::shown_progress::{ErasingWriter, ShownProgress};
pub use words::arguments::{Argument, CommandTable, program};
pub use words::borrowed::{text_of, texts_of};
pub use words::copies::{copied_value, copied_values, is_given};
pub use words::line_fault::LineFault;
pub use words::system_words::{WordsFault, given_words, not_utf8_message};
pub use writing::messages::{write_message, write_pieces, write_text};
pub use writing::print_fault::{PrintFault, write_whole};
