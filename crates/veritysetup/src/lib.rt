//! What the program veritysetup does, without the kernel: options, the report, the runs of format, dump and verify, and
//! the program itself over any runtime.
#![tactic(auto)]

mod fault;
pub mod laws;
mod options;
mod program;
mod runs;
mod texts;
mod words;

pub use command_line::{ErasingWriter, LineFault, ShownProgress};
pub use options::hash_offset::offset_of;
pub use options::option_fault::{OptionFault, OptionName};
pub use options::raw_options::RawOptions;
pub use options::settings::{Settings, settings_of};
pub use program::entry::run_program;
pub use program::random_bytes::draw;
pub use runs::dump::run_dump;
pub use runs::format::run_format;
pub use runs::verify::run_verify;
pub use runs::verify_input::VerifyInput;
pub use texts::messages::{build_message, compare_message, option_message, super_message};
pub use texts::reports::{report, report_bare};
pub use words::command_name::CommandName;
pub use words::line::Line;
pub use words::reading::read_words;
