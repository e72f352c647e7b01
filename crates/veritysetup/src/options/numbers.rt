//! The options that are numbers.
ghost use Rattle.std.specs.Prelude.{◌≡◌, option_map};
ghost use Rattle.veritysetup.specs.Options.OptionTexts.{number_if_given, number_option};

use crate::options::option_fault::{OptionFault, OptionName};
use command_line::{number_or, read_number};

/// The number of an option, by default the one that is passed; or that the option is no number.
pub fn number_option(name: OptionName, default: u64, text: Option<&str>) -> Result<u64, OptionFault>
    ensures { result ≡ number_option name default (option_map (λ t. t.now) text.entry) }
{
    number_or(default, text).ok_or(OptionFault::BadNumber(name))
}

/// The number of an option that may be missing, or `None` if the option is no number.
pub fn number_if_given(text: Option<&str>) -> Option<Option<u64>>
    ensures { result ≡ number_if_given (option_map (λ t. t.now) text.entry) }
{
    match text {
        Some(text) => match read_number(text) {
            Some(number) => Some(Some(number)),
            None => None,
        },
        None => Some(None),
    }
}
