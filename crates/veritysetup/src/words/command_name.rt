//! The commands of veritysetup.
ghost use Rattle.std.specs.Prelude.{◌≡◌, ◌≢◌, IfSome, None};
ghost use Rattle.veritysetup.specs.Words.CommandLines.{command_text};

/// A command of `veritysetup` (veritysetup(8)).
#[derive(Clone, Copy, Debug, PartialEq, Eq)]
pub enum CommandName {
    /// `format`.
    Format,
    /// `dump`.
    Dump,
    /// `verify`.
    Verify,
}

ghost use Rattle.veritysetup.specs.declared.words.command_name.CommandName.{CommandName};

impl CommandName {
    /// The command of this name, and `None` if no command has it.
    pub fn from_name(name: &str) -> Option<CommandName>
        ensures named { IfSome result (λ c. command_text c ≡ name.now) }
        ensures unknown { result ≡ None → (c : CommandName) → command_text c ≢ name.now }
    {
        match name {
            "format" => Some(CommandName::Format),
            "dump" => Some(CommandName::Dump),
            "verify" => Some(CommandName::Verify),
            _ => None,
        }
    }
}
