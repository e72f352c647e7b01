//! Hash algorithms as the options name them.
ghost use Rattle.std.specs.Prelude.{◌≡◌, option_copied};
ghost use Rattle.command_line.specs.Options.{algorithm_or_default};

use verity_hash::Algorithm;

/// The algorithm of this name, or SHA-256 if the option is not given (veritysetup(8), `--hash`; fsverity(1),
/// `--hash-alg`). `None` if no algorithm has this name.
pub fn algorithm_or_default(name: Option<&str>) -> Option<Algorithm>
    ensures { result ≡ algorithm_or_default (option_copied name.entry) }
{
    match name {
        Some(name) => Algorithm::from_name(name.as_bytes()),
        None => Some(Algorithm::Sha256),
    }
}
