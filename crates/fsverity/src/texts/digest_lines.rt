//! The line of a file.
ghost use Rattle.std.specs.Prelude.{◌≡◌, IfOk, string_bytes};
ghost use Rattle.hex.specs.Hex.{encode_lower};
ghost use Rattle.verity_format.specs.Descriptors.{formatted_digest};
ghost use Rattle.fsverity.specs.Texts.Lines.{FitsForm, IsFormattable, digest_line};

use std::alloc::{AllocError, Global};
use verity_format::formatted_digest;
use verity_hash::{Algorithm, Digest};

/// How a file's line looks (fsverity(1), "fsverity digest").
#[derive(Clone, Copy, Debug, PartialEq, Eq)]
pub enum Form {
    /// Algorithm name, `:`, hexadecimal file digest, a space, file name.
    Full,
    /// Hexadecimal file digest.
    Compact,
    /// Hexadecimal formatted digest, as a built-in signature signs it, a space, file name.
    Builtin,
    /// Hexadecimal formatted digest.
    CompactBuiltin,
}

/// The line of a file digest, with its newline: hexadecimal digits are in lower case, and the name is left as it is.
/// The error is out of memory. For the forms with a formatted digest, the algorithm must be one of fs-verity's and the
/// digest must have its length.
pub fn digest_line(
    alloc: Global,
    form: Form,
    algorithm: Algorithm,
    digest: &Digest,
    name: &str,
) -> Result<String, AllocError>
    requires { FitsForm form algorithm digest.now }
    ensures { IfOk result (λ text. string_bytes text ≡ digest_line form algorithm digest.now name.now) }
{
    match form {
        Form::Full => {
            let digits = hex::encode(alloc, digest.as_bytes())?;
            let algorithm = algorithm.name();
            format!(in alloc; "{algorithm}:{digits} {name}\n")
        }
        Form::Compact => {
            let digits = hex::encode(alloc, digest.as_bytes())?;
            format!(in alloc; "{digits}\n")
        }
        Form::Builtin => {
            let digits = formatted_digits(alloc, algorithm, digest)?;
            format!(in alloc; "{digits} {name}\n")
        }
        Form::CompactBuiltin => {
            let digits = formatted_digits(alloc, algorithm, digest)?;
            format!(in alloc; "{digits}\n")
        }
    }
}

/// The hexadecimal digits of the formatted digest.
fn formatted_digits(
    alloc: Global,
    algorithm: Algorithm,
    digest: &Digest,
) -> Result<String, AllocError>
    requires { IsFormattable algorithm digest.now }
    ensures { IfOk result (λ text. string_bytes text ≡ encode_lower (formatted_digest algorithm digest.now)) }
{
    match formatted_digest(algorithm, digest) {
        Some(formatted) => hex::encode(alloc, formatted.as_bytes()),
        None => unreachable!(),
    }
}
