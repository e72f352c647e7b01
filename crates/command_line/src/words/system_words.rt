//! The words of the command line, as the system gives them.
ghost use Rattle.std.specs.Prelude.{◌≡◌, ◌++◌, [], IfErr, IfOk, OnOk, string_bytes};
ghost use Rattle.std.specs.List.{flat_map};
ghost use Rattle.command_line.specs.SystemWords.{IsNotUtf8, not_utf8_message, escaped_byte};

use crate::words::word_list::{WordList, all_words};
use std::alloc::{AllocError, AllocGlobal, Global};
use std::env::{Env, FillError};

/// Why the words of the command line can't be read.
#[derive(Debug, Drop)]
pub enum WordsFault {
    /// A word is not UTF-8: its number, counted from the program's name with number 0, and its bytes.
    NotUtf8(usize, Vec<u8>),
    /// There was not enough memory.
    Memory,
}

ghost use Rattle.command_line.specs.declared.words.system_words.WordsFault.TheVariants.{Memory};

impl From<AllocError> for WordsFault {
    ghost from_gives = { λ _ fault. fault ≡ Memory };

    fn from(_: AllocError) -> WordsFault {
        WordsFault::Memory
    }
}

/// The words of the command line as a runtime gives them. No contract knows them.
#[derive(Drop)]
struct SystemWords<'a, R> {
    rt: &'a R,
}

impl<'a, R: Env> WordList for SystemWords<'a, R> {
    ghost tells = { λ _. ⊥ };

    ghost words = { λ _. [] };

    /// The buffer grows until the word fits, and is then cut to the word's length.
    fn word(&self, alloc: Global, number: usize) -> Result<Option<Vec<u8>>, AllocError> {
        let mut bytes = Vec::new(alloc);
        let mut length = 256usize;
        for _ in 0..usize::BITS {
            bytes.resize(length, 0)?;
            match self.rt.arg(number, bytes.as_mut_slice()) {
                Ok(count) => {
                    bytes.truncate(count);
                    bytes.shrink_to_fit();
                    return Ok(Some(bytes));
                }
                Err(FillError::NotPresent) => return Ok(None),
                Err(FillError::TooLong) => length = length.saturating_mul(2),
            }
        }
        Err(AllocError)
    }
}

/// The words of the command line, the program's name first, or why they can't be read: the first one that is not
/// UTF-8, or out of memory.
pub fn given_words<R: Env + AllocGlobal>(rt: &R) -> Result<Vec<String>, WordsFault>
    ensures { IfErr result IsNotUtf8 }
{
    all_words(rt.alloc(), &SystemWords { rt })
}

/// The message for a word that is not UTF-8: its number, counted from the program's name with number 0, and its bytes,
/// escaped: a byte that is not printable ASCII as two hexadecimal digits, as in `\xff`, and a backslash as two. The
/// error is out of memory.
pub fn not_utf8_message(alloc: Global, number: usize, word: &[u8]) -> Result<String, AllocError>
    ensures { IfOk result (λ s. string_bytes s ≡ not_utf8_message number word.now) }
{
    let escaped = escaped_word(alloc, word)?;
    format!(in alloc; "error: argument {number} is not UTF-8: {escaped}\n")
}

/// The bytes of a word, escaped.
fn escaped_word(alloc: Global, word: &[u8]) -> Result<String, AllocError>
    ensures { IfOk result (λ s. string_bytes s ≡ flat_map escaped_byte word.now) }
{
    let mut escaped = String::new(alloc);
    for byte in word {
        push_escaped(alloc, *byte, &mut escaped)?;
    }
    Ok(escaped)
}

/// Adds a byte, escaped.
fn push_escaped(alloc: Global, byte: u8, escaped: &mut String) -> Result<(), AllocError>
    ensures { OnOk result (string_bytes escaped.new ≡ string_bytes escaped.old ++ escaped_byte byte) }
{
    match byte {
        b'\\' => escaped.push_str("\\\\"),
        b' '..=b'~' => escaped.push(char::from(byte)),
        _ => {
            let digits = hex::encode(alloc, [byte])?;
            escaped.push_str("\\x")?;
            escaped.push_str(digits.as_str())
        }
    }
}
