//! Borrowed texts of owned strings.
ghost use Rattle.std.specs.Prelude.{◌≡◌, IfOk, map, option_map, option_copied, string_bytes};

use std::alloc::{AllocError, Global};

/// The text of a string, if there is one.
pub fn text_of(text: &Option<String>) -> Option<&str>
    ensures { option_copied result ≡ option_map string_bytes text.now }
{
    match text {
        Some(text) => Some(text.as_str()),
        None => None,
    }
}

/// The texts of some strings, in order. The error is out of memory.
pub fn texts_of<'a>(alloc: Global, words: &'a [String]) -> Result<Vec<&'a str>, AllocError>
    ensures { IfOk result (λ v. map (λ s. s.now) v.items ≡ map string_bytes words.now) }
{
    let mut texts = Vec::new(alloc);
    for word in words {
        texts.push(word.as_str())?;
    }
    Ok(texts)
}
