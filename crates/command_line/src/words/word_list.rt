//! Lists of words that are read one after another.
ghost use Rattle.std.specs.Prelude.{◌≡◌, List, IfErr, IfOk, map, option_map, slice_get, string_bytes, ℕ};
ghost use Rattle.command_line.specs.SystemWords.{IsNotUtf8, IsRefusedIn};

use crate::WordsFault;
use std::alloc::{AllocError, Global};

/// Words that can be asked for by their numbers. A contract knows them if the list tells them; that of the system
/// doesn't.
pub(crate) trait WordList {
    /// Whether the words are told.
    ghost tells: { Self → Type 0 };

    /// The bytes of each word, if they are told.
    ghost words: { Self → List (List ℕ) };

    /// The bytes of the word of this number, and `None` after the last word. The error is out of memory.
    fn word(&self, alloc: Global, number: usize) -> Result<Option<Vec<u8>>, AllocError>
        ensures { tells self.now → IfOk result (λ word.
            option_map (λ bytes. bytes.items) word ≡ slice_get (words self.now) number) };
}

/// All words of a list, in order, or why they can't be read: the first one that is not UTF-8, or out of memory.
pub(crate) fn all_words<L: WordList>(alloc: Global, list: &L) -> Result<Vec<String>, WordsFault>
    ensures refused { IfErr result IsNotUtf8 }

    // The words are all of the list's, and a word that is refused is the one of its number in the list.
    ensures whole { L.tells list.now → IfOk result (λ words. map string_bytes words.items ≡ L.words list.now) }
    ensures refused_at { L.tells list.now → IfErr result (IsRefusedIn (L.words list.now)) }
{
    let mut words = Vec::new(alloc);
    for number in 0..usize::MAX {
        match list.word(alloc, number)? {
            Some(bytes) => match String::from_utf8(bytes) {
                Ok(word) => {
                    if words.push(word).is_err() {
                        return Err(WordsFault::Memory);
                    }
                }
                Err(error) => return Err(WordsFault::NotUtf8(number, error.into_bytes())),
            },
            None => return Ok(words),
        }
    }
    Err(WordsFault::Memory)
}
