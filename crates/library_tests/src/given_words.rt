//! Words of the system, many and long, with ample memory.
use command_line::{WordsFault, given_words, texts_of};
use fixtures::same;
use memory_runtime::{Disk, MemoryRuntime};
use std::alloc::{AllocError, Global};
use std::test::Fail;

/// The number of the words that are given of a command line, and the words with a space between two.
fn given_line(alloc: Global, line: &str) -> Result<(usize, String), Fail> {
    let disk = Disk::new(alloc);
    let given = given_words(&MemoryRuntime::new(alloc, &disk, line))?;
    let texts = texts_of(alloc, given.as_slice())?;
    Ok((given.len(), texts.as_slice().join(alloc, " ")?))
}

#[test]
fn as_many_words_are_given_as_there_are(rt: HostRuntime) -> Result<(), Fail> {
    let alloc = rt.alloc();
    let mut line = String::from_str(alloc, "program")?;
    for number in 1..2001usize {
        write!(line, " w{number}")?;
    }
    same("the line", given_line(alloc, line.as_str())?, (2001, line))
}

#[test]
fn a_word_of_100000_bytes_is_given_whole(rt: HostRuntime) -> Result<(), Fail> {
    let alloc = rt.alloc();
    let long = "0123456789".repeat(alloc, 10_000)?;
    let line = format!(in alloc; "program {long} '' after")?;
    let disk = Disk::new(alloc);
    let given = given_words(&MemoryRuntime::new(alloc, &disk, line.as_str()))?;
    let texts = texts_of(alloc, given.as_slice())?;
    let expected = ["program", long.as_str(), "", "after"];
    same("a long word", texts.as_slice(), expected.as_slice())
}

/// Some numbered words.
fn numbered(alloc: Global, count: usize) -> Result<Vec<String>, AllocError> {
    let mut words = Vec::new(alloc);
    for number in 0..count {
        words.push(format!(in alloc; "word {number}")?)?;
    }
    Ok(words)
}

/// Words of each length from 0 on.
fn of_each_length(alloc: Global, count: usize) -> Result<Vec<String>, AllocError> {
    let mut words = Vec::new(alloc);
    let mut word = String::new(alloc);
    for length in 0..count {
        words.push(String::from_str(alloc, word.as_str())?)?;
        let digit = (length % 10) as u8;
        word.push(char::from(b'0'.saturating_add(digit)))?;
    }
    Ok(words)
}

/// The words that are given of a command line of the program's name and these words.
fn given<'a>(
    alloc: Global,
    disk: &'a Disk,
    words: &'a [String],
) -> Result<Vec<String>, WordsFault> {
    let mut runtime = MemoryRuntime::new(alloc, disk, "program");
    runtime.more_words = words;
    given_words(&runtime)
}

/// Compares the words that are given after the program's name with these.
fn compare_words(alloc: Global, words: &[String]) -> Result<(), Fail> {
    let disk = Disk::new(alloc);
    let given = given(alloc, &disk, words)?;
    for (number, word) in words.iter().enumerate() {
        same(number, given.get(number.saturating_add(1)), Some(word))?;
    }
    same("the end", given.len(), words.len().saturating_add(1))
}

/// More than Linux gives to a program: words have 6 MiB at most, and one takes 9 bytes or more (execve(2), "Limits on
/// size of arguments and environment").
const MORE_THAN_GIVEN: usize = 700_000;

#[test]
fn as_many_words_are_given_as_linux_gives(rt: HostRuntime) -> Result<(), Fail> {
    let alloc = rt.alloc();
    let words = numbered(alloc, MORE_THAN_GIVEN)?;
    same("the words", words.len(), MORE_THAN_GIVEN)?;
    compare_words(alloc, words.as_slice())
}

/// Among them words that fill 256, 512, 1024, 2048 and 4096 bytes.
#[test]
fn words_of_each_length_are_given_whole(rt: HostRuntime) -> Result<(), Fail> {
    let alloc = rt.alloc();
    let words = of_each_length(alloc, 4_100)?;
    let longest = words.last().map(String::len);
    same("the longest", longest, Some(4_099))?;
    compare_words(alloc, words.as_slice())
}
