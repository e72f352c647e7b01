//! Command lines with every set of options: each is read, and the line holds the values that are given.
use fixtures::{OptionWords, is_in, same};
use fsverity::{Line, read_words};
use std::alloc::{AllocError, Global};
use std::test::Fail;

/// The options with a value.
const OPTIONS: [OptionWords; 5] = [
    ("--hash-alg", "--hash-alg=a1", "a1"),
    ("--block-size", "--block-size=b2", "b2"),
    ("--salt", "--salt=c3", "c3"),
    ("--out-merkle-tree", "--out-merkle-tree=d4", "d4"),
    ("--out-descriptor", "--out-descriptor=e5", "e5"),
];

/// The names of the two files.
const FILES: [&str; 2] = ["one", "two"];

/// The numbers of the options without a value, after the others.
const COMPACT: usize = 5;

const FOR_BUILTIN_SIG: usize = 6;

/// How words are put together: whether options stand in the other order, whether they and their values are one word,
/// and how many of the two files stand before them.
type Layout = (bool, bool, usize);

/// Adds the words of an option.
fn push_option(
    words: &mut Vec<&'static str>,
    number: usize,
    is_one_word: bool,
) -> Result<(), AllocError> {
    match OPTIONS.get(number) {
        Some((_, joined, _)) if is_one_word => words.push(*joined)?,
        Some((name, _, value)) => words.extend_from_slice(&[*name, *value])?,
        None if number == COMPACT => words.push("--compact")?,
        None => words.push("--for-builtin-sig")?,
    }
    Ok(())
}

/// Adds the words of a set of options, by rising numbers if `first` is 0, or by falling ones if it is the last number.
fn push_options(
    words: &mut Vec<&'static str>,
    set: u32,
    first: usize,
    is_one_word: bool,
) -> Result<(), AllocError> {
    for place in 0..=FOR_BUILTIN_SIG {
        let number = place.abs_diff(first);
        if is_in(set, number) {
            push_option(words, number, is_one_word)?;
        }
    }
    Ok(())
}

/// Adds the words of the files and of a set of options.
fn push_words(
    words: &mut Vec<&'static str>,
    set: u32,
    (is_reversed, is_one_word, before): Layout,
) -> Result<(), AllocError> {
    for &file in FILES.iter().take(before) {
        words.push(file)?;
    }
    let first = if is_reversed { FOR_BUILTIN_SIG } else { 0 };
    push_options(words, set, first, is_one_word)?;
    for &file in FILES.iter().skip(before) {
        words.push(file)?;
    }
    Ok(())
}

/// The text of a value, if it is given.
fn text(value: &Option<String>) -> Option<&str> {
    match value {
        Some(value) => Some(value.as_str()),
        None => None,
    }
}

/// The values that a set of options gives.
fn values_in(set: u32) -> [Option<&'static str>; 5] {
    let mut values = [None; 5];
    for (number, value) in values.iter_mut().enumerate() {
        if is_in(set, number) {
            *value = OPTIONS.get(number).map(|(_, _, value)| *value);
        }
    }
    values
}

/// Whether a line has a set of options, and the two files.
fn holds(line: &Line, set: u32) -> bool {
    let values = [
        text(&line.hash_alg),
        text(&line.block_size),
        text(&line.salt),
        text(&line.out_merkle_tree),
        text(&line.out_descriptor),
    ];
    let flags = (line.compact, line.for_builtin_sig);
    let has_files = match line.files.as_slice() {
        [one, two] => one.as_str() == "one" && two.as_str() == "two",
        _ => false,
    };
    values == values_in(set)
        && flags == (is_in(set, COMPACT), is_in(set, FOR_BUILTIN_SIG))
        && has_files
}

/// Whether the words of a command line with a set of options are read as that.
fn is_read(alloc: Global, set: u32, layout: Layout) -> Result<bool, AllocError> {
    let mut words: Vec<&'static str> = vec![in alloc; "fsverity", "digest"]?;
    push_words(&mut words, set, layout)?;
    match read_words(alloc, words.as_slice()) {
        Ok(line) => Ok(holds(&line, set)),
        Err(_) => Ok(false),
    }
}

/// The first layout in which the words of a set of options aren't read as that. Of a set of more than two options only
/// one layout is tried.
fn wrong_layout(alloc: Global, set: u32) -> Result<Option<Layout>, AllocError> {
    let layouts = [
        (false, false, 1),
        (false, true, 0),
        (true, false, 2),
        (true, true, 1),
    ];
    let count = if set.count_ones() > 2 { 1 } else { 4 };
    for &layout in layouts.iter().take(count) {
        if !is_read(alloc, set, layout)? {
            return Ok(Some(layout));
        }
    }
    Ok(None)
}

#[test]
fn every_set_of_options_is_read(rt: HostRuntime) -> Result<(), Fail> {
    for set in 0..128u32 {
        let wrong = wrong_layout(rt.alloc(), set)?;
        same(format_args!("{set:b}"), wrong, None)?;
    }
    Ok(())
}
