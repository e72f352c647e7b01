//! Command lines with every set of a command's options: each is read, and the line holds the values that are given.
use fixtures::{OptionWords, is_in, same};
use std::alloc::{AllocError, Global};
use std::test::Fail;
use veritysetup::{CommandName, Line, read_words};

/// The options with a value.
const OPTIONS: [OptionWords; 8] = [
    ("--hash", "--hash=a1", "a1"),
    ("--format", "--format=b2", "b2"),
    ("--data-block-size", "--data-block-size=c3", "c3"),
    ("--hash-block-size", "--hash-block-size=d4", "d4"),
    ("--data-blocks", "--data-blocks=e5", "e5"),
    ("--salt", "--salt=f6", "f6"),
    ("--uuid", "--uuid=g7", "g7"),
    ("--hash-offset", "--hash-offset=h8", "h8"),
];

/// The number of an option without a value, after the others.
const NO_SUPERBLOCK: usize = 8;

/// A command, its name and its files, and the numbers of its options.
type Command = (
    CommandName,
    &'static str,
    &'static [&'static str],
    &'static [usize],
);

const COMMANDS: [Command; 3] = [
    (
        CommandName::Format,
        "format",
        &["DATA", "HASH"],
        &[0, 1, 2, 3, 4, 5, 6, 7, NO_SUPERBLOCK],
    ),
    (CommandName::Dump, "dump", &["HASH"], &[7]),
    (
        CommandName::Verify,
        "verify",
        &["DATA", "HASH", "ROOT"],
        &[0, 1, 2, 3, 4, 5, 7, NO_SUPERBLOCK],
    ),
];

/// How words are put together: whether options stand in the other order, whether they and their values are one word,
/// and how many files stand before them.
type Layout = (bool, bool, usize);

/// Adds the words of an option.
fn push_option(
    words: &mut Vec<&'static str>,
    number: usize,
    is_one_word: bool,
) -> Result<(), AllocError> {
    match OPTIONS.get(number) {
        Some((_, joined, _)) if is_one_word => words.push(*joined)?,
        Some((name, _, value)) => words.extend_from_slice(&[*name, *value])?,
        None => words.push("--no-superblock")?,
    }
    Ok(())
}

/// Adds the words of a set of options.
fn push_options(
    words: &mut Vec<&'static str>,
    set: u32,
    (is_reversed, is_one_word, _): Layout,
) -> Result<(), AllocError> {
    for place in 0..=NO_SUPERBLOCK {
        let number = if is_reversed {
            NO_SUPERBLOCK.saturating_sub(place)
        } else {
            place
        };
        if is_in(set, number) {
            push_option(words, number, is_one_word)?;
        }
    }
    Ok(())
}

/// The words of a command line with a set of options.
fn words_of(
    alloc: Global,
    (_, name, files, _): Command,
    set: u32,
    layout: Layout,
) -> Result<Vec<&'static str>, AllocError> {
    let mut words = vec![in alloc; "veritysetup", name]?;
    words.extend_from_slice(files.get(..layout.2).unwrap_or(files))?;
    push_options(&mut words, set, layout)?;
    words.extend_from_slice(files.get(layout.2..).unwrap_or(&[]))?;
    Ok(words)
}

/// The values of a line, in the order of the options.
fn values_of(line: &Line) -> [Option<&str>; 8] {
    let raw = line.raw(false);
    [
        raw.hash,
        raw.format,
        raw.data_block_size,
        raw.hash_block_size,
        raw.data_blocks,
        raw.salt,
        raw.uuid,
        raw.hash_offset,
    ]
}

/// The values that a set of options gives.
fn values_in(set: u32) -> [Option<&'static str>; 8] {
    let mut values = [None; 8];
    for (number, value) in values.iter_mut().enumerate() {
        if is_in(set, number) {
            *value = OPTIONS.get(number).map(|(_, _, value)| *value);
        }
    }
    values
}

/// Whether a line is that of a command with a set of options.
fn holds(line: &Line, command: Command, set: u32) -> bool {
    let has_files = line.files.len() == command.2.len()
        && line
            .files
            .iter()
            .zip(command.2.iter())
            .all(|(file, name)| file.as_str() == *name);
    line.command == command.0
        && has_files
        && values_of(line) == values_in(set)
        && line.no_superblock == is_in(set, NO_SUPERBLOCK)
}

/// Whether the words of a command line with a set of options are read as that.
fn is_read(alloc: Global, command: Command, set: u32, layout: Layout) -> Result<bool, AllocError> {
    let words = words_of(alloc, command, set, layout)?;
    match read_words(alloc, words.as_slice()) {
        Ok(line) => Ok(holds(&line, command, set)),
        Err(_) => Ok(false),
    }
}

/// All layouts with these many files before the options, or only the first if `is_large`. The result is the first in
/// which the words of a set of options aren't read as that.
fn wrong_among(
    alloc: Global,
    command: Command,
    set: u32,
    before: usize,
    is_large: bool,
) -> Result<Option<Layout>, AllocError> {
    let layouts = [
        (false, false, before),
        (false, true, before),
        (true, false, before),
        (true, true, before),
    ];
    for &layout in layouts.iter().take(if is_large { 1 } else { 4 }) {
        if !is_read(alloc, command, set, layout)? {
            return Ok(Some(layout));
        }
    }
    Ok(None)
}

/// The first layout in which the words of a set of options aren't read as that. Of a set of more than two options only
/// one layout is tried.
fn wrong_layout(alloc: Global, command: Command, set: u32) -> Result<Option<Layout>, AllocError> {
    let file_count = command.2.len();
    if set.count_ones() > 2 {
        let before = (set as usize) % file_count.max(1);
        return wrong_among(alloc, command, set, before, true);
    }
    for before in 0..=file_count {
        if let Some(layout) = wrong_among(alloc, command, set, before, false)? {
            return Ok(Some(layout));
        }
    }
    Ok(None)
}

/// The set of options that has those of a command whose places among them are in `places`.
fn set_of(command: Command, places: u32) -> u32 {
    let mut set = 0;
    for (place, number) in command.3.iter().enumerate() {
        if is_in(places, place) {
            set |= 1_u32.wrapping_shl((*number % 32) as u32);
        }
    }
    set
}

#[test]
fn every_set_of_options_is_read(rt: HostRuntime) -> Result<(), Fail> {
    for &command in &COMMANDS {
        for places in 0..1_u32.wrapping_shl((command.3.len() % 32) as u32) {
            let set = set_of(command, places);
            let wrong = wrong_layout(rt.alloc(), command, set)?;
            same(format_args!("{}, {set:b}", command.1), wrong, None)?;
        }
    }
    Ok(())
}
