//! Texts and messages of any length, for writers that are slow or soon full.
use command_line::{PrintFault, write_message, write_pieces, write_text, write_whole};
use fixtures::{LimitedWriter, same};
use std::test::Fail;

#[test]
fn long_texts_are_told_whole(rt: HostRuntime) -> Result<(), Fail> {
    let alloc = rt.alloc();
    let text = "0123456789abcdef".repeat(alloc, 4096)?;
    let copy = String::from_str(alloc, text.as_str());
    let twice = text.as_str().repeat(alloc, 2)?;
    let mut msgs = LimitedWriter::new(Vec::new(alloc), 131_072, 1000);
    let results = [
        write_text(text.as_str(), &mut msgs),
        write_message(copy, &mut msgs),
    ];
    let found = (results, msgs.bytes.as_slice());
    same("long texts", found, ([true; 2], twice.as_bytes()))
}

#[test]
fn pieces_are_told_in_order(rt: HostRuntime) -> Result<(), Fail> {
    let alloc = rt.alloc();
    let path = "a/ü".repeat(alloc, 1024)?;
    let text = format!(in alloc; "Cannot open {path}.\n")?;
    let pieces = ["Cannot open ", path.as_str(), ".\n"];
    for &(room, whole) in &[(4110, true), (4109, false), (12, false)] {
        let mut msgs = LimitedWriter::new(Vec::new(alloc), room, 1000);
        let is_whole = write_pieces(&pieces, &mut msgs);
        let found = (is_whole, Some(msgs.bytes.as_slice()));
        same(room, found, (whole, text.as_bytes().get(..room)))?;
    }
    Ok(())
}

#[test]
fn long_texts_are_printed_whole(rt: HostRuntime) -> Result<(), Fail> {
    let alloc = rt.alloc();
    let text = "0123456789abcdef".repeat(alloc, 4096)?;
    for &(room, result) in &[
        (65_536, Ok(())),
        (65_535, Err(PrintFault::Output(65_535))),
        (0, Err(PrintFault::Output(0))),
    ] {
        let mut out = LimitedWriter::new(Vec::new(alloc), room, 1000);
        let copy = String::from_str(alloc, text.as_str());
        let found = (write_whole(copy, &mut out), Some(out.bytes.as_slice()));
        same(room, found, (result, text.as_bytes().get(..room)))?;
    }
    Ok(())
}
