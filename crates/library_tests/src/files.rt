//! Sources and writers over files: a far offset, long reads and many interrupts.
use crate::sparse::{FAR, INTERRUPTS, Sparse};
use fixtures::{data, same};
use std::test::Fail;
use verity_format::put_all;
use verity_io::{FileSource, Source};

#[test]
fn long_reads_of_a_source_are_whole(rt: HostRuntime) -> Result<(), Fail> {
    let alloc = rt.alloc();
    let bytes = data(alloc, 70_000)?;
    let file = Sparse::new(FAR, bytes.to_vec(alloc)?, usize::MAX, 0);
    let mut source = FileSource::new(file, 69_999);
    let mut buf = vec![in alloc; 7u8; 80_000]?;
    let counts = [source.read(&mut buf), source.read(&mut buf)];
    let found = (counts, buf.get(..69_999));
    let expected = ([Ok(69_999), Ok(0)], bytes.get(..69_999));
    same("long reads", found, expected)
}

#[test]
fn an_interrupted_source_reads_again(rt: HostRuntime) -> Result<(), Fail> {
    let alloc = rt.alloc();
    let bytes = data(alloc, 65_536)?;
    let file = Sparse::new(0, bytes.to_vec(alloc)?, 10_000, INTERRUPTS);
    let mut source = FileSource::new(file, 65_536);
    let mut buf = [7; 20_000];
    let found = (source.read(&mut buf), source.failures(), buf.get(..10_000));
    same("a read", found, (Ok(10_000), 0, bytes.get(..10_000)))
}

#[test]
fn an_interrupted_writer_is_tried_again(rt: HostRuntime) -> Result<(), Fail> {
    let alloc = rt.alloc();
    let text = data(alloc, 65_536)?;
    let mut writer = Sparse::new(0, Vec::new(alloc), 10_000, INTERRUPTS);
    let result = put_all(&mut writer, text.as_slice());
    let found = (result, writer.bytes.as_slice());
    same("a text", found, (Ok(()), text.as_slice()))
}
