//! What FileDevice makes of the system's answer to a sync.
use crate::sparse::Sparse;
use fixtures::same;
use std::fs::{Metadata, OpenFile};
use std::io;
use std::io::ErrorKind;
use std::test::Fail;
use verity_io::FileDevice;

/// Only a sync of the whole file gives its answer. Nothing else can be asked.
impl OpenFile for Sparse {
    fn metadata(&self) -> io::Result<Metadata> {
        Err(io::Error::from(ErrorKind::Unsupported))
    }

    fn set_len(&self, _size: u64) -> io::Result<()> {
        Err(io::Error::from(ErrorKind::Other))
    }

    fn sync_all(&self) -> io::Result<()> {
        match self.sync_error {
            Some(kind) => Err(io::Error::from(kind)),
            None => Ok(()),
        }
    }

    fn sync_data(&self) -> io::Result<()> {
        Err(io::Error::from(ErrorKind::Other))
    }
}

/// Answers of the system, and whether they are passed over: the kinds of errors that say that a file can't be synced
/// are, and no others.
const ANSWERS: [(Option<ErrorKind>, bool); 7] = [
    (None, true),
    (Some(ErrorKind::ReadOnlyFilesystem), true),
    (Some(ErrorKind::InvalidInput), true),
    (Some(ErrorKind::Unsupported), true),
    (Some(ErrorKind::StorageFull), false),
    (Some(ErrorKind::Interrupted), false),
    (Some(ErrorKind::Other), false),
];

#[test]
fn a_refused_sync_is_a_failure(rt: HostRuntime) -> Result<(), Fail> {
    for &(error, passed_over) in &ANSWERS {
        let mut file = Sparse::new(0, Vec::new(rt.alloc()), 1, 0);
        file.sync_error = error;
        let device = FileDevice::new(file);
        same(
            format_args!("{error:?}"),
            device.sync().is_ok(),
            passed_over,
        )?;
    }
    Ok(())
}
