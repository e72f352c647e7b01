//! Each fault of fsverity in turn.
use crate::fsverity_commands::{Form, Named, Outputs, Setup};
use memory_runtime::Call;
use std::test::Fail;
use verity_hash::Algorithm;

const SHORT: Setup = Setup {
    options: "--block-size 512",
    algorithm: Algorithm::Sha256,
    block: 512,
    slots: (16, 32),
    salt: b"",
    input_block: 0,
    head: [1, 1, 9, 0],
    before: "sha256:",
    before_signed: "465356657269747901002000",
};

const LONG: Setup = Setup {
    options: "--hash-alg sha512 --block-size 128 --salt abcd",
    algorithm: Algorithm::Sha512,
    block: 128,
    slots: (2, 64),
    salt: b"\xab\xcd",
    input_block: 128,
    head: [1, 2, 7, 2],
    before: "sha512:",
    before_signed: "465356657269747902004000",
};

const WITH_NAME: Form = ("", true, false);

const COMPACT: Form = (" --compact", false, false);

const SIGNED: Form = (" --for-builtin-sig", true, true);

const COMPACT_SIGNED: Form = (" --compact --for-builtin-sig", false, true);

/// An empty file, which has no tree.
const EMPTY: Named = Named {
    name: "empty",
    length: 0,
    levels: 0,
};

/// A file of 17 blocks of 512 bytes and 100 bytes more, with a tree of such blocks.
const LARGE: Named = Named {
    name: "large",
    length: 8804,
    levels: 2,
};

/// A file of a block of 512 bytes and a byte, with a tree of such blocks.
const TWO: Named = Named {
    name: "two",
    length: 513,
    levels: 1,
};

/// A file of 17 blocks of 128 bytes and five bytes, with a tree of such blocks.
const DEEP: Named = Named {
    name: "deep",
    length: 2181,
    levels: 5,
};

/// A setup and files, without output files.
const ALONE: [(&'static Setup, &'static [Named]); 2] = [
    (&SHORT, &[EMPTY, LARGE, TWO]),
    (&LONG, &[DEEP]),
];

/// A setup and a file, with output files.
const WITH_OUTPUTS: [(&'static Setup, Named); 3] = [
    (&SHORT, EMPTY),
    (&SHORT, LARGE),
    (&LONG, DEEP),
];

/// The output files, and a form.
const OUTPUTS: [(Outputs, Form); 3] = [
    ((true, true), WITH_NAME),
    ((true, false), COMPACT),
    ((false, true), SIGNED),
];

#[test]
fn each_fault_of_digest_is_answered(rt: HostRuntime) -> Result<(), Fail> {
    for form in &[WITH_NAME, COMPACT, SIGNED, COMPACT_SIGNED] {
        for (setup, files) in &ALONE {
            setup.try_digest(rt.alloc(), *form, files, (false, false), Call::Read)?;
        }
    }
    Ok(())
}

#[test]
fn each_fault_with_output_files_is_answered(rt: HostRuntime) -> Result<(), Fail> {
    for (outputs, form) in &OUTPUTS {
        for (setup, file) in &WITH_OUTPUTS {
            setup.try_digest(rt.alloc(), *form, &[*file], *outputs, Call::Seek)?;
        }
    }
    Ok(())
}
