//! A message of each kind.
use fixtures::same;
use std::alloc::AllocError;
use std::test::Fail;
use verity_format::SuperFault;
use verity_pass::{BuildFault, CompareFault, Part};
use veritysetup::{
    OptionFault, OptionName, build_message, compare_message, option_message, super_message,
};

/// A message has to be this text.
fn check(at: &str, found: Result<String, AllocError>, text: &str) -> Result<(), Fail> {
    same(at, found?.as_str(), text)
}

#[test]
fn messages_are_lines(rt: HostRuntime) -> Result<(), Fail> {
    let alloc = rt.alloc();
    let fault = OptionFault::BadNumber(OptionName::HashOffset);
    let text = "Option --hash-offset is not a number.\n";
    check("an option", option_message(alloc, &fault), text)?;
    let fault = SuperFault::Version(4_294_967_295);
    let text = "Superblock version 4294967295 is not supported.\n";
    check("a superblock", super_message(alloc, &fault), text)?;
    let fault = BuildFault::DeviceFailed { level: 2, block: 7 };
    let text = "Cannot write hash block 7 of level 2.\n";
    check("building", build_message(alloc, &fault), text)?;
    let fault = CompareFault::Differs {
        level: 3,
        block: 45,
        part: Part::Spare,
    };
    let text = "Verification failed: level 3 block 45, spare bytes.\n";
    check("comparing", compare_message(alloc, &fault), text)
}
