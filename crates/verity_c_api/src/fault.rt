//! Why a call of the library for C has no answer but its status.
ghost use Rattle.std.specs.Prelude.{◌≡◌, Ok};
ghost use Rattle.verity_c_api.specs.Statuses.{fault_of_feed, fault_of_plan, fault_of_setting, fault_of_superblock};
ghost use Rattle.verity_c_api.specs.Statuses.{fault_status, link_status, path_status};
ghost use Rattle.verity_c_api.specs.Texts.{fault_numbered, text_of_fault};

use verity_builders::FeedFault;
use verity_format::SuperFault;
use verity_pass::{LinkFault, PathFault};
use verity_plan::{PlanFault, SettingFault};

/// The status of a call that has done what it is for.
pub const DONE: i32 = 0;

/// Why a call has not done what it is for; each has a status of its own in verity.h.
#[derive(Clone, Copy, Debug, PartialEq, Eq)]
pub enum Fault {
    /// A block is not the one that the digest above it, or the root hash, stands for; or parameters aren't the trusted
    /// ones.
    Differs,
    /// There is no data block of this number.
    Index,
    /// The tree has no level of this number, or a struct counts more levels than can have closed, or that of a join
    /// none after the last digest.
    Level,
    /// A block, a path, a digest, the memory or a buffer has the wrong length.
    Length,
    /// The root hash, or the buffer for it, is not as long as a digest of the hash function.
    Root,
    /// The hash function is not known.
    Algorithm,
    /// The hash type is not 0 or 1.
    HashType,
    /// The data block size, or fs-verity's block size, is past its limits.
    DataBlockSize,
    /// The hash block size is past its limits.
    HashBlockSize,
    /// The salt is too long.
    SaltSize,
    /// The hash offset is no multiple of what it has to be.
    HashOffset,
    /// There is no data block.
    NoData,
    /// The data or the hash area would have more than 2^63 - 1 bytes.
    TooLarge,
    /// There are fewer bytes than a superblock has.
    Short,
    /// The bytes don't begin as a superblock does.
    Signature,
    /// The superblock is of another version.
    Version,
    /// There are more bytes than the parameters say, or more digests than parts.
    TooLong,
    /// There are fewer bytes than the parameters say, or fewer digests than parts.
    TooShort,
    /// A hash block is still to be handed out, or the rest of a piece to be fed.
    Waiting,
    /// The level has no part of this number.
    Part,
}

impl Fault {
    /// Its status in verity.h: a negative number.
    pub fn status(self) -> i32
        ensures { result ≡ fault_status self }
    {
        match self {
            Fault::Differs => -1,
            Fault::Index => -2,
            Fault::Level => -3,
            Fault::Length => -4,
            Fault::Root => -5,
            Fault::Algorithm => -6,
            Fault::HashType => -7,
            Fault::DataBlockSize => -8,
            Fault::HashBlockSize => -9,
            Fault::SaltSize => -10,
            Fault::HashOffset => -11,
            Fault::NoData => -12,
            Fault::TooLarge => -13,
            Fault::Short => -14,
            Fault::Signature => -15,
            Fault::Version => -16,
            Fault::TooLong => -17,
            Fault::TooShort => -18,
            Fault::Waiting => -19,
            Fault::Part => -20,
        }
    }

    /// The fault whose status in verity.h is minus this number, if there is one.
    pub fn numbered(number: u32) -> Option<Fault>
        ensures { result ≡ fault_numbered number }
    {
        match number {
            1 => Some(Fault::Differs),
            2 => Some(Fault::Index),
            3 => Some(Fault::Level),
            4 => Some(Fault::Length),
            5 => Some(Fault::Root),
            6 => Some(Fault::Algorithm),
            7 => Some(Fault::HashType),
            8 => Some(Fault::DataBlockSize),
            9 => Some(Fault::HashBlockSize),
            10 => Some(Fault::SaltSize),
            11 => Some(Fault::HashOffset),
            12 => Some(Fault::NoData),
            13 => Some(Fault::TooLarge),
            14 => Some(Fault::Short),
            15 => Some(Fault::Signature),
            16 => Some(Fault::Version),
            17 => Some(Fault::TooLong),
            18 => Some(Fault::TooShort),
            19 => Some(Fault::Waiting),
            20 => Some(Fault::Part),
            _ => None,
        }
    }

    /// What it is, in words.
    pub fn text(self) -> &'static str
        ensures { result.now ≡ text_of_fault self }
    {
        match self {
            Fault::Differs => "block, root hash or parameters differ",
            Fault::Index => "no such data block",
            Fault::Level => "no such level",
            Fault::Length => "wrong length of a block, path, digest, memory or buffer",
            Fault::Root => "wrong length of the root hash",
            Fault::Algorithm => "unknown hash algorithm, or not one of fs-verity",
            Fault::HashType => "unknown hash type",
            Fault::DataBlockSize => "invalid data block size",
            Fault::HashBlockSize => "invalid hash block size",
            Fault::SaltSize => "invalid salt size",
            Fault::HashOffset => "invalid hash offset",
            Fault::NoData => "no data blocks",
            Fault::TooLarge => "data or hash area too large",
            Fault::Short => "fewer bytes than a superblock has",
            Fault::Signature => "no superblock signature",
            Fault::Version => "unknown superblock version",
            Fault::TooLong => "more data than the parameters say",
            Fault::TooShort => "less data than the parameters say",
            Fault::Waiting => "a hash block, or the rest of a piece, is still to come",
            Fault::Part => "no such part",
        }
    }

    /// The fault for one of settings.
    pub fn of_setting(fault: SettingFault) -> Fault
        ensures { result ≡ fault_of_setting fault }
    {
        match fault {
            SettingFault::Algorithm => Fault::Algorithm,
            SettingFault::DataBlockSize => Fault::DataBlockSize,
            SettingFault::HashBlockSize => Fault::HashBlockSize,
            SettingFault::SaltSize => Fault::SaltSize,
        }
    }

    /// The fault for one of a plan.
    pub fn of_plan(fault: PlanFault) -> Fault
        ensures { result ≡ fault_of_plan fault }
    {
        match fault {
            PlanFault::NoData => Fault::NoData,
            PlanFault::TooLarge => Fault::TooLarge,
        }
    }

    /// The fault for one of bytes that are no superblock.
    pub fn of_superblock(fault: SuperFault) -> Fault
        ensures { result ≡ fault_of_superblock fault }
    {
        match fault {
            SuperFault::Short => Fault::Short,
            SuperFault::Signature => Fault::Signature,
            SuperFault::Version(_) => Fault::Version,
            SuperFault::HashType(_) => Fault::HashType,
            SuperFault::DataBlockSize(_) => Fault::DataBlockSize,
            SuperFault::HashBlockSize(_) => Fault::HashBlockSize,
            SuperFault::Algorithm => Fault::Algorithm,
            SuperFault::SaltSize(_) => Fault::SaltSize,
            SuperFault::NoData => Fault::NoData,
            SuperFault::TooLarge => Fault::TooLarge,
        }
    }

    /// The fault for one of a builder.
    pub fn of_feed(fault: FeedFault) -> Fault
        ensures { result ≡ fault_of_feed fault }
    {
        match fault {
            FeedFault::Level => Fault::Level,
            FeedFault::TooLong => Fault::TooLong,
            FeedFault::TooShort(_) => Fault::TooShort,
            FeedFault::Waiting => Fault::Waiting,
            FeedFault::TooLarge => Fault::TooLarge,
        }
    }
}

/// The status of a checked data block and its path.
pub fn path_status(answer: Result<(), PathFault>) -> i32
    ensures { result ≡ path_status answer }
{
    match answer {
        Ok(()) => DONE,
        Err(PathFault::Index) => Fault::Index.status(),
        Err(PathFault::Length) => Fault::Length.status(),
        Err(PathFault::DiffersAt(_)) => Fault::Differs.status(),
    }
}

/// The status of a checked link.
pub fn link_status(answer: Result<(), LinkFault>) -> i32
    ensures { result ≡ link_status answer }
{
    match answer {
        Ok(()) => DONE,
        Err(LinkFault::Index) => Fault::Index.status(),
        Err(LinkFault::Level) => Fault::Level.status(),
        Err(LinkFault::Length) => Fault::Length.status(),
        Err(LinkFault::Differs) => Fault::Differs.status(),
    }
}
