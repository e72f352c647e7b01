//! What format makes a hash device by, and what verify compares it by if there is no superblock: hash type, UUID, where
//! the hash area begins, the plan of the tree, and a root hash.
ghost use Rattle.std.specs.Prelude.{◌≡◌, option_map};
ghost use Rattle.veritysetup.specs.Options.Settings.{PartsAgree};
ghost use Rattle.veritysetup.specs.Options.Choices.{settings_of};
ghost use Rattle.veritysetup.specs.Runs.HashDevice.{superblock_for};
ghost use Rattle.veritysetup.specs.Options.OptionTexts.{option_texts};

use crate::options::numbers::{number_if_given, number_option};
use crate::options::option_fault::{OptionFault, OptionName};
use crate::options::raw_options::RawOptions;
use crate::options::root_hash::root_if_given;
use crate::options::salts::salt_or_random;
use crate::options::tree::{accepted_plan, tree_of};
use crate::options::uuids::{superblock_uuid, uuid_or_random};
use command_line::{DEFAULT_BLOCK_SIZE, algorithm_or_default};
use std::marker::Model;
use uuid::Uuid;
use verity_format::Superblock;
use verity_hash::Digest;
use verity_plan::{HashType, Plan, multiple_of, offset_unit, plan_at};

/// The settings of a hash device. Only `settings_of` makes them, so the parts agree: the plan's tree is of the hash
/// type, the hash offset is aligned, and the hash blocks stand there, or after the superblock there.
#[derive(Clone, Copy)]
pub struct Settings {
    hash_type: HashType,
    uuid: Uuid,
    offset: u64,
    superblock: bool,
    plan: Plan,
    root: Option<Digest>,
}

impl Model for Settings {
    ghost use Rattle.veritysetup.specs.Options.Settings.{SettingsFields, PartsAgree};

    ghost Value = { SettingsFields };

    ghost view = { λ s. record {
      hash_type = s.hash_type;
      uuid = s.uuid;
      offset = s.offset;
      superblock = s.superblock;
      plan = s.plan;
      root = s.root;
    } };

    ghost invariant = { λ s. PartsAgree (record {
      hash_type = s.hash_type;
      uuid = s.uuid;
      offset = s.offset;
      superblock = s.superblock;
      plan = s.plan;
      root = s.root;
    }) };

    ghost inverse = { λ s. record {
      hash_type = s.hash_type;
      uuid = s.uuid;
      offset = s.offset;
      superblock = s.superblock;
      plan = s.plan;
      root = s.root;
    } };
}

impl Settings {
    /// The hash type.
    pub fn hash_type(&self) -> HashType
        ensures { result ≡ self.now.hash_type }
    {
        self.hash_type
    }

    /// The 16 bytes of the UUID.
    pub fn uuid(&self) -> [u8; 16]
        ensures { result ≡ self.now.uuid }
    {
        self.uuid.into_bytes()
    }

    /// The byte at which the hash area begins on the hash device (veritysetup(8), `--hash-offset`).
    pub fn offset(&self) -> u64
        ensures { result ≡ self.now.offset }
    {
        self.offset
    }

    /// Whether the hash area begins with a superblock (veritysetup(8), `--no-superblock`).
    pub fn has_superblock(&self) -> bool
        ensures { result ≡ self.now.superblock }
    {
        self.superblock
    }

    /// What is read, and where each hash block goes.
    pub fn plan(&self) -> &Plan
        ensures value { result.now ≡ self.now.plan }
        ensures agree { PartsAgree self.now }
    {
        &self.plan
    }

    /// The root hash, if one was given.
    pub fn root(&self) -> Option<Digest>
        ensures { result ≡ self.now.root }
    {
        self.root
    }

    /// The superblock that describes the settings.
    pub fn superblock(&self) -> Superblock
        ensures { result ≡ superblock_for self.now }
    {
        let plan = &self.plan;
        Superblock::new(plan.settings(), self.uuid(), plan.blocks()).unwrap()
    }
}

/// The settings that options choose for data of this length in bytes. Random bytes are for a salt or a UUID that is not
/// given; without them a missing salt is refused and a missing UUID is zeros. The error is the first fault, in the
/// order of `OptionFault`.
pub fn settings_of(
    raw: &RawOptions,
    length: u64,
    random: Option<&[u8; 48]>,
) -> Result<Settings, OptionFault>
    ensures { result ≡ settings_of (option_texts raw.now) length (option_map (λ b. b.now) random.entry) }
{
    let format = number_option(OptionName::Format, 1, raw.format)?;
    let data_block_size = number_option(
        OptionName::DataBlockSize,
        DEFAULT_BLOCK_SIZE,
        raw.data_block_size,
    )?;
    let hash_block_size = number_option(
        OptionName::HashBlockSize,
        DEFAULT_BLOCK_SIZE,
        raw.hash_block_size,
    )?;
    let blocks = number_if_given(raw.data_blocks).ok_or(OptionFault::BadNumber(
        OptionName::DataBlocks,
    ))?;
    let offset_bytes = number_option(OptionName::HashOffset, 0, raw.hash_offset)?;
    let algorithm = algorithm_or_default(raw.hash).ok_or(OptionFault::UnknownHash)?;
    let hash_type = HashType::from_number(format).ok_or(OptionFault::BadHashType)?;
    let salt = salt_or_random(raw.salt, random);
    let tree = tree_of(algorithm, hash_type, data_block_size, hash_block_size, salt)?;
    let uuid = uuid_or_random(raw.uuid, random).ok_or(OptionFault::BadUuid)?;
    let superblock = !raw.no_superblock;
    let unit = offset_unit(superblock, &tree);
    let offset = multiple_of(unit, offset_bytes).ok_or(OptionFault::BadHashOffset)?;
    let whole = length / u64::from(tree.data_block());
    let planned = plan_at(&tree, blocks.unwrap_or(whole), offset, superblock);
    let plan = accepted_plan(planned, raw.same_file, offset)?;
    let root = root_if_given(algorithm, raw.root).ok_or(OptionFault::BadRoot)?;
    Ok(Settings {
        hash_type,
        uuid: superblock_uuid(superblock, uuid),
        offset,
        superblock,
        plan,
        root,
    })
}
