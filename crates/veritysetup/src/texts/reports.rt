//! The report of format and dump.
ghost use Rattle.std.specs.Prelude.{◌≡◌, ◌++◌, IfOk, OnOk, string_bytes, option_map};
ghost use Rattle.veritysetup.specs.Texts.ReportSteps.{with_device, with_sizes, with_hash};
ghost use Rattle.veritysetup.specs.Texts.Reports.{no_uuid_text, salt_text, uuid_text, root_line, report_text};

use std::alloc::{AllocError, Global};
use uuid::Uuid;
use verity_format::Superblock;
use verity_hash::Digest;
use verity_plan::TreeSettings;

/// What a superblock says, in one line for each field, and for format the root hash (modelled on veritysetup(8),
/// "dump"). The error means that there is no memory.
pub fn report(
    alloc: Global,
    superblock: &Superblock,
    root: Option<&Digest>,
    path: &str,
) -> Result<String, AllocError>
    ensures { IfOk result (λ s. string_bytes s
        ≡ report_text path.now (uuid_text superblock.now.uuid) superblock.now (option_map (λ d. d.now) root.entry)) }
{
    let mut digits = Uuid::encode_buffer();
    let uuid = Uuid::from_bytes(superblock.uuid());
    let uuid = uuid.hyphenated().encode_lower(&mut digits);
    report_with(alloc, superblock, uuid, root, path)
}

/// The same with `-` in place of the UUID, for a hash area without a superblock. The error means that there is no
/// memory.
pub fn report_bare(
    alloc: Global,
    superblock: &Superblock,
    root: Option<&Digest>,
    path: &str,
) -> Result<String, AllocError>
    ensures { IfOk result (λ s. string_bytes s
        ≡ report_text path.now no_uuid_text superblock.now (option_map (λ d. d.now) root.entry)) }
{
    report_with(alloc, superblock, "-", root, path)
}

/// The report with this text of the UUID.
fn report_with(
    alloc: Global,
    superblock: &Superblock,
    uuid: &str,
    root: Option<&Digest>,
    path: &str,
) -> Result<String, AllocError>
    ensures { IfOk result (λ s. string_bytes s
        ≡ report_text path.now uuid.now superblock.now (option_map (λ d. d.now) root.entry)) }
{
    let tree = superblock.tree();
    let salt = salt_text(alloc, tree.salt())?;
    let mut text = format!(in alloc; "VERITY header information for {path}\n")?;
    push_device(&mut text, uuid, superblock)?;
    push_sizes(&mut text, tree)?;
    push_hash(&mut text, tree.algorithm().name(), salt.as_str())?;
    push_root(alloc, &mut text, root)?;
    Ok(text)
}

/// Adds the lines of UUID, hash type and number of blocks.
fn push_device(text: &mut String, uuid: &str, superblock: &Superblock) -> Result<(), AllocError>
    ensures { OnOk result (string_bytes text.new ≡ with_device (string_bytes text.old) uuid.now superblock.now) }
{
    let hash_type = superblock.hash_type().number();
    let blocks = superblock.blocks();
    write!(text, "UUID:            \t{uuid}\n")?;
    write!(text, "Hash type:       \t{hash_type}\n")?;
    write!(text, "Data blocks:     \t{blocks}\n")
}

/// Adds the lines of the block sizes.
fn push_sizes(text: &mut String, tree: &TreeSettings) -> Result<(), AllocError>
    ensures { OnOk result (string_bytes text.new ≡ with_sizes (string_bytes text.old) tree.now) }
{
    let data_block = tree.data_block();
    let hash_block = tree.hash_block();
    write!(text, "Data block size: \t{data_block}\n")?;
    write!(text, "Hash block size: \t{hash_block}\n")
}

/// Adds the lines of algorithm and salt.
fn push_hash(text: &mut String, algorithm: &str, salt: &str) -> Result<(), AllocError>
    ensures { OnOk result (string_bytes text.new ≡ with_hash (string_bytes text.old) algorithm.now salt.now) }
{
    write!(text, "Hash algorithm:  \t{algorithm}\n")?;
    write!(text, "Salt:            \t{salt}\n")
}

/// Adds the line of the root hash, if there is one.
fn push_root(alloc: Global, text: &mut String, root: Option<&Digest>) -> Result<(), AllocError>
    ensures { OnOk result (string_bytes text.new
        ≡ string_bytes text.old ++ root_line (option_map (λ d. d.now) root.entry)) }
{
    match root {
        Some(root) => {
            let digits = hex::encode(alloc, root.as_bytes())?;
            write!(text, "Root hash:       \t{digits}\n")
        }
        None => Ok(()),
    }
}

/// The digits of a salt, or `-` for none.
fn salt_text(alloc: Global, salt: &[u8]) -> Result<String, AllocError>
    ensures { IfOk result (λ s. string_bytes s ≡ salt_text salt.now) }
{
    if salt.is_empty() {
        String::from_str(alloc, "-")
    } else {
        hex::encode(alloc, salt)
    }
}
