//! A law of hash devices that the library for C builds.
ghost use Rattle.std.specs.Prelude.{◌≡◌, ◌≢◌, ℕ, List, Option, take};
ghost use Rattle.verity_c_api.specs.ReadBack.{HasFields};
ghost use Rattle.verity_c_api.specs.declared.parameters.VerityParams.{VerityParams};
ghost use Rattle.verity_io.specs.Counting.{change};
ghost use Rattle.verity_blocks.specs.Levels.{data_blocks};
ghost use Rattle.veritysetup.specs.Faults.{status_refused, status_verification_failed};
ghost use Rattle.veritysetup.specs.Options.Settings.{SettingsFields};
ghost use Rattle.veritysetup.specs.Runs.Format.{formatted_device};
ghost use Rattle.veritysetup.specs.Runs.Formatted.{IsFormattedDevice, root_above};
ghost use Rattle.veritysetup.specs.Runs.GivenBack.{IsGivenBack};
ghost use Rattle.veritysetup.specs.Runs.Verify.{VerifyRun};
ghost use Rattle.veritysetup.specs.declared.runs.verify_input.VerifyInput.{VerifyInput};
ghost use Rattle.device_laws.specs.BuiltDevices.{AreSettingsOf, IsTreeByCalls, with_superblock_by};

use verity_io::{Device, Source};

/// A device on which calls of a build, or of parts and a join, have built the tree, with each hash block written
/// where the call said, and then the superblock at the hash offset, if the parameters have one, is the device that
/// `format` leaves by settings that say the same. So no run of `verify` with the root hash refuses it or finds a
/// difference (statuses 1 and 2), over any data that have the same covered bytes, if source and device tell their
/// bytes.
pub fn built_devices_are_formatted<S: Source, D: Device>()
    ensures written { (params : VerityParams) (s : SettingsFields) (bytes before tree : List ℕ) → HasFields params
        → AreSettingsOf params s → IsTreeByCalls params s.plan bytes before tree
        → with_superblock_by params tree ≡ formatted_device s (data_blocks s.plan bytes) before }
    ensures formatted { (params : VerityParams) (s : SettingsFields) (bytes before tree : List ℕ) → HasFields params
        → AreSettingsOf params s → IsTreeByCalls params s.plan bytes before tree
        → IsFormattedDevice s bytes before (with_superblock_by params tree) }
    ensures verified { (params : VerityParams) (s : SettingsFields) (bytes before tree : List ℕ) (input : VerifyInput)
        (status : ℕ) (source source_after : S) (device device_after : D) (msgs msgs_after : Option (List ℕ))
        → HasFields params → AreSettingsOf params s → IsTreeByCalls params s.plan bytes before tree
        → IsGivenBack input s (root_above s bytes)
        → take s.plan.wanted (S.remaining source) ≡ take s.plan.wanted bytes
        → D.content device ≡ with_superblock_by params tree → S.tells source → D.tells device
        → VerifyRun input status (change S.tells S.remaining S.failures source source_after)
        (change D.tells D.content D.failures device device_after) msgs msgs_after
        → (status ≢ status_refused) × (status ≢ status_verification_failed) }
{}
