//! Laws of the runs: each holds for all settings and data.
ghost use Rattle.std.specs.Prelude.{◌≡◌, ◌≢◌, ◌⊎◌, ◌↔◌, ◌≤◌, ℕ, true, List, Option, Result, length, take, drop, IfErr};
ghost use Rattle.std.specs.Prelude.{IsSome, Bool, Err, None, Ok, Some, [], if◌then◌else◌};
ghost use Rattle.std.specs.Fmt.{decimal};
ghost use Rattle.std.specs.Result.{result_err};
ghost use Rattle.hex.specs.Hex.{IsBytes, encode_lower};
ghost use Rattle.command_line.specs.declared.writing.print_fault.PrintFault.{PrintFault};
ghost use Rattle.verity_format.specs.Superblocks.{IsSuperblock, SuperblockFields};
ghost use Rattle.verity_plan.specs.Plans.{IsPlan};
ghost use Rattle.verity_pass.specs.Collisions.{TreesCollide};
ghost use Rattle.verity_blocks.specs.Levels.{data_blocks, root};
ghost use Rattle.veritysetup.specs.Faults.{result_status, side_of, status_refused, status_verification_failed};
ghost use Rattle.veritysetup.specs.Options.Choices.{settings_of};
ghost use Rattle.veritysetup.specs.Options.OptionTexts.{OptionTexts};
ghost use Rattle.veritysetup.specs.Options.PrintedOptions.{printed_options, report_of_options, verify_options};
ghost use Rattle.veritysetup.specs.Options.PrintedOptions.{without_root};
ghost use Rattle.veritysetup.specs.Options.Settings.{PartsAgree, SettingsFields};
ghost use Rattle.veritysetup.specs.Runs.Format.{Formatted, Reads, Writes, formatted_device};
ghost use Rattle.veritysetup.specs.Runs.Formatted.{IsFormatted, IsFormattedDevice, root_above};
ghost use Rattle.veritysetup.specs.Runs.GivenBack.{IsGivenBack, IsPlanIfGiven};
ghost use Rattle.veritysetup.specs.Runs.HashDevice.{superblock_at, superblock_for};
ghost use Rattle.veritysetup.specs.Runs.Resumed.{IsBeforeSuperblock, IsStoredAt, KeepsOthers};
ghost use Rattle.veritysetup.specs.Runs.SameVerdicts.{AreAlike, IsJudged};
ghost use Rattle.veritysetup.specs.Runs.Verified.{IsVerified};
ghost use Rattle.veritysetup.specs.Runs.Verify.{Verified, Verifies};
ghost use Rattle.veritysetup.specs.Texts.Reports.{no_uuid_text, report_text, uuid_text};
ghost use Rattle.veritysetup.specs.declared.fault.Fault.{Fault};
ghost use Rattle.veritysetup.specs.declared.fault.Fault.TheVariants as fault;
ghost use Rattle.veritysetup.specs.declared.runs.verify_input.VerifyInput.{VerifyInput};

/// A device is formatted, as status 0 says it, exactly if it is what is left when each hash block is written in closing
/// order, and then the superblock. So there is just one such device.
pub fn formatted_devices_are_written()
    ensures { (s : SettingsFields) (source before after : List ℕ) → IsPlan s.plan → PartsAgree s → length s.uuid ≡ 16
        → s.plan.wanted ≤ length source
        → (after ≡ formatted_device s (data_blocks s.plan source) before) ↔ IsFormattedDevice s source before after }
{}

/// What a `format` that ended with 0 leaves, `verify` accepts: the superblock is read as the settings, with the printed
/// root hash all is right, and no run of `verify` refuses it or finds a difference (statuses 1 and 2), over any data
/// that has the same covered bytes: it is done, if there is memory for the store and no call of source or device fails.
pub fn formatted_devices_are_verified()
    ensures superblock { (s : SettingsFields) (path source rest before after : List ℕ) (out out_after : Option (List ℕ))
        → IsPlan s.plan → PartsAgree s → length s.uuid ≡ 16 → s.superblock ≡ true
        → IsFormatted s path source rest before after out out_after
        → IsSuperblock (superblock_at s.offset after) (superblock_for s) }
    ensures verified { (s : SettingsFields) (path source rest before after bytes : List ℕ)
        (out out_after : Option (List ℕ)) (input : VerifyInput)
        → IsPlan s.plan → PartsAgree s → length s.uuid ≡ 16
        → IsFormatted s path source rest before after out out_after
        → IsGivenBack input s (root_above s source)
        → take s.plan.wanted bytes ≡ take s.plan.wanted source
        → IsVerified input after bytes (drop s.plan.wanted bytes) }
    ensures accepted { (s : SettingsFields) (path source rest before after bytes left : List ℕ)
        (out out_after : Option (List ℕ)) (input : VerifyInput) (outcome : Result Verified Fault)
        → IsPlan s.plan → PartsAgree s → length s.uuid ≡ 16
        → IsFormatted s path source rest before after out out_after
        → IsGivenBack input s (root_above s source)
        → take s.plan.wanted bytes ≡ take s.plan.wanted source
        → Verifies input after bytes left outcome
        → (result_status outcome ≢ status_refused) × (result_status outcome ≢ status_verification_failed) }
    ensures done { (s : SettingsFields) (path source rest before after bytes left : List ℕ)
        (out out_after : Option (List ℕ)) (input : VerifyInput) (outcome : Result Verified Fault)
        → IsPlan s.plan → PartsAgree s → length s.uuid ≡ 16
        → IsFormatted s path source rest before after out out_after
        → IsGivenBack input s (root_above s source)
        → take s.plan.wanted bytes ≡ take s.plan.wanted source
        → Verifies input after bytes left outcome
        → IfErr outcome (λ cause. (cause ≡ fault.Store) ⊎ IsSome (side_of cause)) }
{}

/// If `verify` ended with 0 on some data, against the root hash that other data have by its plan, the two are the same in
/// every covered byte; or their trees show a collision of the hash function.
pub fn verified_data_are_true()
    ensures { (input : VerifyInput) (device x rest y : List ℕ) (verified : IsVerified input device x rest)
        → IsPlanIfGiven input → verified.plan.wanted ≤ length y
        → root verified.plan.settings (data_blocks verified.plan y) ≡ verified.root
        → (take verified.plan.wanted x ≡ take verified.plan.wanted y)
        ⊎ TreesCollide verified.plan.settings (data_blocks verified.plan x) (data_blocks verified.plan y) }
{}

/// Formatting a device on which format has begun leaves what formatting the device before would have left, by the same
/// settings, and whatever fault ended a first run, the device is one on which format has begun.
pub fn formatting_again_is_formatting()
    ensures begun { (s : SettingsFields) (source before between after : List ℕ) → KeepsOthers s before between
        → IsFormattedDevice s source between after → IsFormattedDevice s source before after }
    ensures kept { (s : SettingsFields) (source left before between : List ℕ) (outcome : Result Formatted Fault)
        → IsPlan s.plan → PartsAgree s → length s.uuid ≡ 16 → Reads s outcome source left
        → Writes s (data_blocks s.plan source) outcome before between → KeepsOthers s before between }
    ensures again { (s : SettingsFields) (source left whole before between after : List ℕ)
        (outcome : Result Formatted Fault)
        → IsPlan s.plan → PartsAgree s → length s.uuid ≡ 16 → Reads s outcome source left
        → Writes s (data_blocks s.plan source) outcome before between
        → IsFormattedDevice s whole between after → IsFormattedDevice s whole before after }
{}

/// If a superblock is wanted, the device had no bytes, and `format` ends with a fault before it writes the superblock,
/// none is read there, and `verify` ends with 1, if it can read the device. A failed report leaves the device formatted,
/// whatever it was before.
pub fn superblocks_come_last()
    ensures unread { (s : SettingsFields) (source left between : List ℕ) (cause : Fault) (v : SuperblockFields)
        → IsPlan s.plan → PartsAgree s → length s.uuid ≡ 16 → s.superblock ≡ true → IsBeforeSuperblock cause
        → Reads {X = Formatted} s (Err cause) source left
        → Writes {X = Formatted} s (data_blocks s.plan source) (Err cause) [] between
        → ¬ IsSuperblock (superblock_at s.offset between) v }
    ensures refused { (s : SettingsFields) (source left between bytes rest : List ℕ) (cause : Fault)
        (input : VerifyInput) (outcome : Result Verified Fault)
        → IsPlan s.plan → PartsAgree s → length s.uuid ≡ 16 → s.superblock ≡ true → IsBeforeSuperblock cause
        → Reads {X = Formatted} s (Err cause) source left
        → Writes {X = Formatted} s (data_blocks s.plan source) (Err cause) [] between
        → IsStoredAt s.offset input → Verifies input between bytes rest outcome
        → outcome ≢ Err fault.SuperblockUnread → result_status outcome ≡ status_refused }
    ensures reported { (s : SettingsFields) (source left before between : List ℕ) (cause : PrintFault)
        → IsPlan s.plan → PartsAgree s → length s.uuid ≡ 16
        → Reads {X = Formatted} s (Err (fault.Report cause)) source left
        → Writes {X = Formatted} s (data_blocks s.plan source) (Err (fault.Report cause)) before between
        → IsFormattedDevice s source before between }
{}

/// If the hash area begins after the covered data of the same file, formatting keeps that data, and `verify` accepts
/// the file as its own data and hash device.
pub fn one_file_keeps_its_data()
    ensures kept { (s : SettingsFields) (source before after : List ℕ) → IsPlan s.plan → PartsAgree s
        → length s.uuid ≡ 16 → s.plan.wanted ≤ s.offset → s.plan.wanted ≤ length before
        → IsFormattedDevice s source before after → take s.plan.wanted after ≡ take s.plan.wanted before }
    ensures verified { (s : SettingsFields) (path source rest before after : List ℕ)
        (out out_after : Option (List ℕ)) (input : VerifyInput)
        → IsPlan s.plan → PartsAgree s → length s.uuid ≡ 16 → s.plan.wanted ≤ s.offset
        → s.plan.wanted ≤ length before → take s.plan.wanted source ≡ take s.plan.wanted before
        → IsFormatted s path source rest before after out out_after
        → IsGivenBack input s (root_above s source)
        → IsVerified input after after (drop s.plan.wanted after) }
{}

/// A verdict depends on the superblock, the hash area and the covered bytes alone: where these are alike, `verify` can
/// end in the same ways, and if it finds memory and no call fails, in just one.
pub fn verdicts_depend_on_what_is_covered()
    ensures possible { (input : VerifyInput) (device other source same left : List ℕ)
        (outcome : Result Verified Fault) → IsPlanIfGiven input → AreAlike input device other source same
        → Verifies input device source left outcome → (rest : List ℕ) × Verifies input other same rest outcome }
    ensures one { (input : VerifyInput) (device other source same left rest : List ℕ)
        (outcome found : Result Verified Fault) → IsPlanIfGiven input → AreAlike input device other source same
        → Verifies input device source left outcome → Verifies input other same rest found
        → IsJudged outcome → IsJudged found → result_err outcome ≡ result_err found }
{}

/// The same options give the same tree. What a report prints, given again as options with the same hash offset, gives
/// the settings again, for data and hash area that don't overlap. So `format` with what `dump` prints leaves the same
/// device. And `verify` by the options of `format` but the UUID, with the printed salt and root hash, goes by the plan of
/// `format`, for data of the same length, or with the printed number of data blocks for data of any length.
pub fn printed_options_give_the_settings()
    ensures printed { (path : List ℕ) (v : SuperblockFields) (offset : ℕ) (superblock same_file : Bool)
        (root : Option (List ℕ))
        → report_text path (if superblock then uuid_text v.uuid else no_uuid_text) v root
        ≡ report_of_options path (printed_options v offset superblock same_file) root }
    ensures settings { (s : SettingsFields) (same_file : Bool) (size : ℕ) (random : Option (List ℕ))
        → IsPlan s.plan → PartsAgree s → length s.uuid ≡ 16 → IsBytes s.uuid → IsBytes s.plan.settings.salt
        → (same_file ≡ true → s.plan.wanted ≤ s.offset)
        → settings_of (printed_options (superblock_for s) s.offset s.superblock same_file) size random
        ≡ Ok (without_root s) }
    ensures dumped { (s again : SettingsFields) (v : SuperblockFields) (same_file : Bool) (size : ℕ)
        (random : Option (List ℕ)) (source before after between last : List ℕ)
        → IsPlan s.plan → PartsAgree s → length s.uuid ≡ 16 → IsBytes s.uuid → IsBytes s.plan.settings.salt
        → (same_file ≡ true → s.plan.wanted ≤ s.offset) → s.superblock ≡ true
        → IsFormattedDevice s source before after → IsSuperblock (superblock_at s.offset after) v
        → settings_of (printed_options v s.offset true same_file) size random ≡ Ok again
        → (between ≡ before) ⊎ (between ≡ after) → IsFormattedDevice again source between last → last ≡ after }
    ensures verified { (s : SettingsFields) (texts : OptionTexts) (size last : ℕ) (blocks random : Option (List ℕ))
        (source : List ℕ) → IsPlan s.plan → PartsAgree s → IsBytes s.plan.settings.salt
        → settings_of texts size random ≡ Ok s
        → ((blocks ≡ texts.data_blocks) × (last ≡ size)) ⊎ (blocks ≡ Some (decimal s.plan.blocks))
        → (again : SettingsFields)
        × (settings_of (verify_options texts blocks s.plan.settings.salt (encode_lower (root_above s source))) last None
        ≡ Ok again) × (again.plan ≡ s.plan) × (again.root ≡ Some (root_above s source)) }
{}
