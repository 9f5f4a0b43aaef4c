// Restore and recovery restore into a ledger already known to be sound, of bytes already known to be a snapshot: all of it, or a refusal and nothing. The two
// differ in what they say of the version alone; every check is made before the first byte of the room is written.

#![tactic(auto)]

ghost use Rattle.std.specs.Prelude.{◌≡◌};
ghost use Rattle.rules.specs.SnapshotsMigrationCertificates.{restore_version, recovery_version, restore_refusal, restore, recovery_restore};
ghost use Rattle.refusals.specs.Answers.{refusal_in, answer_of, carries_nothing};
ghost use Rattle.snapshot_reader.specs.Standing.{IsSnapshot, OfSnapshot};
ghost use Rattle.room.specs.Room.{SoundRoom};
ghost use Rattle.restoring.specs.Forms.{restore_by, Restores, Keeps};

use refusals::Refusal;

// A field of a snapshot that is of no row: its version.
const VERSION_FIELD: u8 = 4;

// 13 of a version without its tag, and of a tag without a fence: of no row, of the version's field, and with the version as an amount, so at most M.
fn restore_version(version: u64) -> Result<(), Refusal>
    ensures { refusal_in result ≡ restore_version version }
{
    if !big_endian::has_tag(version) || big_endian::fence_of(version) == 0 {
        return Err(Refusal::NegativeLedgerField(
            refusals::no_tenant(),
            VERSION_FIELD,
            numbers::amount(version.min(rules::M)),
        ));
    }
    Ok(())
}

// The same two versions in the recovery form: the first is one to be migrated (18), the second has a bad fence (17), which is 0.
fn recovery_version(version: u64) -> Result<(), Refusal>
    ensures { refusal_in result ≡ recovery_version version }
{
    if !big_endian::has_tag(version) {
        return Err(Refusal::LegacySnapshotRequiresMigration);
    }
    if big_endian::fence_of(version) == 0 {
        return Err(Refusal::InvalidAllocatorFence(0));
    }
    Ok(())
}

// 19, then what the version gave, then the validation, and 20 last: three passes over the rows, one of which compares each name with those before it.
fn check(names: u64, bytes: &[u8], of_version: Result<(), Refusal>) -> Result<(), Refusal>
    requires { IsSnapshot bytes.now }
    ensures { OfSnapshot bytes.now (λ s. refusal_in result ≡ restore_refusal (refusal_in of_version) names s) }
{
    if snapshot_reader::has_long_name(bytes) {
        return Err(Refusal::NameTooLong);
    }
    of_version?;
    validation::validation(bytes)?;
    if names < snapshot_reader::count(bytes) {
        return Err(Refusal::NamesFull);
    }
    Ok(())
}

// Both forms, which differ in what they say of the version alone.
fn restore_by(room: &mut [u8], bytes: &[u8], of_version: Result<(), Refusal>) -> Result<(), Refusal>
    requires { SoundRoom room.old × IsSnapshot bytes.now × Keeps bytes.now (refusal_in of_version) }
    ensures { Restores (restore_by (refusal_in of_version)) bytes.now room.old (answer_of carries_nothing result) room.new }
{
    let sizes = records::load_sizes(room);
    check(sizes.names, bytes, of_version)?;
    filling::fill(room, bytes);
    Ok(())
}

pub fn restore(room: &mut [u8], bytes: &[u8]) -> Result<(), Refusal>
    requires { SoundRoom room.old × IsSnapshot bytes.now }
    ensures { Restores restore bytes.now room.old (answer_of carries_nothing result) room.new }
{
    restore_by(
        room,
        bytes,
        restore_version(snapshot_reader::version(bytes)),
    )
}

pub fn recovery_restore(room: &mut [u8], bytes: &[u8]) -> Result<(), Refusal>
    requires { SoundRoom room.old × IsSnapshot bytes.now }
    ensures { Restores recovery_restore bytes.now room.old (answer_of carries_nothing result) room.new }
{
    restore_by(
        room,
        bytes,
        recovery_version(snapshot_reader::version(bytes)),
    )
}
