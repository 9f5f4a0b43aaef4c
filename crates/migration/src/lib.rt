// Migration of a supplied snapshot that is not aware of recovery: the same snapshot with a version that carries a fence. No ledger is taken. The bytes are
// copied as they stand, and only those of the version are new.

#![tactic(auto)]

ghost use Rattle.std.specs.Prelude.{◌≡◌, ◌++◌, ◌≤◌, length, drop, IfOk};
ghost use Rattle.std.proofs.Math.Option.{none};
ghost use Rattle.rules.specs.RoomAndSoundLedger.{M};
ghost use Rattle.rules.specs.SnapshotsMigrationCertificates.{bytes_of, reply_or, migrate, output_after};
ghost use Rattle.refusals.specs.Answers.{refusal_in, answer_of, carries_snapshot};
ghost use Rattle.snapshot_reader.specs.Standing.{IsSnapshot, OfSnapshot};
ghost use Rattle.migration.specs.Migrated.{migrated_to};

use refusals::Refusal;

// 19; 16 of a version that has the tag already; 17 of a fence that no version could carry; then the validation, and 22 last.
fn check(bytes: &[u8], fence: u64, size: usize) -> Result<(), Refusal>
    requires { IsSnapshot bytes.now }
    ensures answer { OfSnapshot bytes.now (λ s. reply_or (refusal_in result) (migrated_to fence s) ≡ migrate size fence s) }
    ensures room { IfOk result (λ _. (fence ≤ M) × (length bytes.now ≤ size)) }
{
    if snapshot_reader::has_long_name(bytes) {
        return Err(Refusal::NameTooLong);
    }
    if big_endian::has_tag(snapshot_reader::version(bytes)) {
        return Err(Refusal::AlreadyRecoveryAware);
    }
    if fence == 0 || rules::M < fence {
        return Err(Refusal::InvalidAllocatorFence(fence));
    }
    validation::validation(bytes)?;
    if size < bytes.len() {
        return Err(Refusal::OutputTooShort);
    }
    Ok(())
}

// The bytes supplied, and then the version over the first eight of them.
fn write_migrated(bytes: &[u8], version: u64, output: &mut [u8])
    requires { (8 ≤ length bytes.now) × (length bytes.now ≤ length output.old) }
    ensures { output.new ≡ bytes_of 8 version ++ drop 8 bytes.now ++ drop (length bytes.now) output.old }
{
    numbers::copy(bytes, output);
    big_endian::write8(&mut output[0..8], version);
}

// How many bytes the migrated snapshot has: as many as the one supplied.
pub fn migrate(bytes: &[u8], fence: u64, output: &mut [u8]) -> Result<usize, Refusal>
    requires { IsSnapshot bytes.now }
    ensures answer { OfSnapshot bytes.now
        (λ s. answer_of (carries_snapshot output.new) result ≡ migrate (length output.old) fence s) }
    ensures output { output.new ≡ output_after (answer_of (carries_snapshot output.new) result) output.old }
    ensures size { IfOk result (λ size. (size ≡ length bytes.now) × (size ≤ length output.old)) }
{
    check(bytes, fence, output.len())?;
    let version = big_endian::tagged(fence);
    write_migrated(bytes, version, output);
    Ok(bytes.len())
}
