// Snapshots for any caller: any memory as a ledger, any bytes as a snapshot, any output. Bytes that are no snapshot are 23, memory that is no sound
// ledger 24, and else each is the operation of the rules. Migration, the status and the certificate of a supplied snapshot take no ledger.

#![tactic(auto)]

ghost use Rattle.std.specs.Prelude.{◌≡◌, ◌≤◌, length, IfOk};
ghost use Rattle.rules.specs.SnapshotsMigrationCertificates.{snapshot_of_bytes, snapshot, restore, recovery_restore, migrate, status, certificate_of_snapshot, certificate_of_ledger, conservation_proof, output_after};
ghost use Rattle.refusals.specs.Answers.{answer_of, carries_nothing, carries_snapshot};
ghost use Rattle.room.specs.Room.{Answers};
ghost use Rattle.certificates.specs.Certified.{carries_certificate, carries_proof};
ghost use Rattle.any_memory_snapshots.specs.Supplied.{AnswersSnapshot, FirstCheck, on_supplied};

use certificates::{Certificate, Proof};
use numbers::Microcents;
use refusals::Refusal;

// One pass over the places to write them, and one to measure them where the output might be too short.
pub fn snapshot(room: &mut [u8], output: &mut [u8]) -> Result<usize, Refusal>
    ensures answers { Answers (snapshot (length output.old)) room.old (answer_of (carries_snapshot output.new) result) room.new }
    ensures output { output.new ≡ output_after (answer_of (carries_snapshot output.new) result) output.old }
    ensures size { IfOk result (λ size. size ≤ length output.old) }
{
    soundness::expect_sound(room)?;
    snapshot_writer::snapshot(room, output)
}

// 23 before 24: one pass over the bytes and, where they are a snapshot, one over the memory.
fn first_check(room: &[u8], bytes: &[u8]) -> Result<(), Refusal>
    ensures { FirstCheck bytes.now room.now result }
{
    snapshot_reader::expect_snapshot(bytes)?;
    soundness::expect_sound(room)
}

// One pass over the bytes to read them, three to judge them, in one of which each name is compared with those before it, and one to put the rows.
pub fn restore(room: &mut [u8], bytes: &[u8]) -> Result<(), Refusal>
    ensures { AnswersSnapshot restore (snapshot_of_bytes bytes.now) room.old (answer_of carries_nothing result) room.new }
{
    first_check(room, bytes)?;
    restoring::restore(room, bytes)
}

// As a restore.
pub fn recovery_restore(room: &mut [u8], bytes: &[u8]) -> Result<(), Refusal>
    ensures { AnswersSnapshot recovery_restore (snapshot_of_bytes bytes.now) room.old (answer_of carries_nothing result) room.new }
{
    first_check(room, bytes)?;
    restoring::recovery_restore(room, bytes)
}

// One pass to read the bytes, three to judge them, one to copy them.
pub fn migrate(bytes: &[u8], fence: u64, output: &mut [u8]) -> Result<usize, Refusal>
    ensures answer { answer_of (carries_snapshot output.new) result
        ≡ on_supplied (migrate (length output.old) fence) (snapshot_of_bytes bytes.now) }
    ensures output { output.new ≡ output_after (answer_of (carries_snapshot output.new) result) output.old }
    ensures size { IfOk result (λ size. (size ≡ length bytes.now) × (size ≤ length output.old)) }
{
    snapshot_reader::expect_snapshot(bytes)?;
    migration::migrate(bytes, fence, output)
}

// Whether a supplied snapshot balances: three passes over the bytes.
pub fn status(bytes: &[u8]) -> Result<(), Refusal>
    ensures { answer_of carries_nothing result ≡ on_supplied status (snapshot_of_bytes bytes.now) }
{
    snapshot_reader::expect_snapshot(bytes)?;
    validation::status(bytes)
}

// Two passes over the places.
pub fn certificate(room: &mut [u8]) -> Result<Certificate, Refusal>
    ensures { Answers certificate_of_ledger room.old (answer_of carries_certificate result) room.new }
{
    soundness::expect_sound(room)?;
    certificates::of_ledger(room)
}

// Four passes over the bytes.
pub fn certificate_of_snapshot(bytes: &[u8], since: Microcents) -> Result<Certificate, Refusal>
    ensures { answer_of carries_certificate result ≡ on_supplied (certificate_of_snapshot since.0) (snapshot_of_bytes bytes.now) }
{
    snapshot_reader::expect_snapshot(bytes)?;
    certificates::of_supplied(bytes, since)
}

// Two passes over the places.
pub fn conservation_proof(room: &mut [u8]) -> Result<Proof, Refusal>
    ensures { Answers conservation_proof room.old (answer_of carries_proof result) room.new }
{
    soundness::expect_sound(room)?;
    certificates::prove(room)
}
