// A frame's bytes to its answer's bytes. What is known of the memory is handed in: a batch asks once whether it is the room of a sound ledger.

#![tactic(auto)]

ghost use Rattle.std.specs.Prelude.{◌≡◌, List, ◌∷◌, ℕ, ◌+◌, ◌≤◌, length, drop};
ghost use Rattle.std.proofs.Math.Option.{some};
ghost use Rattle.rules.specs.AnswerNumbers.{unsound};
ghost use Rattle.rules.specs.AccountRules.{ensure, top_up, limit, reserve, commit, release};
ghost use Rattle.rules.specs.SnapshotsMigrationCertificates.{Snapshot, migrate, status, certificate_of_snapshot};
ghost use Rattle.rules.specs.Frames.{on_account, take_snapshot, certify_ledger, prove_conservation, restore_from, recover_from, longest_snapshot, answer_or23};
ghost use Rattle.snapshot_reader.specs.Standing.{IsSnapshot, OfSnapshot};
ghost use Rattle.frame_reader.specs.Operations.{operation_in, operation_read, PartsWithin, PartsStand};
ghost use Rattle.answer_bytes.specs.Sizes.{longest_other_answer};
ghost use Rattle.answer_bytes.specs.Writing.{WritesReply};
ghost use Rattle.room.specs.Room.{SoundRoom};
ghost use Rattle.frames.specs.Answering.{Known, AnswersInRoom, PromisesAnswer, longest_answer, room_for, Answerable, AnswerableRead};

use answer_bytes::LONGEST_OTHER_ANSWER;
use frame_reader::{Frame, LONGEST_FRAME, NAME_START, WORD_END};
use numbers::{Identifier, Microcents};
use refusals::Refusal;

// A snapshot behind its number: only a snapshot and a migration hand one out.
pub const LONGEST_ANSWER: usize = 1 + rules::LONGEST_SNAPSHOT;

// Two characters a byte; an answer line has its line feed too.
pub const LONGEST_LINE: usize = LONGEST_FRAME + LONGEST_FRAME;

pub const LONGEST_OTHER_LINE: usize = LONGEST_OTHER_ANSWER + LONGEST_OTHER_ANSWER + 1;

fn ensure(room: &mut [u8], name: &[u8], amount: Microcents, output: &mut [u8]) -> usize
    requires { SoundRoom room.old × (longest_other_answer ≤ length output.old) }
    ensures { AnswersInRoom (some (on_account (ensure name.now amount.0)))
        room.old room.new output.old output.new result }
{
    answers::write_answer(output, accounts::ensure(room, name, amount))
}

fn top_up(room: &mut [u8], name: &[u8], amount: Microcents, output: &mut [u8]) -> usize
    requires { SoundRoom room.old × (longest_other_answer ≤ length output.old) }
    ensures { AnswersInRoom (some (on_account (top_up name.now amount.0)))
        room.old room.new output.old output.new result }
{
    answers::write_answer(output, accounts::top_up(room, name, amount))
}

fn limit(room: &mut [u8], name: &[u8], amount: Microcents, output: &mut [u8]) -> usize
    requires { SoundRoom room.old × (longest_other_answer ≤ length output.old) }
    ensures { AnswersInRoom (some (on_account (limit name.now amount.0)))
        room.old room.new output.old output.new result }
{
    answers::write_answer(output, accounts::limit(room, name, amount))
}

fn reserve(room: &mut [u8], name: &[u8], cost: Microcents, output: &mut [u8]) -> usize
    requires { SoundRoom room.old × (longest_other_answer ≤ length output.old) }
    ensures { AnswersInRoom (some (on_account (reserve name.now cost.0)))
        room.old room.new output.old output.new result }
{
    answers::write_answer(output, reservations::reserve(room, name, cost))
}

fn commit(room: &mut [u8], id: Identifier, actual: Microcents, output: &mut [u8]) -> usize
    requires { SoundRoom room.old × (longest_other_answer ≤ length output.old) }
    ensures { AnswersInRoom (some (on_account (commit id.0 actual.0)))
        room.old room.new output.old output.new result }
{
    answers::write_answer(output, reservations::commit(room, id, actual))
}

fn release(room: &mut [u8], id: Identifier, output: &mut [u8]) -> usize
    requires { SoundRoom room.old × (longest_other_answer ≤ length output.old) }
    ensures { AnswersInRoom (some (on_account (release id.0)))
        room.old room.new output.old output.new result }
{
    answers::write_answer(output, reservations::release(room, id))
}

// A snapshot of this size was written behind the answer's number, where it stays.
fn behind_number(output: &mut [u8], size: usize) -> usize
    requires { 1 + size ≤ length output.old }
    ensures size { result ≡ 1 + size }
    ensures output { output.new ≡ 0 ∷ drop 1 output.old }
{
    output[0] = 0;
    1 + size
}

fn snapshot(room: &mut [u8], output: &mut [u8]) -> usize
    requires { SoundRoom room.old × (longest_answer ≤ length output.old) }
    ensures { AnswersInRoom (some take_snapshot)
        room.old room.new output.old output.new result }
{
    match snapshot_writer::snapshot(room, &mut output[1..]) {
        Ok(size) => behind_number(output, size),
        Err(refusal) => answers::write_refusal(output, refusal),
    }
}

fn restore(room: &mut [u8], bytes: &[u8], output: &mut [u8]) -> usize
    requires { SoundRoom room.old × IsSnapshot bytes.now × (longest_other_answer ≤ length output.old) }
    ensures { OfSnapshot bytes.now (λ s. AnswersInRoom (some (restore_from s))
        room.old room.new output.old output.new result) }
{
    answers::write_answer(output, restoring::restore(room, bytes))
}

fn recovery_restore(room: &mut [u8], bytes: &[u8], output: &mut [u8]) -> usize
    requires { SoundRoom room.old × IsSnapshot bytes.now × (longest_other_answer ≤ length output.old) }
    ensures { OfSnapshot bytes.now (λ s. AnswersInRoom (some (recover_from s))
        room.old room.new output.old output.new result) }
{
    answers::write_answer(output, restoring::recovery_restore(room, bytes))
}

fn certificate(room: &mut [u8], output: &mut [u8]) -> usize
    requires { SoundRoom room.old × (longest_other_answer ≤ length output.old) }
    ensures { AnswersInRoom (some certify_ledger)
        room.old room.new output.old output.new result }
{
    answers::write_answer(output, certificates::of_ledger(room))
}

fn conservation_proof(room: &mut [u8], output: &mut [u8]) -> usize
    requires { SoundRoom room.old × (longest_other_answer ≤ length output.old) }
    ensures { AnswersInRoom (some prove_conservation)
        room.old room.new output.old output.new result }
{
    answers::write_answer(output, certificates::prove(room))
}

// What follows takes no ledger: a migration, and the judging of a snapshot that comes with its frame.
fn migrate(bytes: &[u8], fence: u64, output: &mut [u8]) -> usize
    requires { IsSnapshot bytes.now × (longest_answer ≤ length output.old) }
    ensures { OfSnapshot bytes.now (λ s. WritesReply (migrate longest_snapshot fence s)
        output.old output.new result) }
{
    match migration::migrate(bytes, fence, &mut output[1..]) {
        Ok(size) => behind_number(output, size),
        Err(refusal) => answers::write_refusal(output, refusal),
    }
}

fn certificate_of_snapshot(bytes: &[u8], since: Microcents, output: &mut [u8]) -> usize
    requires { IsSnapshot bytes.now × (longest_other_answer ≤ length output.old) }
    ensures { OfSnapshot bytes.now (λ s. WritesReply (certificate_of_snapshot since.0 s)
        output.old output.new result) }
{
    answers::write_answer(output, certificates::of_supplied(bytes, since))
}

fn status(bytes: &[u8], output: &mut [u8]) -> usize
    requires { IsSnapshot bytes.now × (longest_other_answer ≤ length output.old) }
    ensures { OfSnapshot bytes.now (λ s. WritesReply (status s) output.old output.new result) }
{
    answers::write_answer(output, validation::status(bytes))
}

// How much room the longest answer to this frame takes.
fn room_of(frame: Frame) -> usize
    ensures { (bytes : List ℕ) → PartsWithin bytes frame → result ≡ room_for (operation_in bytes frame) }
{
    match frame {
        Frame::Snapshot => LONGEST_ANSWER,
        Frame::Migrate(_fence) => LONGEST_ANSWER,
        _ => LONGEST_OTHER_ANSWER,
    }
}

// The same of what was read: a bad frame gets its number alone.
pub fn room_for(read: Option<Frame>) -> usize
    ensures { (bytes : List ℕ) → PartsStand bytes read → result ≡ room_for (operation_read bytes read) }
{
    match read {
        Some(frame) => room_of(frame),
        None => LONGEST_OTHER_ANSWER,
    }
}

// A frame that takes no ledger, or that is lent none that is sound: then 24 answers all that asks for one and 23 comes before it (document 01, "Answer
// numbers").
fn without_ledger(bytes: &[u8], frame: Frame, output: &mut [u8]) -> usize
    requires { Answerable bytes.now frame output.old }
    ensures { WritesReply (answer_or23 unsound (operation_in bytes.now frame)).reply
        output.old output.new result }
{
    match frame {
        Frame::Migrate(fence) => migrate(&bytes[WORD_END..], fence, output),
        Frame::CertificateOfSnapshot(since) => certificate_of_snapshot(
            &bytes[WORD_END..],
            since,
            output,
        ),
        Frame::Status => status(&bytes[1..], output),
        _ => answers::write_refusal(output, Refusal::UnsoundLedger),
    }
}

// A frame on a ledger known to be sound.
fn perform(room: &mut [u8], bytes: &[u8], frame: Frame, output: &mut [u8]) -> usize
    requires { SoundRoom room.old × Answerable bytes.now frame output.old }
    ensures { AnswersInRoom (operation_in bytes.now frame)
        room.old room.new output.old output.new result }
{
    match frame {
        Frame::Ensure(end, amount) => ensure(room, &bytes[NAME_START..end], amount, output),
        Frame::TopUp(end, amount) => top_up(room, &bytes[NAME_START..end], amount, output),
        Frame::Limit(end, amount) => limit(room, &bytes[NAME_START..end], amount, output),
        Frame::Reserve(end, amount) => reserve(room, &bytes[NAME_START..end], amount, output),
        Frame::Commit(id, amount) => commit(room, id, amount, output),
        Frame::Release(id) => release(room, id, output),
        Frame::Snapshot => snapshot(room, output),
        Frame::Restore => restore(room, &bytes[1..], output),
        Frame::RecoveryRestore => recovery_restore(room, &bytes[1..], output),
        Frame::Certificate => certificate(room, output),
        Frame::ConservationProof => conservation_proof(room, output),
        _ => without_ledger(bytes, frame, output),
    }
}

// What was read from these bytes, on memory of which it is known whether it is the room of a sound ledger: 23 where it is no frame.
pub fn answer(
    room: &mut [u8],
    known: bool,
    bytes: &[u8],
    read: Option<Frame>,
    output: &mut [u8],
) -> usize
    requires { Known known room.old × AnswerableRead bytes.now read output.old }
    ensures { PromisesAnswer (operation_read bytes.now read)
        room.old room.new output.old output.new result }
{
    let Some(frame) = read else {
        return answers::write_refusal(output, Refusal::BadFrame);
    };
    if known {
        return perform(room, bytes, frame, output);
    }
    without_ledger(bytes, frame, output)
}
