// An operation by its code (document 01, Frames), its numbers and its part: the name of 01 to 04, or the snapshot of 08 to 0a, 0c and 0e. What an operation has no field
// for is not looked at. A snapshot is passed over once, to be judged, and spelled from where it stands.
ghost use Rattle.std.specs.Prelude.{◌≡◌, ◌⊎◌, ℕ, ◌≤◌, ℤ};
ghost use Rattle.rules.specs.Recorder.{bytes_in, line_in, record_operation};
ghost use Rattle.recorder.specs.Recording.{Records, parts, RecordsOperation, word_behind};

use crate::{Bytes, Line, Text};
use answer_bytes::LONGEST_OTHER_ANSWER;
use numbers::Microcents;
use refusals::Refusal;

// 01 to 04: ensure, top-up, limit and reserve.
fn write_named<T: Text>(
    code: u8,
    amount: Microcents,
    name: &[u8],
    output: &mut [u8],
) -> Result<usize, Refusal>
    requires { (1 ≤ code) × (code ≤ 4) }
    ensures { (number : ℕ) → RecordsOperation T.text code (parts number amount.0 name.now)
        output.old output.new result }
{
    if rules::LONGEST_NAME < name.len() {
        return Err(Refusal::NameTooLong);
    }
    let mut head = [0u8; LONGEST_OTHER_ANSWER];
    let word = big_endian::word_of(amount);
    let size = answer_bytes::write_named_word(&mut head, code, names::name_of(name), word);
    T::put(&head[..size], &name[..0], output)
}

// 05: commit.
fn write_commit<T: Text>(
    id: u64,
    amount: Microcents,
    part: &[u8],
    output: &mut [u8],
) -> Result<usize, Refusal>
    ensures { RecordsOperation T.text 5 (parts id amount.0 part.now) output.old output.new result }
{
    let mut head = [0u8; LONGEST_OTHER_ANSWER];
    let word = big_endian::word_of(amount);
    let size = answer_bytes::write_two_words(&mut head, 5, id, word);
    T::put(&head[..size], &part[..0], output)
}

// 06: release.
fn write_release<T: Text>(id: u64, part: &[u8], output: &mut [u8]) -> Result<usize, Refusal>
    ensures { (amount : ℤ) → RecordsOperation T.text 6 (parts id amount part.now) output.old output.new result }
{
    let mut head = [0u8; LONGEST_OTHER_ANSWER];
    let size = answer_bytes::write_word(&mut head, 6, id);
    T::put(&head[..size], &part[..0], output)
}

// 07, 0b and 0d: the ledger's snapshot, certificate and proof.
fn write_alone<T: Text>(code: u8, part: &[u8], output: &mut [u8]) -> Result<usize, Refusal>
    requires { (code ≡ 7) ⊎ (code ≡ 11) ⊎ (code ≡ 13) }
    ensures { (number : ℕ) (amount : ℤ) → RecordsOperation T.text code (parts number amount part.now)
        output.old output.new result }
{
    let mut head = [0u8; LONGEST_OTHER_ANSWER];
    let size = answer_bytes::write_number(&mut head, code);
    T::put(&head[..size], &part[..0], output)
}

// 08, 09 and 0e: both restores, and the conservation status.
fn write_snapshot<T: Text>(code: u8, snapshot: &[u8], output: &mut [u8]) -> Result<usize, Refusal>
    requires { (code ≡ 8) ⊎ (code ≡ 9) ⊎ (code ≡ 14) }
    ensures { (number : ℕ) (amount : ℤ) → RecordsOperation T.text code (parts number amount snapshot.now)
        output.old output.new result }
{
    snapshot_reader::check(snapshot)?;
    let mut head = [0u8; LONGEST_OTHER_ANSWER];
    let size = answer_bytes::write_number(&mut head, code);
    T::put(&head[..size], snapshot, output)
}

// 0a and 0c: a migration behind its fence, and a certificate of a snapshot behind its since.
fn write_word_and_snapshot<T: Text>(
    code: u8,
    word: u64,
    snapshot: &[u8],
    output: &mut [u8],
) -> Result<usize, Refusal>
    requires { (code ≡ 10) ⊎ (code ≡ 12) }
    ensures { (number : ℕ) (amount : ℤ) → word_behind code number amount ≡ word → RecordsOperation T.text code
        (parts number amount snapshot.now) output.old output.new result }
{
    snapshot_reader::check(snapshot)?;
    let mut head = [0u8; LONGEST_OTHER_ANSWER];
    let size = answer_bytes::write_word(&mut head, code, word);
    T::put(&head[..size], snapshot, output)
}

fn write<T: Text>(
    code: u8,
    number: u64,
    amount: Microcents,
    part: &[u8],
    output: &mut [u8],
) -> Result<usize, Refusal>
    ensures { RecordsOperation T.text code (parts number amount.0 part.now) output.old output.new result }
{
    match code {
        1..=4 => write_named::<T>(code, amount, part, output),
        5 => write_commit::<T>(number, amount, part, output),
        6 => write_release::<T>(number, part, output),
        7 | 11 | 13 => write_alone::<T>(code, part, output),
        8 | 9 | 14 => write_snapshot::<T>(code, part, output),
        10 => write_word_and_snapshot::<T>(code, number, part, output),
        12 => write_word_and_snapshot::<T>(code, big_endian::word_of(amount), part, output),
        _ => Err(Refusal::BadFrame),
    }
}

// The operation's line, without a line feed, at the front of the output: 23 for a code that is none or a part that is no snapshot, 19 for a name of more than 24
// bytes, in a snapshot too, and 22 where it does not fit; a refusal leaves the output as it is.
#[tactic(auto, unfolding(rules::specs::Recorder::line_in))]
pub fn write_operation(
    code: u8,
    number: u64,
    amount: Microcents,
    part: &[u8],
    output: &mut [u8],
) -> Result<usize, Refusal>
    ensures { Records (record_operation line_in code (parts number amount.0 part.now) output.old) output.new result }
{
    write::<Line>(code, number, amount, part, output)
}

// The same as bytes.
pub fn write_frame(
    code: u8,
    number: u64,
    amount: Microcents,
    part: &[u8],
    output: &mut [u8],
) -> Result<usize, Refusal>
    ensures { Records (record_operation bytes_in code (parts number amount.0 part.now) output.old) output.new result }
{
    write::<Bytes>(code, number, amount, part, output)
}
