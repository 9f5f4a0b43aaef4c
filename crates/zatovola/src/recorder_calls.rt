// The recorder for programs in C and Rust: the answer number is returned, and how much was written goes to the lent place, which a refusal leaves as it is. An answer
// comes and goes as words, its number and one for each value that it carries.
ghost use Rattle.std.specs.Prelude.{◌≡◌};
ghost use Rattle.rules.specs.Recorder.{bytes_in, line_in, record_operation, record_answer, answer_of_bytes};
ghost use Rattle.recorder.specs.Recording.{parts};
ghost use Rattle.recorder.specs.Reading.{ReadsAnswer, ReadsLine};
ghost use Rattle.zatovola.specs.Recorder.{HandsRecorded, number_of_read, AnswersRead};

use crate::ledger_reads::hand_over;
use numbers::Microcents;
use recorder::MOST_WORDS;
use refusals::Refusal;

// The number of a reading, which hands nothing over.
fn number_of_read(read: Result<(), Refusal>) -> u8
    ensures { result ≡ number_of_read read }
{
    match read {
        Ok(()) => 0,
        Err(refusal) => refusal.number(),
    }
}

// The operation's line at the front of the output.
#[unsafe(no_mangle)]
pub extern "C" fn zatovola_write_operation(
    code: u8,
    number: u64,
    amount: i64,
    part: &[u8],
    output: &mut [u8],
    written: &mut usize,
) -> u8
    ensures { HandsRecorded (record_operation line_in code (parts number amount part.now) output.old)
        output.new written.old result written.new }
{
    let recorded = recorder::operations::write_operation(
        code,
        number,
        Microcents(amount),
        part,
        output,
    );
    hand_over(recorded, written)
}

// The same as bytes.
#[unsafe(no_mangle)]
pub extern "C" fn zatovola_write_frame(
    code: u8,
    number: u64,
    amount: i64,
    part: &[u8],
    output: &mut [u8],
    written: &mut usize,
) -> u8
    ensures { HandsRecorded (record_operation bytes_in code (parts number amount part.now) output.old)
        output.new written.old result written.new }
{
    let recorded = recorder::operations::write_frame(
        code,
        number,
        Microcents(amount),
        part,
        output,
    );
    hand_over(recorded, written)
}

// The line of an answer to the operation with this code.
#[unsafe(no_mangle)]
pub extern "C" fn zatovola_write_answer(
    code: u8,
    words: &[u64; MOST_WORDS],
    part: &[u8],
    output: &mut [u8],
    written: &mut usize,
) -> u8
    ensures { HandsRecorded (record_answer line_in code words.now part.now output.old)
        output.new written.old result written.new }
{
    let recorded = recorder::answer_writer::write_answer(code, words, part, output);
    hand_over(recorded, written)
}

// An answer's line, read together with the operation that it answers.
#[unsafe(no_mangle)]
pub extern "C" fn zatovola_read_answer(
    code: u8,
    line: &[u8],
    bytes: &mut [u8],
    words: &mut [u64; MOST_WORDS],
) -> u8
    ensures { AnswersRead
        (λ read. ReadsLine code line.now bytes.old bytes.new words.old words.new read) result }
{
    let read = recorder::answer_reader::read_answer(code, line, bytes, words);
    number_of_read(read)
}

// An answer's bytes, in the same way.
#[unsafe(no_mangle)]
pub extern "C" fn zatovola_read_answer_bytes(
    code: u8,
    bytes: &[u8],
    words: &mut [u64; MOST_WORDS],
) -> u8
    ensures { AnswersRead
        (λ read. ReadsAnswer (answer_of_bytes code bytes.now) words.old words.new read) result }
{
    let read = recorder::answer_reader::read_answer_bytes(code, bytes, words);
    number_of_read(read)
}
