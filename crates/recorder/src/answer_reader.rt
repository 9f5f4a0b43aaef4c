// An answer's bytes as words, together with the operation that it answers (document 02, L1): the table says by code and number what is carried, and the bytes must be just
// that. A name and a snapshot are left where they stand, and their word is their length.
ghost use Rattle.std.specs.Prelude.{◌≡◌, [], ◌∷◌, ◌+◌, ◌≤◌, ◌<◌, length, get_or, take, drop};
ghost use Rattle.std.proofs.Math.Option.{some};
ghost use Rattle.rules.specs.SnapshotsMigrationCertificates.{number_of};
ghost use Rattle.rules.specs.Recorder.{answer_of_bytes};
ghost use Rattle.recorder.specs.Shapes.{a_word, a_byte, a_flag, a_name, a_snapshot, kinds_of};
ghost use Rattle.recorder.specs.Reading.{HasNumber, values_in, Carries, NameEnds, ReadsAnswer, ReadsLine};

use crate::answer_table::Shape;
use crate::{MOST_WORDS, answer_table};
use answer_bytes::{
    BALANCED_END, COMMITTED_END, INITIAL_END, LONGEST_OTHER_ANSWER, ONE_WORD, PROOF_SIZE,
    PROVED_COMMITTED_END, PROVED_INITIAL_END, REPRESENTABLE_END, THREE_WORDS, TWO_WORDS,
};
use refusals::Refusal;

const NAME_START: usize = 1 + 1;

const FIELD_AND_WORD: usize = 1 + 8;

const YES: u64 = 1;

// What an answer carries, a word for each value, and zero for none.
type Values = [u64; MOST_WORDS - 1];

fn up_to_three(first: u64, second: u64, third: u64) -> Option<Values>
    ensures { values_in result ≡ some (first ∷ second ∷ third ∷ 0 ∷ 0 ∷ 0 ∷ 0 ∷ 0 ∷ []) }
{
    Some([first, second, third, 0, 0, 0, 0, 0])
}

fn word_at(bytes: &[u8], from: usize) -> u64
    requires { from + 8 ≤ length bytes.now }
    ensures { result ≡ number_of (take 8 (drop from bytes.now)) }
{
    let end = from + 8;
    big_endian::read8(&bytes[from..end])
}

fn byte_at(bytes: &[u8], place: usize) -> u64
    requires { place < length bytes.now }
    ensures { result ≡ get_or bytes.now place 0 }
{
    bytes[place] as u64
}

fn read_nothing(bytes: &[u8]) -> Option<Values>
    requires { HasNumber bytes.now }
    ensures { Carries [] bytes.now result }
{
    if bytes.len() != 1 {
        return None;
    }
    up_to_three(0, 0, 0)
}

fn read_word(bytes: &[u8]) -> Option<Values>
    requires { HasNumber bytes.now }
    ensures { Carries (a_word ∷ []) bytes.now result }
{
    if bytes.len() != ONE_WORD {
        return None;
    }
    up_to_three(word_at(bytes, 1), 0, 0)
}

fn read_two_words(bytes: &[u8]) -> Option<Values>
    requires { HasNumber bytes.now }
    ensures { Carries (a_word ∷ a_word ∷ []) bytes.now result }
{
    if bytes.len() != TWO_WORDS {
        return None;
    }
    up_to_three(word_at(bytes, 1), word_at(bytes, ONE_WORD), 0)
}

fn read_three_words(bytes: &[u8]) -> Option<Values>
    requires { HasNumber bytes.now }
    ensures { Carries (a_word ∷ a_word ∷ a_word ∷ []) bytes.now result }
{
    if bytes.len() != THREE_WORDS {
        return None;
    }
    up_to_three(
        word_at(bytes, 1),
        word_at(bytes, ONE_WORD),
        word_at(bytes, TWO_WORDS),
    )
}

// Behind the number stands the length of a name, which no place holds where it is more than 24.
fn name_end(bytes: &[u8]) -> Option<usize>
    ensures { NameEnds bytes.now result }
{
    if bytes.len() < NAME_START {
        return None;
    }
    let size = bytes[1] as usize;
    if rules::LONGEST_NAME < size {
        return None;
    }
    Some(NAME_START + size)
}

fn read_name(bytes: &[u8]) -> Option<Values>
    requires { HasNumber bytes.now }
    ensures { Carries (a_name ∷ []) bytes.now result }
{
    let end = name_end(bytes)?;
    if bytes.len() != end {
        return None;
    }
    up_to_three((end - NAME_START) as u64, 0, 0)
}

fn read_name_and_word(bytes: &[u8]) -> Option<Values>
    requires { HasNumber bytes.now }
    ensures { Carries (a_name ∷ a_word ∷ []) bytes.now result }
{
    let end = name_end(bytes)?;
    if bytes.len() != end + 8 {
        return None;
    }
    up_to_three((end - NAME_START) as u64, word_at(bytes, end), 0)
}

fn read_name_and_field(bytes: &[u8]) -> Option<Values>
    requires { HasNumber bytes.now }
    ensures { Carries (a_name ∷ a_byte ∷ a_word ∷ []) bytes.now result }
{
    let end = name_end(bytes)?;
    if bytes.len() != end + FIELD_AND_WORD {
        return None;
    }
    up_to_three(
        (end - NAME_START) as u64,
        byte_at(bytes, end),
        word_at(bytes, end + 1),
    )
}

fn read_snapshot(bytes: &[u8]) -> Option<Values>
    requires { HasNumber bytes.now }
    ensures { Carries (a_snapshot ∷ []) bytes.now result }
{
    snapshot_reader::check(&bytes[1..]).ok()?;
    up_to_three((bytes.len() - 1) as u64, 0, 0)
}

// Either yes or no is a byte of 0 or 1.
fn read_certificate(bytes: &[u8]) -> Option<Values>
    requires { HasNumber bytes.now }
    ensures { Carries (a_word ∷ a_word ∷ a_word ∷ a_flag ∷ a_word ∷ a_word ∷ a_flag ∷ a_word ∷ []) bytes.now result }
{
    if bytes.len() != LONGEST_OTHER_ANSWER {
        return None;
    }
    let balanced = byte_at(bytes, THREE_WORDS);
    if YES < balanced {
        return None;
    }
    let representable = byte_at(bytes, COMMITTED_END);
    if YES < representable {
        return None;
    }
    Some([
        word_at(bytes, 1),
        word_at(bytes, ONE_WORD),
        word_at(bytes, TWO_WORDS),
        balanced,
        word_at(bytes, BALANCED_END),
        word_at(bytes, INITIAL_END),
        representable,
        word_at(bytes, REPRESENTABLE_END),
    ])
}

fn read_proof(bytes: &[u8]) -> Option<Values>
    requires { HasNumber bytes.now }
    ensures { Carries (a_word ∷ a_word ∷ a_word ∷ a_word ∷ a_word ∷ a_flag ∷ []) bytes.now result }
{
    if bytes.len() != PROOF_SIZE {
        return None;
    }
    let proved = byte_at(bytes, PROVED_COMMITTED_END);
    if YES < proved {
        return None;
    }
    Some([
        word_at(bytes, 1),
        word_at(bytes, ONE_WORD),
        word_at(bytes, TWO_WORDS),
        word_at(bytes, THREE_WORDS),
        word_at(bytes, PROVED_INITIAL_END),
        proved,
        0,
        0,
    ])
}

fn read_carried(shape: Shape, bytes: &[u8]) -> Option<Values>
    requires { HasNumber bytes.now }
    ensures { Carries (kinds_of shape) bytes.now result }
{
    match shape {
        Shape::Nothing => read_nothing(bytes),
        Shape::Word => read_word(bytes),
        Shape::TwoWords => read_two_words(bytes),
        Shape::ThreeWords => read_three_words(bytes),
        Shape::Named => read_name(bytes),
        Shape::NamedWord => read_name_and_word(bytes),
        Shape::NamedField => read_name_and_field(bytes),
        Shape::Snapshot => read_snapshot(bytes),
        Shape::Certificate => read_certificate(bytes),
        Shape::Proof => read_proof(bytes),
    }
}

fn store(number: u8, values: Values, words: &mut [u64; MOST_WORDS])
    ensures { words.new ≡ number ∷ values }
{
    let [first, second, third, fourth, fifth, sixth, seventh, eighth] = values;
    *words = [
        number as u64,
        first,
        second,
        third,
        fourth,
        fifth,
        sixth,
        seventh,
        eighth,
    ];
}

// The words are stored once, at the end: bytes that are no answer leave them as they were.
pub fn read_answer_bytes(
    code: u8,
    bytes: &[u8],
    words: &mut [u64; MOST_WORDS],
) -> Result<(), Refusal>
    ensures { ReadsAnswer (answer_of_bytes code bytes.now) words.old words.new result }
{
    if bytes.len() == 0 {
        return Err(Refusal::BadFrame);
    }
    let number = bytes[0];
    let Some(shape) = answer_table::shape_of(code, number as u64) else {
        return Err(Refusal::BadFrame);
    };
    let Some(values) = read_carried(shape, bytes) else {
        return Err(Refusal::BadFrame);
    };
    store(number, values, words);
    Ok(())
}

// The line's bytes are put into the lent ones, and read there. An odd character is no pair of digits, so half of a line is rounded up.
pub fn read_answer(
    code: u8,
    line: &[u8],
    bytes: &mut [u8],
    words: &mut [u64; MOST_WORDS],
) -> Result<(), Refusal>
    ensures { ReadsLine code line.now bytes.old bytes.new words.old words.new result }
{
    if bytes.len() < line.len() - line.len() / 2 {
        return Err(Refusal::OutputTooShort);
    }
    let size = digits::front_bytes(line, bytes);
    if size + size < line.len() {
        return Err(Refusal::BadFrame);
    }
    read_answer_bytes(code, &bytes[..size], words)
}
