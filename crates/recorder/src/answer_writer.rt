// An answer as its line, from its number, a word for each value that it carries, and the name or the snapshot among them. 23 comes first, then 19, then 22.
ghost use Rattle.std.specs.Prelude.{◌≡◌, cond, false, ◌||◌, List, ◌++◌, ℕ, ◌≤◌, ltb, length, drop, get_or};
ghost use Rattle.refusals.specs.declared.Refusal.TheVariants.{NameTooLong, BadFrame};
ghost use Rattle.rules.specs.AccountRules.{is_too_long};
ghost use Rattle.rules.specs.Frames.{reply_bytes, line_of_bytes};
ghost use Rattle.rules.specs.Recorder.{fitting, line_in, record_answer};
ghost use Rattle.answer_bytes.specs.Sizes.{longest_other_answer};
ghost use Rattle.answer_bytes.specs.Writing.{WritesReply};
ghost use Rattle.recorder.specs.Recording.{Records};
ghost use Rattle.recorder.specs.Shapes.{kinds_of};
ghost use Rattle.recorder.specs.AnswerWords.{judged_as, head_of, tail_of, Writable};

use crate::answer_table::{LAST_NUMBER, Shape, shape_of};
use crate::{Line, MOST_WORDS, Text};
use answer_bytes::{
    LONGEST_OTHER_ANSWER, write_named, write_named_field, write_named_word, write_number,
    write_three_words, write_two_words, write_word,
};
use refusals::Refusal;

const LARGEST_FIELD: u64 = 255;

const YES: u64 = 1;

// A name of at most 24 bytes, with a field's number or 0.
fn judge_name(field: u64, name: &[u8]) -> Result<(), Refusal>
    ensures { result
        ≡ cond (ltb 255 field || false) (Err BadFrame)
        (cond (is_too_long name.now || false) (Err NameTooLong) (Ok tt)) }
{
    if LARGEST_FIELD < field {
        return Err(Refusal::BadFrame);
    }
    if rules::LONGEST_NAME < name.len() {
        return Err(Refusal::NameTooLong);
    }
    Ok(())
}

// Yes is 1 and no is 0.
fn judge_flags(first: u64, second: u64) -> Result<(), Refusal>
    ensures { result ≡ cond (ltb 1 first || (ltb 1 second || false)) (Err BadFrame) (Ok tt) }
{
    if YES < first {
        return Err(Refusal::BadFrame);
    }
    if YES < second {
        return Err(Refusal::BadFrame);
    }
    Ok(())
}

fn judge(shape: Shape, words: &[u64; MOST_WORDS], part: &[u8]) -> Result<(), Refusal>
    ensures { result ≡ judged_as (kinds_of shape) words.now part.now }
{
    match shape {
        Shape::Nothing | Shape::Word | Shape::TwoWords | Shape::ThreeWords => Ok(()),
        Shape::Named | Shape::NamedWord => judge_name(0, part),
        Shape::NamedField => judge_name(words[2], part),
        Shape::Snapshot => snapshot_reader::check(part),
        Shape::Certificate => judge_flags(words[4], words[7]),
        Shape::Proof => judge_flags(words[6], 0),
    }
}

fn write_certificate(words: &[u64; MOST_WORDS], head: &mut [u8]) -> usize
    requires { (longest_other_answer ≤ length head.old) × (get_or words.now 4 0 ≤ 1) × (get_or words.now 7 0 ≤ 1) }
    ensures { (part : List ℕ) → WritesReply (head_of (kinds_of Shape.Certificate) 0 words.now part)
        head.old head.new result }
{
    let balanced = words[4] as u8;
    let representable = words[7] as u8;
    answer_bytes::write_certificate(
        head,
        words[1],
        words[2],
        words[3],
        balanced,
        words[5],
        words[6],
        representable,
        words[8],
    )
}

fn write_proof(words: &[u64; MOST_WORDS], head: &mut [u8]) -> usize
    requires { (longest_other_answer ≤ length head.old) × (get_or words.now 6 0 ≤ 1) }
    ensures { (part : List ℕ) → WritesReply (head_of (kinds_of Shape.Proof) 0 words.now part)
        head.old head.new result }
{
    let proved = words[6] as u8;
    answer_bytes::write_proof(
        head, words[1], words[2], words[3], words[4], words[5], proved,
    )
}

// All but a snapshot, which stands where it is lent.
fn write_head(
    shape: Shape,
    number: u8,
    words: &[u64; MOST_WORDS],
    part: &[u8],
    head: &mut [u8],
) -> usize
    requires { (longest_other_answer ≤ length head.old) × Writable (kinds_of shape) number words.now part.now }
    ensures { WritesReply (head_of (kinds_of shape) number words.now part.now)
        head.old head.new result }
{
    match shape {
        Shape::Nothing => write_number(head, number),
        Shape::Word => write_word(head, number, words[1]),
        Shape::TwoWords => write_two_words(head, number, words[1], words[2]),
        Shape::ThreeWords => write_three_words(head, number, words[1], words[2], words[3]),
        Shape::Named => write_named(head, number, names::name_of(part)),
        Shape::NamedWord => write_named_word(head, number, names::name_of(part), words[2]),
        Shape::NamedField => write_named_field(
            head,
            number,
            names::name_of(part),
            words[2] as u8,
            words[3],
        ),
        Shape::Snapshot => write_number(head, number),
        Shape::Certificate => write_certificate(words, head),
        Shape::Proof => write_proof(words, head),
    }
}

// Where in the part that stands behind the head: a snapshot is all of it, and else there is nothing.
fn tail_start(shape: Shape, size: usize) -> usize
    ensures { (result ≤ size) × ((part : List ℕ) → length part ≡ size → drop result part ≡ tail_of (kinds_of shape) part) }
{
    match shape {
        Shape::Snapshot => 0,
        _ => size,
    }
}

fn write_judged(
    shape: Shape,
    number: u8,
    words: &[u64; MOST_WORDS],
    part: &[u8],
    output: &mut [u8],
) -> Result<usize, Refusal>
    requires { Writable (kinds_of shape) number words.now part.now }
    ensures { Records (fitting (line_of_bytes (reply_bytes (head_of (kinds_of shape) number words.now part.now)
        ++ tail_of (kinds_of shape) part.now)) output.old) output.new result }
{
    let mut head = [0u8; LONGEST_OTHER_ANSWER];
    let size = write_head(shape, number, words, part, &mut head);
    let start = tail_start(shape, part.len());
    Line::put(&head[..size], &part[start..], output)
}

pub fn write_answer(
    code: u8,
    words: &[u64; MOST_WORDS],
    part: &[u8],
    output: &mut [u8],
) -> Result<usize, Refusal>
    ensures { Records (record_answer line_in code words.now part.now output.old) output.new result }
{
    let number = words[0];
    if LAST_NUMBER < number {
        return Err(Refusal::BadFrame);
    }
    let Some(shape) = shape_of(code, number) else {
        return Err(Refusal::BadFrame);
    };
    judge(shape, words, part)?;
    write_judged(shape, number as u8, words, part, output)
}
