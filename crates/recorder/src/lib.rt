// Operations and answers as lines, and answers read back (document 02, L1), on numbers and lent bytes. A name or a snapshot is lent as it is, and spelled from where it
// stands.

#![tactic(auto)]

pub mod answer_reader;
mod answer_table;
pub mod answer_writer;
pub mod operations;

ghost use Rattle.std.specs.Prelude.{◌+◌, ◌≤◌, ◌++◌, List, ℕ, length};
ghost use Rattle.rules.specs.Frames.{longest_frame, line_of_bytes};
ghost use Rattle.rules.specs.Recorder.{fitting};
ghost use Rattle.recorder.specs.Recording.{Records};

// An answer in words: its number, and one for each value that it carries.
pub const MOST_WORDS: usize = 1 + 8;

use refusals::Refusal;

// How bytes are put out: those that were put together, and behind them those that were lent.
pub trait Text {
    ghost text: { List ℕ → List ℕ };

    fn put(head: &[u8], tail: &[u8], output: &mut [u8]) -> Result<usize, Refusal>
        requires { length head.now + length tail.now ≤ longest_frame }
        ensures { Records (fitting (text (head.now ++ tail.now)) output.old) output.new result };
}

// Two digits for each byte.
pub struct Line;

// The bytes as they are.
pub struct Bytes;

impl Text for Line {
    ghost text = { line_of_bytes };

    fn put(head: &[u8], tail: &[u8], output: &mut [u8]) -> Result<usize, Refusal> {
        let middle = head.len() + head.len();
        let end = middle + tail.len() + tail.len();
        if output.len() < end {
            return Err(Refusal::OutputTooShort);
        }
        digits::spell_part(head, output);
        digits::spell_part(tail, &mut output[middle..]);
        Ok(end)
    }
}

impl Text for Bytes {
    ghost text = { λ bs. bs };

    fn put(head: &[u8], tail: &[u8], output: &mut [u8]) -> Result<usize, Refusal> {
        let middle = head.len();
        let end = middle + tail.len();
        if output.len() < end {
            return Err(Refusal::OutputTooShort);
        }
        numbers::copy(head, output);
        numbers::copy(tail, &mut output[middle..]);
        Ok(end)
    }
}
