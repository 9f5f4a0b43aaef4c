// Lines of digits to answer lines: one line, or a batch that asks once whether the memory is the room of a sound ledger.

#![tactic(auto)]

ghost use Rattle.std.specs.Prelude.{◌≡◌, List, ◌∷◌, ◌++◌, ℕ, ◌+◌, ◌≤◌, ◌<◌, length, take, drop};
ghost use Rattle.std.proofs.Math.Option.{none};
ghost use Rattle.rules.specs.Frames.{longest_line, line_feed, line_of_bytes, operation_of_frame, operation_of_line};
ghost use Rattle.frames.specs.Answering.{Known};
ghost use Rattle.lines.specs.Batching.{PromisesLine, Ready, FirstFeed, NextFound, PromisesNext, PromisesBatch, ProgressWithin};

use frame_reader::LONGEST_FRAME;
use frames::{LONGEST_LINE, LONGEST_OTHER_LINE};
use refusals::Refusal;

pub const LINE_FEED: u8 = 10;

// What comes of an input's first line: where its line feed stands and how many characters of its answer line were written.
#[derive(Clone, Copy)]
pub struct Answered {
    pub end: usize,
    pub size: usize,
}

// How much of the input was answered, and how much output was written.
#[derive(Clone, Copy)]
pub struct Progress {
    pub used: usize,
    pub written: usize,
}

// An answer's bytes become its line, and the line feed ends it.
fn finish(output: &mut [u8], size: usize) -> usize
    requires { size + size < length output.old }
    ensures end { result ≡ size + size + 1 }
    ensures line { output.new ≡ line_of_bytes (take size output.old) ++ (line_feed ∷ drop result output.old) }
{
    digits::spell(output, size);
    let end = size + size;
    output[end] = LINE_FEED;
    end + 1
}

// A frame's bytes. Only the room for its longest answer is lent on, so that the answer is no longer.
fn answer_frame(room: &mut [u8], known: bool, bytes: &[u8], output: &mut [u8]) -> Option<usize>
    requires { Known known room.old }
    ensures { PromisesLine (operation_of_frame bytes.now)
        room.old room.new output.old output.new result }
{
    let frame = frame_reader::read(bytes);
    let needed = frames::room_for(frame);
    if output.len() < needed + needed + 1 {
        return None;
    }
    let size = frames::answer(room, known, bytes, frame, &mut output[..needed]);
    Some(finish(output, size))
}

// A line that is no frame, or longer than any.
fn answer_no_frame(output: &mut [u8]) -> Option<usize>
    ensures { (room : List ℕ) → PromisesLine none room room output.old output.new result }
{
    if output.len() < LONGEST_OTHER_LINE {
        return None;
    }
    let size = answers::write_refusal(output, Refusal::BadFrame);
    Some(finish(output, size))
}

// A line on memory of which it is known whether it is the room of a sound ledger. The frame's bytes stand in the work room.
fn answer_line(
    room: &mut [u8],
    known: bool,
    line: &[u8],
    work: &mut [u8],
    output: &mut [u8],
) -> Option<usize>
    requires { Ready known room.old work.old }
    ensures { PromisesLine (operation_of_line line.now)
        room.old room.new output.old output.new result }
{
    if LONGEST_LINE < line.len() {
        return answer_no_frame(output);
    }
    let Some(size) = digits::bytes_of_line(line, work) else {
        return answer_no_frame(output);
    };
    answer_frame(room, known, &work[..size], output)
}

// One line, for any memory, any characters and any output.
pub fn answer(room: &mut [u8], line: &[u8], output: &mut [u8]) -> Option<usize>
    ensures { PromisesLine (operation_of_line line.now)
        room.old room.new output.old output.new result }
{
    let known = soundness::is_sound(room);
    let mut work = [0u8; LONGEST_FRAME];
    answer_line(room, known, line, &mut work, output)
}

pub fn line_end(input: &[u8], from: usize) -> Option<usize>
    requires { from ≤ length input.now }
    ensures { FirstFeed input.now from result }
{
    for at in from..input.len() {
        if input[at] == LINE_FEED {
            return Some(at);
        }
    }
    None
}

// No longer line is decoded.
fn front_limit(size: usize) -> usize
    ensures { (result ≤ size) × (result ≤ longest_line) × ((end : ℕ) → end ≤ size → end ≤ longest_line → end ≤ result) }
{
    size.min(LONGEST_LINE)
}

// The input's first line, each character read once: the line feed is looked for behind the digits, and a line that goes on behind them is no frame.
fn answer_next(
    room: &mut [u8],
    known: bool,
    input: &[u8],
    work: &mut [u8],
    output: &mut [u8],
) -> Option<Answered>
    requires { Ready known room.old work.old }
    ensures found { NextFound input.now result }
    ensures answered { PromisesNext input.now
        room.old room.new output.old output.new result }
{
    let limit = front_limit(input.len());
    let size = digits::front_bytes(&input[..limit], work);
    let from = size + size;
    let end = line_end(input, from)?;
    let size = if from < end {
        answer_no_frame(output)?
    } else {
        answer_frame(room, known, &work[..size], output)?
    };
    Some(Answered { end, size })
}

// Line after line, each whole, until none is left or the next one's answer might not fit.
fn answer_lines(
    room: &mut [u8],
    known: bool,
    input: &[u8],
    work: &mut [u8],
    output: &mut [u8],
) -> Progress
    requires { Ready known room.old work.old }
    ensures batches { PromisesBatch input.now
        room.old room.new output.old output.new result }
    ensures within { ProgressWithin input.now output.old result }
{
    let mut used = 0;
    let mut written = 0;
    while used < input.len() {
        let Some(answered) = answer_next(room, known, &input[used..], work, &mut output[written..])
        else {
            return Progress { used, written };
        };
        used += answered.end + 1;
        written += answered.size;
    }
    Progress { used, written }
}

// A batch. Soundness is asked once, and one work room serves all lines.
pub fn batch(room: &mut [u8], input: &[u8], output: &mut [u8]) -> Progress
    ensures batches { PromisesBatch input.now
        room.old room.new output.old output.new result }
    ensures within { ProgressWithin input.now output.old result }
{
    let known = soundness::is_sound(room);
    let mut work = [0u8; LONGEST_FRAME];
    answer_lines(room, known, input, &mut work, output)
}
