// The ledger for programs in C and Rust: numbers and lent bytes in, numbers out. In C a slice is a pointer and a length (bindings/zatovola.h). None of these
// functions asks anything of its caller.

#![tactic(auto)]

mod ledger_reads;
mod recorder_calls;

ghost use Rattle.std.specs.Prelude.{◌≡◌, []};
ghost use Rattle.rules.specs.RoomAndSoundLedger.{made};
ghost use Rattle.rules.specs.AnswerNumbers.{reply};
ghost use Rattle.rules.specs.Frames.{operation_of_frame};
ghost use Rattle.soundness.specs.Making.{made_in, Makes};
ghost use Rattle.lines.specs.Batching.{PromisesBatch, ProgressWithin};
ghost use Rattle.zatovola.specs.Interface.{bytes_of_room, PromisesFrame, progress};

// Sizes, in the width that they have in C.
const MOST_NAMES: u64 = rules::MOST_NAMES as u64;

const MOST_RESERVATIONS: u64 = rules::MOST_RESERVATIONS as u64;

const HEAD_SIZE: u64 = records::HEAD_SIZE as u64;

const PLACE_SIZE: u64 = records::PLACE_SIZE as u64;

const BOOKING_SIZE: u64 = records::BOOKING_SIZE as u64;

// How many bytes the room for T names and R reservations takes, or 0 where T or R is out of range.
#[unsafe(no_mangle)]
pub extern "C" fn zatovola_room_size(names: u64, reservations: u64) -> u64
    ensures { result ≡ bytes_of_room (made names reservations) }
{
    if names == 0 || MOST_NAMES < names {
        return 0;
    }
    if reservations == 0 || MOST_RESERVATIONS < reservations {
        return 0;
    }
    HEAD_SIZE + PLACE_SIZE * names + BOOKING_SIZE * reservations
}

// A fresh ledger in the whole of the lent room: 0, or 24 and nothing changed where T or R is out of range or the room is of another size.
#[unsafe(no_mangle)]
pub extern "C" fn zatovola_make(room: &mut [u8], names: u64, reservations: u64) -> u8
    ensures { Makes (made_in room.old (made names reservations)) room.old (reply result []) room.new }
{
    match soundness::make(room, names, reservations) {
        Ok(()) => 0,
        Err(refusal) => refusal.number(),
    }
}

// A frame's bytes to its answer's bytes, and how many these are: 0, and nothing changed, where the output has no room for the longest answer to this frame.
#[unsafe(no_mangle)]
pub extern "C" fn zatovola_answer(room: &mut [u8], frame: &[u8], output: &mut [u8]) -> usize
    ensures { PromisesFrame (operation_of_frame frame.now)
        room.old room.new output.old output.new result }
{
    let read = frame_reader::read(frame);
    if output.len() < frames::room_for(read) {
        return 0;
    }
    let known = soundness::is_sound(room);
    frames::answer(room, known, frame, read, output)
}

// Whole lines to their answer lines, soundness asked once: how much output was written, and through `used` how much of the input was answered.
#[unsafe(no_mangle)]
pub extern "C" fn zatovola_batch(
    room: &mut [u8],
    input: &[u8],
    output: &mut [u8],
    used: &mut usize,
) -> usize
    ensures batches { PromisesBatch input.now
        room.old room.new output.old output.new (progress used.new result) }
    ensures within { ProgressWithin input.now output.old (progress used.new result) }
{
    let answered = lines::batch(room, input, output);
    *used = answered.used;
    answered.written
}
