// Reading and writing, turn by turn. Which lines are whole, what is held and what is answered is the crate `turns`'.
ghost use Rattle.std.specs.Prelude.{◌≤◌, ◌<◌, length, IfSome};
ghost use Rattle.turns.specs.Turns.{Within, longest_answer_line};
ghost use Rattle.house.specs.Desk.{ReadyToRead};

use std::io::{Read, Write};
use turns::{Held, Turn};

// A failed read or write ends the program, which says so.
fn complain(rt: &HostRuntime, words: &[u8]) {
    let _ = rt.stderr().write_all(words);
}

// Whether the answers were written.
fn written(rt: &HostRuntime, answers: &[u8]) -> bool {
    let done = rt.stdout().write_all(answers).is_ok();
    if !done {
        complain(rt, b"house: the answers cannot be written\n");
    }
    done
}

// All that was read is answered, and the answers are written as they come. What is held then, or nothing where they cannot be written.
fn answer(
    rt: &HostRuntime,
    room: &mut [u8],
    input: &mut [u8],
    output: &mut [u8],
    held: Held,
) -> Option<Held>
    requires { Within input.old held × (0 < length input.old) × (longest_answer_line ≤ length output.old) }
    ensures { IfSome result (ReadyToRead (length input.old)) }
{
    let mut turn = Turn {
        held,
        written: 0,
        done: false,
    };
    while !turn.done {
        let held = turn.held;
        turn = turns::answer(room, input, held, output);
        let size = turn.written;
        if !written(rt, &output[..size]) {
            return None;
        }
    }
    Some(turn.held)
}

// The end of the input: what it ends with, when it ends in no line feed.
fn close(rt: &HostRuntime, room: &mut [u8], input: &[u8], output: &mut [u8], held: Held)
    requires { Within input.now held × (longest_answer_line ≤ length output.old) }
{
    let size = turns::last(room, input, held, output);
    written(rt, &output[..size]);
}

// One read, and the answers to every whole line that it brought: what is held then, or nothing where the input has ended. A read that fails ends no input: what is held may be the beginning of a line, and is not
// answered.
fn turn(
    rt: &HostRuntime,
    room: &mut [u8],
    input: &mut [u8],
    output: &mut [u8],
    held: Held,
) -> Option<Held>
    requires { ReadyToRead (length input.old) held × (longest_answer_line ≤ length output.old) }
    ensures { IfSome result (ReadyToRead (length input.old)) }
{
    let end = held.end;
    match rt.stdin().read(&mut input[end..]) {
        Err(_) => {
            complain(rt, b"house: the input cannot be read\n");
            None
        }
        Ok(0) => {
            close(rt, room, input, output, held);
            None
        }
        Ok(count) => {
            let held = turns::brought(input, held, count);
            answer(rt, room, input, output, held)
        }
    }
}

// A proved loop has to end, and nothing says that the input does: the turns are counted down from a number that no run uses up.
pub fn open(rt: &HostRuntime, room: &mut [u8], input: &mut [u8], output: &mut [u8])
    requires { (0 < length input.old) × (longest_answer_line ≤ length output.old) }
{
    let mut held = turns::start();
    for _ in 0..u64::MAX {
        let Some(next) = turn(rt, room, input, output, held) else {
            return;
        };
        held = next;
    }
}
