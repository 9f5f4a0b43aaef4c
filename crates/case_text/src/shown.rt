// What standard output shows: a line of the input and its answer. What cannot be written is left out: the program's stored output shows it.
ghost use Rattle.std.specs.Prelude.{◌≤◌, length};

use answer_bytes::LONGEST_OTHER_ANSWER;
use std::io::Write;

const WORD_SIZE: usize = 8;

// How many bytes are shown at a time.
const PIECE_SIZE: usize = 64;

pub fn text(rt: &HostRuntime, characters: &[u8]) {
    let _ = rt.stdout().write_all(characters);
}

pub fn natural(rt: &HostRuntime, number: u64) {
    let _ = print!(rt; "{number}");
}

pub fn echo(rt: &HostRuntime, line: &[u8]) {
    text(rt, line);
    text(rt, b": ");
}

// A byte as two digits.
pub fn byte(rt: &HostRuntime, value: u8) {
    let mut digits = [value, 0];
    digits::spell(&mut digits, 1);
    text(rt, &digits);
}

// The bytes of one piece are spelled, and then written as one text.
fn piece(rt: &HostRuntime, values: &[u8])
    requires { length values.now ≤ 64 }
{
    let mut digits = [0u8; 2 * PIECE_SIZE];
    digits::spell_part(values, &mut digits);
    text(rt, &digits[..2 * values.len()]);
}

pub fn bytes(rt: &HostRuntime, values: &[u8]) {
    for values in values.chunks(PIECE_SIZE) {
        piece(rt, values);
    }
}

// An answer's number, and each word behind it as an amount.
pub fn decimals(rt: &HostRuntime, answer: &[u8]) {
    let Some((number, words)) = answer.split_first() else {
        return;
    };
    let _ = print!(rt; "{number}");
    for word in words.chunks_exact(WORD_SIZE) {
        let amount = big_endian::signed(big_endian::read8(word)).0;
        let _ = print!(rt; " {amount}");
    }
}

// The answer stands at the front of the room for it, and is shown as it is asked for; false where there is none.
pub fn answered<F: FnOnce(&HostRuntime, &[u8])>(
    rt: &HostRuntime,
    line: &[u8],
    answer: &[u8; LONGEST_OTHER_ANSWER],
    size: Option<usize>,
    show: F,
) -> bool
    requires { F.IsAlwaysCallable show }
{
    let Some(size) = size else {
        return false;
    };
    if size < 1 || LONGEST_OTHER_ANSWER < size {
        return false;
    }
    echo(rt, line);
    show(rt, &answer[..size]);
    text(rt, b"\n");
    true
}
