// Lowercase hexadecimal: a line of digits to bytes, and bytes to a line of digits.

#![tactic(auto)]

mod table;

ghost use Rattle.std.specs.Prelude.{◌≡◌, ◌++◌, ◌*◌, ◌+◌, ◌≤◌, ◌<◌, length, take, drop};
ghost use Rattle.rules.specs.Frames.{digit_of, bytes_of_line, character_of, line_of_bytes};
ghost use Rattle.digits.specs.Tables.{Gives};
ghost use Rattle.digits.specs.Decoding.{Decodes, FrontDecoded};

use crate::table::{CHARACTER, DIGIT};

fn digit(table: &[u8; 256], character: u8) -> u8
    requires { Gives digit_of 256 table.now }
    ensures { result ≡ digit_of character }
{
    table[character as usize]
}

// Document 01, "The shape of some places": by shifts.
fn join(high: u8, low: u8) -> u8
    requires { (high < 16) × (low < 16) }
    ensures { result ≡ high * 16 + low }
{
    high << 4 | low
}

// In one pass, the pairs of digits at the line's front, up to the first pair that is none. The bytes stand at the front of the lent room.
pub fn front_bytes(line: &[u8], bytes: &mut [u8]) -> usize
    requires { length line.now ≤ 2 * length bytes.old }
    ensures { FrontDecoded line.now bytes.old bytes.new result }
{
    let table = DIGIT;
    for (i, pair) in line.chunks_exact(2).enumerate() {
        let high = digit(&table, pair[0]);
        let low = digit(&table, pair[1]);
        if 15 < high || 15 < low {
            return i;
        }
        bytes[i] = join(high, low);
    }
    line.len() / 2
}

// Document 01, "Frames": all of the line is pairs of digits, or it is no frame.
pub fn bytes_of_line(line: &[u8], bytes: &mut [u8]) -> Option<usize>
    requires { length line.now ≤ 2 * length bytes.old }
    ensures { Decodes (bytes_of_line line.now) bytes.old bytes.new result }
{
    let size = front_bytes(line, bytes);
    if size + size < line.len() {
        return None;
    }
    Some(size)
}

fn character(table: &[u8; 16], digit: u8) -> u8
    requires table { Gives character_of 16 table.now }
    requires within { digit < 16 }
    ensures { result ≡ character_of digit }
{
    table[digit as usize]
}

// The bytes at the front become their line where they stand: from the last one back, so that none is overwritten before it is read.
pub fn spell(output: &mut [u8], size: usize)
    requires { size + size ≤ length output.old }
    ensures { output.new ≡ line_of_bytes (take size output.old) ++ drop (size + size) output.old }
{
    let table = CHARACTER;
    for i in (0..size).rev() {
        let byte = output[i];
        output[2 * i + 1] = character(&table, byte % 16);
        output[2 * i] = character(&table, byte / 16);
    }
}

// Bytes that stand apart from their line, as those of a part of an answer do: what stood behind the line is kept.
pub fn spell_part(bytes: &[u8], output: &mut [u8])
    requires { length bytes.now + length bytes.now ≤ length output.old }
    ensures { output.new
        ≡ line_of_bytes bytes.now ++ drop (length bytes.now + length bytes.now) output.old }
{
    let table = CHARACTER;
    for (i, byte) in bytes.iter().enumerate() {
        output[2 * i + 1] = character(&table, *byte % 16);
        output[2 * i] = character(&table, *byte / 16);
    }
}
