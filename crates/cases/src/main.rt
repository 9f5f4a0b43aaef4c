// Runs the cases of its standard input, a line each, and writes what each was answered: the line, a colon, and the answer. To add a case, add lines to
// `stdin` and the lines that they are answered with to `stdout`. Words are parted by one space.
//
//   -- TEXT                              a heading, written as it is
//
// These write nothing:
//
//   memory SIZE BYTE                     so many bytes of this value are lent as the ledger's memory from here on
//   damage AT BYTE                       one byte of them is changed
//   output SIZE BYTE                     the same for the output
//   supplied HEX                         the bytes of a supplied snapshot: version, active count, row count, and rows of name, initial, remaining,
//                                        reserved, committed
//   line TEXT                            TEXT and a line feed are added behind the supplied bytes, for a batch
//
// These are answered in decimal, by the answer's number and what it carries. A name may have spaces in it where an amount follows:
//
//   make NAMES RESERVATIONS
//   ensure NAME AMOUNT, top-up NAME AMOUNT, limit NAME AMOUNT, reserve NAME COST, commit ID ACTUAL, release ID
//   remaining NAME, initial NAME, committed NAME, reserved NAME
//   committed-total, accounts, live, last-version, committed-since
//
// These in hexadecimal, as an answer line has it, but for the size of a snapshot that was taken:
//
//   snapshot, restore, recovery-restore, migrate FENCE, status, certificate, certificate-of SINCE, proof
//   show-memory FROM END, show-output FROM END
//
// And by the answer lines, with their sums behind them:
//
//   batch SIZE                           the supplied bytes come in pieces of this size, and what a batch leaves comes again with the next
//
// Any other line, or one with a number missing or out of range, is written behind `?? `.

#![tactic(auto)]

mod case;
mod lent;

ghost use Rattle.std.specs.Prelude.{◌≤◌, length};

use records::LARGEST_ROOM;

// The most that the lines may lend: the largest room as memory, and output for any one answer line.
const OUTPUT_SIZE: usize = 30000;

// Nothing that the lines supply is longer than they are.
const INPUT_SIZE: usize = 65536;

use case_text::shown;
use std::io::Read;

// All of the input, or as much of it as there is room for; a read that fails ends it.
fn read_full(rt: &HostRuntime, input: &mut [u8]) -> usize
    ensures { result ≤ length input.new }
{
    let mut size = 0;
    while size < input.len() {
        let count = match rt.stdin().read(&mut input[size..]) {
            Ok(count) => count,
            Err(_) => 0,
        };
        if count == 0 {
            return size;
        }
        size += count;
    }
    size
}

fn main(rt: HostRuntime) {
    let mut input = [0u8; INPUT_SIZE];
    let mut memory = [0u8; LARGEST_ROOM];
    let mut supplied = [0u8; INPUT_SIZE];
    let mut output = [0u8; OUTPUT_SIZE];
    let size = read_full(&rt, &mut input);
    if size == INPUT_SIZE {
        shown::text(&rt, b"?? more cases than fit\n");
        return;
    }
    case::each(&rt, &input[..size], &mut memory, &mut supplied, &mut output);
}
