// The desk's program: a frame's digits on each line of standard input, an answer line for each on standard output, over one fresh ledger of the largest
// room. What one read brings is answered, every whole line of it, before the next read.

#![tactic(auto)]

mod desk;

use records::LARGEST_ROOM;

const MOST_NAMES: u64 = rules::MOST_NAMES as u64;

const MOST_RESERVATIONS: u64 = rules::MOST_RESERVATIONS as u64;

// A read and a write are of up to 64 KiB: more than the longest line, and than the longest answer line.
const READ_SIZE: usize = 65536;

const WRITE_SIZE: usize = 65536;

fn main(rt: HostRuntime) {
    let mut room = [0u8; LARGEST_ROOM];
    let mut input = [0u8; READ_SIZE];
    let mut output = [0u8; WRITE_SIZE];
    let _ = soundness::make(&mut room, MOST_NAMES, MOST_RESERVATIONS);
    desk::open(&rt, &mut room, &mut input, &mut output);
}
