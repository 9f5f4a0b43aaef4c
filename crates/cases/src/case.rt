// Line after line, and what each is answered.
ghost use Rattle.std.specs.Prelude.{◌<◌};

use crate::lent;
use crate::lent::Lent;
use answer_bytes::LONGEST_OTHER_ANSWER;
use case_text::text::Numbers;
use case_text::{shown, text};
use lines::Progress;

// The input comes in pieces of this size; what a batch does not use comes again with the next piece.
fn in_pieces(
    rt: &HostRuntime,
    memory: &mut [u8],
    input: &[u8],
    output: &mut [u8],
    size: usize,
) -> Progress
    requires { 0 < size }
{
    let mut used = 0;
    let mut written: usize = 0;
    let mut end = 0;
    while end < input.len() {
        end += size.min(input.len() - end);
        let progress = lines::batch(memory, &input[used..end], output);
        let size = progress.written;
        shown::text(rt, &output[0..size]);
        used += progress.used;
        written = written.wrapping_add(size);
    }
    Progress { used, written }
}

fn batch(
    rt: &HostRuntime,
    line: &[u8],
    size: Option<u64>,
    memory: &mut [u8],
    supplied: &[u8],
    output: &mut [u8],
) -> bool {
    let Some(size) = size.filter(|size| 0 < *size) else {
        return false;
    };
    shown::text(rt, line);
    shown::text(rt, b":\n");
    let progress = in_pieces(rt, memory, supplied, output, size as usize);
    shown::natural(rt, progress.used as u64);
    shown::text(rt, b" used, ");
    shown::natural(rt, progress.written as u64);
    shown::text(rt, b" written\n");
    true
}

fn snapshot_size(rt: &HostRuntime, size: usize) {
    shown::natural(rt, size as u64);
    shown::text(rt, b" bytes\n");
}

fn snapshot_refused(rt: &HostRuntime, number: u8) {
    shown::byte(rt, number);
    shown::text(rt, b"\n");
}

fn snapshot(rt: &HostRuntime, line: &[u8], memory: &mut [u8], output: &mut [u8]) -> bool {
    shown::echo(rt, line);
    match any_memory_snapshots::snapshot(memory, output) {
        Ok(size) => snapshot_size(rt, size),
        Err(refusal) => snapshot_refused(rt, refusal.number()),
    }
    true
}

fn version(rt: &HostRuntime, number: u64) {
    shown::text(rt, b"0 ");
    shown::natural(rt, number);
    shown::text(rt, b"\n");
}

// A version has 64 bits and no sign.
fn last_version(rt: &HostRuntime, line: &[u8], memory: &[u8]) -> bool {
    shown::echo(rt, line);
    match any_memory_accounts::last_version(memory) {
        Ok(number) => version(rt, number),
        Err(_) => shown::text(rt, b"24\n"),
    }
    true
}

fn show(rt: &HostRuntime, line: &[u8], numbers: Numbers, room: &[u8]) -> bool {
    let (Some(from), Some(end)) = (numbers.first, numbers.second) else {
        return false;
    };
    let from = from as usize;
    let end = end as usize;
    if room.len() < end || end < from {
        return false;
    }
    shown::echo(rt, line);
    shown::bytes(rt, &room[from..end]);
    shown::text(rt, b"\n");
    true
}

fn heading(rt: &HostRuntime, line: &[u8]) -> bool {
    shown::text(rt, line);
    shown::text(rt, b"\n");
    true
}

// The operations that show something else than an answer's bytes.
fn shown_apart(
    rt: &HostRuntime,
    line: &[u8],
    operation: &[u8],
    numbers: Numbers,
    memory: &mut [u8],
    supplied: &[u8],
    output: &mut [u8],
) -> bool {
    match operation {
        b"--" => heading(rt, line),
        b"last-version" => last_version(rt, line, memory),
        b"snapshot" => snapshot(rt, line, memory, output),
        b"batch" => batch(rt, line, numbers.second, memory, supplied, output),
        b"show-memory" => show(rt, line, numbers, memory),
        b"show-output" => show(rt, line, numbers, output),
        _ => false,
    }
}

fn account_answered(
    rt: &HostRuntime,
    line: &[u8],
    operation: &[u8],
    rest: &[u8],
    numbers: Numbers,
    memory: &mut [u8],
) -> bool {
    let pair = text::split(rest);
    let end = pair.end;
    let last = pair.last;
    let mut answer = [0u8; LONGEST_OTHER_ANSWER];
    let size = case_calls::change(operation, &rest[0..end], numbers, memory, &mut answer);
    if shown::answered(rt, line, &answer, size, shown::decimals) {
        return true;
    }
    let size = case_calls::read(operation, &rest[last..], memory, &mut answer);
    shown::answered(rt, line, &answer, size, shown::decimals)
}

fn snapshot_answered(
    rt: &HostRuntime,
    line: &[u8],
    operation: &[u8],
    numbers: Numbers,
    memory: &mut [u8],
    supplied: &[u8],
    output: &mut [u8],
) -> bool {
    let mut answer = [0u8; LONGEST_OTHER_ANSWER];
    let size = case_calls::judge(operation, numbers, memory, supplied, output, &mut answer);
    shown::answered(rt, line, &answer, size, shown::bytes)
}

fn answered(
    rt: &HostRuntime,
    line: &[u8],
    operation: &[u8],
    rest: &[u8],
    numbers: Numbers,
    memory: &mut [u8],
    supplied: &[u8],
    output: &mut [u8],
) -> bool {
    if account_answered(rt, line, operation, rest, numbers, memory) {
        return true;
    }
    if snapshot_answered(rt, line, operation, numbers, memory, supplied, output) {
        return true;
    }
    shown_apart(rt, line, operation, numbers, memory, supplied, output)
}

fn refused(rt: &HostRuntime, line: &[u8]) {
    shown::text(rt, b"?? ");
    shown::text(rt, line);
    shown::text(rt, b"\n");
}

// So much of each array is lent as the lines before said.
fn lent_answered(
    rt: &HostRuntime,
    line: &[u8],
    operation: &[u8],
    rest: &[u8],
    numbers: Numbers,
    memory: &mut [u8],
    supplied: &[u8],
    output: &mut [u8],
    lent: Lent,
) -> bool {
    let memory_end = lent.memory.min(memory.len());
    let supplied_end = lent.supplied.min(supplied.len());
    let output_end = lent.output.min(output.len());
    answered(
        rt,
        line,
        operation,
        rest,
        numbers,
        &mut memory[0..memory_end],
        &supplied[0..supplied_end],
        &mut output[0..output_end],
    )
}

fn case(
    rt: &HostRuntime,
    line: &[u8],
    operation: &[u8],
    rest: &[u8],
    memory: &mut [u8],
    supplied: &mut [u8],
    output: &mut [u8],
    lent: Lent,
) -> Lent {
    let pair = text::split(rest);
    let end = pair.end;
    let last = pair.last;
    let numbers = text::read_numbers(&rest[0..end], &rest[last..]);
    if let Some(next) = lent::set(operation, rest, numbers, memory, supplied, output, lent) {
        return next;
    }
    if !lent_answered(
        rt, line, operation, rest, numbers, memory, supplied, output, lent,
    ) {
        refused(rt, line);
    }
    lent
}

// The last line may have no line feed behind it.
pub fn each(
    rt: &HostRuntime,
    input: &[u8],
    memory: &mut [u8],
    supplied: &mut [u8],
    output: &mut [u8],
) {
    let mut lent = Lent {
        memory: 0,
        supplied: 0,
        output: 0,
    };
    for ended in input.split_inclusive(|character| *character == b'\n') {
        let line = ended.strip_suffix(b"\n").unwrap_or(ended);
        let space = text::find(line, 0, line.len(), b' ');
        let rest = line.len().min(space + 1);
        lent = case(
            rt,
            line,
            &line[..space],
            &line[rest..],
            memory,
            supplied,
            output,
            lent,
        );
    }
}
