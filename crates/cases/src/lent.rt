// What is lent to the calls, and the lines that set it, which write nothing.
use case_text::text::Numbers;

// So many bytes at the front of each array are lent.
#[derive(Clone, Copy)]
pub struct Lent {
    pub memory: usize,
    pub supplied: usize,
    pub output: usize,
}

// So many bytes at the front get this value, where there are so many and it is a byte's.
fn fill(room: &mut [u8], numbers: Numbers) -> Option<usize> {
    let size = numbers.first? as usize;
    let value = u8::try_from(numbers.second?).ok()?;
    if room.len() < size {
        return None;
    }
    room[..size].fill(value);
    Some(size)
}

fn damage(memory: &mut [u8], numbers: Numbers, lent: Lent) -> Option<Lent> {
    let at = numbers.first? as usize;
    let value = u8::try_from(numbers.second?).ok()?;
    if lent.memory <= at || memory.len() <= at {
        return None;
    }
    memory[at] = value;
    Some(lent)
}

fn supply(supplied: &mut [u8], line: &[u8], lent: Lent) -> Option<Lent> {
    if supplied.len() <= line.len() / 2 {
        return None;
    }
    let size = digits::front_bytes(line, supplied);
    if size + size < line.len() {
        return None;
    }
    Some(Lent {
        supplied: size,
        ..lent
    })
}

fn add_line(supplied: &mut [u8], line: &[u8], lent: Lent) -> Option<Lent> {
    let from = lent.supplied;
    if supplied.len() <= from || supplied.len() - from <= line.len() {
        return None;
    }
    let end = from + line.len();
    supplied[from..end].copy_from_slice(line);
    supplied[end] = b'\n';
    Some(Lent {
        supplied: end + 1,
        ..lent
    })
}

// None for any other line, or one with a number missing or out of range: all that is lent stays.
pub fn set(
    operation: &[u8],
    rest: &[u8],
    numbers: Numbers,
    memory: &mut [u8],
    supplied: &mut [u8],
    output: &mut [u8],
    lent: Lent,
) -> Option<Lent> {
    match operation {
        b"memory" => Some(Lent {
            memory: fill(memory, numbers)?,
            ..lent
        }),
        b"damage" => damage(memory, numbers, lent),
        b"output" => Some(Lent {
            output: fill(output, numbers)?,
            ..lent
        }),
        b"supplied" => supply(supplied, rest, lent),
        b"line" => add_line(supplied, rest, lent),
        _ => None,
    }
}
