// Lines read turn by turn. A program reads as much as comes into lent bytes and hands it over; here stands which lines are whole, what is held of the next one
// until the rest of it comes, that a line which fills the lent bytes is handed on at once and then passed over to its end, and what all of them are answered.
// Nothing here reads or writes: what a turn answers stands in the lent output.

#![tactic(auto)]

ghost use Rattle.std.specs.Prelude.{◌≡◌, true, false, [], ◌+◌, ◌-◌, ◌≤◌, ◌<◌, length, take};
ghost use Rattle.rules.specs.Frames.{operation_of_line};
ghost use Rattle.records.specs.Rows.{row};
ghost use Rattle.frames.specs.Answering.{OfLent};
ghost use Rattle.lines.specs.Batching.{IsLine, AnswersLine};
ghost use Rattle.turns.specs.declared.Held.{Held};
ghost use Rattle.turns.specs.Turns.{held_in, Within, TakesIn, MakesRoom, longest_answer_line, PromisesTurn, TurnWithin, PromisesLast, KeepsUnsound};

// What was read and not answered yet stands in the lent input between these two. While the rest of a line that was too long is passed over, that is nothing.
#[derive(Clone, Copy)]
pub struct Held {
    pub from: usize,
    pub end: usize,
    pub passing: bool,
}

// What a step of answering comes to: how much output was written, and whether all that was read is answered, so that the program reads on.
#[derive(Clone, Copy)]
pub struct Turn {
    pub held: Held,
    pub written: usize,
    pub done: bool,
}

pub fn start() -> Held
    ensures { (result.from ≡ 0) × (result.end ≡ 0) × (result.passing ≡ false) }
{
    Held {
        from: 0,
        end: 0,
        passing: false,
    }
}

// The bytes from here on belong to a line that was handed on already, up to its line feed.
fn pass_over(input: &[u8], from: usize, end: usize) -> Held
    requires { (from ≤ end) × (end ≤ length input.now) }
    ensures within { Within input.now result }
    ensures reads { TakesIn (length input.now)
        true [] (row (end - from) from input.now) result.passing (held_in input.now result) }
{
    let Some(feed) = lines::line_end(&input[..end], from) else {
        return Held {
            from: 0,
            end: 0,
            passing: true,
        };
    };
    Held {
        from: feed + 1,
        end,
        passing: false,
    }
}

// So many bytes were read behind those held.
pub fn brought(input: &[u8], held: Held, count: usize) -> Held
    requires { (held.from ≤ held.end) × (held.end + count ≤ length input.now) }
    ensures within { Within input.now result }
    ensures reads { TakesIn (length input.now)
        held.passing (held_in input.now held) (row count held.end input.now)
        result.passing (held_in input.now result) }
{
    let end = held.end + count;
    if held.passing {
        return pass_over(input, held.end, end);
    }
    Held {
        from: held.from,
        end,
        passing: false,
    }
}

fn to_front(input: &mut [u8], from: usize, end: usize) -> usize
    requires { (from ≤ end) × (end ≤ length input.old) }
    ensures size { result ≡ end - from }
    ensures front { take result input.new ≡ row (end - from) from input.old }
{
    input.copy_within(from..end, 0);
    end - from
}

// No whole line is held. What is held comes to the front, so that there is room to read on; where it fills the input, it is a line too long to be held.
pub fn make_room(input: &mut [u8], from: usize, end: usize) -> Held
    requires { (from ≤ end) × (end ≤ length input.old) × (0 < length input.old) }
    ensures room { (result.from ≤ result.end) × (result.end < length input.new) }
    ensures reads { MakesRoom (row (end - from) from input.old) input.new result }
{
    let size = to_front(input, from, end);
    if size < input.len() {
        return Held {
            from: 0,
            end: size,
            passing: false,
        };
    }
    Held {
        from: 0,
        end: 0,
        passing: true,
    }
}

// One line, to output with room for any answer.
fn answer_line(room: &mut [u8], line: &[u8], output: &mut [u8]) -> usize
    requires { longest_answer_line ≤ length output.old }
    ensures within { result ≤ length output.old }
    ensures answers { OfLent room.old (λ l. AnswersLine (operation_of_line line.now) l
        room.old room.new output.old output.new result) }
{
    lines::answer(room, line, output).unwrap_or(0)
}

// All whole lines are answered, and what is held of the next one stays held, or is one line too long.
fn settle(room: &mut [u8], input: &mut [u8], from: usize, end: usize, output: &mut [u8]) -> Turn
    requires { (from ≤ end) × (end ≤ length input.old) × (0 < length input.old) × (longest_answer_line ≤ length output.old) }
    ensures within { (h : Held) → TurnWithin h input.new output.new result }
    ensures answers { IsLine (row (end - from) from input.old) → PromisesTurn false (row (end - from) from input.old)
        room.old room.new input.new output.new result }
    ensures unsound { KeepsUnsound room.old room.new }
{
    let held = make_room(input, from, end);
    if held.passing {
        let written = answer_line(room, input, output);
        return Turn {
            held,
            written,
            done: true,
        };
    }
    Turn {
        held,
        written: 0,
        done: true,
    }
}

// One step: whole lines are answered as far as there is room for their answers. Where none is left the turn is done.
pub fn answer(room: &mut [u8], input: &mut [u8], held: Held, output: &mut [u8]) -> Turn
    requires { Within input.old held × (0 < length input.old) × (longest_answer_line ≤ length output.old) }
    ensures within { TurnWithin held input.new output.new result }
    ensures answers { PromisesTurn held.passing (held_in input.old held)
        room.old room.new input.new output.new result }
    ensures unsound { KeepsUnsound room.old room.new }
{
    let from = held.from;
    let end = held.end;
    if from == end {
        return Turn {
            held: Held {
                from: 0,
                end: 0,
                passing: held.passing,
            },
            written: 0,
            done: true,
        };
    }
    let progress = lines::batch(room, &input[from..end], output);
    if progress.used == 0 {
        return settle(room, input, from, end, output);
    }
    Turn {
        held: Held {
            from: from + progress.used,
            end,
            passing: false,
        },
        written: progress.written,
        done: false,
    }
}

// The end of the input: what is held is a line too, unless it is nothing.
pub fn last(room: &mut [u8], input: &[u8], held: Held, output: &mut [u8]) -> usize
    requires { Within input.now held × (longest_answer_line ≤ length output.old) }
    ensures within { result ≤ length output.new }
    ensures answers { PromisesLast held.passing (held_in input.now held) input.now
        room.old room.new output.new result }
    ensures unsound { KeepsUnsound room.old room.new }
{
    let from = held.from;
    let end = held.end;
    if end == from {
        return 0;
    }
    answer_line(room, &input[from..end], output)
}
