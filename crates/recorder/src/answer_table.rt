// Which answers an operation can get, and what each carries (document 01, "Answer numbers" and the rules): one table for writing and reading.
ghost use Rattle.std.specs.Prelude.{◌≡◌};
ghost use Rattle.rules.specs.Recorder.{form_of};
ghost use Rattle.recorder.specs.Shapes.{kinds_of, kinds_behind, kinds_in};
ghost use Rattle.recorder.specs.Refusals.{refusal_set, carried_by};

// What stands behind an answer's number.
#[derive(Clone, Copy)]
pub enum Shape {
    Nothing,
    Word,
    TwoWords,
    ThreeWords,
    Named,
    NamedWord,
    NamedField,
    Snapshot,
    Certificate,
    Proof,
}

// A refusal as the bit of its number. 22 and 23 are not among them: no operation that is framed gets these.
const NEGATIVE_AMOUNT: u32 = 1 << 1;

const INVALID_AMOUNT: u32 = 1 << 2;

const MISSING_TENANT: u32 = 1 << 3;

const OVERFLOW: u32 = 1 << 4;

const EXPOSURE_LIMIT_EXCEEDED: u32 = 1 << 5;

const INSUFFICIENT: u32 = 1 << 6;

const MISSING_RESERVATION: u32 = 1 << 7;

const OVERRUN: u32 = 1 << 8;

const ALLOCATOR_EXHAUSTED: u32 = 1 << 9;

const ACTIVE_RESERVATIONS: u32 = 1 << 10;

const DUPLICATE_TENANT: u32 = 1 << 11;

const GHOST_RESERVATION: u32 = 1 << 12;

const NEGATIVE_LEDGER_FIELD: u32 = 1 << 13;

const CONSERVATION_VIOLATION: u32 = 1 << 14;

const AGGREGATE_OVERFLOW: u32 = 1 << 15;

const ALREADY_RECOVERY_AWARE: u32 = 1 << 16;

const INVALID_ALLOCATOR_FENCE: u32 = 1 << 17;

const LEGACY_SNAPSHOT_REQUIRES_MIGRATION: u32 = 1 << 18;

const NAME_TOO_LONG: u32 = 1 << 19;

const NAMES_FULL: u32 = 1 << 20;

const RESERVATIONS_FULL: u32 = 1 << 21;

const UNSOUND_LEDGER: u32 = 1 << 24;

pub const LAST_NUMBER: u64 = 24;

// 4 carries an amount, but nothing after a top-up.
const TOP_UP: u8 = 2;

const OVERFLOW_NUMBER: u64 = 4;

// What each operation can be refused with.
const OF_ENSURE: u32 = NEGATIVE_AMOUNT + NAME_TOO_LONG + NAMES_FULL + UNSOUND_LEDGER;

const OF_TOP_UP: u32 = INVALID_AMOUNT + MISSING_TENANT + OVERFLOW + NAME_TOO_LONG + UNSOUND_LEDGER;

const OF_RESERVE: u32 = INSUFFICIENT
    + MISSING_TENANT
    + OVERFLOW
    + EXPOSURE_LIMIT_EXCEEDED
    + NAME_TOO_LONG
    + RESERVATIONS_FULL
    + UNSOUND_LEDGER;

const OF_COMMIT: u32 = INVALID_AMOUNT + MISSING_RESERVATION + OVERFLOW + OVERRUN + UNSOUND_LEDGER;

const OF_RELEASE: u32 = MISSING_RESERVATION + UNSOUND_LEDGER;

const OF_SNAPSHOT: u32 = ALLOCATOR_EXHAUSTED + UNSOUND_LEDGER;

const OF_VALIDATION: u32 = NAME_TOO_LONG
    + ACTIVE_RESERVATIONS
    + DUPLICATE_TENANT
    + GHOST_RESERVATION
    + NEGATIVE_LEDGER_FIELD
    + CONSERVATION_VIOLATION
    + AGGREGATE_OVERFLOW;

const OF_RESTORE: u32 = OF_VALIDATION + NAMES_FULL + UNSOUND_LEDGER;

const OF_RECOVERY: u32 = OF_RESTORE + LEGACY_SNAPSHOT_REQUIRES_MIGRATION + INVALID_ALLOCATOR_FENCE;

const OF_MIGRATION: u32 = OF_VALIDATION + ALREADY_RECOVERY_AWARE + INVALID_ALLOCATOR_FENCE;

const OF_PROOF: u32 = ALLOCATOR_EXHAUSTED + AGGREGATE_OVERFLOW + UNSOUND_LEDGER;

const OF_STATUS: u32 = NAME_TOO_LONG + CONSERVATION_VIOLATION + AGGREGATE_OVERFLOW;

#[tactic(auto, unfolding(crate::specs::Refusals::refusal_set, rules::specs::Lists::sum, rules::specs::Lists::first, rules::specs::Recorder::answer_table))]
fn refusals(code: u8) -> u32
    ensures { result ≡ refusal_set code }
{
    match code {
        1 => OF_ENSURE,
        2 => OF_TOP_UP,
        3 => OF_ENSURE,
        4 => OF_RESERVE,
        5 => OF_COMMIT,
        6 => OF_RELEASE,
        7 => OF_SNAPSHOT,
        8 => OF_RESTORE,
        9 => OF_RECOVERY,
        10 => OF_MIGRATION,
        11 => OF_SNAPSHOT,
        12 => NAME_TOO_LONG,
        13 => OF_PROOF,
        14 => OF_STATUS,
        _ => 0,
    }
}

// What stands behind 0.
#[tactic(auto, unfolding(rules::specs::Recorder::form_of, rules::specs::Lists::first, rules::specs::Recorder::answer_table))]
fn done_shape(code: u8) -> Option<Shape>
    ensures { kinds_behind result ≡ kinds_in (form_of code 0) }
{
    match code {
        1 => Some(Shape::Nothing),
        2 => Some(Shape::ThreeWords),
        3 => Some(Shape::Nothing),
        4 => Some(Shape::TwoWords),
        5 => Some(Shape::TwoWords),
        6 => Some(Shape::TwoWords),
        7 => Some(Shape::Snapshot),
        8 => Some(Shape::Nothing),
        9 => Some(Shape::Nothing),
        10 => Some(Shape::Snapshot),
        11 => Some(Shape::Certificate),
        12 => Some(Shape::Certificate),
        13 => Some(Shape::Proof),
        14 => Some(Shape::Nothing),
        _ => None,
    }
}

// What stands behind a refusal's number.
#[tactic(auto, unfolding(crate::specs::Refusals::carried_by, rules::specs::Lists::first, crate::specs::Refusals::carrying))]
fn carried(number: u64) -> Shape
    ensures { kinds_of result ≡ carried_by number }
{
    match number {
        1 => Shape::Word,
        4 => Shape::Word,
        5 => Shape::TwoWords,
        6 => Shape::TwoWords,
        8 => Shape::Word,
        10 => Shape::Word,
        11 => Shape::Named,
        12 => Shape::NamedWord,
        13 => Shape::NamedField,
        14 => Shape::NamedWord,
        17 => Shape::Word,
        _ => Shape::Nothing,
    }
}

// Put in line: both callers ask for one shape, and the call took longer than the look-up.
#[inline(always)]
pub fn shape_of(code: u8, number: u64) -> Option<Shape>
    ensures { kinds_behind result ≡ kinds_in (form_of code number) }
{
    if number == 0 {
        return done_shape(code);
    }
    if LAST_NUMBER < number {
        return None;
    }
    if (refusals(code) >> number) % 2 == 0 {
        return None;
    }
    if number == OVERFLOW_NUMBER {
        if code == TOP_UP {
            return Some(Shape::Nothing);
        }
    }
    Some(carried(number))
}
