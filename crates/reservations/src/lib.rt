// Reserve, commit and release on a ledger already known to be sound, which they leave sound.

#![tactic(auto)]

ghost use Rattle.std.specs.Prelude.{◌≤◌, ◌<◌, ◌≡◌};
ghost use Rattle.rules.specs.RoomAndSoundLedger.{M};
ghost use Rattle.rules.specs.AccountRules.{reserve, commit, release, operate};
ghost use Rattle.room.specs.Contents.{contents_of, Sized, removed_booking};
ghost use Rattle.room.specs.Room.{SoundRoom, Performs, OfRoom};
ghost use Rattle.room.specs.Seats.{with_seat};
ghost use Rattle.tables.specs.Steps.{Becomes};
ghost use Rattle.refusals.specs.Answers.{answer_of};
ghost use Rattle.reservations.specs.Answers.{carries_grant, carries_commit, carries_release};
ghost use Rattle.reservations.specs.Steps.{Booked, due_at};

use moves::Seat;
use numbers::{Held, Identifier, Microcents};
use records::{Booking, Head};
use refusals::Refusal;

// What a reserve hands over when it is granted.
#[derive(Clone, Copy)]
pub struct Granted {
    pub remaining: Microcents,
    pub id: Identifier,
}

#[derive(Clone, Copy)]
pub struct Committed {
    pub remaining: Microcents,
    pub actual: Microcents,
}

#[derive(Clone, Copy)]
pub struct Released {
    pub remaining: Microcents,
    pub amount: Microcents,
}

// A live reservation that is to be settled: its amount, the number of its airline's place, and the seat there.
#[derive(Clone, Copy)]
struct Due {
    amount: Held,
    owner: usize,
    seat: Seat,
}

// Document 01, Account rules, reserve, its last two answers: a full table refuses, and the id is not used up; else the booking has the id, and the head
// after the draw is kept.
fn book(
    room: &mut [u8],
    i: usize,
    seat: Seat,
    cost: Held,
    id: Identifier,
    head: Head,
) -> Result<Granted, Refusal>
    requires { Sized room.old × (i < (contents_of room.old).sizes.used) × (seat.remaining ≤ M) }
    ensures { Booked i seat cost id head room.old result room.new }
{
    let sizes = records::load_sizes(room);
    if sizes.live == sizes.reservations {
        return Err(Refusal::ReservationsFull);
    }
    seats::put_seat(room, i, seat);
    tables::append_booking(
        room,
        Booking {
            id,
            amount: cost,
            owner: i as u64,
        },
    );
    tables::put_head(room, head);
    Ok(Granted {
        remaining: numbers::amount(seat.remaining),
        id,
    })
}

pub fn reserve(room: &mut [u8], part: &[u8], cost: Microcents) -> Result<Granted, Refusal>
    requires { SoundRoom room.old }
    ensures { Performs (λ K. operate K (reserve part.now cost.0)) room.old (answer_of carries_grant result) room.new }
{
    if rules::LONGEST_NAME < part.len() {
        return Err(Refusal::NameTooLong);
    }
    let found = lookup::find(room, part);
    let seat = seats::seat_at(room, found);
    let head = records::load_head(room);
    let drawn = heads::after_draw(head);
    let Some(asked) = numbers::positive_of(cost) else {
        return Err(Refusal::Insufficient(numbers::amount(0), cost));
    };
    let true = moves::has_account(seat) else {
        return Err(Refusal::MissingTenant);
    };
    let Some(reserved) = numbers::plus(seat.reserved, asked) else {
        return Err(Refusal::Overflow(numbers::amount(seat.reserved)));
    };
    let false = moves::exceeds(seat.limit, reserved) else {
        return Err(Refusal::ExposureLimitExceeded(
            numbers::amount(seat.reserved),
            numbers::amount(seat.limit),
        ));
    };
    let Some(id) = drawn.id else {
        return Err(Refusal::Overflow(numbers::amount(seat.reserved)));
    };
    let Ok(booked) = moves::reserve(seat, asked, reserved) else {
        tables::put_head(room, drawn.head);
        return Err(Refusal::Insufficient(numbers::amount(seat.remaining), numbers::amount(asked)));
    };
    let Some(i) = found else {
        return Err(Refusal::MissingTenant);
    };
    book(room, i, booked, Held(asked), id, drawn.head)
}

// What a settlement asks of the reservation at j.
fn due_at(room: &[u8], j: usize) -> Due
    requires { SoundRoom room.now × (j < (contents_of room.now).sizes.live) }
    ensures { OfRoom room.now (λ L. result ≡ due_at L j) }
{
    let sizes = records::load_sizes(room);
    let base = records::HEAD_SIZE + records::PLACE_SIZE * (sizes.names as usize);
    let booking = records::load_booking(room, base, j);
    let owner = booking.owner as usize;
    Due {
        amount: booking.amount,
        owner,
        seat: seats::seat_at(room, Some(owner)),
    }
}

// The reservation at j ends, and its airline's seat is now this one.
fn end(room: &mut [u8], j: usize, owner: usize, seat: Seat)
    requires { Sized room.old × (owner < (contents_of room.old).sizes.used) × (j < (contents_of room.old).sizes.live) }
    ensures { Becomes (λ c. removed_booking j (with_seat owner seat c)) room.old room.new }
{
    seats::put_seat(room, owner, seat);
    tables::remove_booking(room, j);
}

pub fn commit(room: &mut [u8], id: Identifier, actual: Microcents) -> Result<Committed, Refusal>
    requires { SoundRoom room.old }
    ensures { Performs (λ K. operate K (commit id.0 actual.0)) room.old (answer_of carries_commit result) room.new }
{
    let Some(spent) = numbers::natural_of(actual) else {
        return Err(Refusal::InvalidAmount);
    };
    let Some(j) = lookup::find_booking(room, id) else {
        return Err(Refusal::MissingReservation);
    };
    let due = due_at(room, j);
    let seat = due.seat;
    let booked = due.amount;
    let true = moves::has_account(seat) else {
        return Err(Refusal::MissingTenant);
    };
    let Some(committed) = numbers::plus(seat.committed, spent) else {
        return Err(Refusal::Overflow(numbers::amount(seat.remaining)));
    };
    let Ok(ended) = moves::commit(seat, booked, spent, committed) else {
        return Err(Refusal::Overrun(numbers::amount(seat.remaining)));
    };
    end(room, j, due.owner, ended);
    Ok(Committed {
        remaining: numbers::amount(ended.remaining),
        actual,
    })
}

pub fn release(room: &mut [u8], id: Identifier) -> Result<Released, Refusal>
    requires { SoundRoom room.old }
    ensures { Performs (λ K. operate K (release id.0)) room.old (answer_of carries_release result) room.new }
{
    let Some(j) = lookup::find_booking(room, id) else {
        return Err(Refusal::MissingReservation);
    };
    let due = due_at(room, j);
    let seat = due.seat;
    let booked = due.amount;
    let Ok(returned) = moves::release(seat, booked) else {
        return Err(Refusal::MissingTenant);
    };
    end(room, j, due.owner, returned);
    Ok(Released {
        remaining: numbers::amount(returned.remaining),
        amount: numbers::amount(booked.0),
    })
}
