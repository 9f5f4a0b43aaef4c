// The seat of a name as the account rules see it: read from the room, put back in its place, and written for a name, which may take a place or free
// the one it has.

#![tactic(auto)]

ghost use Rattle.std.specs.Prelude.{◌≡◌, true, false, ◌≤◌, ◌<◌, length};
ghost use Rattle.std.proofs.Math.Option.{none};
ghost use Rattle.rules.specs.RoomAndSoundLedger.{is_vacant, holds_place, seat_in, longest_name};
ghost use Rattle.moves.specs.Moves.{meaning, SeatSound};
ghost use Rattle.room.specs.Contents.{contents_of, Sized, used_places, place_of_name};
ghost use Rattle.room.specs.Room.{SoundRoom, OfRoom};
ghost use Rattle.room.specs.Seats.{FoundIn, seat_of_place, seat_found, with_seat};
ghost use Rattle.tables.specs.Steps.{Becomes};
ghost use Rattle.seats.specs.Writing.{seated_under, WritesSeat};

use moves::Seat;
use names::Name;
use records::Place;
use refusals::Refusal;

// What a place keeps beside its name.
fn seat_of(place: Place) -> Seat
    ensures { result ≡ seat_of_place place }
{
    Seat {
        initial: place.initial,
        remaining: place.remaining,
        reserved: place.reserved,
        committed: place.committed,
        limit: place.limit,
        account: place.account,
    }
}

// A seat in the place of a name.
fn place_with(seat: Seat, name: Name) -> Place
    ensures { result ≡ seated_under name seat }
{
    Place {
        initial: seat.initial,
        remaining: seat.remaining,
        reserved: seat.reserved,
        committed: seat.committed,
        limit: seat.limit,
        account: seat.account,
        name,
    }
}

// A name that holds no place has nothing.
pub fn seat_at(room: &[u8], found: Option<usize>) -> Seat
    requires { Sized room.now × FoundIn found (used_places (contents_of room.now)) }
    ensures { result ≡ seat_found found (used_places (contents_of room.now)) }
{
    match found {
        Some(i) => seat_of(records::load_place(room, i)),
        None => Seat {
            initial: 0,
            remaining: 0,
            reserved: 0,
            committed: 0,
            limit: 0,
            account: 0,
        },
    }
}

// The seat of the place at i; its name stays.
pub fn put_seat(room: &mut [u8], i: usize, seat: Seat)
    requires { Sized room.old × (i < (contents_of room.old).sizes.used) }
    ensures { Becomes (with_seat i seat) room.old room.new }
{
    let old = records::load_place(room, i);
    tables::put_place(room, i, place_with(seat, old.name));
}

// Document 01, Room and the sound ledger: with neither an account nor a limit a name needs no place.
fn is_vacant(seat: Seat) -> bool
    ensures { result ≡ is_vacant (meaning seat) }
{
    seat.account == 0 && seat.limit == 0
}

// Document 01, Account rules, ensure: a new name is refused with 20 where every place is taken.
fn open_place(room: &mut [u8], part: &[u8], seat: Seat) -> Result<(), Refusal>
    requires { SoundRoom room.old × (length part.now ≤ longest_name) × SeatSound seat × (is_vacant (meaning seat) ≡ false)
        × (OfRoom room.old (λ L. holds_place part.now L.places ≡ false)) }
    ensures { OfRoom room.old (λ L. WritesSeat part.now seat L room.old room.new result) }
{
    let sizes = records::load_sizes(room);
    if sizes.used == sizes.names {
        return Err(Refusal::NamesFull);
    }
    let at = lookup::place_for(room, part);
    let name = names::name_of(part);
    tables::insert_place(room, at, place_with(seat, name));
    Ok(())
}

// A vacant seat frees the name's place; another is written where the name stands, or put in.
pub fn write_seat(
    room: &mut [u8],
    part: &[u8],
    found: Option<usize>,
    seat: Seat,
) -> Result<(), Refusal>
    requires { SoundRoom room.old × (length part.now ≤ longest_name) × SeatSound seat
        × (found ≡ place_of_name part.now (used_places (contents_of room.old)))
        × (OfRoom room.old (λ L. is_vacant (meaning seat) ≡ true → (seat_in part.now L.places).account ≡ none)) }
    ensures { OfRoom room.old (λ L. WritesSeat part.now seat L room.old room.new result) }
{
    match (found, is_vacant(seat)) {
        (Some(i), true) => tables::free_place(room, i),
        (Some(i), false) => put_seat(room, i, seat),
        (None, true) => {}
        (None, false) => open_place(room, part, seat)?,
    }
    Ok(())
}
