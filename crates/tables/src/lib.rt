// The steps that change the tables of a room, each said of the room's contents.

#![tactic(auto)]

ghost use Rattle.std.specs.Prelude.{◌≡◌, ◌≤◌, ◌<◌, take};
ghost use Rattle.rules.specs.Lists.{All};
ghost use Rattle.room.specs.Contents.{contents_of, Sized, base_of, empty_place, empty_booking, raised, lowered, renumbered, live_bookings, with_head, with_place, inserted_place, freed_place, appended_booking, removed_booking};
ghost use Rattle.tables.specs.Steps.{Becomes, on_places, on_bookings, moved_up, moved_down, CanRise};

use names::Name;
use numbers::{Held, Identifier};
use records::{Booking, Head, Place};

pub fn put_head(room: &mut [u8], head: Head)
    requires { Sized room.old }
    ensures { Becomes (with_head head) room.old room.new }
{
    records::store_head(room, head);
}

pub fn put_place(room: &mut [u8], i: usize, place: Place)
    requires { Sized room.old × (i < (contents_of room.old).sizes.used) }
    ensures { Becomes (with_place i place) room.old room.new }
{
    records::store_place(room, i, place);
}

// Places from i on go one further, the last first. What stood at i stands there still.
fn move_places_up(room: &mut [u8], i: usize, used: usize)
    requires { Sized room.old × (i ≤ used) × (used < (contents_of room.old).sizes.names) }
    ensures { Becomes (on_places (moved_up i used empty_place)) room.old room.new }
{
    for j in (i..used).rev() {
        let moved = records::load_place(room, j);
        records::store_place(room, j + 1, moved);
    }
}

// Places behind i come one nearer, the first first. What stood last stands there still.
fn move_places_down(room: &mut [u8], i: usize, used: usize)
    requires { Sized room.old × (i < used) × (used ≤ (contents_of room.old).sizes.names) }
    ensures { Becomes (on_places (moved_down i used empty_place)) room.old room.new }
{
    for j in i + 1..used {
        let moved = records::load_place(room, j);
        records::store_place(room, j - 1, moved);
    }
}

// Bookings behind i come one nearer. What stood last stands there still. Bytes are moved by a constant, on a part that is lent to the move alone: this
// compiles to one move of memory, which the same by bookings, or on the whole room, does not.
fn move_bookings_down(room: &mut [u8], base: usize, i: usize, live: usize)
    requires { Sized room.old × (base ≡ base_of (contents_of room.old).sizes.names) × (i < live)
        × (live ≤ (contents_of room.old).sizes.reservations) }
    ensures { Becomes (on_bookings (moved_down i live empty_booking)) room.old room.new }
{
    let from = base + records::BOOKING_SIZE * i;
    let end = base + records::BOOKING_SIZE * live;
    room[from..end].copy_within(records::BOOKING_SIZE.., 0);
}

// Owners from place i on get the next number. Only bookings that change are stored.
fn raise_owners(room: &mut [u8], base: usize, live: usize, i: u64)
    requires { Sized room.old × (base ≡ base_of (contents_of room.old).sizes.names) × (live ≤ (contents_of room.old).sizes.reservations)
        × All CanRise (take live (contents_of room.old).bookings) }
    ensures { Becomes (on_bookings (renumbered (raised i) live)) room.old room.new }
{
    for j in 0..live {
        let booking = records::load_booking(room, base, j);
        let owner = booking.owner;
        if i <= owner {
            let renumbered = Booking {
                owner: owner + 1,
                ..booking
            };
            records::store_booking(room, base, j, renumbered);
        }
    }
}

// Owners behind place i get the number before. Only bookings that change are stored.
fn lower_owners(room: &mut [u8], base: usize, live: usize, i: u64)
    requires { Sized room.old × (base ≡ base_of (contents_of room.old).sizes.names) × (live ≤ (contents_of room.old).sizes.reservations) }
    ensures { Becomes (on_bookings (renumbered (lowered i) live)) room.old room.new }
{
    for j in 0..live {
        let booking = records::load_booking(room, base, j);
        let owner = booking.owner;
        if i < owner {
            let renumbered = Booking {
                owner: owner - 1,
                ..booking
            };
            records::store_booking(room, base, j, renumbered);
        }
    }
}

// A place put in at i.
pub fn insert_place(room: &mut [u8], i: usize, place: Place)
    requires { Sized room.old × (i ≤ (contents_of room.old).sizes.used) × ((contents_of room.old).sizes.used < (contents_of room.old).sizes.names)
        × All CanRise (live_bookings (contents_of room.old)) }
    ensures { Becomes (inserted_place i place) room.old room.new }
{
    let sizes = records::load_sizes(room);
    let base = records::HEAD_SIZE + records::PLACE_SIZE * (sizes.names as usize);
    let used = sizes.used as usize;
    let live = sizes.live as usize;
    move_places_up(room, i, used);
    records::store_place(room, i, place);
    raise_owners(room, base, live, i as u64);
    records::store_counts(room, sizes.used + 1, sizes.live);
}

// The place at i taken out; the last one is then empty.
pub fn free_place(room: &mut [u8], i: usize)
    requires { Sized room.old × (i < (contents_of room.old).sizes.used) }
    ensures { Becomes (freed_place i) room.old room.new }
{
    let sizes = records::load_sizes(room);
    let base = records::HEAD_SIZE + records::PLACE_SIZE * (sizes.names as usize);
    let used = sizes.used as usize;
    let live = sizes.live as usize;
    move_places_down(room, i, used);
    let name = Name {
        length: 0,
        bytes: [0; rules::LONGEST_NAME],
    };
    let empty = Place {
        initial: 0,
        remaining: 0,
        reserved: 0,
        committed: 0,
        limit: 0,
        account: 0,
        name,
    };
    records::store_place(room, used - 1, empty);
    lower_owners(room, base, live, i as u64);
    records::store_counts(room, sizes.used - 1, sizes.live);
}

pub fn append_booking(room: &mut [u8], booking: Booking)
    requires { Sized room.old × ((contents_of room.old).sizes.live < (contents_of room.old).sizes.reservations) × (booking.owner < 65536) }
    ensures { Becomes (appended_booking booking) room.old room.new }
{
    let sizes = records::load_sizes(room);
    let base = records::HEAD_SIZE + records::PLACE_SIZE * (sizes.names as usize);
    let live = sizes.live as usize;
    records::store_booking(room, base, live, booking);
    records::store_counts(room, sizes.used, sizes.live + 1);
}

// The booking at i taken out; the last one is then empty.
pub fn remove_booking(room: &mut [u8], i: usize)
    requires { Sized room.old × (i < (contents_of room.old).sizes.live) }
    ensures { Becomes (removed_booking i) room.old room.new }
{
    let sizes = records::load_sizes(room);
    let base = records::HEAD_SIZE + records::PLACE_SIZE * (sizes.names as usize);
    let live = sizes.live as usize;
    move_bookings_down(room, base, i, live);
    let empty = Booking {
        id: Identifier(0),
        amount: Held(0),
        owner: 0,
    };
    records::store_booking(room, base, live - 1, empty);
    records::store_counts(room, sizes.used, sizes.live - 1);
}
