// Look-up in the tables of a room: a name's place, the place for a new name, a live booking by its id.

#![tactic(auto)]

ghost use Rattle.std.specs.Prelude.{◌+◌, ◌≤◌, ◌≡◌, length};
ghost use Rattle.rules.specs.RoomAndSoundLedger.{longest_name};
ghost use Rattle.names.specs.Names.{spelled};
ghost use Rattle.records.specs.Layout.{place_start, place_size};
ghost use Rattle.records.specs.Rows.{row};
ghost use Rattle.records.specs.Records.{place_of};
ghost use Rattle.room.specs.Contents.{contents_of, used_places, live_bookings, place_of_name, place_for_name, booking_of_id, Searchable};

use numbers::Identifier;

// The name at place i where it stands in the room: its length, and after that its bytes.
fn name_at(room: &[u8], i: usize) -> &[u8]
    requires { (place_start i + place_size ≤ length room.now) × ((place_of (row place_size (place_start i) room.now)).name.length ≤ longest_name) }
    ensures { result.now ≡ spelled (place_of (row place_size (place_start i) room.now)).name }
{
    let at = records::FIRST_NAME + records::PLACE_SIZE * i;
    let from = at + 1;
    let end = from + (room[at] as usize);
    &room[from..end]
}

// The place of a name, or that it is absent: place by place.
pub fn find(room: &[u8], part: &[u8]) -> Option<usize>
    requires { Searchable room.now }
    ensures { result ≡ place_of_name part.now (used_places (contents_of room.now)) }
{
    let sizes = records::load_sizes(room);
    let used = sizes.used as usize;
    (0..used).find(|&i| names::is_same(part, name_at(room, i)))
}

// Where a new name goes: behind the names that come before it.
pub fn place_for(room: &[u8], part: &[u8]) -> usize
    requires { Searchable room.now }
    ensures { result ≡ place_for_name part.now (used_places (contents_of room.now)) }
{
    let sizes = records::load_sizes(room);
    let used = sizes.used as usize;
    for i in 0..used {
        if names::compare(name_at(room, i), part).is_ge() {
            return i;
        }
    }
    used
}

// A live booking by its id, by halving: ids ascend. Two tests of the ids take fewer steps than one `cmp` and a match on it.
pub fn find_booking(room: &[u8], id: Identifier) -> Option<usize>
    requires { Searchable room.now }
    ensures { result ≡ booking_of_id id.0 (live_bookings (contents_of room.now)) }
{
    let sizes = records::load_sizes(room);
    let base = records::HEAD_SIZE + records::PLACE_SIZE * (sizes.names as usize);
    let mut low = 0;
    let mut high = sizes.live as usize;
    while low < high {
        let middle = (low + high) / 2;
        let booking = records::load_booking(room, base, middle);
        if booking.id.0 == id.0 {
            return Some(middle);
        }
        if booking.id.0 < id.0 {
            low = middle + 1;
        } else {
            high = middle;
        }
    }
    None
}
