// Whether lent memory is the room of a sound ledger, and the making of a fresh one. Every clause of document 01's paragraph is asked: once over the
// places, once over the bookings, and once over the room not in use.

#![tactic(auto)]

ghost use Rattle.std.specs.Prelude.{◌≡◌, true, false, ◌+◌, ◌-◌, ◌*◌, ◌^◌, ◌≤◌, ◌<◌, length, replicate};
ghost use Rattle.rules.specs.RoomAndSoundLedger.{M, is_vacant, made};
ghost use Rattle.names.specs.Names.{IsStored};
ghost use Rattle.moves.specs.Moves.{meaning, SeatSound};
ghost use Rattle.records.specs.Layout.{place_start, place_size, booking_size};
ghost use Rattle.records.specs.Rows.{row};
ghost use Rattle.records.specs.Records.{sizes_of, head_of, places, bookings};
ghost use Rattle.room.specs.Contents.{contents_of};
ghost use Rattle.room.specs.Room.{SoundRoom};
ghost use Rattle.room.specs.Seats.{seat_of_place};
ghost use Rattle.soundness.specs.Facts.{Decides, SizesSound, VersionSound, HeadSound, PlacesSound, TablesSound, RoomFacts, ExpectsSound};
ghost use Rattle.soundness.specs.Steps.{Leaves, ZeroBelow, place_at, NameFollows, Noted, Follows, Booked};
ghost use Rattle.soundness.specs.Making.{made_in, Makes};
ghost use Rattle.refusals.specs.Answers.{answer_of, carries_nothing};

use records::{Booking, Head, Place, Sizes};
use refusals::Refusal;

// The numbers of `rules`, of the type that the fields of a room have.
const MOST_NAMES: u64 = rules::MOST_NAMES as u64;

const MOST_RESERVATIONS: u64 = rules::MOST_RESERVATIONS as u64;

const LONGEST_NAME: u64 = rules::LONGEST_NAME as u64;

// "T and R are in range", no more is in use than there is room for, and the memory is of just that size.
fn sizes_sound(sizes: Sizes, bytes: usize) -> bool
    ensures { Decides (SizesSound sizes bytes) result }
{
    (1..=MOST_NAMES).contains(&sizes.names)
        && (1..=MOST_RESERVATIONS).contains(&sizes.reservations)
        && sizes.used <= sizes.names
        && sizes.live <= sizes.reservations
        && bytes
            == records::HEAD_SIZE
                + records::PLACE_SIZE * (sizes.names as usize)
                + records::BOOKING_SIZE * (sizes.reservations as usize)
}

// Document 01, Room and the sound ledger: no version yet, or one that is tagged and has a fence.
fn version_sound(version: u64) -> bool
    ensures { Decides (VersionSound version) result }
{
    version == 0 || big_endian::has_tag(version) && big_endian::fence_of(version) != 0
}

// "next id is 1 to M"; the baseline is at most M.
#[tactic(auto, unfolding(rules::specs::RoomAndSoundLedger::M))]
fn head_sound(head: Head) -> bool
    ensures { Decides (HeadSound head) result }
{
    (1..=rules::M).contains(&head.next_id)
        && head.baseline <= rules::M
        && version_sound(head.last_version)
}

// Document 01, Room and the sound ledger, the amounts of an account: by differences, so that no sum can wrap.
#[tactic(auto, unfolding(rules::specs::RoomAndSoundLedger::M))]
fn adds_up(place: Place) -> bool
    ensures { Decides ((place.remaining + place.reserved + place.committed ≡ place.initial) × (place.initial ≤ M)) result }
{
    let left = place
        .initial
        .checked_sub(place.remaining)
        .and_then(|held| held.checked_sub(place.reserved));
    place.initial <= rules::M && left == Some(place.committed)
}

// Document 01, Room and the sound ledger, a name that has only a limit: amounts that add up to zero are zero.
fn amounts_sound(place: Place) -> bool
    ensures { Decides (SeatSound (seat_of_place place) × (is_vacant (meaning (seat_of_place place)) ≡ false)) result }
{
    if rules::M < place.limit || !adds_up(place) {
        return false;
    }
    match place.account {
        0 => place.initial == 0 && place.limit != 0,
        1 => true,
        _ => false,
    }
}

// One pass over the places: each is sound, names ascend, the committed total reaches the baseline; what each has reserved is noted.
fn places_sound(room: &[u8], used: usize, baseline: u64, reserved: &mut [u64]) -> bool
    requires within { place_start used ≤ length room.now }
    requires few { used ≤ length reserved.old }
    ensures decides { Decides (PlacesSound baseline (places used room.now)) result }
    ensures noted { result ≡ true → Noted used room.now reserved.new }
{
    let mut left = baseline;
    for i in 0..used {
        let place = records::load_place(room, i);
        if !amounts_sound(place) || !name_sound(room, i) || !ascends(room, i) {
            return false;
        }
        left = left.saturating_sub(place.committed);
        reserved[i] = place.reserved;
    }
    left == 0
}

// The length of the name at i.
fn name_length(room: &[u8], i: usize) -> u8
    requires { place_start i + place_size ≤ length room.now }
    ensures { result ≡ (place_at i room.now).name.length }
{
    room[records::FIRST_NAME + records::PLACE_SIZE * i]
}

// Eight bytes of the name at i, where they stand in the room: a name has three such parts.
fn name_part(room: &[u8], i: usize, part: usize) -> &[u8]
    requires within { place_start i + place_size ≤ length room.now }
    requires third { part < 3 }
    ensures stands { result.now ≡ row 8 (8 * part) (place_at i room.now).name.bytes }
    ensures width { length result.now ≡ 8 }
{
    let from = records::FIRST_NAME_BYTES + records::PLACE_SIZE * i + 8 * part;
    &room[from..from + 8]
}

// Whether eight bytes, as a number with the lowest first, are zero from one of them on.
fn is_clear(word: u64, from: u64) -> bool
    ensures { Decides (word < 2 ^ (8 * from)) result }
{
    8 <= from || word >> (8 * from) == 0
}

// "bytes past the length zero"
fn name_sound(room: &[u8], i: usize) -> bool
    requires { place_start i + place_size ≤ length room.now }
    ensures { Decides (IsStored (place_at i room.now).name) result }
{
    let length = name_length(room, i) as u64;
    if LONGEST_NAME < length {
        return false;
    }
    for part in 0..3 {
        let word = numbers::read8(name_part(room, i, part));
        if !is_clear(word, length.saturating_sub(8 * (part as u64))) {
            return false;
        }
    }
    true
}

// The name at i comes after the one before it, if there is one: both are loaded and compared by value.
fn ascends(room: &[u8], i: usize) -> bool
    requires within { place_start i + place_size ≤ length room.now }
    requires before { 0 < i → IsStored (place_at (i - 1) room.now).name }
    requires here { IsStored (place_at i room.now).name }
    ensures { Decides (NameFollows i room.now) result }
{
    if i == 0 {
        return true;
    }
    let earlier = records::load_place(room, i - 1).name;
    let later = records::load_place(room, i).name;
    names::precedes(earlier, later)
}

// "room not in use is zero". All bytes are joined and the result is asked once: a fold without a way out compiles to steps of many bytes.
fn is_zero(part: &[u8]) -> bool
    ensures { Decides (ZeroBelow (length part.now) part.now) result }
{
    part.iter().fold(0, |joined, byte| joined | *byte) == 0
}

// A live booking: an id past the one before it and below next id, an amount that is not 0, and for its owner a place in use.
fn booking_sound(booking: Booking, last: u64, next_id: u64, used: u64) -> bool
    ensures { Decides (Follows last next_id used booking) result }
{
    last < booking.id.0 && booking.id.0 < next_id && booking.amount.0 != 0 && booking.owner < used
}

// One pass over the bookings: each takes its amount out of what its owner has reserved. A place without an account has nothing reserved, so a
// booking of one finds too little.
fn bookings_sound(
    room: &[u8],
    base: usize,
    sizes: Sizes,
    next_id: u64,
    reserved: &mut [u64],
) -> bool
    requires within { base + booking_size * sizes.live ≤ length room.now }
    requires few { sizes.used ≤ length reserved.old }
    ensures { Leaves (Booked 0 next_id sizes.used reserved.old (bookings base sizes.live room.now))
        (ZeroBelow sizes.used reserved.new) result }
{
    let mut last = 0;
    for j in 0..sizes.live as usize {
        let booking = records::load_booking(room, base, j);
        if !booking_sound(booking, last, next_id, sizes.used) {
            return false;
        }
        let owner = booking.owner as usize;
        let Some(left) = reserved[owner].checked_sub(booking.amount.0) else {
            return false;
        };
        reserved[owner] = left;
        last = booking.id.0;
    }
    true
}

// What the bookings took is all that was reserved (document 01, Room and the sound ledger): nothing is left.
fn nothing_left(reserved: &[u64], used: usize) -> bool
    requires { used ≤ length reserved.now }
    ensures { Decides (ZeroBelow used reserved.now) result }
{
    reserved[..used]
        .iter()
        .fold(0, |joined, left| joined | *left)
        == 0
}

// The tables of a room whose sizes and head are sound.
fn tables_sound(room: &[u8], sizes: Sizes, head: Head) -> bool
    requires read { (sizes ≡ sizes_of room.now) × (head ≡ head_of room.now) }
    requires sized { SizesSound sizes (length room.now) }
    ensures { Decides (TablesSound (contents_of room.now)) result }
{
    let used = sizes.used as usize;
    let base = records::HEAD_SIZE + records::PLACE_SIZE * (sizes.names as usize);
    let unused_places = records::HEAD_SIZE + records::PLACE_SIZE * used;
    let unused_bookings = base + records::BOOKING_SIZE * (sizes.live as usize);
    let mut reserved = [0u64; rules::MOST_NAMES];
    places_sound(room, used, head.baseline, &mut reserved)
        && is_zero(&room[unused_places..base])
        && bookings_sound(room, base, sizes, head.next_id, &mut reserved)
        && is_zero(&room[unused_bookings..])
        && nothing_left(&reserved, used)
}

// The sizes come first: only where they are sound do the tables lie within the room.
fn check(room: &[u8]) -> bool
    ensures { Decides (RoomFacts room.now) result }
{
    if room.len() < records::HEAD_SIZE {
        return false;
    }
    let sizes = records::load_sizes(room);
    let head = records::load_head(room);
    sizes_sound(sizes, room.len()) && head_sound(head) && tables_sound(room, sizes, head)
}

// Whether lent memory is the room of a sound ledger: exactly that, for any bytes.
pub fn is_sound(room: &[u8]) -> bool
    ensures { Decides (SoundRoom room.now) result }
{
    check(room)
}

// 24 for every operation: memory that is no such room is refused.
pub fn expect_sound(room: &[u8]) -> Result<(), Refusal>
    ensures { ExpectsSound room.now result }
{
    if is_sound(room) {
        Ok(())
    } else {
        Err(Refusal::UnsoundLedger)
    }
}

// A fresh ledger (document 01, Room and the sound ledger): over zeros only the sizes and the next id are left to write.
pub fn make(room: &mut [u8], names: u64, reservations: u64) -> Result<(), Refusal>
    ensures { Makes (made_in room.old (made names reservations)) room.old (answer_of carries_nothing result) room.new }
{
    let sizes = Sizes {
        names,
        reservations,
        used: 0,
        live: 0,
    };
    if !sizes_sound(sizes, room.len()) {
        return Err(Refusal::UnsoundLedger);
    }
    room.fill(0);
    records::store_sizes(room, sizes);
    let head = Head {
        next_id: 1,
        last_version: 0,
        baseline: 0,
    };
    records::store_head(room, head);
    Ok(())
}
