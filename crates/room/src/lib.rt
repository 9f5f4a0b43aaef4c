// What a room holds, and what it means: definitions only. specs/Contents.antt has the room as its sizes, head, places and bookings, specs/Room.antt
// when bytes are the room of a sound ledger, and specs/LedgerBytes.antt the bytes of a ledger written out, which are its room.

#![tactic(auto)]
