// The rules of document 01. specs/ writes the paper down, a file for each of its sections, and proofs/ holds the theorems about those definitions.
// Of code there is only what the paper fixes as a number: the crates above take it from here.

#![tactic(auto)]

// The greatest amount and the greatest id.
pub const M: u64 = 9223372036854775807;

// The bytes of a name, the names and the reservations of a ledger, at most.
pub const LONGEST_NAME: usize = 24;

pub const MOST_NAMES: usize = 256;

pub const MOST_RESERVATIONS: usize = 1024;

// A snapshot's bytes: version, active count and row count; then rows, each a name with its length in front, and four amounts. The shortest row has an
// empty name.
pub const ACTIVE_START: usize = 8;

pub const COUNT_START: usize = ACTIVE_START + 8;

pub const SNAPSHOT_HEADER: usize = COUNT_START + 2;

pub const ROW_AMOUNTS: usize = 4 * 8;

pub const SHORTEST_ROW: usize = 1 + ROW_AMOUNTS;

pub const LONGEST_ROW: usize = SHORTEST_ROW + LONGEST_NAME;

pub const LONGEST_SNAPSHOT: usize = SNAPSHOT_HEADER + MOST_NAMES * LONGEST_ROW;
