// What the program `cases` reads and shows, apart from the ledger: the words and numbers of a line, and a line with its answer.

#![tactic(auto)]

pub mod shown;
pub mod text;
