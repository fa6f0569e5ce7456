// A bench table: a plant given by a list of starts and a list of moves.
#![tactic(auto)]

mod answers;
mod build;
mod entry;
mod fault;
mod table;

pub use entry::Move;
pub use fault::TableFault;
pub use table::BenchTable;
