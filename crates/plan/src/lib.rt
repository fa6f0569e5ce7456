// Clause plans: a machine described by clauses, read from bytes and answered as a plant.
#![tactic(auto)]

mod answers;
mod clause;
mod fault;
mod item;
mod kind;
mod loops;
mod partial;
mod plan;
mod reading;
mod sizes;

pub use fault::PlanFault;
pub use plan::{Counts, Plan};
