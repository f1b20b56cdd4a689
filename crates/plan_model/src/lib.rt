//! What a problem is and what it means. The values that are shared by readers, encoder, printers and deciders: terms, formulas,
//! effects, networks, schemas, types and objects, and the whole values of a problem in HDDL and in PDDL. In `task_networks` the
//! definitions of hierarchical planning over any task network, in `plan_meaning` what the values mean, and in `net_order` what
//! precedes what in one network.
//!
//! Numbers in a value are places from 0: of a predicate, task, action, method, type or object in the list of the
//! whole value, of a subtask in its network, and of a variable among those in force.
//!
//! Stands on `htn_base`. The contracts used above: a copy is equal (`copy`); which types are parts of a type, and its objects
//! (`Types::is_a`, `in_type`, `members`, `Parts::new`); an order answers what its pairs generate (`net_order::Order`).
#![tactic(auto)]

mod causes;
mod effects;
mod facts;
mod formulas;
mod membership;
pub mod net_order;
mod networks;
mod options;
mod parts;
pub mod plan_meaning;
mod schemas;
mod scope;
mod steps;
pub mod task_networks;
mod terms;
mod types;
mod values;

pub use causes::FailWhy;
pub use effects::Effect;
pub use facts::{Fact, Facts};
pub use formulas::Formula;
pub use membership::{in_type, members};
pub use networks::{Child, Constraint, Guard, Head, Pair};
pub use options::{Checks, Slots, Style};
pub use parts::Parts;
pub use schemas::{ActionSchema, MethodPlan, MethodSchema, Predicate, TaskSchema};
pub use scope::Scope;
pub use steps::GroundAction;
pub use terms::{Atom, GroundAtom, Param, Term};
pub use types::{Object, Parent, Types};
pub use values::{Compiled, Hddl, Pddl};
