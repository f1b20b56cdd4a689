//! The networks, schemas and facts of a domain and a problem with the numbers of what their names stand for.
//!
//! Stands on `htn_base`, on the raw texts of `hddl_reader`, on the values of `plan_model` and its orders, and on `name_binding` for what
//! is declared and for the parts. A network has the value that stands for it, and its faults are noted, the first pair that closes a
//! cycle among them (`network_of`); a method's task is a task and no action (`task_of_method`); a name that is declared
//! again is a fault (`seconds_of`, `Callables::seconds`). The contracts used above: predicates, tasks,
//! actions, methods and facts are bound to what stands for them, and the faults of their names are noted (`predicates_of`,
//! `tasks_of`, `actions_of`, `methods_of`, `facts_of`), and so are all that a domain declares but its types (`schemas_of`) and what
//! a problem says beyond its domain (`parts_of`); names that are declared again are noted where the tables of names are made
//! (`names_of`); and what was bound is handed out exactly where no fault was noted, else the least is (`judged`). On these stand the
//! whole domain and the whole problem (`bind_domain`, `bind_problem`), of HDDL or of PDDL: the languages differ in how many types a
//! domain may have.
#![tactic(auto)]

mod actions;
mod bound_domain;
mod bound_problem;
mod callables;
mod callees;
mod calls;
mod cycle;
mod declared;
mod domain_names;
mod domain_schemas;
mod errors;
mod facts;
mod heads;
mod ids;
mod methods;
mod networks;
mod pairs;
mod problem_parts;
mod seconds;
mod whole_unions;

pub use actions::actions_of;
pub use bound_domain::{BoundDomain, bind_domain};
pub use bound_problem::bind_problem;
pub use callables::{Callable, Callables};
pub use calls::task_of_method;
pub use domain_names::{DomainNames, names_of};
pub use domain_schemas::{DomainSchemas, schemas_of};
pub use errors::{BindError, judged};
pub use facts::facts_of;
pub use heads::{predicates_of, tasks_of};
pub use methods::methods_of;
pub use networks::{BoundNet, network_of};
pub use problem_parts::{ProblemParts, parts_of};
pub use seconds::{Declares, declare, seconds_of};
