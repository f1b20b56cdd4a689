//! The printed problem as a PDDL value: slots that hold what is pending, and actions that process it.
//!
//! It stands on `slot_encoding`, its definitions and its `slot_declarations`, which have the words and declare types, objects and
//! predicates, and on the order formulas of `order_encoder`. Here are the first state, the goal and the actions.
//! The contracts used above: `Encoding` gives the defined value part by part, over a table that has all its words: all but the
//! actions at once, and then one action at a time (`action`), so that no more than one need be there. A method's action is as long
//! as the square of its new slots, so it comes in parts (`SplitAction`), and `whole` joins them. Where a method takes the lowest free
//! slots, neither what that asks of the new ones nor what is true of lower ones is made: `LowerSlots` tells by which numbers it is
//! said. `encode` gives the whole value where it takes any, which can be printed wherever the problem is sound. What prints another encoding
//! of the same source (`stack_encoder`) has the parts of source, children, guards and facts by the same functions.
#![tactic(auto)]

mod actions;
mod atoms;
mod both;
mod conditions;
mod differing;
mod effects;
mod encoding;
mod formulas;
mod goals;
mod initial;
mod lower_slots;
mod methods;
mod single;
mod split_action;
mod splitting;
mod terms;
mod variables;
mod works;

pub use actions::check_predicate;
pub use atoms::held;
pub use conditions::{push_change, push_condition};
pub use encoding::{Encoding, encode};
pub use initial::push_guards;
pub use lower_slots::LowerSlots;
pub use methods::push_behind;
pub use single::push_single;
pub use split_action::SplitAction;
pub use splitting::push_children;
