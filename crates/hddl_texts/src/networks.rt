ghost use Rattle.hddl_texts.specs.Texts.{constraint_text, constraints_text};
ghost use Rattle.hddl_texts.specs.Texts.{network_text, orderings_text, subtasks_text};
ghost use Rattle.pddl_printer.specs.Batches.{Added};

use crate::problem::PrintedProblem;
use crate::words::{add_place, head_word};
use pddl_printer::{Batch, add_applied};
use plan_model::{Child, Constraint, MethodSchema, Pair, Scope};
use text_forms::sheets::Sheet;

/// Adds the subtasks, the orderings and the constraints of a network to a batch.
pub(crate) fn add_network(
    p: &PrintedProblem,
    network: &MethodSchema,
    batch: &mut Batch,
    sheet: &mut Sheet<'_>,
)
    ensures { Added (network_text p.now network.now) batch.old batch.new sheet.old sheet.new }
{
    let params = network.params.as_slice();
    let scope = Scope::Within(&Scope::Empty, params);
    batch.add(b" :subtasks (and", sheet);
    add_subtasks(p, &scope, network.children.as_slice(), batch, sheet);
    batch.add(b") :ordering (and", sheet);
    add_orderings(network.pairs.as_slice(), batch, sheet);
    batch.add(b") :constraints (and", sheet);
    add_constraints(p, &scope, network.constraints.as_slice(), batch, sheet);
    batch.add(b")", sheet);
}

/// Adds subtasks to a batch, as `(s0 (t ?x))`: each with the id that its place has.
fn add_subtasks(
    p: &PrintedProblem,
    scope: &Scope<'_>,
    children: &[Child],
    batch: &mut Batch,
    sheet: &mut Sheet<'_>,
)
    ensures { Added (subtasks_text p.now scope.now children.now) batch.old batch.new sheet.old sheet.new }
{
    for (place, child) in children.iter().enumerate() {
        let word = head_word(p, child.head);
        add_place(b" (s", place, batch, sheet);
        add_applied(&p.pddl, scope, word, child.args.as_slice(), batch, sheet);
        batch.add(b")", sheet);
    }
}

/// Adds orderings to a batch, as `(< s0 s1)`.
fn add_orderings(pairs: &[Pair], batch: &mut Batch, sheet: &mut Sheet<'_>)
    ensures { Added (orderings_text pairs.now) batch.old batch.new sheet.old sheet.new }
{
    for pair in pairs {
        batch.add(b" (<", sheet);
        add_place(b" s", pair.first as usize, batch, sheet);
        add_place(b" s", pair.then as usize, batch, sheet);
        batch.add(b")", sheet);
    }
}

/// Adds constraints to a batch.
fn add_constraints(
    p: &PrintedProblem,
    scope: &Scope<'_>,
    constraints: &[Constraint],
    batch: &mut Batch,
    sheet: &mut Sheet<'_>,
)
    ensures { Added (constraints_text p.now scope.now constraints.now)
        batch.old batch.new sheet.old sheet.new }
{
    for constraint in constraints {
        add_constraint(p, scope, *constraint, batch, sheet);
    }
}

/// Adds a constraint to a batch, as `(= ?x ?y)` or `(not (= ?x ?y))`.
fn add_constraint(
    p: &PrintedProblem,
    scope: &Scope<'_>,
    constraint: Constraint,
    batch: &mut Batch,
    sheet: &mut Sheet<'_>,
)
    ensures { Added (constraint_text p.now scope.now constraint) batch.old batch.new sheet.old sheet.new }
{
    let Constraint { equal, left, right } = constraint;
    let terms = [left, right];
    if equal {
        add_applied(&p.pddl, scope, b"=", &terms, batch, sheet);
    } else {
        batch.add(b" (not", sheet);
        add_applied(&p.pddl, scope, b"=", &terms, batch, sheet);
        batch.add(b")", sheet);
    }
}
