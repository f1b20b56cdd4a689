ghost use Rattle.pddl_printer.specs.Batches.{Added};
ghost use Rattle.pddl_printer.specs.Behind.{of_each};
ghost use Rattle.pddl_printer.specs.Texts.{fact_text};
ghost use Rattle.text_forms.specs.sheets.Sheets.{Wrote};

use crate::batch::Batch;
use crate::words::{object_word, predicate_word};
use plan_model::{Fact, Facts, Pddl};
use text_forms::sheets::Sheet;

/// Adds a fact to a batch, behind a space.
fn add_fact(p: &Pddl, fact: &Fact<'_>, batch: &mut Batch, sheet: &mut Sheet<'_>)
    ensures { Added (fact_text p.now fact.now) batch.old batch.new sheet.old sheet.new }
{
    batch.add(b" (", sheet);
    batch.add(predicate_word(p, fact.predicate), sheet);
    let objects = &fact.args;
    for j in 0..objects.len() {
        if let Some(object) = objects.get(j) {
            batch.add(b" ", sheet);
            batch.add(object_word(p, object as usize), sheet);
        }
    }
    batch.add(b")", sheet);
}

/// Puts facts, each behind a space.
pub fn put_facts(p: &Pddl, facts: &Facts, sheet: &mut Sheet<'_>)
    ensures { Wrote (of_each (fact_text p.now) facts.now) sheet.old sheet.new }
{
    let mut batch = Batch::new();
    for i in 0..facts.len() {
        if let Some(fact) = facts.get(i) {
            add_fact(p, &fact, &mut batch, sheet);
        }
    }
    batch.put(sheet);
}
