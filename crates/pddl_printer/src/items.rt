ghost use Rattle.std.specs.Prelude.{ℕ, List};
ghost use Rattle.plan_model.specs.declared.values.Pddl.{Pddl};
ghost use Rattle.pddl_printer.specs.Batches.{Added};
ghost use Rattle.pddl_printer.specs.Behind.{of_each};
ghost use Rattle.text_forms.specs.sheets.Sheets.{Wrote};

use crate::batch::Batch;
use plan_model::Pddl;
use text_forms::sheets::Sheet;

/// What may stand in a list.
pub trait Item {
    ghost text: { Pddl → Self → List ℕ };

    /// Adds the item to a batch, behind a space.
    fn add(&self, p: &Pddl, batch: &mut Batch, sheet: &mut Sheet<'_>)
        ensures { Added (text p.now self.now) batch.old batch.new sheet.old sheet.new };
}

/// Adds the items to a batch, each behind a space.
pub(crate) fn add_items<T: Item>(p: &Pddl, items: &[T], batch: &mut Batch, sheet: &mut Sheet<'_>)
    ensures { Added (of_each (T.text p.now) items.now) batch.old batch.new sheet.old sheet.new }
{
    for item in items {
        item.add(p, batch, sheet);
    }
}

/// Puts the items, each behind a space.
pub fn put_items<T: Item>(p: &Pddl, items: &[T], sheet: &mut Sheet<'_>)
    ensures { Wrote (of_each (T.text p.now) items.now) sheet.old sheet.new }
{
    let mut batch = Batch::new();
    add_items(p, items, &mut batch, sheet);
    batch.put(sheet);
}
