// The order in which HDDL texts first name types.
ghost use Rattle.std.specs.Prelude.{◌≡◌};
ghost use Rattle.text_forms.specs.Lists.{Parts};
ghost use Rattle.plan_texts.specs.SpellsHddl.{hddl_types, hddl_unions};
ghost use Rattle.plan_texts.specs.FirstSeen.{SpellsTypesInOrder, IsHddlOf};

use plan_model::Hddl;

/// A list of types spells its types and pairs in first-seen order, if it writes no parent for `object`.
pub fn ordered_types_spelled()
    ensures { (ps : Parts) → SpellsTypesInOrder ps }
{}

/// Two values of the same HDDL texts have the same types, pairs and unions under the same numbers.
pub fn one_order(domain: &[u8], problem: &[u8], one: &Hddl, other: &Hddl)
    requires first { IsHddlOf domain.now problem.now one.now }
    requires second { IsHddlOf domain.now problem.now other.now }
    ensures types { hddl_types one.now ≡ hddl_types other.now }
    ensures pairs { one.now.types.parents ≡ other.now.types.parents }
    ensures unions { hddl_unions one.now ≡ hddl_unions other.now }
{}
