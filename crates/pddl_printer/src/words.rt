ghost use Rattle.std.specs.Prelude.{◌≡◌, map};
ghost use Rattle.text_forms.specs.Words.{word_at};
ghost use Rattle.plan_texts.specs.Declared.{named, variable};
ghost use Rattle.plan_texts.specs.SpellsPddl.{pddl_types, pddl_words};

use htn_base::Name;
use plan_model::{Param, Pddl};

/// The word of a name; of a number that no word has, the empty one.
pub fn name_word(p: &Pddl, name: Name) -> &[u8]
    ensures { result.now ≡ named p.now.names name }
{
    match p.names.text(name) {
        Some(word) => word,
        None => b"",
    }
}

/// The word of an object.
pub(crate) fn object_word(p: &Pddl, object: usize) -> &[u8]
    ensures { result.now ≡ word_at (pddl_words p.now).objects object }
{
    match p.objects.get(object) {
        Some(declared) => name_word(p, declared.name),
        None => b"",
    }
}

/// The word of a predicate.
pub(crate) fn predicate_word(p: &Pddl, predicate: u32) -> &[u8]
    ensures { result.now ≡ word_at (pddl_words p.now).predicates predicate }
{
    match p.predicates.get(predicate as usize) {
        Some(declared) => name_word(p, declared.name),
        None => b"",
    }
}

/// The word of a type that is no union.
pub(crate) fn type_word(p: &Pddl, ty: u32) -> &[u8]
    ensures { result.now ≡ word_at (pddl_types p.now) ty }
{
    match p.types.names.get(ty as usize) {
        Some(name) => name_word(p, *name),
        None => b"",
    }
}

/// The word of the k-th of these variables.
pub(crate) fn variable_word<'a>(p: &'a Pddl, params: &[Param], k: usize) -> &'a [u8]
    ensures { result.now ≡ word_at (map (variable (pddl_words p.now)) params.now) k }
{
    match params.get(k) {
        Some(param) => name_word(p, param.name),
        None => b"",
    }
}
