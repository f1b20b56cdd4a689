ghost use Rattle.std.specs.Prelude.{◌≢◌, ◌↔◌, IsTrue, IfSome, IfNone};
ghost use Rattle.command_words.specs.Bounds.{IsCount};
ghost use Rattle.command_words.specs.Names.{words_of};
ghost use Rattle.command_words.specs.Words.{AreOfAForm, AskFor, Asks, AsksBound, AsksDecode, AsksEncode, AsksMake, AsksPrune, AsksTranslation, AsksValidation, BoundRequest, DecodeRequest, EncodeRequest, MakeRequest, PruneRequest, SayBound, SayDecode, SayEncode, SayMake, SayPrune, SayTranslation, SayValidation, TranslationRequest, ValidationRequest, bound_of, decode_of, encode_of, make_of, prune_of, request_of, translation_of, validation_of};

use crate::asking::{
    Asked, Bounding, Decoding, Encoding, Making, Pruning, Translation, Validation,
};
use crate::bounds::{count_of, is_count};
use crate::commands::Command;
use crate::forms::{BOUND, DECODING, ENCODING, MAKING, PRUNING, TRANSLATION, VALIDATION, parts_of};
use crate::names::{Named, are_apart};
use crate::options::{are_slots, checks, form, is_computed, is_of_form, level, rule, slots, style};

/// The command that the words ask for; `None` exactly where the words are of no command's form.
/// It takes no memory.
///
/// The forms are `translate D P OD OP` with the options `--bound N` or `--level lifted|ground`, `--style adl|flat`,
/// `--checks leaf|atonce`, `--slots any|first` and `--form slots|stack`, where OD and OP differ and neither is D or P, and a style and
/// `--slots` are given of form `slots` alone; `bound D P` with the options `--level lifted|ground` and `--checks leaf|atonce`,
/// `decode D P PLAN` with the options `--bound N` or `--level lifted|ground`, `--checks leaf|atonce` and `--form slots|stack`,
/// `encode D P HPLAN` with the options `--bound N`, `--checks leaf|atonce` and `--form slots|stack`, `validate PD PP PLAN`,
/// `make K OD OP`, where OD and OP differ, and `prune D P OD OP`, whose names are apart as those of `translate`. Options come in any
/// order and may be left out: the level is then `lifted`, the form `slots`, the style `adl`, the checks are `leaf`, and the slots `any`.
pub fn command(words: &[String]) -> Option<Command<'_>>
    ensures asked { IfSome result (AskFor (words_of words.now)) }
    ensures formless { IfNone result (AreOfAForm (words_of words.now) → ⊥) }
{
    match asked(words)? {
        Asked::Translation(asked) => Some(Command::Translate {
            d: asked.names.d,
            p: asked.names.p,
            od: asked.names.od,
            op: asked.names.op,
            bound: asked.numeral,
            level: asked.level,
            form: asked.form,
            style: asked.style,
            checks: asked.checks,
            slots: asked.rule,
        }),
        Asked::Bound(asked) => Some(Command::Bound {
            d: asked.d,
            p: asked.p,
            level: asked.level,
            checks: asked.checks,
        }),
        Asked::Decoding(asked) => Some(Command::Decode {
            d: asked.d,
            p: asked.p,
            plan: asked.plan,
            bound: asked.numeral,
            level: asked.level,
            form: asked.form,
            checks: asked.checks,
        }),
        Asked::Encoding(asked) => Some(Command::Encode {
            d: asked.d,
            p: asked.p,
            hplan: asked.hplan,
            bound: asked.numeral,
            form: asked.form,
            checks: asked.checks,
        }),
        Asked::Validation(asked) => Some(Command::Validate {
            pd: asked.pd,
            pp: asked.pp,
            plan: asked.plan,
        }),
        Asked::Making(asked) => Some(Command::Make {
            k: count_of(asked.numeral),
            od: asked.od,
            op: asked.op,
        }),
        Asked::Pruning(asked) => Some(Command::Prune {
            d: asked.names.d,
            p: asked.names.p,
            od: asked.names.od,
            op: asked.names.op,
        }),
    }
}

/// What the words ask for; `None` exactly where the words are of no command's form. It takes no
/// memory.
pub fn asked(words: &[String]) -> Option<Asked<'_>>
    ensures asked { IfSome result (λ asked. Asks (words_of words.now) (request_of asked)) }
    ensures formless { IfNone result (AreOfAForm (words_of words.now) → ⊥) }
{
    if let Some(asked) = asked_translation(words) {
        return Some(Asked::Translation(asked));
    }
    if let Some(asked) = asked_bound(words) {
        return Some(Asked::Bound(asked));
    }
    if let Some(asked) = asked_decoding(words) {
        return Some(Asked::Decoding(asked));
    }
    if let Some(asked) = asked_encoding(words) {
        return Some(Asked::Encoding(asked));
    }
    if let Some(asked) = asked_validation(words) {
        return Some(Asked::Validation(asked));
    }
    if let Some(asked) = asked_pruning(words) {
        return Some(Asked::Pruning(asked));
    }
    let asked = asked_making(words)?;
    Some(Asked::Making(asked))
}

fn asked_translation(words: &[String]) -> Option<Translation<'_>>
    ensures asked { IfSome result (λ asked.
        AsksTranslation (words_of words.now) (translation_of asked)) }
    ensures other { IfNone result ((request : TranslationRequest) →
        AsksTranslation (words_of words.now) request → ⊥) }
{
    let parts = parts_of(words, &TRANSLATION)?;
    translation(parts.names, parts.options)
}

fn translation<'a>(names: &'a [String], options: &'a [String]) -> Option<Translation<'a>>
    ensures said { IfSome result (λ asked.
        SayTranslation (words_of names.now) (words_of options.now) (translation_of asked)) }
    ensures other { IfNone result ((request : TranslationRequest) →
        SayTranslation (words_of names.now) (words_of options.now) request → ⊥) }
{
    let [d, p, od, op] = names else {
        return None;
    };
    let (d, p, od, op) = (d.as_str(), p.as_str(), od.as_str(), op.as_str());
    let names = Named { d, p, od, op };
    let numeral = slots(options);
    if !are_apart(&names) || !are_slots(numeral) || !is_computed(options) {
        return None;
    }
    let form = form(options)?;
    if !is_of_form(options, form) {
        return None;
    }
    Some(Translation {
        names,
        numeral,
        level: level(options)?,
        form,
        style: style(options)?,
        checks: checks(options)?,
        rule: rule(options)?,
    })
}

fn asked_bound(words: &[String]) -> Option<Bounding<'_>>
    ensures asked { IfSome result (λ asked. AsksBound (words_of words.now) (bound_of asked)) }
    ensures other { IfNone result ((request : BoundRequest) →
        AsksBound (words_of words.now) request → ⊥) }
{
    let parts = parts_of(words, &BOUND)?;
    bound(parts.names, parts.options)
}

fn bound<'a>(names: &'a [String], options: &'a [String]) -> Option<Bounding<'a>>
    ensures said { IfSome result (λ asked.
        SayBound (words_of names.now) (words_of options.now) (bound_of asked)) }
    ensures other { IfNone result ((request : BoundRequest) →
        SayBound (words_of names.now) (words_of options.now) request → ⊥) }
{
    let [d, p] = names else {
        return None;
    };
    Some(Bounding {
        d: d.as_str(),
        p: p.as_str(),
        level: level(options)?,
        checks: checks(options)?,
    })
}

fn asked_decoding(words: &[String]) -> Option<Decoding<'_>>
    ensures asked { IfSome result (λ asked. AsksDecode (words_of words.now) (decode_of asked)) }
    ensures other { IfNone result ((request : DecodeRequest) →
        AsksDecode (words_of words.now) request → ⊥) }
{
    let parts = parts_of(words, &DECODING)?;
    decoding(parts.names, parts.options)
}

fn decoding<'a>(names: &'a [String], options: &'a [String]) -> Option<Decoding<'a>>
    ensures said { IfSome result (λ asked.
        SayDecode (words_of names.now) (words_of options.now) (decode_of asked)) }
    ensures other { IfNone result ((request : DecodeRequest) →
        SayDecode (words_of names.now) (words_of options.now) request → ⊥) }
{
    let [d, p, plan] = names else {
        return None;
    };
    let numeral = slots(options);
    if !are_slots(numeral) || !is_computed(options) {
        return None;
    }
    Some(Decoding {
        d: d.as_str(),
        p: p.as_str(),
        plan: plan.as_str(),
        numeral,
        level: level(options)?,
        form: form(options)?,
        checks: checks(options)?,
    })
}

fn asked_encoding(words: &[String]) -> Option<Encoding<'_>>
    ensures asked { IfSome result (λ asked. AsksEncode (words_of words.now) (encode_of asked)) }
    ensures other { IfNone result ((request : EncodeRequest) →
        AsksEncode (words_of words.now) request → ⊥) }
{
    let parts = parts_of(words, &ENCODING)?;
    encoding(parts.names, parts.options)
}

fn encoding<'a>(names: &'a [String], options: &'a [String]) -> Option<Encoding<'a>>
    ensures said { IfSome result (λ asked.
        SayEncode (words_of names.now) (words_of options.now) (encode_of asked)) }
    ensures other { IfNone result ((request : EncodeRequest) →
        SayEncode (words_of names.now) (words_of options.now) request → ⊥) }
{
    let [d, p, hplan] = names else {
        return None;
    };
    let numeral = slots(options);
    if !are_slots(numeral) {
        return None;
    }
    Some(Encoding {
        d: d.as_str(),
        p: p.as_str(),
        hplan: hplan.as_str(),
        numeral,
        form: form(options)?,
        checks: checks(options)?,
    })
}

fn asked_validation(words: &[String]) -> Option<Validation<'_>>
    ensures asked { IfSome result (λ asked.
        AsksValidation (words_of words.now) (validation_of asked)) }
    ensures other { IfNone result ((request : ValidationRequest) →
        AsksValidation (words_of words.now) request → ⊥) }
{
    let parts = parts_of(words, &VALIDATION)?;
    validation(parts.names, parts.options)
}

fn validation<'a>(names: &'a [String], options: &'a [String]) -> Option<Validation<'a>>
    ensures said { IfSome result (λ asked.
        SayValidation (words_of names.now) (words_of options.now) (validation_of asked)) }
    ensures other { IfNone result ((request : ValidationRequest) →
        SayValidation (words_of names.now) (words_of options.now) request → ⊥) }
{
    let [pd, pp, plan] = names else {
        return None;
    };
    Some(Validation {
        pd: pd.as_str(),
        pp: pp.as_str(),
        plan: plan.as_str(),
    })
}

fn asked_making(words: &[String]) -> Option<Making<'_>>
    ensures asked { IfSome result (λ asked. AsksMake (words_of words.now) (make_of asked)) }
    ensures other { IfNone result ((request : MakeRequest) →
        AsksMake (words_of words.now) request → ⊥) }
{
    let parts = parts_of(words, &MAKING)?;
    making(parts.names, parts.options)
}

fn making<'a>(names: &'a [String], options: &'a [String]) -> Option<Making<'a>>
    ensures said { IfSome result (λ asked.
        SayMake (words_of names.now) (words_of options.now) (make_of asked)) }
    ensures other { IfNone result ((request : MakeRequest) →
        SayMake (words_of names.now) (words_of options.now) request → ⊥) }
{
    let [numeral, od, op] = names else {
        return None;
    };
    let making = Making {
        numeral: numeral.as_str(),
        od: od.as_str(),
        op: op.as_str(),
    };
    if !is_well_said(&making) {
        return None;
    }
    Some(making)
}

/// Whether the numeral is a count, and the two outputs differ.
fn is_well_said(making: &Making<'_>) -> bool
    ensures { IsTrue result ↔ (IsCount making.now.numeral.now
        × (making.now.od.now ≢ making.now.op.now)) }
{
    is_count(making.numeral) && making.od != making.op
}

fn asked_pruning(words: &[String]) -> Option<Pruning<'_>>
    ensures asked { IfSome result (λ asked. AsksPrune (words_of words.now) (prune_of asked)) }
    ensures other { IfNone result ((request : PruneRequest) →
        AsksPrune (words_of words.now) request → ⊥) }
{
    let parts = parts_of(words, &PRUNING)?;
    pruning(parts.names, parts.options)
}

fn pruning<'a>(names: &'a [String], options: &'a [String]) -> Option<Pruning<'a>>
    ensures said { IfSome result (λ asked.
        SayPrune (words_of names.now) (words_of options.now) (prune_of asked)) }
    ensures other { IfNone result ((request : PruneRequest) →
        SayPrune (words_of names.now) (words_of options.now) request → ⊥) }
{
    let [d, p, od, op] = names else {
        return None;
    };
    let names = Named {
        d: d.as_str(),
        p: p.as_str(),
        od: od.as_str(),
        op: op.as_str(),
    };
    if !are_apart(&names) {
        return None;
    }
    Some(Pruning { names })
}
