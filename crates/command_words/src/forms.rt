ghost use Rattle.std.specs.Prelude.{◌≡◌, ◌↔◌, ◌<◌, ◌≤◌, ◌∷◌, List, map, length, string_bytes, IsTrue, None, IfSome, IfNone};
ghost use Rattle.std.specs.List.{Contains, list_any};
ghost use Rattle.std.specs.Str.{bytes_eq};
ghost use Rattle.std.specs.Option.{option_copied};
ghost use Rattle.command_words.specs.Names.{Word, words_of};
ghost use Rattle.command_words.specs.Forms.{AreOf, AreOptions, row_of, said as value_said};

/// A command's form: its word, how many names follow it, and the options that may follow them.
#[derive(Clone, Copy)]
pub(crate) struct Form<'a> {
    pub(crate) command: &'a str,
    pub(crate) names: usize,
    pub(crate) options: &'a [&'a str],
}

pub(crate) const TRANSLATION: Form<'static> = Form {
    command: "translate",
    names: 4,
    options: &[
        "--bound", "--level", "--style", "--checks", "--slots", "--form",
    ],
};

pub(crate) const BOUND: Form<'static> = Form {
    command: "bound",
    names: 2,
    options: &["--level", "--checks"],
};

pub(crate) const DECODING: Form<'static> = Form {
    command: "decode",
    names: 3,
    options: &["--bound", "--level", "--checks", "--form"],
};

pub(crate) const ENCODING: Form<'static> = Form {
    command: "encode",
    names: 3,
    options: &["--bound", "--checks", "--form"],
};

pub(crate) const VALIDATION: Form<'static> = Form {
    command: "validate",
    names: 3,
    options: &[],
};

pub(crate) const MAKING: Form<'static> = Form {
    command: "make",
    names: 3,
    options: &[],
};

pub(crate) const PRUNING: Form<'static> = Form {
    command: "prune",
    names: 4,
    options: &[],
};

/// The words of a form, behind that of the command.
#[derive(Clone, Copy)]
pub(crate) struct Parts<'a> {
    pub(crate) names: &'a [String],
    pub(crate) options: &'a [String],
}

/// The words of this form; `None` where they are not of it.
pub(crate) fn parts_of<'a>(words: &'a [String], form: &Form<'_>) -> Option<Parts<'a>>
    ensures parts { IfSome result (λ parts. AreOf (row_of form.now) (words_of words.now)
        (words_of parts.names.now) (words_of parts.options.now)) }
    ensures other { IfNone result ((names options : List Word) →
        AreOf (row_of form.now) (words_of words.now) names options → ⊥) }
{
    let [first, more @ ..] = words else {
        return None;
    };
    if !is_word(first, form.command) || more.len() < form.names {
        return None;
    }
    let (names, options) = more.split_at(form.names);
    if !are_options(options, form.options) {
        return None;
    }
    Some(Parts { names, options })
}

/// The value that the words give an option.
#[tactic(auto, using(crate::proofs::Said::said_here, crate::proofs::Said::said_later))]
pub(crate) fn said<'a>(option: &str, words: &'a [String]) -> Option<&'a str>
    ensures { option_copied result ≡ value_said option.now (words_of words.now) }
{
    let mut rest = words;
    while 2 <= rest.len() {
        let pair = pair_of(rest);
        if is_same(pair.option, option) {
            return Some(pair.value);
        }
        rest = pair.more;
    }
    None
}

#[tactic(auto, using(crate::proofs::Said::options_go_on, crate::proofs::Said::options_stop))]
fn are_options(words: &[String], options: &[&str]) -> bool
    ensures { IsTrue result ↔ AreOptions (map (λ o. o.now) options.now) (words_of words.now) }
{
    match words {
        [] => true,
        [_] => false,
        _ => {
            let pair = pair_of(words);
            is_new(&pair, options) && are_options(pair.more, options)
        }
    }
}

/// An option, its value and the words behind them.
#[derive(Clone, Copy)]
struct Pair<'a> {
    option: &'a str,
    value: &'a str,
    more: &'a [String],
}

fn pair_of(words: &[String]) -> Pair<'_>
    requires { 2 ≤ length words.now }
    ensures spelled { words_of words.now
        ≡ result.option.now ∷ result.value.now ∷ words_of result.more.now }
    ensures shorter { length result.more.now < length words.now }
{
    match words {
        [option, value, more @ ..] => Pair {
            option: option.as_str(),
            value: value.as_str(),
            more,
        },
        _ => unreachable!(),
    }
}

/// Whether the option of a pair is one of these, and is in no pair behind it.
fn is_new(pair: &Pair<'_>, options: &[&str]) -> bool
    ensures { IsTrue result ↔ (Contains (map (λ o. o.now) options.now) pair.now.option.now
        × (value_said pair.now.option.now (words_of pair.now.more.now) ≡ None)) }
{
    has(options, pair.option) && said(pair.option, pair.more).is_none()
}

#[tactic(auto, using(crate::proofs::Said::has_told))]
fn has(options: &[&str], name: &str) -> bool
    ensures { IsTrue result ↔ Contains (map (λ o. o.now) options.now) name.now }
{
    is_among(options, name)
}

fn is_among(options: &[&str], name: &str) -> bool
    ensures { result ≡ list_any (λ o. bytes_eq name.now o.now) options.now }
{
    options.iter().any(|option| name == *option)
}

fn is_word(word: &String, text: &str) -> bool
    ensures { IsTrue result ↔ (string_bytes word.now ≡ text.now) }
{
    word.as_str() == text
}

fn is_same(word: &str, option: &str) -> bool
    ensures { IsTrue result ↔ (word.now ≡ option.now) }
{
    word == option
}
