//! What the laws are said of.

ghost use Rattle.text_forms.specs.form_grammar.Rows.{Rows, end_due};
ghost use Rattle.text_forms.specs.form_grammar.Texts.{TextRows, OneDue, one_list};

use std::marker::Brand;

/// A grammar of nested lists: what may be due in a list, what the next token may be then, and what is due inside the lists of a text.
pub trait Grammar {
    ghost due: { Type 0 };

    ghost rows: { Rows due };

    ghost inside: { due };
}

impl Grammar for Brand {
    ghost due = { Unit {0} };

    ghost rows = { λ d. end_due 8 };

    ghost inside = { tt };
}

/// A grammar of whole texts: what may be due outside all lists.
pub trait TextGrammar {
    ghost due: { Type 0 };

    ghost rows: { Rows due };

    ghost outside: { Type 0 };

    ghost texts: { TextRows due outside };
}

impl TextGrammar for Brand {
    ghost due = { Unit {0} };

    ghost rows = { λ d. end_due 8 };

    ghost outside = { OneDue };

    ghost texts = { one_list 5 tt };
}
