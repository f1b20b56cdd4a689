ghost use Rattle.std.specs.Prelude.{◌↔◌, IsTrue};
ghost use Rattle.command_words.specs.Names.{AreApart, names_of};

/// The files of a translation or of a pruning, by their words: `d` and `p` are read, `od` and `op` are written.
#[derive(Clone, Copy)]
pub struct Named<'a> {
    pub d: &'a str,
    pub p: &'a str,
    pub od: &'a str,
    pub op: &'a str,
}

/// Whether the two outputs differ from each other and from both inputs.
pub(crate) fn are_apart(names: &Named<'_>) -> bool
    ensures { IsTrue result ↔ AreApart (names_of names.now) }
{
    let Named { d, p, od, op } = *names;
    od != op && od != d && od != p && op != d && op != p
}
