// How many words a name table gets.
ghost use Rattle.gd_reader.specs.Added.{AtMostOneForEachToken};

/// Where words of a text are added to a name table, on an error too, it gets at most one for each token of the text.
pub fn at_most_one_word_is_added_for_each_token()
    ensures few { AtMostOneForEachToken }
{}
