// Laws of the definitions of texts.
ghost use Rattle.std.specs.Prelude.{◌≡◌, ◌≤◌, ℕ, true, All, Some, length, slice_get};
ghost use Rattle.text_forms.specs.Bytes.{opening, closing, letter, is_clean};
ghost use Rattle.text_forms.specs.Tokens.{start, stop, word, tokens, token_count, symbols};
ghost use Rattle.text_forms.specs.Comments.{IsClassed};
ghost use Rattle.text_forms.specs.LongestRuns.{IsAt, IsMade, LiesInOne};
ghost use Rattle.text_forms.specs.Least.{least_fault};
ghost use Rattle.text_forms.specs.Lists.{Part, Parts, written, written_all};
ghost use Rattle.text_forms.specs.Printing.{bytes, rows, IsPrintablePart, ArePrintableParts};
ghost use Rattle.text_forms.specs.Laws.{StandInOrder, ClosesItsLists, ShowsBy, FrontsAreCut, MatchedAreLists, OneNesting, SaysAsPlaced, MatchedAreFaultless, IsLeastOrNone, PagesAreClean, PagesSayDefinitions};

/// Matched parentheses are those of nested lists, in one way only.
pub fn lists_law()
    ensures matched { MatchedAreLists }
    ensures one { OneNesting }
{}

/// Each token is a longest run of letters or one parenthesis. Each letter and each parenthesis outside comments lies in
/// exactly one token, which is a word or of that parenthesis. Each byte in a comment is blank, and each other is of its own class.
pub fn words_are_longest_runs(text: &[u8])
    ensures tokens { All (IsMade text.now) (tokens text.now) }
    ensures letters { (k : ℕ) → IsAt text.now k letter → LiesInOne text.now k word }
    ensures opens { (k : ℕ) → IsAt text.now k opening → LiesInOne text.now k start }
    ensures closes { (k : ℕ) → IsAt text.now k closing → LiesInOne text.now k stop }
    ensures comments { (k b : ℕ) → slice_get text.now k ≡ Some b → IsClassed text.now k b }
{}

/// Tokens stand in order within the text, each list that is opened is closed in a text without faults, and
/// the lists of the tokens in front of a place are those of the text, cut there; with and without places the
/// lists are the same.
pub fn tokens_law(text: &[u8])
    ensures order { StandInOrder 0 (tokens text.now) (length text.now) }
    ensures few { token_count text.now ≤ length text.now }
    ensures closed { ClosesItsLists text.now }
    ensures shown { (i : ℕ) → ShowsBy text.now i (slice_get (tokens text.now) i) }
    ensures fronts { FrontsAreCut text.now }
    ensures lists { SaysAsPlaced text.now }
{}

/// The least fault of codes 1 to 4 is the computed one, and matched parentheses have no fault 2 or 3.
pub fn faults_law(text: &[u8])
    ensures least { IsLeastOrNone text.now (least_fault text.now) }
    ensures matched { MatchedAreFaultless text.now }
{}

/// What is printed for a nested list, for lists on rows, or for a page of sections, says these lists, and has no bad byte.
pub fn printed_law()
    ensures list { (p : Part) → IsPrintablePart p → symbols (bytes p) ≡ written p }
    ensures rows { (ps : Parts) → ArePrintableParts ps → symbols (rows ps) ≡ written_all ps }
    ensures clean_rows { (ps : Parts) → ArePrintableParts ps → is_clean (rows ps) ≡ true }
    ensures clean { PagesAreClean }
    ensures page { PagesSayDefinitions }
{}
