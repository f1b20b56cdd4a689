ghost use Rattle.std.specs.Prelude.{ℕ, List};
ghost use Rattle.pddl_printer.specs.Drawings.{Nothing, Composes};
ghost use Rattle.text_forms.specs.sheets.Sheets.{Wrote};

use text_forms::sheets::Sheet;

/// What an instance is drawn with.
pub(crate) trait Pen {
    /// These bytes are drawn, as they are with a word in each place: now with this one.
    ghost draws: { (List ℕ → List ℕ) → List ℕ → Self → Self → Type 0 };

    /// Draws the bytes.
    fn draw(&mut self, bytes: &[u8])
        ensures drawn { (word : List ℕ) → draws (λ _. bytes.now) word self.old self.new };

    /// Draws a place of the variable, where the word stands now.
    fn place(&mut self, word: &[u8])
        ensures drawn { draws (λ w. w) word.now self.old self.new };

    ghost nothing: { Nothing draws };

    ghost composes: { Composes draws };
}

impl Pen for Sheet<'_> {
    ghost use Rattle.text_forms.proofs.sheets.Written.{wrote-nothing, wrote-then};

    ghost draws = { λ text word old new. Wrote (text word) old new };

    ghost nothing = { λ word s. wrote-nothing s };

    ghost composes = { λ f g word s t u v w. wrote-then v w };

    fn draw(&mut self, bytes: &[u8]) {
        self.put(bytes);
    }

    fn place(&mut self, word: &[u8]) {
        self.put(word);
    }
}
