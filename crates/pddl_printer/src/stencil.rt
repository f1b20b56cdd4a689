ghost use Rattle.std.specs.Prelude.{◌≡◌, ◌++◌, true, [], List, ℕ, IfSome};
ghost use Rattle.pddl_printer.specs.Drawings.{shown, Shows, AreSides};
ghost use Rattle.pddl_printer.specs.Batches.{Added};

use crate::batch::Batch;
use crate::pen::Pen;
use arrayvec::ArrayVec;
use text_forms::sheets::Sheet;

/// The most bytes between two places.
const MOST_BYTES: usize = 128;

/// The most places.
const MOST_PLACES: usize = 4;

/// Bytes that stand between two places.
pub(crate) type Piece = ArrayVec<u8, MOST_BYTES>;

/// Both texts in one piece, if that is not too large.
pub(crate) fn joined(first: &[u8], second: &[u8]) -> Option<Piece>
    ensures { IfSome result (λ piece. piece.items ≡ first.now ++ second.now) }
{
    let mut piece: Piece = ArrayVec::new();
    if piece.try_extend_from_slice(first).is_err() {
        return None;
    }
    if piece.try_extend_from_slice(second).is_err() {
        return None;
    }
    Some(piece)
}

/// An instance in bytes, with places for the object's word, so that it is drawn once for all objects.
pub(crate) struct Stencil {
    /// What stands before each place.
    before: ArrayVec<Piece, MOST_PLACES>,
    /// What stands behind the last place.
    behind: Piece,
    /// Whether all that was drawn stands here.
    pub(crate) fits: bool,
}

impl Drop for Stencil {
    fn drop(self) {
        let Stencil {
            before: _,
            behind: _,
            fits: _,
        } = self;
    }
}

impl Stencil {
    /// One on which nothing was drawn.
    pub(crate) fn new() -> Stencil
        ensures fits { result.fits ≡ true }
        ensures empty { (word : List ℕ) → shown result word ≡ [] }
    {
        Stencil {
            before: ArrayVec::new(),
            behind: ArrayVec::new(),
            fits: true,
        }
    }

    /// What stands before the place and behind it, if all that was drawn stands here, with one place.
    pub(crate) fn sides(&self) -> Option<(&[u8], &[u8])>
        ensures { IfSome result (λ sides. AreSides self.now sides.0.now sides.1.now) }
    {
        if !self.fits {
            return None;
        }
        match self.before.as_slice() {
            [before] => Some((before.as_slice(), self.behind.as_slice())),
            _ => None,
        }
    }

    /// Adds what is drawn, with the word in each place, to a batch.
    pub(crate) fn add(&self, word: &[u8], batch: &mut Batch, sheet: &mut Sheet<'_>)
        ensures { Added (shown self.now word.now) batch.old batch.new sheet.old sheet.new }
    {
        for piece in self.before.as_slice() {
            batch.add(piece.as_slice(), sheet);
            batch.add(word, sheet);
        }
        if !self.behind.is_empty() {
            batch.add(self.behind.as_slice(), sheet);
        }
    }
}

impl Pen for Stencil {
    ghost use Rattle.pddl_printer.specs.StencilLaws.{shows-nothing, shows-both};

    ghost draws = { λ text word old new. Shows text old new };

    ghost nothing = { λ word s. shows-nothing s };

    ghost composes = { λ f g word s t u v w. shows-both f g s t u v w };

    fn draw(&mut self, bytes: &[u8]) {
        if self.behind.try_extend_from_slice(bytes).is_err() {
            self.fits = false;
        }
    }

    fn place(&mut self, word: &[u8]) {
        let piece = std::mem::replace(&mut self.behind, ArrayVec::new());
        if self.before.try_push(piece).is_err() {
            self.fits = false;
        }
    }
}
