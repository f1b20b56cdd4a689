ghost use Rattle.std.specs.Prelude.{◌≡◌, ◌≤◌, ◌<◌, slice_get, IfSome, MatchOption};
ghost use Rattle.text_forms.specs.Closing.{close_at, close_after};
ghost use Rattle.text_forms.specs.Tokens.{token_count};
ghost use Rattle.text_forms.specs.sexpr_text.Kept.{IsReadFrom};
ghost use Rattle.text_forms.specs.sexpr_text.Places.{tokens_at, IsPlace, IsFarther};

use crate::sexpr_text::marks::{EACH, Marks, Place};
use crate::sexpr_text::tokens::{Kind, deeper, next_piece};

impl Marks {
    /// Where the token with a number stands, or `None` past the last.
    pub fn place_of(&self, source: &[u8], i: u32) -> Option<Place>
        requires read { IsReadFrom source.now self.now }
        ensures place { MatchOption result (token_count source.now ≤ i) (IsPlace source.now i) }
    {
        if i >= self.count {
            return None;
        }
        let mut place = self.mark_at(i / EACH)?;
        for _ in 0..i % EACH {
            let piece = next_piece(source, place.at)?;
            place = Place {
                at: piece.span.end,
                depth: deeper(piece.kind, place.depth),
            };
        }
        Some(place)
    }

    /// The number of the token that closes the list that the token with a number opens.
    pub fn closing_of(&self, source: &[u8], i: u32) -> Option<u32>
        requires read { IsReadFrom source.now self.now }
        ensures close { result ≡ close_at source.now i }
    {
        let place = self.place_of(source, i)?;
        let piece = next_piece(source, place.at)?;
        match piece.kind {
            Kind::Start => {
                let inside = Place {
                    at: piece.span.end,
                    depth: place.depth + 1,
                };
                self.closing_from(source, inside, i + 1)
            }
            _ => None,
        }
    }

    // The number of the token that closes the list in which the token with a number stands, at a place.
    fn closing_from(&self, source: &[u8], mut place: Place, mut i: u32) -> Option<u32>
        requires read { IsReadFrom source.now self.now }
        requires place { IsPlace source.now i place }
        requires inside { 0 < place.depth }
        ensures close { result ≡ close_after 0 i (tokens_at source.now place.at) }
    {
        let depth = place.depth;
        while i < self.count {
            if let Some(farther) = self.farther(i, depth) {
                place = farther;
                i += EACH;
                continue;
            }
            let piece = next_piece(source, place.at)?;
            let behind = deeper(piece.kind, place.depth);
            if behind < depth {
                return Some(i);
            }
            place = Place {
                at: piece.span.end,
                depth: behind,
            };
            i += 1;
        }
        None
    }

    // The next place that is marked, where token `i` is marked too and so many lists at least are open up to there.
    fn farther(&self, i: u32, depth: u32) -> Option<Place>
        ensures farther { IfSome result (IsFarther i depth self.now) }
    {
        if i % EACH != 0 {
            return None;
        }
        let next = i / EACH + 1;
        let least = self.least.get(next as usize)?;
        if u32::from(*least) < depth {
            return None;
        }
        self.mark_at(next)
    }

    fn mark_at(&self, k: u32) -> Option<Place>
        ensures mark { result ≡ slice_get self.now.places.items k }
    {
        self.places.get(k as usize).copied()
    }
}
