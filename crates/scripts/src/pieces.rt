//! A text cut at each mark: a script into lines, a line into words, a level into numbers.
ghost use Rattle.std.specs.Prelude.{◌≡◌, ◌<◌, ◌∷◌, length, IfSome};
ghost use Rattle.std.specs.Iterator.{YieldsFirstRef, item_count};
ghost use Rattle.std.specs.Option.{option_map};
ghost use Rattle.scripts.specs.Pieces.{pieces_of, pieces_after, pieces_left, Cuts};

/// The pieces of a text that are still to come.
#[derive(Drop)]
pub struct Pieces<'a> {
    mark: u8,
    // What follows the last mark that was met; none after the last piece.
    rest: Option<&'a [u8]>,
}

/// The first piece, and what follows its mark where there is one.
pub fn cut<'a>(text: &'a [u8], mark: u8) -> (&'a [u8], Option<&'a [u8]>)
    ensures pieces { pieces_of mark text.now ≡ result.0.now ∷ pieces_after mark (option_map (λ x. x.now) result.1) }
    ensures shorter { IfSome result.1 (λ rest. length rest.now < length text.now) }
{
    match text.iter().position(|x| *x == mark) {
        Some(end) => (&text[..end], Some(&text[end + 1..])),
        None => (text, None),
    }
}

impl<'a> Pieces<'a> {
    /// All pieces of a text.
    pub fn new(text: &'a [u8], mark: u8) -> Pieces<'a>
        ensures pieces { pieces_left result ≡ pieces_of mark text.now }
        ensures cuts { Cuts mark (pieces_left result) text.now }
    {
        Pieces {
            mark,
            rest: Some(text),
        }
    }
}

impl<'a> Iterator for Pieces<'a> {
    type Item = &'a [u8];

    ghost next_gives = { YieldsFirstRef pieces_left };

    ghost remaining = { item_count pieces_left };

    fn next(&mut self) -> Option<&'a [u8]> {
        let (piece, rest) = cut(self.rest?, self.mark);
        self.rest = rest;
        Some(piece)
    }
}
