//! A lent book is a book, so that many may share one.
ghost use Rattle.std.specs.Prelude.{◌≡◌};

use crate::TypeBook;

impl<'a, B: TypeBook> TypeBook for &'a B {
    type Level = B::Level;

    ghost meaning = { λ s. B.TypeBook.meaning s.now };

    ghost limited = { λ s. B.TypeBook.limited s.now };

    fn permissions(&self) -> u8 {
        (**self).permissions()
    }

    fn types(&self) -> u16 {
        (**self).types()
    }

    fn figures(&self) -> u8 {
        (**self).figures()
    }

    fn level(&self, ty: u8, set: u8) -> Option<B::Level> {
        (**self).level(ty, set)
    }

    fn figure_level(&self, figure: u8) -> Option<B::Level> {
        (**self).figure_level(figure)
    }
}
