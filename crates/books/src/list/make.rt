//! The making of a book of lists, and its answers.
ghost use Rattle.std.specs.Prelude.{◌≡◌, ◌^◌};
ghost use Rattle.levels.specs.Refusals.{answer, within_memory};
ghost use Rattle.levels.specs.declared.refusal.Layer.TheVariants.{Books};
ghost use Rattle.books.specs.Lists.{list_fits};
ghost use Rattle.books.specs.Limited.{list_limits};
ghost use Rattle.books.specs.Made.{book_refusal, lacked_memory, of_list, list_verdict};

use crate::TypeBook;
use crate::arrangement::Arrangement;
use crate::fault::BookFault;
use crate::list::ListBook;
use crate::numbers::Numbers;
use std::alloc::Global;
use std::marker::PhantomData;

fn list_fits<A: Arrangement>(numbers: Numbers, levels: usize, figures: usize) -> bool
    ensures { result ≡ list_fits A.places numbers levels figures }
{
    numbers.within_limits()
        && levels == A::length(1 << numbers.permissions, numbers.types as u16)
        && figures == numbers.figures as usize
}

impl<L: Copy, A: Arrangement> ListBook<L, A> {
    /// Refuses a number out of its limits and a list of another length than the numbers ask (3).
    /// The lists are copied only where they fit.
    pub fn new(
        heap: Global,
        numbers: Numbers,
        levels: &[L],
        figures: &[L],
    ) -> Result<ListBook<L, A>, BookFault>
        ensures { answer (of_list A.places) book_refusal result ≡ within_memory (lacked_memory result) Books (list_verdict A.places numbers levels.now figures.now) }
    {
        if !list_fits::<A>(numbers, levels.len(), figures.len()) {
            return Err(BookFault::Misfit);
        }
        Ok(ListBook {
            numbers,
            levels: Vec::from_slice(heap, levels)?,
            figures: Vec::from_slice(heap, figures)?,
            arrangement: PhantomData,
        })
    }

    // The number of permission sets.
    fn sets(&self) -> u8
        ensures { result ≡ 2 ^ self.now.numbers.permissions }
    {
        1 << self.numbers.permissions
    }
}

impl<L: Copy, A: Arrangement> TypeBook for ListBook<L, A> {
    type Level = L;

    ghost meaning = { of_list A.places };

    ghost limited = { λ s. list_limits A.places s.numbers s.levels.items s.figures.items A.in_list s.fit };

    fn permissions(&self) -> u8 {
        self.numbers.permissions as u8
    }

    fn types(&self) -> u16 {
        self.numbers.types as u16
    }

    fn figures(&self) -> u8 {
        self.numbers.figures as u8
    }

    fn level(&self, ty: u8, set: u8) -> Option<L> {
        let sets = self.sets();
        if (ty as u16) < self.types() && set < sets {
            self.levels.get(A::place(sets, ty, set)).copied()
        } else {
            None
        }
    }

    fn figure_level(&self, figure: u8) -> Option<L> {
        self.figures.get(figure as usize).copied()
    }
}
