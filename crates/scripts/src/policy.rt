//! How a policy is shown.
ghost use Rattle.std.specs.Prelude.{◌≡◌, ℕ, List, ◌≤◌, ◌<◌, ◌^◌, ◌++◌, OnOk};
ghost use Rattle.scripts.specs.Policies.{Says, texts, spaced, line, sets_text, type_line, type_lines, figure_line, figure_lines, book_text};

use crate::spelled::Spelled;
use crate::transcript::Transcript;
use books::TypeBook;
use std::alloc::AllocError;

// The number of permission sets.
fn sets<B: TypeBook>(book: &B) -> u8
    ensures { result ≡ 2 ^ (B.TypeBook.meaning book.now).permissions }
{
    1 << book.permissions()
}

impl Transcript {
    // A level after a space.
    fn say_level<S: Spelled>(&mut self, level: Option<S::Value>) -> Result<(), AllocError>
        ensures { OnOk result (self.new ≡ self.old ++ spaced S.Spelled.text level) }
    {
        let Some(level) = level else {
            return Ok(());
        };
        self.say(" ")?;
        S::say(level, self)
    }

    // Says what `say` says of each number below `n`, in order.
    fn say_each<F: Fn(&mut Transcript, u8) -> Result<(), AllocError>>(
        &mut self,
        n: u16,
        say: F,
    ) -> Result<(), AllocError>
        requires few { n ≤ 256 }
        requires called { F.IsAlwaysCallable say }
        ensures { (text : ℕ → List ℕ) → ((i : ℕ) → i < n → Says (λ old. F.post say old i) (text i)) → OnOk result (self.new ≡ self.old ++ texts text n) }
    {
        // By number: a book is asked for its levels by number, and has no list of them.
        for i in 0..n {
            say(self, i as u8)?;
        }
        Ok(())
    }

    // The levels of a type at each set.
    fn say_sets<S: Spelled, B: TypeBook<Level = S::Value>>(
        &mut self,
        book: &B,
        ty: u8,
    ) -> Result<(), AllocError>
        ensures { OnOk result (self.new ≡ self.old ++ sets_text S.Spelled.text (B.TypeBook.meaning book.now) ty (2 ^ (B.TypeBook.meaning book.now).permissions)) }
    {
        self.say_each(sets(book).into(), |transcript, set| {
            transcript.say_level::<S>(book.level(ty, set))
        })
    }

    // A line: what is numbered, its number, and what `say` says of it.
    fn say_line<F: FnOnce(&mut Transcript) -> Result<(), AllocError>>(
        &mut self,
        what: &str,
        number: u8,
        say: F,
    ) -> Result<(), AllocError>
        requires { F.IsAlwaysCallable say }
        ensures { (text : List ℕ) → Says (F.post say) text → OnOk result (self.new ≡ self.old ++ line what.now number text) }
    {
        self.say(format_args!("{what} {number}:"))?;
        say(self)?;
        self.say("\n")
    }

    /// Shows a book: a line for each type, with its level at each set in order, and a line for each figure.
    pub fn say_book<S: Spelled, B: TypeBook<Level = S::Value>>(
        &mut self,
        book: &B,
    ) -> Result<(), AllocError>
        ensures { OnOk result (self.new ≡ self.old ++ book_text S.Spelled.text (B.TypeBook.meaning book.now)) }
    {
        self.say_each(book.types(), |transcript, ty| {
            transcript.say_line("type", ty, |line| line.say_sets::<S, B>(book, ty))
        })?;
        self.say_each(book.figures().into(), |transcript, figure| {
            transcript.say_line("figure", figure, |line| {
                line.say_level::<S>(book.figure_level(figure))
            })
        })
    }
}
