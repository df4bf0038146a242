//! The answer of `policy`.
ghost use Rattle.std.specs.Prelude.{◌≡◌, ◌++◌, is_ok, IfOk, OnOk};
ghost use Rattle.levels.specs.Refusals.{answer};
ghost use Rattle.books.specs.Made.{book_refusal, list_verdict};
ghost use Rattle.scripts.specs.Policies.{policy_text, plan_verdict, TellsOf};
ghost use Rattle.scripts.specs.Scenes.{sketch, sketch_verdict, Tells};

use crate::draft::{BookKind, BookPlan, Draft};
use crate::fault::ScriptFault;
use crate::shape::Shape;
use crate::spelled::Spelled;
use crate::transcript::Transcript;
use books::TypeBook;
use books::arrangement::Arrangement;
use books::fault::BookFault;
use books::fixed::Fixed;
use books::list::ListBook;
use books::numbers::Numbers;
use books::row::Rows;
use levels::refusal::Fault;
use std::alloc::{AllocError, Global};

// Tells of the making of a book, and whether it was made.
fn say_made<S: Spelled, B: TypeBook<Level = S::Value> + Drop>(
    making: Result<B, BookFault>,
    transcript: &mut Transcript,
) -> Result<bool, AllocError>
    ensures made { IfOk result (λ good. good ≡ is_ok making) }
    ensures told { OnOk result (transcript.new ≡ transcript.old ++ policy_text S.Spelled.text (answer B.TypeBook.meaning book_refusal making)) }
{
    match making {
        Ok(book) => {
            transcript.say("policy: made\n")?;
            transcript.say_book::<S, B>(&book)?;
            Ok(true)
        }
        Err(fault) => {
            let refusal = fault.refusal();
            transcript.say(format_args!("policy: {refusal}\n"))?;
            Ok(false)
        }
    }
}

// The lists are for the making and the transcript for its reader: together only here, so no struct would be plainer.
// Makes a book of lists and shows it.
fn say_lists<S: Spelled, A: Arrangement>(
    heap: Global,
    numbers: Numbers,
    levels: &[S::Value],
    figures: &[S::Value],
    transcript: &mut Transcript,
) -> Result<bool, AllocError>
    ensures { IfOk result (λ good. TellsOf (list_verdict A.places numbers levels.now figures.now) S.Spelled.text good transcript.old transcript.new) }
{
    let making = ListBook::new(heap, numbers, levels, figures);
    say_made::<S, ListBook<S::Value, A>>(making, transcript)
}

impl BookPlan {
    /// Makes the book of the levels that are given, and shows it.
    pub fn say_policy<S: Spelled>(
        self,
        heap: Global,
        levels: &[S::Value],
        figures: &[S::Value],
        transcript: &mut Transcript,
    ) -> Result<bool, AllocError>
        ensures { IfOk result (λ good. TellsOf (plan_verdict self levels.now figures.now) S.Spelled.text good transcript.old transcript.new) }
    {
        match self.kind {
            BookKind::Row => say_lists::<S, Rows>(heap, self.numbers, levels, figures, transcript),
            BookKind::Fixed => {
                say_lists::<S, Fixed>(heap, self.numbers, levels, figures, transcript)
            }
        }
    }
}

impl Draft {
    /// Makes the book that was chosen of the levels that were given, and shows it.
    pub fn say_policy(&self, heap: Global, transcript: &mut Transcript) -> Result<bool, ScriptFault>
        ensures { Tells result (λ lacking. sketch_verdict lacking (sketch self.now)) transcript.old transcript.new }
    {
        let plan = self.plan.ok_or(ScriptFault::WantsBook)?;
        let good = plan.say_policy::<Shape>(heap, &self.levels, &self.figures, transcript)?;
        Ok(good)
    }
}
