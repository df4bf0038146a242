//! LATTICE: reading the words of a lattice, and making it.
ghost use Rattle.std.specs.Prelude.{◌≡◌, ◌∷◌, ℕ, List, vec_items};
ghost use Rattle.levels.specs.Refusals.{answer};
ghost use Rattle.levels.specs.Tables.{table_refusal};
ghost use Rattle.scripts.specs.Shapes.{leaf_text, pair_or_one, shape_text, rows_in, tags_in, table_in, leaf_in, pair_in, lattice_of, paired, unpaired, LeafText, Said, Reads, Makes};
ghost use Rattle.scripts.specs.Words.{words_left};

use crate::fault::ScriptFault;
use crate::number::number;
use crate::shape::{Leaf, Shape};
use crate::words::{Words, says};
use levels::either::Either;
use levels::pair::Pair;
use levels::table::{OrderTable, TableFault};
use levels::tags::Tags;
use std::alloc::Global;

// A lattice that was made, or why it was refused; or the words are at fault. Two results, since a refusal is an answer, which
// the transcript tells, and a fault ends the script.
type Making<T> = Result<Result<T, TableFault>, ScriptFault>;

// A lattice that words can write.
trait Worded: Drop {
    // What such a lattice is made of, that of a lattice, and what words say of it.
    ghost Text: { Type 0 };

    ghost text: { Self → Text };

    ghost said: { List (List ℕ) → Said Text };

    fn read(heap: Global, words: &mut Words<'_>) -> Making<Self>
        ensures { Reads (answer text table_refusal) result (said (words_left words.old)) (words_left words.new) };
}

// The rows of a table.
fn rows(heap: Global, words: &mut Words<'_>) -> Result<Vec<u16>, ScriptFault>
    ensures { Reads vec_items result (rows_in (words_left words.old)) (words_left words.new) }
{
    let mut rows = Vec::new(heap);
    let mut ahead = *words;
    // Not by `for`: the word that is no row stays for what reads on.
    while let Some(row) = ahead.next().and_then(number) {
        let row = u16::try_from(row).map_err(|_| ScriptFault::NoLattice)?;
        rows.push(row)?;
        *words = ahead;
    }
    Ok(rows)
}

fn tags(words: &mut Words<'_>) -> Making<Leaf>
    ensures { Reads (answer leaf_text table_refusal) result (tags_in (words_left words.old)) (words_left words.new) }
{
    let mask = words.next().and_then(number).ok_or(ScriptFault::NoLattice)?;
    Ok(Ok(Either::Left(Tags::new(mask))))
}

fn table(heap: Global, words: &mut Words<'_>) -> Making<Leaf>
    ensures { Reads (answer leaf_text table_refusal) result (table_in (words_left words.old)) (words_left words.new) }
{
    let rows = rows(heap, words)?;
    Ok(OrderTable::new(rows.as_slice()).map(Either::Right))
}

// A lattice that is no pair, by its first word and those after it.
fn leaf(heap: Global, word: &[u8], words: &mut Words<'_>) -> Making<Leaf>
    ensures { Reads (answer leaf_text table_refusal) result (leaf_in (word.now ∷ words_left words.old)) (words_left words.new) }
{
    match word {
        b"tags" => tags(words),
        b"rows" => table(heap, words),
        _ => Err(ScriptFault::NoLattice),
    }
}

// The pair of two lattices that were made, or the first fault.
fn both<S, T: Drop>(
    left: Result<T, TableFault>,
    right: Result<T, TableFault>,
) -> Result<Either<S, Pair<T, T>>, TableFault>
    ensures { result ≡ paired left right }
{
    Ok(Either::Right(Pair::new(left?, right?)))
}

// A lattice that is no pair, where a pair may stand. Not by `map`: at a type parameter the borrow checker has no proof of it yet.
fn single<S, P>(made: Result<S, TableFault>) -> Result<Either<S, P>, TableFault>
    ensures { result ≡ unpaired made }
{
    Ok(Either::Left(made?))
}

impl Worded for Leaf {
    ghost Text = { LeafText };

    ghost text = { leaf_text };

    ghost said = { leaf_in };

    fn read(heap: Global, words: &mut Words<'_>) -> Making<Leaf> {
        let word = words.next().ok_or(ScriptFault::NoLattice)?;
        leaf(heap, word, words)
    }
}

// A pair of two such lattices, or a lattice that is no pair.
impl<T: Worded> Worded for Either<Leaf, Pair<T, T>> {
    ghost use Rattle.levels.specs.declared.either.Either as either;

    ghost Text = { either.Either LeafText (T.Text × T.Text) };

    ghost text = { pair_or_one leaf_text T.text };

    ghost said = { pair_in T.said };

    fn read(heap: Global, words: &mut Words<'_>) -> Making<Either<Leaf, Pair<T, T>>> {
        let word = words.next().ok_or(ScriptFault::NoLattice)?;
        if !says(word, b"pair") {
            return Ok(single(leaf(heap, word, words)?));
        }
        let left = T::read(heap, words)?;
        let right = T::read(heap, words)?;
        Ok(both(left, right))
    }
}

/// Makes the lattice that the words of a line write. A fault of the script comes before any refusal.
pub fn lattice(heap: Global, mut words: Words<'_>) -> Making<Shape>
    ensures { Makes (answer shape_text table_refusal) result (lattice_of (words_left words.entry)) }
{
    let made = Shape::read(heap, &mut words)?;
    if words.next().is_some() {
        return Err(ScriptFault::NoLattice);
    }
    Ok(made)
}
