//! The lattices that a script can make.
ghost use Rattle.std.specs.Prelude.{◌≡◌};

use levels::either::Either;
use levels::pair::Pair;
use levels::table::{OrderTable, Rank};
use levels::tags::{TagSet, Tags};

/// A lattice that is no pair.
pub type Leaf = Either<Tags, OrderTable>;

pub type LeafLevel = Either<TagSet, Rank>;

/// A side of a pair: no pair, or a pair of two that are none.
pub type Side = Either<Leaf, Pair<Leaf, Leaf>>;

pub type SideLevel = Either<LeafLevel, (LeafLevel, LeafLevel)>;

/// Any lattice that a script can make.
pub type Shape = Either<Leaf, Pair<Side, Side>>;

pub type ShapeLevel = Either<LeafLevel, (SideLevel, SideLevel)>;
