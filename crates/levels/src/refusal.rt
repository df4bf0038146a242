//! What a refusal is: the layer that refuses, the number of the broken rule, and the place.
ghost use Rattle.std.specs.Prelude.{◌≡◌, Some};
ghost use Rattle.levels.specs.declared.refusal.Refusal.{Refusal};
ghost use Rattle.levels.specs.Refusals.{layer_of, broken, no_memory, layer_text, place_text, refusal_text};

use std::fmt;

/// The five layers, each built on those before it.
#[derive(Clone, Copy, PartialEq, Eq, Debug)]
pub enum Layer {
    Levels,
    Books,
    Reading,
    Check,
    Service,
}

/// Where a rule is broken.
#[derive(Clone, Copy, PartialEq, Eq, Debug)]
pub enum Place {
    // No place of its own: the input as a whole.
    Whole,
    Node(u16),
    // A node at a permission set of the caller.
    NodeAt(u16, u8),
    Function(u8),
    App(u8),
    // A type at a permission set.
    TypeAt(u8, u8),
    Figure(u8),
}

/// A broken rule by its number, with its layer and place. Number 0 says that no rule is broken: memory is lacking.
#[derive(Clone, Copy, PartialEq, Eq, Debug)]
pub struct Refusal {
    layer: Layer,
    // The number is the format: transcripts and the second maker know refusals by it, so it is no enum.
    number: u8,
    place: Place,
}

/// A reason to refuse, which tells its layer, number and place.
pub trait Fault {
    // What the fault tells.
    ghost tells: { Self → Refusal };

    fn refusal(&self) -> Refusal
        ensures { result ≡ tells self.now };
}

/// The layer that gives a number.
// A number is no layer but belongs to one, which a name says more plainly than `From`.
pub fn layer_of(number: u8) -> Layer
    ensures { result ≡ layer_of number }
{
    match number {
        0..=2 => Layer::Levels,
        3 => Layer::Books,
        4..=10 => Layer::Reading,
        11..=18 => Layer::Check,
        _ => Layer::Service,
    }
}

impl Refusal {
    /// The rule of this number is broken at this place.
    pub fn broken(number: u8, place: Place) -> Refusal
        ensures { result ≡ broken number place }
    {
        Refusal {
            layer: layer_of(number),
            number,
            place,
        }
    }

    /// No rule is broken, and the layer lacks memory.
    pub fn no_memory(layer: Layer) -> Refusal
        ensures { result ≡ no_memory layer }
    {
        Refusal {
            layer,
            number: 0,
            place: Place::Whole,
        }
    }

    pub fn layer(&self) -> Layer
        ensures { result ≡ self.now.layer }
    {
        self.layer
    }

    pub fn number(&self) -> u8
        ensures { result ≡ self.now.number }
    {
        self.number
    }

    pub fn place(&self) -> Place
        ensures { result ≡ self.now.place }
    {
        self.place
    }
}

impl fmt::Display for Layer {
    ghost output = { λ l. Some (layer_text l) };

    fn fmt<W: fmt::Write>(&self, f: &mut fmt::Formatter<W>) -> fmt::Result {
        match self {
            Layer::Levels => write!(f, "levels"),
            Layer::Books => write!(f, "books"),
            Layer::Reading => write!(f, "reading"),
            Layer::Check => write!(f, "check"),
            Layer::Service => write!(f, "service"),
        }
    }
}

impl fmt::Display for Place {
    ghost output = { λ p. Some (place_text p) };

    fn fmt<W: fmt::Write>(&self, f: &mut fmt::Formatter<W>) -> fmt::Result {
        match self {
            Place::Whole => write!(f, "0"),
            Place::Node(n) => write!(f, "node {n}"),
            Place::NodeAt(n, s) => write!(f, "node {n} set {s}"),
            Place::Function(n) => write!(f, "function {n}"),
            Place::App(n) => write!(f, "app {n}"),
            Place::TypeAt(n, s) => write!(f, "type {n} set {s}"),
            Place::Figure(n) => write!(f, "figure {n}"),
        }
    }
}

impl fmt::Display for Refusal {
    ghost output = { λ r. Some (refusal_text r) };

    fn fmt<W: fmt::Write>(&self, f: &mut fmt::Formatter<W>) -> fmt::Result {
        let layer = self.layer;
        let number = self.number;
        let place = self.place;
        write!(f, "refused {layer} {number} at {place}")
    }
}
