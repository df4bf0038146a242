//! Sets of tags under inclusion.
ghost use Rattle.std.specs.Prelude.{◌≡◌};
ghost use Rattle.levels.specs.Tags.{subsets};
ghost use Rattle.levels.specs.TagLaws.{tag_laws};

use crate::Lattice;

/// A set of tags: bit j stands for tag j.
#[derive(Clone, Copy, PartialEq, Eq, Debug)]
pub struct TagSet {
    pub bits: u32,
}

/// The lattice of the sets of tags within a mask.
#[derive(Clone, Copy, PartialEq, Eq, Debug)]
pub struct Tags {
    mask: u32,
}

impl Tags {
    pub fn new(mask: u32) -> Tags
        ensures { result.mask ≡ mask }
    {
        Tags { mask }
    }
}

impl Lattice for Tags {
    type Level = TagSet;

    ghost meaning = { λ s. subsets s.mask };

    ghost lawful = { λ s. tag_laws s.mask };

    fn is_level(&self, a: TagSet) -> bool {
        a.bits & self.mask == a.bits
    }

    fn le(&self, a: TagSet, b: TagSet) -> bool {
        self.is_level(a) && self.is_level(b) && a.bits & b.bits == a.bits
    }

    // Join and meet differ in `|` and `&` alone: one function that is handed the bits would say less plainly what they are.
    fn join(&self, a: TagSet, b: TagSet) -> TagSet {
        if self.is_level(a) && self.is_level(b) {
            TagSet {
                bits: a.bits | b.bits,
            }
        } else {
            self.lowest()
        }
    }

    fn meet(&self, a: TagSet, b: TagSet) -> TagSet {
        if self.is_level(a) && self.is_level(b) {
            TagSet {
                bits: a.bits & b.bits,
            }
        } else {
            self.lowest()
        }
    }

    fn lowest(&self) -> TagSet {
        TagSet { bits: 0 }
    }

    fn highest(&self) -> TagSet {
        TagSet { bits: self.mask }
    }
}
