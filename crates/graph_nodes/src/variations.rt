ghost use Rattle.std.specs.Prelude.{◌≡◌, length, replicate, slice_index_or, slice_set};
ghost use Rattle.graph_nodes.specs.declared.variation.Variation.TheVariants.{Empty};
ghost use Rattle.graph_nodes.specs.Axes.{axis_index};

use crate::Variation;
use smallvec::SmallVec;
use std::alloc::Global;
use std::marker::Model;

/// An index in the list of a node's variations.
#[derive(Clone, Copy, Debug, PartialEq, Eq)]
pub enum Axis {
    Target,
    Image,
    Link,
    PerSource,
    Sanitize,
}

impl Axis {
    fn index(self) -> usize
        ensures { result ≡ axis_index self }
    {
        match self {
            Axis::Target => 0,
            Axis::Image => 1,
            Axis::Link => 2,
            Axis::PerSource => 3,
            Axis::Sanitize => 4,
        }
    }
}

/// The variations of a node, one for each axis. Contracts see them as a list of five.
#[derive(Debug, Drop)]
pub struct Variations {
    variations: SmallVec<Variation, 5>,
}

impl Model for Variations {
    ghost use Rattle.std.specs.Prelude.{◌≡◌, List, length};
    ghost use Rattle.graph_nodes.specs.declared.variation.Variation.{Variation};

    ghost Value = { List Variation };

    ghost view = { λ v. v.variations.items };

    ghost invariant = { λ v. length v.variations.items ≡ 5 };
}

impl Variations {
    /// All variations empty, as before any split.
    pub fn empty(alloc: Global) -> Variations
        ensures { result ≡ replicate 5 Empty }
    {
        Variations {
            variations: SmallVec::from_buf(alloc, [Variation::Empty; 5]),
        }
    }

    /// The variations in the order of the axes: target, image, link, source, sanitizer.
    pub fn as_slice(&self) -> &[Variation]
        ensures list { result.now ≡ self.now }
        ensures five { length self.now ≡ 5 }
    {
        self.variations.as_slice()
    }

    /// The variation along an axis.
    pub fn get(&self, axis: Axis) -> Variation
        ensures { result ≡ slice_index_or self.now (axis_index axis) Empty }
    {
        self.variations.as_slice()[axis.index()]
    }

    /// Gives an axis another variation. Those along the other axes stay.
    pub fn set(&mut self, axis: Axis, variation: Variation)
        ensures { self.new ≡ slice_set self.old (axis_index axis) variation }
    {
        self.variations.as_mut_slice()[axis.index()] = variation;
    }

    /// The same variations once more.
    pub fn copy(&self, alloc: Global) -> Variations
        ensures { result ≡ self.now }
    {
        let _five = self.as_slice();
        let mut copy = Variations::empty(alloc);
        copy.set(Axis::Target, self.get(Axis::Target));
        copy.set(Axis::Image, self.get(Axis::Image));
        copy.set(Axis::Link, self.get(Axis::Link));
        copy.set(Axis::PerSource, self.get(Axis::PerSource));
        copy.set(Axis::Sanitize, self.get(Axis::Sanitize));
        copy
    }
}
