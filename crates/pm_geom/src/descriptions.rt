// The two descriptions of a cone that engines answer: generators, and half-spaces.

use pm_vector::Ints;

/// The generators of a cone: its extreme rays, and a basis of its lineality.
#[derive(Debug, Drop)]
pub struct Generators {
    /// One row for each extreme ray.
    pub rays: Vec<Ints>,
    /// The echelon basis of the lineality.
    pub lineality: Vec<Ints>,
}

/// The half-spaces of a cone: its facet rows, and a basis of the rows that vanish on it.
#[derive(Debug, Drop)]
pub struct Facets {
    /// One row for each facet.
    pub facets: Vec<Ints>,
    /// The echelon basis of the rows that vanish.
    pub hull: Vec<Ints>,
}
