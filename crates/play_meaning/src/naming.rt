//! How an object is told of.

/// How an object is told of: by its name alone, or behind an article (*Writing with Inform*, 5.3).
#[derive(Clone, Copy, Debug, PartialEq, Eq)]
pub enum Naming {
    /// `lamp`
    Plain,
    /// `the lamp`
    Definite,
    /// `The lamp`
    CapitalDefinite,
    /// `a lamp`
    Indefinite,
    /// `A lamp`
    CapitalIndefinite,
}
