//! What the words of a phrase may name: a tale's names, and the objects of the repeats that are open there.
ghost use Rattle.std.specs.Prelude.{◌≡◌};
ghost use Rattle.std.specs.List.{list_any};
ghost use Rattle.i7_conditions.specs.Operators.{holds_operator};
ghost use Rattle.i7_conditions.specs.Scopes.{scope_of};

use crate::names::Names;
use crate::operator::holds_operator;
use world_meaning::TextBytes;

/// The names of a tale, and those that the open repeats give to their objects, the outermost first.
#[derive(Clone, Copy)]
pub struct Scope<'a> {
    pub names: &'a Names,
    pub repeats: &'a [TextBytes],
}

/// Whether `plus`, `minus` or `times` is a word of one of these names.
fn any_holds_operator(names: &[TextBytes]) -> bool
    ensures { result ≡ list_any holds_operator names.now }
{
    names.iter().any(|name| holds_operator(name.as_slice()))
}

/// Whether `plus`, `minus` or `times` is a word of one of the names.
pub fn has_operators(scope: &Scope<'_>) -> bool
    ensures { result ≡ (scope_of scope.now).has_operators }
{
    scope.names.has_operators() || any_holds_operator(scope.repeats)
}
