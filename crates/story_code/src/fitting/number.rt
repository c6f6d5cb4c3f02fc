//! Whether numbers fit.
ghost use Rattle.std.specs.Prelude.{◌≡◌};
ghost use Rattle.play_meaning.specs.Meant.{joined_meant, number_meant, term_meant};
ghost use Rattle.story_code.specs.Fits.{number_fits, numbers_fit};

use crate::fitting::object::{object_fits, test_fits};
use play_meaning::Counts;
use play_meaning::tree::{Joined, Number, Term};

/// Whether a number fits inside so many loops, with so much room for operands.
pub(crate) fn number_fits(counts: &Counts, loops: u8, number: &Number, room: u8) -> bool
    ensures { result ≡ number_fits counts.now loops (number_meant number.now) room }
{
    terms_fit(counts, loops, &number.first, number.rest.as_slice(), room)
}

/// Whether two numbers fit, one behind the other.
pub(crate) fn numbers_fit(counts: &Counts, loops: u8, a: &Number, b: &Number, room: u8) -> bool
    ensures { result ≡ numbers_fit counts.now loops (number_meant a.now) (number_meant b.now) room }
{
    number_fits(counts, loops, a, room) && number_fits(counts, loops, b, room.saturating_sub(1))
}

/// Whether a term fits, and those that are joined to it, each over one operand more.
#[tactic(auto, using(crate::proofs::FitLists::operator_fits))]
fn terms_fit(counts: &Counts, loops: u8, first: &Term, joined: &[Joined], room: u8) -> bool
    ensures { result ≡ number_fits counts.now loops (joined_meant first.now joined.now) room }
{
    match joined {
        [] => term_fits(counts, loops, first, room),
        [next, rest @ ..] => {
            term_fits(counts, loops, first, room)
                && terms_fit(counts, loops, &next.term, rest, room.saturating_sub(1))
        }
    }
}

/// Whether a term fits.
#[tactic(auto, unfolding(crate::specs::Fits::number_fits))]
fn term_fits(counts: &Counts, loops: u8, term: &Term, room: u8) -> bool
    ensures { result ≡ number_fits counts.now loops (term_meant term.now) room }
{
    match term {
        Term::Literal(_) | Term::TurnCount => room > 0,
        Term::Variable(variable) => (*variable as u16) < counts.variables && room > 0,
        Term::PropertyOf(property, object) => {
            (*property as u16) < counts.numbers && object_fits(counts, loops, object, room)
        }
        Term::CountOf(description) => room > 0 && test_fits(counts, loops, description),
    }
}
