//! The parts that an action passes, in order.
ghost use Rattle.std.specs.Prelude.{◌≡◌};
ghost use Rattle.play_meaning.specs.Consulting.{decision_of, with_nouns};
ghost use Rattle.action_stages.specs.Parts.{parts};

use play_meaning::{ActNo, ActionNow, Flow, Outcome};

/// A part of an action (*Writing with Inform*, chapter 12).
#[derive(Clone, Copy)]
pub enum Part {
    /// A rulebook is consulted.
    Book(u16),
    /// There is light, where it is needed.
    Light,
    /// The noun is seen, and touched where that is needed.
    NounSeen,
    SecondSeen,
    /// The noun is held, or taken first, where that is needed.
    NounHeld,
    SecondHeld,
    /// The report rules, unless the action is silent.
    Report,
}

/// What an action passes; one out of world is checked, carried out and reported alone.
pub fn parts(out_of_world: bool) -> &'static [Part]
    ensures { result.now ≡ parts out_of_world }
{
    if out_of_world {
        &[Part::Book(2), Part::Book(3), Part::Report]
    } else {
        &[
            Part::Book(0),
            Part::Light,
            Part::NounSeen,
            Part::SecondSeen,
            Part::NounHeld,
            Part::SecondHeld,
            Part::Book(1),
            Part::Book(2),
            Part::Book(3),
            Part::Book(4),
            Part::Report,
        ]
    }
}

/// The action with no noun, where it is none.
pub fn with_nouns(now: &ActionNow) -> ActionNow
    ensures { result ≡ with_nouns now.now }
{
    if now.action.get() == 255 {
        ActionNow {
            action: now.action,
            noun: None,
            second: None,
            silent: now.silent,
        }
    } else {
        *now
    }
}

/// What a rule's body decides that leaves off so; one that ends by itself decides by its rulebook: instead fails, after
/// succeeds, others decide nothing (*Writing with Inform*, chapter 19).
pub fn decision_of(book: u16, flow: Flow) -> Option<Outcome>
    ensures { result ≡ decision_of book flow }
{
    match flow {
        Flow::GoesOn => {
            if book == 1 {
                Some(Outcome::Failure)
            } else if book == 4 {
                Some(Outcome::Success)
            } else {
                None
            }
        }
        Flow::NoDecision => None,
        Flow::Decides(outcome) => Some(outcome),
    }
}
