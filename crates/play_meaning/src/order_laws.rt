//! What holds of the order of rulebooks, and of the rules that an index passes over.
ghost use Rattle.std.specs.Prelude.{◌≡◌, ℕ, true, List, slice_get, if◌then◌else◌};
ghost use Rattle.play_meaning.specs.Admitting.{admits};
ghost use Rattle.play_meaning.specs.Order.{Rises, book_of, is_before, is_of_book, times};
ghost use Rattle.play_meaning.specs.Rules.{Rule, is_about};
ghost use Rattle.play_meaning.specs.Settings.{Setting};
ghost use Rattle.play_meaning.specs.Worlds.{World, location_of};
ghost use Rattle.play_meaning.specs.declared.action.ActionNow.{ActionNow};

/// A rulebook holds each of its listed rules once and no other, and none is before one that stands in front of it.
pub fn rulebooks_are_in_order()
    ensures exactly { (s : Setting) (rules : List Rule) (book rule : ℕ) → times rule (book_of s rules book) ≡ (if is_of_book book (slice_get rules rule) then 1 else 0) }
    ensures rising { (s : Setting) (rules : List Rule) (book : ℕ) → Rises (is_before s rules) (book_of s rules book) }
{}

/// A rule that doesn't admit the action, its noun and the player's room isn't about what is there.
pub fn rules_passed_over_are_false()
    ensures { (s : Setting) (w : World) (now : ActionNow) (rule : Rule) → is_about s w now rule ≡ true
        → admits s rule now.action now.noun (location_of w) ≡ true }
{}
