//! Whether trees fit a story: what they name is there, no more loops are open than a code can open, and no more operands
//! stand at once than a run has room for.
ghost use Rattle.std.specs.Prelude.{Decides, ℕ};
ghost use Rattle.object_words.specs.Mentions.{number_in};
ghost use Rattle.play_meaning.specs.Meant.{body_meant, condition_meant, text_meant};
ghost use Rattle.play_meaning.specs.declared.operand.Use.TheVariants as role;
ghost use Rattle.story_code.specs.Fitting.{BodyFits, ConditionFits, TextFits};
ghost use Rattle.story_code.specs.SoundlyEmitted.{among};

mod condition;
mod number;
mod object;
mod phrase;
mod text;

use object::OPERANDS;
use object_words::Strings;
use play_meaning::tree::{Condition, Phrase, Text};
use play_meaning::{Counts, Use};

/// Whether a rule's body fits, whatever number its code has, and however many codes there are.
pub fn body_fits(counts: &Counts, strings: &Strings, body: &[Phrase]) -> bool
    ensures { (own codes : ℕ) → Decides result (BodyFits (among counts.now own codes) (number_in strings.now) 0 (body_meant body.now)) }
{
    phrase::body_fits(counts, strings, 0, body)
}

/// Whether a condition fits, whatever number its code has, and however many codes there are.
pub fn condition_fits(counts: &Counts, condition: &Condition) -> bool
    ensures { (own codes : ℕ) → Decides result (ConditionFits (among counts.now own codes) 0 0 (condition_meant condition.now)) }
{
    condition::condition_fits(counts, 0, condition, OPERANDS)
}

/// Whether the text of a description fits, whatever number its code has, and however many codes there are.
pub fn description_fits(counts: &Counts, strings: &Strings, text: &Text) -> bool
    ensures { (own codes : ℕ) → Decides result (TextFits (among counts.now own codes) role.Describing (number_in strings.now) 0 (text_meant text.now)) }
{
    text::text_fits(counts, Use::Describing, strings, 0, text)
}
