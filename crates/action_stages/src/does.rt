//! What a story's rules do: the author's code of a number, or a standard rule.
ghost use Rattle.std.specs.Prelude.{◌≡◌, ◌≤◌, ℕ, Some, slice_get, true};
ghost use Rattle.story_format.specs.Counts.{counts_of};
ghost use Rattle.story_format.specs.RuleChecks.{is_right_body};
ghost use Rattle.action_stages.specs.Bodies.{body_in, does_told};
ghost use Rattle.world_store.specs.StoryPlay.{body_told, coded_story};
ghost use Rattle.action_stages.specs.declared.playing.Does.TheVariants.{Standard};

use crate::playing::Does;
use story_format::{RuleBody, Story};

/// What a body of the story's rules does: a code or one of the standard rules.
#[tactic(auto, unfolding(story_format::specs::RuleChecks::is_right_body))]
fn done_by(story: &Story, body: &RuleBody) -> Does
    requires right { is_right_body (counts_of story.now).codes body.now ≡ true }
    ensures told { does_told (Some result) ≡ Some (body_told body.now) }
    ensures low { (number : ℕ) → result ≡ Standard number → 1 ≤ number }
    ensures high { (number : ℕ) → result ≡ Standard number → number ≤ 61 }
{
    let _ = story;
    match body {
        RuleBody::Code(code) => Does::Coded(*code),
        RuleBody::Standard(rule) => Does::Standard(*rule),
        RuleBody::Unknown(_) => Does::Standard(61),
    }
}

/// What a rule does, if it is there.
#[tactic(auto, unfolding(world_store::specs::StoryPlay::coded_story))]
pub fn does(story: &Story, rule: u16) -> Option<Does>
    ensures told { does_told result ≡ body_in (slice_get (coded_story story.now).rules rule) }
    ensures low { (number : ℕ) → result ≡ Some (Standard number) → 1 ≤ number }
    ensures high { (number : ℕ) → result ≡ Some (Standard number) → number ≤ 61 }
{
    match story.rule(usize::from(rule)) {
        None => None,
        Some(entry) => Some(done_by(story, &entry.body)),
    }
}
