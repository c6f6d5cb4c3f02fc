//! What a story that was loaded gives to play of its actions, rules and scenes, by number: the entries of their tables.
ghost use Rattle.std.specs.Prelude.{◌≡◌, ℕ, IfSome, MatchOption, None, Some, length, slice_get, true};
ghost use Rattle.std.specs.Option.{option_map};
ghost use Rattle.story_format.specs.Carrying.{code_if_some};
ghost use Rattle.story_format.specs.Codes.{IsTestOf};
ghost use Rattle.story_format.specs.Counts.{counts_of};
ghost use Rattle.story_format.specs.RuleChecks.{is_right_body};

use crate::rule_entry::RuleEntry;
use crate::rule_tables::{ActionEntry, SceneEntry};
use crate::story::Story;

impl Story {
    /// How many actions there are: the sixteen that every story has, and the author's.
    pub fn action_count(&self) -> usize
        ensures { result ≡ length self.now.rules.actions }
    {
        self.tables().rules.actions.as_slice().len()
    }

    /// The entry of an action: what it needs.
    pub fn action(&self, action: usize) -> Option<&ActionEntry>
        ensures { option_map (λ entry. entry.now) result ≡ slice_get self.now.rules.actions action }
    {
        self.tables().rules.actions.as_slice().get(action)
    }

    /// The entry of a rule's number.
    fn rule_entry(&self, rule: usize) -> Option<&RuleEntry>
        ensures { MatchOption result (slice_get self.now.rules.rules rule ≡ None) (λ entry. slice_get self.now.rules.rules rule ≡ Some entry.now) }
    {
        self.tables().rules.rules.as_slice().get(rule)
    }

    /// The entry of a rule: what it is about, its condition, and what it does, which is a code or one of the sixty-one rules
    /// that every story has.
    #[tactic(auto, using(crate::proofs::RightRules::body_right))]
    pub fn rule(&self, rule: usize) -> Option<&RuleEntry>
        ensures entry { option_map (λ entry. entry.now) result ≡ slice_get self.now.rules.rules rule }
        ensures right { IfSome result (λ entry. is_right_body (counts_of self.now).codes entry.now.body ≡ true) }
    {
        let _ = self.tables();
        match self.rule_entry(rule) {
            None => None,
            Some(entry) => Some(entry),
        }
    }

    /// The entry of a scene's number.
    fn scene_entry(&self, scene: usize) -> Option<&SceneEntry>
        ensures { MatchOption result (slice_get self.now.rules.scenes scene ≡ None) (λ entry. slice_get self.now.rules.scenes scene ≡ Some entry.now) }
    {
        self.tables().rules.scenes.as_slice().get(scene)
    }

    /// The entry of a scene: whether it may happen again, and the codes by which it begins and ends, if there are any; these are
    /// tests inside no loop.
    #[tactic(auto, using(crate::proofs::LoadedRules::scene_begins, crate::proofs::LoadedRules::scene_ends))]
    pub fn scene(&self, scene: usize) -> Option<&SceneEntry>
        ensures entry { option_map (λ entry. entry.now) result ≡ slice_get self.now.rules.scenes scene }
        ensures begins { IfSome result (λ entry. (n : ℕ) → code_if_some entry.now.begins ≡ Some n → IsTestOf self.now n) }
        ensures ends { IfSome result (λ entry. (n : ℕ) → code_if_some entry.now.ends ≡ Some n → IsTestOf self.now n) }
    {
        let _ = self.tables();
        match self.scene_entry(scene) {
            None => None,
            Some(entry) => Some(entry),
        }
    }
}
