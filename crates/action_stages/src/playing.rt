//! What play asks of a story and of the world that it has come to.
ghost use Rattle.std.specs.Prelude.{◌≡◌, ◌≤◌, ◌<◌, ◌+◌, ◌-◌, ◌^◌, ℕ, IfOk, IfSome, OnOk, OnErr, Err, Some, true, slice_get};
ghost use Rattle.play_meaning.specs.Acting.{has_noun};
ghost use Rattle.play_meaning.specs.Consulting.{applies};
ghost use Rattle.play_meaning.specs.Doing.{Inner};
ghost use Rattle.play_meaning.specs.Progress.{Progress, most_work, say, spend};
ghost use Rattle.play_meaning.specs.Saying.{name_in};
ghost use Rattle.play_meaning.specs.Seeing.{has_light, is_touchable, is_visible};
ghost use Rattle.play_meaning.specs.Truth.{of_some};
ghost use Rattle.play_meaning.specs.declared.naming.Naming.TheVariants.{Definite};
ghost use Rattle.world_meaning.specs.declared.session.Abandon.TheVariants.{Memory};
ghost use Rattle.story_code.specs.Runs.{MayDo};
ghost use Rattle.story_code.specs.Steps.{leads_on};
ghost use Rattle.story_format.specs.declared.tables.Tables.{Tables};
ghost use Rattle.world_store.specs.StorySettings.{setting_of};
ghost use Rattle.world_store.specs.StoryPlay.{coded_story, game_in_play};
ghost use Rattle.action_stages.specs.Answering.{Answers, Comes};
ghost use Rattle.action_stages.specs.declared.playing.Does.TheVariants.{Standard};
ghost use Rattle.action_stages.specs.Bodies.{AreCodesIn, StepsSo, body_in, does_told, rest_of, standard_body};
ghost use Rattle.action_stages.specs.Passing.{FindsNext};

use play_meaning::{ActNo, ActionNow, Flow};
use std::alloc::Global;
use story_code::{RunState, Step, Verified};
use world_meaning::{Abandon, Needs, ObjNo};

/// What a rule does: the author's code of this number, or the standard rule of this number, counted from 1.
#[derive(Clone, Copy)]
pub enum Does {
    Coded(u16),
    Standard(u8),
}

/// What is owed behind a standard rule's changes and its text: an action to try, and how the rule ends.
#[derive(Clone, Copy)]
pub struct Owed {
    pub tries: Option<ActionNow>,
    pub ends: Result<Flow, Abandon>,
}

/// A story in play, and where play has come to.
pub trait Playing {
    ghost use Rattle.action_stages.specs.Returning.{IsThere, Loaded};
    ghost use Rattle.action_stages.specs.declared.playing.Owed.{Owed};

    ghost tables: { Self → Tables };

    ghost loaded: { Self → Loaded };

    ghost progress: { Self → Progress };

    /// There is never more work than may be done.
    fn is_within(&self)
        ensures { (progress self.now).work ≤ most_work };

    /// What an action asks for.
    fn needs(&self, action: ActNo) -> Needs
        ensures { result ≡ (game_in_play (tables self.now)).needs action };

    /// The first rule of a rulebook that may be about what is there, at a place or behind it, and its place.
    fn next_rule(&self, book: u16, now: &ActionNow, from: usize) -> Option<(usize, u16)>
        requires whole { tables self.now ≡ (loaded self.now).story }
        ensures next { FindsNext (game_in_play (tables self.now)) book now.now (progress self.now).world from result }
        ensures few { IfSome result (λ next. next.0 + 1 < 2 ^ 64) };

    /// Counts that a rule is asked.
    fn count_test(&mut self)
        ensures same { tables self.new ≡ tables self.old }
        ensures kept { loaded self.new ≡ loaded self.old }
        ensures progress { progress self.new ≡ progress self.old };

    /// Whether a rule applies.
    fn applies(
        &self,
        alloc: Global,
        codes: &[Verified],
        rule: u16,
        now: &ActionNow,
    ) -> Result<bool, Abandon>
        requires told { AreCodesIn codes.now (coded_story (tables self.now)) }
        ensures { Answers result (λ is. is) (applies (game_in_play (tables self.now)) rule now.now (progress self.now).world) };

    /// What a rule does.
    fn does(&self, rule: u16) -> Option<Does>
        ensures told { does_told result ≡ body_in (slice_get (coded_story (tables self.now)).rules rule) }
        ensures low { (number : ℕ) → result ≡ Some (Standard number) → 1 ≤ number }
        ensures high { (number : ℕ) → result ≡ Some (Standard number) → number ≤ 61 };

    /// Spends a unit of work. Takes no memory.
    fn spend(&mut self) -> Result<(), Abandon>
        ensures same { tables self.new ≡ tables self.old }
        ensures kept { loaded self.new ≡ loaded self.old }
        ensures answer { Comes result (λ done. progress self.new) (spend (progress self.old)) };

    /// Whether the player has light.
    fn has_light(&self) -> bool
        ensures { result ≡ has_light (setting_of (tables self.now)) (progress self.now).world };

    /// Whether the player sees a noun; nothing isn't seen.
    fn sees(&self, noun: &Option<ObjNo>) -> bool
        ensures { result ≡ of_some noun.now (is_visible (setting_of (tables self.now)) (progress self.now).world) };

    /// Whether the player can touch a noun.
    fn touches(&self, noun: &Option<ObjNo>) -> bool
        ensures { result ≡ of_some noun.now (is_touchable (setting_of (tables self.now)) (progress self.now).world) };

    /// Whether the player carries or wears a noun.
    fn has(&self, noun: &Option<ObjNo>) -> bool
        ensures { result ≡ has_noun (progress self.now).world noun.now };

    /// Adds to the text.
    fn say(&mut self, text: &[u8]) -> Result<(), Abandon>
        ensures same { tables self.new ≡ tables self.old }
        ensures kept { loaded self.new ≡ loaded self.old }
        ensures said { OnOk result (progress self.new ≡ say text.now (progress self.old)) }
        ensures refused { OnErr result ((result ≡ Err Memory) × (progress self.new ≡ progress self.old)) };

    /// Adds the name of a noun, with its definite article.
    fn say_name(&mut self, noun: &Option<ObjNo>) -> Result<(), Abandon>
        ensures same { tables self.new ≡ tables self.old }
        ensures kept { loaded self.new ≡ loaded self.old }
        ensures said { OnOk result (progress self.new ≡ say (name_in (setting_of (tables self.old)) Definite noun.now) (progress self.old)) }
        ensures refused { OnErr result (result ≡ Err Memory) };

    /// Makes the changes of a standard rule and says its text; what it tries and how it ends is left to the caller.
    fn standard(&mut self, alloc: Global, rule: u8, now: &ActionNow) -> Result<Owed, Abandon>
        requires low { 1 ≤ rule }
        requires high { rule ≤ 61 }
        requires there { IsThere (loaded self.old).back }
        ensures same { tables self.new ≡ tables self.old }
        ensures kept { loaded self.new ≡ loaded self.old }
        ensures effect { IfOk result (λ owed. (inner : Inner)
            → standard_body (coded_story (tables self.old)) inner rule now.now (progress self.old) ≡ rest_of inner owed (progress self.new)) }
        ensures refused { OnErr result (result ≡ Err Memory) };

    /// Does one instruction of a body; what it tries or follows is left to the caller.
    fn step(
        &mut self,
        alloc: Global,
        codes: &[Verified],
        state: &mut RunState,
        now: &ActionNow,
    ) -> Result<Step, Abandon>
        requires told { AreCodesIn codes.now (coded_story (tables self.old)) }
        requires stands { MayDo codes.now state.old }
        requires there { IsThere (loaded self.old).back }
        ensures same { tables self.new ≡ tables self.old }
        ensures kept { loaded self.new ≡ loaded self.old }
        ensures step { StepsSo (coded_story (tables self.old)) now.now state.old (progress self.old) result state.new (progress self.new) }
        ensures left { OnErr result ((progress self.new).world ≡ (progress self.old).world) }
        ensures stands { IfOk result (λ came. leads_on came ≡ true → MayDo codes.now state.new) }
        ensures code { state.new.code ≡ state.old.code };
}
