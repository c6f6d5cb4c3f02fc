//! A stage: a loaded story with its stored rules, the world that play has come to, what was said and the work that was done.
ghost use Rattle.std.specs.Prelude.{◌≡◌};
ghost use Rattle.play_meaning.specs.Truth.{has_thing};
ghost use Rattle.action_stages.specs.Returning.{back_at};

use crate::conditions::applies;
use crate::does::does;
use crate::effects::{Rules, ends, make_all};
use crate::needs::needs_of;
use crate::passing::next_rule;
use crate::playing::{Does, Owed, Playing};
use crate::stepping::step_kept;
use crate::work::Work;
use play_meaning::{ActNo, ActionNow, Naming};
use rule_index::Index;
use standard_rules::HostAnswer;
use std::alloc::Global;
use story_code::{RunState, Step, Verified, is_held, say_name};
use story_format::Story;
use world_meaning::{Abandon, Needs, ObjNo, Rel};
use world_store::{Mark, World};

/// A story in play, of which rulebooks are consulted and actions performed.
#[derive(Drop)]
pub struct Stage<'a> {
    pub(crate) story: &'a Story,
    pub(crate) rules: Rules<'a>,
    pub(crate) world: World,
    pub(crate) text: Vec<u8>,
    pub(crate) work: Work,
    /// Where the world stood as the stage was set up.
    pub(crate) since: Mark,
    pub(crate) index: &'a Index,
    /// How many rules were asked.
    pub(crate) tests: u64,
    ghost indexed: { index.now ≡ story.now },
}

/// Whether the player carries or wears an object.
fn has_thing(world: &World, object: ObjNo) -> bool
    ensures { result ≡ has_thing world.now.world 0 object }
{
    let player = ObjNo::new(0);
    is_held(world, Rel::Carried, Some(player), object)
        || is_held(world, Rel::Worn, Some(player), object)
}

impl Playing for Stage<'_> {
    ghost tables = { λ s. s.world.tables };

    ghost loaded = { λ s. record { story = s.story.now; back = back_at s.since s.world } };

    ghost progress = { λ g. record { world = g.world.world; text = g.text.items; work = g.work } };

    fn is_within(&self) {
        let _ = self.work.units();
    }

    fn needs(&self, action: ActNo) -> Needs {
        needs_of(self.world.story(), action)
    }

    fn next_rule(&self, book: u16, now: &ActionNow, from: usize) -> Option<(usize, u16)> {
        next_rule(self.index, &self.world, book, now, from)
    }

    fn count_test(&mut self) {
        self.tests = self.tests.saturating_add(1);
    }

    fn applies(
        &self,
        alloc: Global,
        codes: &[Verified],
        rule: u16,
        now: &ActionNow,
    ) -> Result<bool, Abandon> {
        applies(alloc, &self.world, codes, rule, now)
    }

    fn does(&self, rule: u16) -> Option<Does> {
        does(self.world.story(), rule)
    }

    #[tactic(auto, unfolding(play_meaning::specs::Progress::spend))]
    fn spend(&mut self) -> Result<(), Abandon> {
        self.work.spend()
    }

    fn has_light(&self) -> bool {
        self.world.lit_here()
    }

    fn sees(&self, noun: &Option<ObjNo>) -> bool {
        match noun {
            None => false,
            Some(object) => self.world.visible(*object),
        }
    }

    fn touches(&self, noun: &Option<ObjNo>) -> bool {
        match noun {
            None => false,
            Some(object) => self.world.touchable(*object),
        }
    }

    fn has(&self, noun: &Option<ObjNo>) -> bool {
        match noun {
            None => false,
            Some(object) => has_thing(&self.world, *object),
        }
    }

    fn say(&mut self, text: &[u8]) -> Result<(), Abandon> {
        match self.text.extend_from_slice(text) {
            Ok(()) => Ok(()),
            Err(_) => Err(Abandon::Memory),
        }
    }

    fn say_name(&mut self, noun: &Option<ObjNo>) -> Result<(), Abandon> {
        say_name(&self.world, &mut self.text, Naming::Definite, *noun)
    }

    fn standard(&mut self, alloc: Global, rule: u8, now: &ActionNow) -> Result<Owed, Abandon> {
        let Ok(answer) = self.rules.answer(alloc, rule, &self.world, now) else {
            return Err(Abandon::Memory);
        };
        let HostAnswer {
            changes,
            text,
            tries,
            outcome,
        } = answer;
        make_all(&mut self.world, changes)?;
        self.say(text.as_slice())?;
        Ok(Owed {
            tries,
            ends: ends(outcome),
        })
    }

    fn step(
        &mut self,
        alloc: Global,
        codes: &[Verified],
        state: &mut RunState,
        now: &ActionNow,
    ) -> Result<Step, Abandon> {
        state.set_work(self.work.units());
        match step_kept(alloc, &mut self.world, codes, now, state, &mut self.text) {
            Ok(came) => {
                self.work.set(state.work());
                Ok(came)
            }
            Err(reason) => Err(reason),
        }
    }
}
