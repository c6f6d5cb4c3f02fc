//! A stored rule: the standard function of its number, or one that is handed in and does what the standard rule does.
ghost use Rattle.std.specs.Prelude.{◌≡◌, ◌≤◌, IfOk, true};
ghost use Rattle.std.specs.Result.{ForOk};
ghost use Rattle.standard_rules.specs.Answers.{DoesRule, HasEffect};
ghost use Rattle.standard_rules.specs.Hosts.{are_there};

use crate::answer::HostAnswer;
use crate::by_number::standard;
use play_meaning::ActionNow;
use std::alloc::{AllocError, Global};
use world_store::World;

/// A function that answers for a rule, in a world and an action.
pub type HostCall = Box<dyn Fn(Global, &World, &ActionNow) -> Result<HostAnswer, AllocError>>;

/// A function that may be called on every world and every action of its story, and answers want of memory or what has the effect
/// of the standard rule of this number.
#[derive(Drop)]
pub struct HostRule {
    pub(crate) id: u8,
    call: HostCall,
    ghost low: { 1 ≤ id },
    ghost high: { id ≤ 61 },
    ghost callable: { (a : _) (w : _) (n : _) → are_there w.now n.now ≡ true → HostCall.pre call a w n },
    ghost stated: { (a : _) (w : _) (n : _) (r : _) → are_there w.now n.now ≡ true → HostCall.post call a w n r → ForOk r (λ answer. DoesRule id w.now n.now answer) },
}

impl HostRule {
    /// The rule of a number, 1 to 61, that this function does.
    pub fn new(id: u8, call: HostCall) -> HostRule
        requires low { 1 ≤ id }
        requires high { id ≤ 61 }
        requires callable { (a : _) (w : _) (n : _) → are_there w.now n.now ≡ true → HostCall.pre call a w n }
        requires stated { (a : _) (w : _) (n : _) (r : _) → are_there w.now n.now ≡ true → HostCall.post call a w n r → ForOk r (λ answer. DoesRule id w.now n.now answer) }
        ensures id { result.id ≡ id }
        ensures call { result.call ≡ call }
    {
        HostRule { id, call }
    }

    /// The rule's number.
    pub fn id(&self) -> u8
        ensures { result ≡ self.now.id }
    {
        self.id
    }

    /// What the function answers.
    #[tactic(auto, unfolding(crate::specs::Answers::HasEffect))]
    pub fn call(
        &self,
        alloc: Global,
        world: &World,
        now: &ActionNow,
    ) -> Result<HostAnswer, AllocError>
        requires { are_there world.now now.now ≡ true }
        ensures effect { IfOk result (λ answer. HasEffect self.now.id world.now now.now answer) }
        ensures stored { HostCall.post self.now.call alloc world.entry now.entry result }
    {
        (self.call)(alloc, world, now)
    }
}

/// The standard function of the rule of this number.
#[derive(Clone, Copy, Debug, Drop)]
pub struct StandardRule {
    pub(crate) id: u8,
    ghost low: { 1 ≤ id },
    ghost high: { id ≤ 61 },
}

/// What answers for a rule of the table.
#[derive(Drop)]
pub enum StoredRule {
    /// The standard function.
    Standard(StandardRule),
    /// A function that was handed in.
    Own(HostRule),
}

impl StoredRule {
    ghost use Rattle.standard_rules.specs.StoredRules.{number_of};
    ghost use Rattle.standard_rules.specs.declared.stored_rule.StoredRule.TheVariants.{Own};

    /// What the function answers.
    #[tactic(auto, unfolding(crate::specs::Answers::HasEffect))]
    pub(crate) fn call(
        &self,
        alloc: Global,
        world: &World,
        now: &ActionNow,
    ) -> Result<HostAnswer, AllocError>
        requires { are_there world.now now.now ≡ true }
        ensures effect { IfOk result (λ answer. HasEffect (number_of self.now) world.now now.now answer) }
        ensures own { (rule : _) → self.now ≡ Own rule → HostCall.post rule.call alloc world.entry now.entry result }
    {
        match self {
            StoredRule::Standard(rule) => standard(alloc, rule.id, world, now),
            StoredRule::Own(rule) => rule.call(alloc, world, now),
        }
    }
}
