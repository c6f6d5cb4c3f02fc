//! The table of the stored rules.
ghost use Rattle.std.specs.Prelude.{◌≡◌, ◌+◌, ◌≤◌, ◌<◌, ◌==◌, ◌∷◌, ◌++◌, [], IfErr, IfOk, OnErr, OnOk, Some, length, slice_get, ◌-◌, true};
ghost use Rattle.standard_rules.specs.Answers.{HasEffect};
ghost use Rattle.standard_rules.specs.Hosts.{IsRefused, are_numbered, are_there};
ghost use Rattle.standard_rules.specs.StoredRules.{number_of};
ghost use Rattle.standard_rules.specs.declared.stored_rule.StoredRule.TheVariants.{Own};

use crate::answer::HostAnswer;
use crate::host_fault::HostFault;
use crate::stored_rule::{HostCall, HostRule, StandardRule, StoredRule};
use play_meaning::ActionNow;
use std::alloc::{AllocError, Global};
use world_store::World;

/// How many rules every story has.
const RULES: usize = 61;

/// The rules of a story's table, in the order of their numbers.
#[derive(Drop)]
pub struct HostTable {
    rules: Vec<StoredRule>,
    ghost short: { length rules.items ≤ 61 },
    ghost numbered: { are_numbered number_of 1 rules.items ≡ true },
}

impl HostTable {
    ghost use Rattle.standard_rules.specs.HostTables.{rule_count};

    /// A table without rules.
    pub fn new(alloc: Global) -> HostTable
        ensures { rule_count result ≡ 0 }
    {
        HostTable {
            rules: Vec::new(alloc),
        }
    }

    /// The table of all sixty-one rules, each the standard one of its number.
    ///
    /// # Errors
    ///
    /// Want of memory alone.
    pub fn standard(alloc: Global) -> Result<HostTable, AllocError>
        ensures whole { IfOk result (λ table. rule_count table ≡ 61) }
    {
        let mut table = HostTable::new(alloc);
        for id in 1..62u8 {
            table.push(StoredRule::Standard(StandardRule { id }))?;
        }
        Ok(table)
    }

    /// Puts the next rule behind the others.
    #[tactic(auto, using(crate::proofs::Numbered::numbered_on))]
    fn push(&mut self, rule: StoredRule) -> Result<(), AllocError>
        requires room { rule_count self.old < 61 }
        requires next { number_of rule ≡ rule_count self.old + 1 }
        ensures taken { OnOk result (self.new.rules.items ≡ self.old.rules.items ++ rule ∷ []) }
        ensures same { OnErr result (self.new.rules.items ≡ self.old.rules.items) }
    {
        self.rules.reserve(1)?;
        self.rules.push_reserved(rule);
        Ok(())
    }

    /// Takes a rule behind the others, if it has the next number.
    ///
    /// # Errors
    ///
    /// Full where all sixty-one are there, else out of order where the rule hasn't the next number, else want of memory; the
    /// table stays as it was.
    pub fn add(&mut self, rule: HostRule) -> Result<(), HostFault>
        ensures taken { OnOk result (self.new.rules.items ≡ self.old.rules.items ++ Own rule ∷ []) }
        ensures fits { OnOk result ((rule_count self.old < 61) × (rule.id ≡ rule_count self.old + 1)) }
        ensures refused { IfErr result (IsRefused (rule_count self.old) rule.id) }
        ensures same { OnErr result (self.new.rules.items ≡ self.old.rules.items) }
    {
        let count = self.rules.len();
        if count >= RULES {
            return Err(HostFault::Full);
        }
        if usize::from(rule.id) != count + 1 {
            return Err(HostFault::OutOfOrder);
        }
        match self.push(StoredRule::Own(rule)) {
            Ok(()) => Ok(()),
            Err(_) => Err(HostFault::Memory),
        }
    }

    /// Whether all the rules are there.
    pub fn is_complete(&self) -> bool
        ensures { result ≡ (rule_count self.now == 61) }
    {
        self.rules.len() == RULES
    }

    /// What the function of a rule answers, the stored one where one was handed in.
    ///
    /// # Errors
    ///
    /// Want of memory alone.
    pub fn call(
        &self,
        alloc: Global,
        id: u8,
        world: &World,
        now: &ActionNow,
    ) -> Result<HostAnswer, AllocError>
        requires low { 1 ≤ id }
        requires there { id ≤ rule_count self.now }
        requires numbers { are_there world.now now.now ≡ true }
        ensures effect { IfOk result (λ answer. HasEffect id world.now now.now answer) }
        ensures stored { (rule : _) → slice_get self.now.rules.items (id - 1) ≡ Some (Own rule) → HostCall.post rule.call alloc world.entry now.entry result }
    {
        self.rules[usize::from(id) - 1].call(alloc, world, now)
    }
}
