//! The rules of a source, as a story keeps them.
ghost use Rattle.std.specs.Prelude.{◌≡◌, IfOk, map};

use i7_rules::SourceRule;
use play_meaning::tree::MeantRule;
use std::alloc::{AllocError, Global};

/// What the rules of a source are, in order, without their lines and names.
pub fn rules_of(alloc: Global, rules: Vec<SourceRule>) -> Result<Vec<MeantRule>, AllocError>
    ensures { IfOk result (λ kept. kept.items ≡ map (λ told. told.rule) rules.items) }
{
    rules.into_iter().map(|told| told.rule).collect(alloc)
}
