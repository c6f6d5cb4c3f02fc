//! The rules that every story has (the Standard Rules), as table 10 and the order of rulebooks have them.
ghost use Rattle.std.specs.Prelude.{◌≡◌, IfOk, map};
ghost use Rattle.play_meaning.specs.StandardRules.{standard_rules};
ghost use Rattle.story_format.specs.RuleMaking.{standard_entries, standard_entry};
ghost use Rattle.story_format.specs.RuleHeadings.{head_meant, heading_of};
ghost use Rattle.story_format.specs.StandardRows.{row_rule};

use crate::place::NONE;
use crate::rule_entry::{Aspect, RuleBody, RuleEntry};
use play_meaning::ActNo;
use play_meaning::tree::{self, Listing, Pattern, RuleHead};
use rule_order::STANDARD_RULES;
use std::alloc::{AllocError, Global};

/// The entry of the standard rule of this number, which is of this rulebook and about this action alone.
fn standard_entry(number: u8, book: u16, action: u8) -> RuleEntry
    ensures { result ≡ standard_entry number (row_rule (book, action)) }
{
    RuleEntry {
        book,
        action,
        noun: Aspect::Anything,
        second: Aspect::Anything,
        place: Aspect::Anything,
        scene: 255,
        condition: NONE,
        body: RuleBody::Standard(number),
    }
}

/// The entries of the sixty-one.
pub fn standard_entries(alloc: Global) -> Result<Vec<RuleEntry>, AllocError>
    ensures { IfOk result (λ entries. entries.items ≡ standard_entries) }
{
    let mut entries = Vec::new(alloc);
    let mut number = 1u8;
    let mut rest = STANDARD_RULES.as_slice();
    while let [row, after @ ..] = rest {
        entries.push(standard_entry(number, row.0, row.1))?;
        number += 1;
        rest = after;
    }
    Ok(entries)
}

/// The head of a rule that is of this rulebook and about this action alone.
fn standard_head(book: u16, action: u8) -> RuleHead
    ensures { head_meant result ≡ heading_of (row_rule (book, action)) }
{
    RuleHead {
        book,
        pattern: Pattern {
            action: Some(ActNo::new(action)),
            noun: tree::Aspect::Anything,
            second: tree::Aspect::Anything,
            place: tree::Aspect::Anything,
            scene: None,
        },
        condition: None,
        listing: Listing::InOrder,
    }
}

/// The heads of the sixty-one.
pub fn standard_heads(alloc: Global) -> Result<Vec<RuleHead>, AllocError>
    ensures { IfOk result (λ heads. map head_meant heads.items ≡ map heading_of standard_rules) }
{
    let mut heads = Vec::new(alloc);
    let mut rest = STANDARD_RULES.as_slice();
    while let [row, after @ ..] = rest {
        heads.push(standard_head(row.0, row.1))?;
        rest = after;
    }
    Ok(heads)
}
