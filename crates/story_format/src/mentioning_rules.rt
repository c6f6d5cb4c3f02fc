//! The strings that rules say, in order.
ghost use Rattle.std.specs.Prelude.{◌≡◌, OnOk, fold};
ghost use Rattle.std.specs.List.{flat_map};
ghost use Rattle.object_words.specs.Mentions.{mention};
ghost use Rattle.play_meaning.specs.Meant.{body_meant, phrase_meant, simple_meant};
ghost use Rattle.play_meaning.specs.Translation.{strings_of_body, strings_of_phrase};
ghost use Rattle.story_format.specs.Mentioning.{branch_strings, rule_strings};

use crate::mentioning::mention_text;
use object_words::Strings;
use play_meaning::tree::{Branch, MeantRule, Phrase, Simple};
use std::alloc::{AllocError, Global};

/// Mentions the strings that phrases say.
#[cycle(bodies)]
fn mention_body(alloc: Global, strings: &mut Strings, body: &[Phrase]) -> Result<(), AllocError>
    ensures { OnOk result (strings.new ≡ fold mention strings.old (strings_of_body (body_meant body.now))) }
{
    for at in 0..body.len() {
        mention_phrase(alloc, strings, &body[at])?;
    }
    Ok(())
}

#[cycle(bodies)]
fn mention_phrase(alloc: Global, strings: &mut Strings, phrase: &Phrase) -> Result<(), AllocError>
    ensures { OnOk result (strings.new ≡ fold mention strings.old (strings_of_phrase (phrase_meant phrase.now))) }
{
    match phrase {
        Phrase::Plain(simple) => mention_simple(alloc, strings, simple),
        Phrase::Instead(simple) => mention_simple(alloc, strings, simple),
        Phrase::If(first, branches, others) => {
            mention_branch(alloc, strings, first)?;
            mention_branches(alloc, strings, branches.as_slice())?;
            mention_body(alloc, strings, others.as_slice())
        }
        Phrase::Repeat(_, phrases) => mention_body(alloc, strings, phrases.as_slice()),
    }
}

#[cycle(bodies)]
fn mention_branches(
    alloc: Global,
    strings: &mut Strings,
    branches: &[Branch],
) -> Result<(), AllocError>
    ensures { OnOk result (strings.new ≡ fold mention strings.old (flat_map branch_strings branches.now)) }
{
    for at in 0..branches.len() {
        mention_branch(alloc, strings, &branches[at])?;
    }
    Ok(())
}

#[cycle(bodies)]
fn mention_branch(alloc: Global, strings: &mut Strings, branch: &Branch) -> Result<(), AllocError>
    ensures { OnOk result (strings.new ≡ fold mention strings.old (branch_strings branch.now)) }
{
    mention_body(alloc, strings, branch.phrases.as_slice())
}

/// Mentions what a phrase says that has no phrases of its own.
#[tactic(auto, unfolding(play_meaning::specs::Translation::strings_of_phrase), using(crate::proofs::Mentioned::text_mentioned))]
fn mention_simple(alloc: Global, strings: &mut Strings, simple: &Simple) -> Result<(), AllocError>
    ensures { OnOk result (strings.new ≡ fold mention strings.old (strings_of_phrase (simple_meant simple.now))) }
{
    match simple {
        Simple::Say(text) => mention_text(alloc, strings, text),
        Simple::EndStory(text) => strings.mention(alloc, text.as_slice()),
        _ => Ok(()),
    }
}

/// Mentions the strings that the rules say.
#[tactic(auto, using(object_words::proofs::Folds::fold_both))]
pub fn mention_rules(
    alloc: Global,
    strings: &mut Strings,
    rules: &[MeantRule],
) -> Result<(), AllocError>
    ensures { OnOk result (strings.new ≡ fold mention strings.old (flat_map rule_strings rules.now)) }
{
    let mut rest = rules;
    while let [rule, after @ ..] = rest {
        mention_body(alloc, strings, rule.body.as_slice())?;
        rest = after;
    }
    Ok(())
}
