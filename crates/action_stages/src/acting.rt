//! Rules are asked, rulebooks consulted and actions done: a cycle over the levels that are left below, the same for whatever
//! story is in play.
ghost use Rattle.std.specs.Prelude.{◌≡◌, ◌≤◌, ◌-◌, Ok, None, Some};
ghost use Rattle.play_meaning.specs.Acting.{act, carrying, report};
ghost use Rattle.play_meaning.specs.Consulting.{ask, consult};
ghost use Rattle.story_code.specs.Runs.{IsBody, MayDo};
ghost use Rattle.action_stages.specs.Answering.{Answers, asked, done};
ghost use Rattle.action_stages.specs.Bodies.{AreCodesIn, CameTo, at, code_done, standard_body, step_at};
ghost use Rattle.action_stages.specs.Parts.{part_of};
ghost use Rattle.action_stages.specs.Performing.{below};
ghost use Rattle.action_stages.specs.Returning.{IsThere};
ghost use Rattle.world_store.specs.StoryPlay.{coded_story, game_in_play};
ghost use Rattle.world_store.specs.StorySettings.{setting_of};

use crate::failing::{access, asks_holding, fails, light, say_first_taking};
use crate::parts::{Part, decision_of, parts, with_nouns};
use crate::playing::{Does, Playing};
use play_meaning::standard_actions::TAKING;
use play_meaning::{ActNo, ActionNow, Flow, Outcome};
use std::alloc::Global;
use story_code::{RunState, Step, Verified, runs_begin_standing};
use world_meaning::{Abandon, ObjNo, Slot};

/// Tries an action, one level deeper.
#[cycle(acting)]
#[tactic(auto, using(crate::proofs::Levels::levels_rules))]
fn tries_in<P: Playing>(
    alloc: Global,
    codes: &[Verified],
    play: &mut P,
    action: &ActionNow,
    depth: u8,
) -> Result<(), Abandon>
    requires told { AreCodesIn codes.now (coded_story (P.tables play.old)) }
    requires there { IsThere (P.loaded play.old).back }
    requires whole { P.tables play.old ≡ (P.loaded play.old).story }
    ensures same { P.tables play.new ≡ P.tables play.old }
    ensures kept { P.loaded play.new ≡ P.loaded play.old }
    ensures answer { Answers result (λ done. P.progress play.new) ((below (P.tables play.old) depth).tries action.now (P.progress play.old)) }
{
    if depth == 0 {
        return Err(Abandon::NestedTooDeep);
    }
    act_in(alloc, codes, play, action, depth - 1)?;
    Ok(())
}

/// Follows a rulebook, one level deeper.
#[cycle(acting)]
#[tactic(auto, using(crate::proofs::Levels::levels_rules))]
fn follows_in<P: Playing>(
    alloc: Global,
    codes: &[Verified],
    play: &mut P,
    book: u16,
    now: &ActionNow,
    depth: u8,
) -> Result<(), Abandon>
    requires told { AreCodesIn codes.now (coded_story (P.tables play.old)) }
    requires there { IsThere (P.loaded play.old).back }
    requires whole { P.tables play.old ≡ (P.loaded play.old).story }
    ensures same { P.tables play.new ≡ P.tables play.old }
    ensures kept { P.loaded play.new ≡ P.loaded play.old }
    ensures answer { Answers result (λ done. P.progress play.new) ((below (P.tables play.old) depth).follows book now.now (P.progress play.old)) }
{
    if depth == 0 {
        return Err(Abandon::NestedTooDeep);
    }
    consult_in(alloc, codes, play, book, now, depth - 1)?;
    Ok(())
}

/// Does a step of a body, and what it tries or follows; tells how the body ended, if it has.
#[cycle(acting)]
fn step_in<P: Playing>(
    alloc: Global,
    codes: &[Verified],
    play: &mut P,
    state: &mut RunState,
    now: &ActionNow,
    depth: u8,
) -> Result<Option<Flow>, Abandon>
    requires told { AreCodesIn codes.now (coded_story (P.tables play.old)) }
    requires there { IsThere (P.loaded play.old).back }
    requires whole { P.tables play.old ≡ (P.loaded play.old).story }
    requires stands { MayDo codes.now state.old }
    ensures same { P.tables play.new ≡ P.tables play.old }
    ensures kept { P.loaded play.new ≡ P.loaded play.old }
    ensures came { CameTo
        (step_at (coded_story (P.tables play.old)) now.now (below (P.tables play.old) depth) state.old (P.progress play.old))
        result (at state.new (P.progress play.new)) }
    ensures stands { result ≡ Ok None → MayDo codes.now state.new }
    ensures code { state.new.code ≡ state.old.code }
{
    match play.step(alloc, codes, state, now)? {
        Step::GoesOn => Ok(None),
        Step::Done => Ok(Some(Flow::GoesOn)),
        Step::NoDecision => Ok(Some(Flow::NoDecision)),
        Step::Success => Ok(Some(Flow::Decides(Outcome::Success))),
        Step::Failure => Ok(Some(Flow::Decides(Outcome::Failure))),
        Step::Try(action) => {
            tries_in(alloc, codes, play, &action, depth)?;
            Ok(None)
        }
        Step::Follow(book) => {
            follows_in(alloc, codes, play, book, now, depth)?;
            Ok(None)
        }
    }
}

/// Does the body of a rule of the author's: its code is run to its end.
#[cycle(acting)]
fn code_in<P: Playing>(
    alloc: Global,
    codes: &[Verified],
    play: &mut P,
    code: u16,
    now: &ActionNow,
    depth: u8,
) -> Result<Flow, Abandon>
    requires told { AreCodesIn codes.now (coded_story (P.tables play.old)) }
    requires there { IsThere (P.loaded play.old).back }
    requires whole { P.tables play.old ≡ (P.loaded play.old).story }
    requires body { IsBody codes.now code }
    ensures same { P.tables play.new ≡ P.tables play.old }
    ensures kept { P.loaded play.new ≡ P.loaded play.old }
    ensures answer { Answers result (done (P.progress play.new))
        (code_done (coded_story (P.tables play.old)) (below (P.tables play.old) depth) code now.now (P.progress play.old)) }
{
    play.is_within();
    runs_begin_standing();
    let mut state = RunState::new(code, 0);
    'steps: loop {
        match step_in(alloc, codes, play, &mut state, now, depth) {
            Ok(None) => {}
            Ok(Some(flow)) => return Ok(flow),
            Err(reason) => return Err(reason),
        }
    }
}

/// Does the body of a standard rule: what it changes and says, then what it tries.
#[cycle(acting)]
fn standard_in<P: Playing>(
    alloc: Global,
    codes: &[Verified],
    play: &mut P,
    rule: u8,
    now: &ActionNow,
    depth: u8,
) -> Result<Flow, Abandon>
    requires told { AreCodesIn codes.now (coded_story (P.tables play.old)) }
    requires there { IsThere (P.loaded play.old).back }
    requires whole { P.tables play.old ≡ (P.loaded play.old).story }
    requires low { 1 ≤ rule }
    requires high { rule ≤ 61 }
    ensures same { P.tables play.new ≡ P.tables play.old }
    ensures kept { P.loaded play.new ≡ P.loaded play.old }
    ensures answer { Answers result (done (P.progress play.new))
        (standard_body (coded_story (P.tables play.old)) (below (P.tables play.old) depth) rule now.now (P.progress play.old)) }
{
    let owed = play.standard(alloc, rule, now)?;
    if let Some(action) = &owed.tries {
        tries_in(alloc, codes, play, action, depth)?;
    }
    match owed.ends {
        Ok(flow) => Ok(flow),
        Err(reason) => Err(reason),
    }
}

/// Does the body of a rule.
#[cycle(acting)]
#[tactic(auto, unfolding(play_meaning::specs::CodedStories::game_of_codes))]
fn body_in<P: Playing>(
    alloc: Global,
    codes: &[Verified],
    play: &mut P,
    rule: u16,
    now: &ActionNow,
    depth: u8,
) -> Result<Flow, Abandon>
    requires told { AreCodesIn codes.now (coded_story (P.tables play.old)) }
    requires there { IsThere (P.loaded play.old).back }
    requires whole { P.tables play.old ≡ (P.loaded play.old).story }
    ensures same { P.tables play.new ≡ P.tables play.old }
    ensures kept { P.loaded play.new ≡ P.loaded play.old }
    ensures answer { Answers result (done (P.progress play.new)) ((game_in_play (P.tables play.old)).body rule (below (P.tables play.old) depth) now.now (P.progress play.old)) }
{
    match play.does(rule) {
        None => Ok(Flow::GoesOn),
        Some(Does::Coded(code)) => code_in(alloc, codes, play, code, now, depth),
        Some(Does::Standard(standard)) => standard_in(alloc, codes, play, standard, now, depth),
    }
}

/// Asks a rule: one that applies is a unit of work, and then does its body.
#[cycle(acting)]
#[tactic(auto, unfolding(play_meaning::specs::Consulting::ask))]
fn ask_in<P: Playing>(
    alloc: Global,
    codes: &[Verified],
    play: &mut P,
    book: u16,
    rule: u16,
    now: &ActionNow,
    depth: u8,
) -> Result<Option<Outcome>, Abandon>
    requires told { AreCodesIn codes.now (coded_story (P.tables play.old)) }
    requires there { IsThere (P.loaded play.old).back }
    requires whole { P.tables play.old ≡ (P.loaded play.old).story }
    ensures same { P.tables play.new ≡ P.tables play.old }
    ensures kept { P.loaded play.new ≡ P.loaded play.old }
    ensures answer { Answers result (asked (P.progress play.new)) (ask (game_in_play (P.tables play.old)) (below (P.tables play.old) depth) book now.now rule (P.progress play.old)) }
{
    play.count_test();
    if !play.applies(alloc, codes, rule, now)? {
        return Ok(None);
    }
    play.spend()?;
    let flow = body_in(alloc, codes, play, rule, now, depth)?;
    Ok(decision_of(book, flow))
}

/// Consults a rulebook: its rules in order, up to the first decision. Rules that can't be about what is there are passed over.
#[cycle(acting)]
#[tactic(auto, using(crate::proofs::Walking::walk_rules), unfolding(play_meaning::specs::Consulting::consult))]
pub fn consult_in<P: Playing>(
    alloc: Global,
    codes: &[Verified],
    play: &mut P,
    book: u16,
    now: &ActionNow,
    depth: u8,
) -> Result<Option<Outcome>, Abandon>
    requires told { AreCodesIn codes.now (coded_story (P.tables play.old)) }
    requires there { IsThere (P.loaded play.old).back }
    requires whole { P.tables play.old ≡ (P.loaded play.old).story }
    ensures same { P.tables play.new ≡ P.tables play.old }
    ensures kept { P.loaded play.new ≡ P.loaded play.old }
    ensures answer { Answers result (asked (P.progress play.new)) (consult (game_in_play (P.tables play.old)) (below (P.tables play.old) depth) book now.now (P.progress play.old)) }
{
    let now = with_nouns(now);
    let mut from = 0;
    while let Some((place, rule)) = play.next_rule(book, &now, from) {
        match ask_in(alloc, codes, play, book, rule, &now, depth) {
            Ok(None) => from = place + 1,
            Ok(Some(outcome)) => return Ok(Some(outcome)),
            Err(reason) => return Err(reason),
        }
    }
    Ok(None)
}

/// A noun that must be held is, or is taken first.
#[cycle(acting)]
#[tactic(auto, unfolding(play_meaning::specs::Acting::carrying))]
fn held_in<P: Playing>(
    alloc: Global,
    codes: &[Verified],
    play: &mut P,
    slot: Slot,
    noun: &Option<ObjNo>,
    depth: u8,
) -> Result<Option<Outcome>, Abandon>
    requires told { AreCodesIn codes.now (coded_story (P.tables play.old)) }
    requires there { IsThere (P.loaded play.old).back }
    requires whole { P.tables play.old ≡ (P.loaded play.old).story }
    ensures same { P.tables play.new ≡ P.tables play.old }
    ensures kept { P.loaded play.new ≡ P.loaded play.old }
    ensures answer { Answers result (asked (P.progress play.new)) (carrying (setting_of (P.tables play.old)) (below (P.tables play.old) depth) slot noun.now (P.progress play.old)) }
{
    if !asks_holding(slot) || play.has(noun) {
        return Ok(None);
    }
    say_first_taking(play, noun)?;
    let taking = ActionNow {
        action: ActNo::new(TAKING),
        noun: *noun,
        second: None,
        silent: true,
    };
    tries_in(alloc, codes, play, &taking, depth)?;
    if play.has(noun) {
        return Ok(None);
    }
    Ok(Some(Outcome::Failure))
}

/// The report rules, unless the action is silent.
#[cycle(acting)]
fn report_in<P: Playing>(
    alloc: Global,
    codes: &[Verified],
    play: &mut P,
    now: &ActionNow,
    depth: u8,
) -> Result<Option<Outcome>, Abandon>
    requires told { AreCodesIn codes.now (coded_story (P.tables play.old)) }
    requires there { IsThere (P.loaded play.old).back }
    requires whole { P.tables play.old ≡ (P.loaded play.old).story }
    ensures same { P.tables play.new ≡ P.tables play.old }
    ensures kept { P.loaded play.new ≡ P.loaded play.old }
    ensures answer { Answers result (asked (P.progress play.new)) (report (game_in_play (P.tables play.old)) (below (P.tables play.old) depth) now.now (P.progress play.old)) }
{
    if now.silent {
        return Ok(None);
    }
    consult_in(alloc, codes, play, 5, now, depth)
}

/// A part of an action.
#[cycle(acting)]
#[tactic(auto, unfolding(crate::specs::Parts::part_of, play_meaning::specs::CodedStories::game_of_codes, world_store::specs::StoryPlay::coded_story))]
fn part_in<P: Playing>(
    alloc: Global,
    codes: &[Verified],
    play: &mut P,
    part: Part,
    now: &ActionNow,
    depth: u8,
) -> Result<Option<Outcome>, Abandon>
    requires told { AreCodesIn codes.now (coded_story (P.tables play.old)) }
    requires there { IsThere (P.loaded play.old).back }
    requires whole { P.tables play.old ≡ (P.loaded play.old).story }
    ensures same { P.tables play.new ≡ P.tables play.old }
    ensures kept { P.loaded play.new ≡ P.loaded play.old }
    ensures answer { Answers result (asked (P.progress play.new)) (part_of (game_in_play (P.tables play.old)) (below (P.tables play.old) depth) now.now part (P.progress play.old)) }
{
    let needs = play.needs(now.action);
    match part {
        Part::Book(book) => consult_in(alloc, codes, play, book, now, depth),
        Part::Light => light(play, now),
        Part::NounSeen => access(play, needs.noun, &now.noun),
        Part::SecondSeen => access(play, needs.second, &now.second),
        Part::NounHeld => held_in(alloc, codes, play, needs.noun, &now.noun, depth),
        Part::SecondHeld => held_in(alloc, codes, play, needs.second, &now.second, depth),
        Part::Report => report_in(alloc, codes, play, now, depth),
    }
}

/// Does an action: its parts in order, up to the first decision.
#[cycle(acting)]
#[tactic(auto, using(crate::proofs::Levels::parts_are))]
pub fn act_in<P: Playing>(
    alloc: Global,
    codes: &[Verified],
    play: &mut P,
    now: &ActionNow,
    depth: u8,
) -> Result<Option<Outcome>, Abandon>
    requires told { AreCodesIn codes.now (coded_story (P.tables play.old)) }
    requires there { IsThere (P.loaded play.old).back }
    requires whole { P.tables play.old ≡ (P.loaded play.old).story }
    ensures same { P.tables play.new ≡ P.tables play.old }
    ensures kept { P.loaded play.new ≡ P.loaded play.old }
    ensures answer { Answers result (asked (P.progress play.new)) (act (game_in_play (P.tables play.old)) (below (P.tables play.old) depth) now.now (P.progress play.old)) }
{
    let all = parts(play.needs(now.action).out_of_world);
    for part in all {
        if let Some(outcome) = part_in(alloc, codes, play, *part, now, depth)? {
            return Ok(Some(outcome));
        }
    }
    Ok(None)
}
