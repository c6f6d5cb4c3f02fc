//! A session: a story in play, line by line.
ghost use Rattle.std.specs.Prelude.{◌≡◌, true, None, Some, IfErr, IfOk, OnOk, is_some, length};
ghost use Rattle.std.specs.Option.{ForSome};
ghost use Rattle.play_meaning.specs.CommandLines.{parts_of};
ghost use Rattle.play_meaning.specs.Sessions.{opened};
ghost use Rattle.play_meaning.specs.Transcripts.{ended_at_end};
ghost use Rattle.standard_rules.specs.HostTables.{rule_count};
ghost use Rattle.world_store.specs.StoryPlay.{game_in_play};
ghost use Rattle.story_player.specs.Begun.{IsUnbegun};
ghost use Rattle.story_player.specs.Given.{IsAnswered};
ghost use Rattle.story_player.specs.KeptWorlds.{are_marks};
ghost use Rattle.story_player.specs.Turns.{ending_told};
ghost use Rattle.story_player.specs.Typed.{parts_told, told};

use crate::Reply;
use crate::fault::StartFault;
use crate::line_text::LineText;
use crate::reading::parts;
use crate::trial::opened;
use crate::typed::Typed;
use command_parser::Question;
use rule_index::Index;
use standard_rules::HostTable;
use std::alloc::Global;
use std::rc::Rc;
use story_format::Story;
use undo_ring::Ring;
use world_meaning::{Ending, ReplyKind};
use world_store::{Mark, World};

/// A story in play: its stored rules, its world, the places of its log at which the last kept turns began, the latest in front, the
/// question that is open, if one is, and how it ended, if it has. The world is there but while an action is done on it.
#[derive(Drop)]
pub struct Session {
    pub(crate) alloc: Global,
    pub(crate) story: Rc<Story>,
    pub(crate) hosts: HostTable,
    pub(crate) index: Index,
    pub(crate) world: Option<World>,
    pub(crate) kept: Ring<Mark>,
    pub(crate) question: Option<Question>,
    pub(crate) ending: Option<Ending>,
    opening: Vec<u8>,
    ghost opened: { opening.items ≡ (opened (game_in_play story.value)).text },
    ghost whole: { rule_count hosts ≡ 61 },
    ghost indexed: { index ≡ story.value },
    ghost there: { is_some world ≡ true },
    ghost world_story: { ForSome world (λ now. now.tables ≡ story.value) },
    ghost marks: { ForSome world (λ now. are_marks (length now.past) kept ≡ true) },
}

/// How the session ends where the story has.
pub(crate) fn ending_of(world: &World) -> Option<Ending>
    ensures { result ≡ ending_told world.now.world.ended }
{
    match world.ended() {
        None => None,
        Some(_) => Some(Ending::Story),
    }
}

impl Session {
    ghost use Rattle.story_player.specs.Sessions.{HasShortLog, game_of, state_of, story_of};

    /// Begins the story: the rules of when play begins are followed, and the player looks round.
    ///
    /// # Errors
    ///
    /// Incomplete hosts where not all sixty-one stored rules are there, else want of memory.
    pub fn start(alloc: Global, story: Story, hosts: HostTable) -> Result<Session, StartFault>
        ensures begun { IfOk result (λ session. state_of session ≡ (opened (game_in_play story)).state) }
        ensures game { IfOk result (λ session. game_of session ≡ game_in_play story) }
        ensures story { IfOk result (λ session. story_of session ≡ story) }
        ensures whole { OnOk result (rule_count hosts ≡ 61) }
        ensures refused { IfErr result (λ fault. IsUnbegun fault (rule_count hosts)) }
    {
        if !hosts.is_complete() {
            return Err(StartFault::IncompleteHosts);
        }
        let Ok(story) = Rc::new(alloc, story) else {
            return Err(StartFault::Memory);
        };
        let Ok(index) = Index::build(alloc, &story) else {
            return Err(StartFault::Memory);
        };
        let told = opened(alloc, &story, &index, &hosts)?;
        let ending = ending_of(&told.world);
        let mut opening = Vec::new(alloc);
        if opening.extend_from_slice(told.text.as_slice()).is_err() {
            return Err(StartFault::Memory);
        }
        match Ring::new(alloc) {
            Ok(kept) => Ok(Session {
                alloc,
                story,
                hosts,
                index,
                world: Some(told.world),
                kept,
                question: None,
                ending,
                opening,
            }),
            Err(_) => Err(StartFault::Memory),
        }
    }

    /// The text with which the session began.
    pub fn opening(&self) -> &[u8]
        ensures { result.now ≡ (opened (game_of self.now)).text }
    {
        self.opening.as_slice()
    }

    /// The world, with its log.
    pub(crate) fn here(&self) -> &World
        ensures { self.now.world ≡ Some result.now }
    {
        self.world.as_ref().unwrap()
    }

    /// The world as it is now.
    pub fn world(&self) -> &World
        ensures world { result.now.world ≡ (state_of self.now).world }
        ensures story { result.now.tables ≡ story_of self.now }
    {
        self.here()
    }

    /// How the session ended, if it has.
    pub fn ending(&self) -> Option<Ending>
        ensures { result ≡ (state_of self.now).ending }
    {
        self.ending
    }

    /// Answers a line as it was typed: the text is the answer's, whatever it was, and what is told is the answer's kind.
    pub(crate) fn typed(&mut self, typed: Typed<'_>, text: &mut LineText) -> ReplyKind
        ensures answer { IsAnswered (game_of self.old) (parts_told (told typed.entry)) (state_of self.old) (state_of self.new)
            (record { text = text.new.said; kind = result }) }
        ensures game { game_of self.new ≡ game_of self.old }
        ensures story { story_of self.new ≡ story_of self.old }
        ensures few { HasShortLog self.new }
    {
        text.clear();
        let kind = self.answer_parts(parts(typed), text);
        self.let_go();
        kind
    }

    /// Answers a line: its commands, one behind the other, each in the world that the one before it left. Behind what does nothing,
    /// a question, a command that is abandoned and the end the rest of the line is dropped. Where memory is refused, in a turn or
    /// for a question, the answer says so behind what the commands in front of it gave, and nothing has changed by that command but
    /// that no question is open; any other command is answered without memory, `undo` among them.
    pub fn line(&mut self, line: &[u8]) -> Reply
        ensures answer { IsAnswered (game_of self.old) (parts_of line.now) (state_of self.old) (state_of self.new) result }
        ensures game { game_of self.new ≡ game_of self.old }
        ensures story { story_of self.new ≡ story_of self.old }
        ensures few { HasShortLog self.new }
    {
        let mut text = LineText::new(self.alloc);
        let kind = self.typed(Typed::Whole(line), &mut text);
        Reply::new(text, kind)
    }

    /// The commands have run out: answers how the session has ended.
    pub(crate) fn end_input(&mut self) -> Ending
        ensures state { state_of self.new ≡ ended_at_end (state_of self.old) }
        ensures ending { (state_of self.new).ending ≡ Some result }
        ensures game { game_of self.new ≡ game_of self.old }
        ensures story { story_of self.new ≡ story_of self.old }
    {
        match self.ending {
            Some(ending) => ending,
            None => {
                self.ending = Some(Ending::EndOfInput);
                Ending::EndOfInput
            }
        }
    }
}
