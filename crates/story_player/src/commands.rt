//! What a session answers to the commands of a line, one behind the other.
ghost use Rattle.std.specs.Prelude.{◌≡◌, ◌≤◌, ◌<◌, ◌+◌, false, None, OnErr, OnOk, length};
ghost use Rattle.play_meaning.specs.Commands.{asking_text};
ghost use Rattle.play_meaning.specs.Games.{Acts, ActsAll, Asks, Quit, Says, Undo};
ghost use Rattle.play_meaning.specs.Progress.{fresh};
ghost use Rattle.play_meaning.specs.Sessions.{abandoned, goes_on_behind, meant, meant_among};
ghost use Rattle.command_parser.specs.Cutting.{command_count, told_parts};
ghost use Rattle.command_parser.specs.Readings.{said_text};
ghost use Rattle.story_player.specs.Given.{AreGiven, IsGiven, IsLineGiven, said_behind, so_far};
ghost use Rattle.story_player.specs.KeptWorlds.{HasGoneOn};
ghost use Rattle.story_player.specs.LineTexts.{most_commands};
ghost use Rattle.story_player.specs.Turns.{IsTried, deed_answer, done_by, ending_told, kind_told};
ghost use Rattle.world_store.specs.StorySettings.{setting_of};

use crate::all_things::all_things;
use crate::asking::ask;
use crate::deed::Deed;
use crate::line_text::LineText;
use crate::reading::{read, said_text};
use crate::session::{Session, ending_of};
use crate::telling::abandon_text;
use crate::texts;
use crate::trial::tried;
use action_stages::needs_of;
use command_parser::{Command, Objects, Parts, Pieces, Question, Reading, Said};
use play_meaning::{ActNo, ActionNow};
use world_meaning::{Abandon, Ending, ReplyKind};
use world_store::World;

/// What became of a command, and whether the commands behind it are done.
#[derive(Clone, Copy)]
pub(crate) struct Given {
    pub(crate) kind: ReplyKind,
    pub(crate) goes_on: bool,
}

/// The kind of an answer behind which the world is this.
fn kind_of(world: &World, kind: ReplyKind) -> ReplyKind
    ensures { result ≡ kind_told kind world.now.world.ended }
{
    match world.ended() {
        None => kind,
        Some(_) => ReplyKind::Ended,
    }
}

impl Given {
    /// The rest of the line is dropped.
    fn last(kind: ReplyKind) -> Given
        ensures kind { result.kind ≡ kind }
        ensures goes_on { result.goes_on ≡ false }
    {
        Given {
            kind,
            goes_on: false,
        }
    }
}

/// Whether the commands behind one of which this became are done.
fn goes_on_behind(kind: ReplyKind) -> bool
    ensures { result ≡ goes_on_behind kind }
{
    match kind {
        ReplyKind::Kept | ReplyKind::Free => true,
        ReplyKind::Abandoned(_) | ReplyKind::Ended | ReplyKind::Over => false,
    }
}

impl Session {
    ghost use Rattle.story_player.specs.Refusals.{is_refusal};
    ghost use Rattle.story_player.specs.Sessions.{game_of, meant_by, state_of, story_of};

    /// What comes of something that is done on the world: where it is abandoned nothing is told, and the world is as it was.
    fn trial(&mut self, deed: &Deed, text: &mut LineText) -> Result<(), Abandon>
        requires room { 0 < text.old.left }
        ensures told { IsTried result (done_by deed.now (game_of self.old) (fresh (state_of self.old).world))
            (state_of self.new).world text.old.said text.new.said }
        ensures room { OnOk result (text.new.left + 1 ≡ text.old.left) }
        ensures same { OnErr result (text.new ≡ text.old) }
        ensures behind { OnOk result (HasGoneOn self.old.world self.new.world) }
        ensures left { OnErr result (self.new.world ≡ self.old.world) }
        ensures marks { self.new.kept ≡ self.old.kept }
        ensures question { self.new.question ≡ self.old.question }
        ensures ending { self.new.ending ≡ self.old.ending }
        ensures game { game_of self.new ≡ game_of self.old }
        ensures story { story_of self.new ≡ story_of self.old }
    {
        let world = self.world.take().unwrap();
        let (world, told) = tried(
            self.alloc,
            self.story.as_ref(),
            &self.index,
            &self.hosts,
            world,
            deed,
            text,
        );
        self.world = Some(world);
        told
    }

    /// Takes up what was done, of which the world is already that; no question is open.
    fn take_up(&mut self, kind: ReplyKind) -> Given
        ensures kind { result.kind ≡ kind_told kind (state_of self.old).world.ended }
        ensures goes_on { result.goes_on ≡ goes_on_behind result.kind }
        ensures state { state_of self.new ≡ record (state_of self.old) { question = None; ending = ending_told (state_of self.old).world.ended } }
        ensures game { game_of self.new ≡ game_of self.old }
        ensures story { story_of self.new ≡ story_of self.old }
    {
        self.question = None;
        self.ending = ending_of(self.here());
        let kind = kind_of(self.here(), kind);
        Given {
            kind,
            goes_on: goes_on_behind(kind),
        }
    }

    /// Says that a command was abandoned; no question is open.
    fn abandon(&mut self, reason: Abandon, text: &mut LineText) -> Given
        requires room { 0 < text.old.left }
        ensures answer { so_far text.new.said result.kind (state_of self.new) ≡ said_behind text.old.said (abandoned reason (state_of self.old)) }
        ensures goes_on { result.goes_on ≡ false }
        ensures room { text.new.left + 1 ≡ text.old.left }
        ensures game { game_of self.new ≡ game_of self.old }
        ensures story { story_of self.new ≡ story_of self.old }
    {
        self.question = None;
        text.add_fixed(abandon_text(reason));
        Given::last(ReplyKind::Abandoned(reason))
    }

    /// Does something on the world: a turn, of which the world before it is kept, or an action by itself. Where it is abandoned the
    /// world is as it was.
    fn act_out(&mut self, deed: &Deed, text: &mut LineText) -> Given
        requires going { (state_of self.old).ending ≡ None }
        requires room { 0 < text.old.left }
        ensures answer { so_far text.new.said result.kind (state_of self.new)
            ≡ said_behind text.old.said (deed_answer deed.now (game_of self.old) (is_refusal result.kind) (state_of self.old)) }
        ensures goes_on { result.goes_on ≡ goes_on_behind result.kind }
        ensures room { text.new.left + 1 ≡ text.old.left }
        ensures game { game_of self.new ≡ game_of self.old }
        ensures story { story_of self.new ≡ story_of self.old }
    {
        let is_kept = deed.is_turn();
        let mark = self.here().mark();
        match self.trial(deed, text) {
            Ok(()) => {
                if is_kept {
                    self.kept.keep(mark);
                    return self.take_up(ReplyKind::Kept);
                }
                self.take_up(ReplyKind::Free)
            }
            Err(reason) => self.abandon(reason, text),
        }
    }

    /// Does an action: in a turn, or by itself where it is out of world.
    fn act(&mut self, now: ActionNow, text: &mut LineText) -> Given
        requires going { (state_of self.old).ending ≡ None }
        requires room { 0 < text.old.left }
        ensures answer { IsGiven (game_of self.old) (Acts now) (state_of self.old) (state_of self.new) text.old.said text.new.said result }
        ensures room { text.new.left + 1 ≡ text.old.left }
        ensures game { game_of self.new ≡ game_of self.old }
        ensures story { story_of self.new ≡ story_of self.old }
    {
        if needs_of(self.story.as_ref(), now.action).out_of_world {
            self.act_out(&Deed::Alone(now), text)
        } else {
            self.act_out(&Deed::Turn(now), text)
        }
    }

    /// Does an action on all things that are meant by that, in one turn, if there are any.
    fn act_on_all(&mut self, action: ActNo, text: &mut LineText) -> Given
        requires going { (state_of self.old).ending ≡ None }
        requires room { 0 < text.old.left }
        ensures answer { IsGiven (game_of self.old) (meant_among (setting_of (story_of self.old)) (state_of self.old).world (ActsAll action))
            (state_of self.old) (state_of self.new) text.old.said text.new.said result }
        ensures room { text.new.left + 1 ≡ text.old.left }
        ensures game { game_of self.new ≡ game_of self.old }
        ensures story { story_of self.new ≡ story_of self.old }
    {
        let Ok(things) = all_things(self.alloc, self.world(), action) else {
            return self.abandon(Abandon::Memory, text);
        };
        let things = Objects::new(things);
        if things.as_slice().is_empty() {
            return self.say(Said::NoneOfAll, text);
        }
        self.act_out(&Deed::TurnUpon(action, things), text)
    }

    /// Takes the last kept turn back, if there is one.
    fn undo(&mut self, text: &mut LineText) -> Given
        requires room { 0 < text.old.left }
        ensures answer { IsGiven (game_of self.old) Undo (state_of self.old) (state_of self.new) text.old.said text.new.said result }
        ensures room { text.new.left + 1 ≡ text.old.left }
        ensures game { game_of self.new ≡ game_of self.old }
        ensures story { story_of self.new ≡ story_of self.old }
    {
        self.question = None;
        match self.kept.take_back() {
            None => text.add_fixed(texts::NOTHING_TO_UNDO),
            Some(mark) => {
                let mut world = self.world.take().unwrap();
                world.revert(mark);
                self.world = Some(world);
                text.add_fixed(texts::UNDONE);
            }
        }
        Given {
            kind: ReplyKind::Free,
            goes_on: true,
        }
    }

    /// Ends the session at the player's word.
    fn quit(&mut self, text: &mut LineText) -> Given
        requires room { 0 < text.old.left }
        ensures answer { IsGiven (game_of self.old) Quit (state_of self.old) (state_of self.new) text.old.said text.new.said result }
        ensures room { text.new.left + 1 ≡ text.old.left }
        ensures game { game_of self.new ≡ game_of self.old }
        ensures story { story_of self.new ≡ story_of self.old }
    {
        self.question = None;
        self.ending = Some(Ending::Quit);
        text.add_fixed(b"");
        Given::last(ReplyKind::Ended)
    }

    /// Says what a command that does nothing means.
    fn say(&mut self, said: Said, text: &mut LineText) -> Given
        requires room { 0 < text.old.left }
        ensures answer { IsGiven (game_of self.old) (Says (said_text said)) (state_of self.old) (state_of self.new) text.old.said text.new.said result }
        ensures room { text.new.left + 1 ≡ text.old.left }
        ensures game { game_of self.new ≡ game_of self.old }
        ensures story { story_of self.new ≡ story_of self.old }
    {
        self.question = None;
        text.add_fixed(said_text(said));
        Given::last(ReplyKind::Free)
    }

    /// Asks which of the candidates of a question is meant.
    fn ask(&mut self, question: Question, text: &mut LineText) -> Given
        requires room { 0 < text.old.left }
        ensures answer { IsGiven (game_of self.old) (Asks question (asking_text (setting_of (story_of self.old)) question.candidates))
            (state_of self.old) (state_of self.new) text.old.said text.new.said result }
        ensures room { text.new.left + 1 ≡ text.old.left }
        ensures game { game_of self.new ≡ game_of self.old }
        ensures story { story_of self.new ≡ story_of self.old }
    {
        match ask(self.alloc, self.here(), question.candidates(), text) {
            Ok(()) => {
                self.question = Some(question);
                Given::last(ReplyKind::Free)
            }
            Err(reason) => self.abandon(reason, text),
        }
    }

    /// Answers what a command means.
    fn answer(&mut self, reading: Reading, text: &mut LineText) -> Given
        requires going { (state_of self.old).ending ≡ None }
        requires room { 0 < text.old.left }
        ensures answer { IsGiven (game_of self.old) (meant_by self.old reading) (state_of self.old) (state_of self.new) text.old.said text.new.said result }
        ensures room { text.new.left + 1 ≡ text.old.left }
        ensures game { game_of self.new ≡ game_of self.old }
        ensures story { story_of self.new ≡ story_of self.old }
    {
        match reading {
            Reading::Says(said) => self.say(said, text),
            Reading::Asks(question) => self.ask(question, text),
            Reading::Acts(now) => self.act(now, text),
            Reading::ActsAll(action) => self.act_on_all(action, text),
            Reading::Undo => self.undo(text),
            Reading::Quit => self.quit(text),
        }
    }

    /// Answers a command. Memory that is refused to its reading is refused to a question.
    fn command(&mut self, command: &Command<'_>, text: &mut LineText) -> Given
        requires going { (state_of self.old).ending ≡ None }
        requires room { 0 < text.old.left }
        ensures answer { IsGiven (game_of self.old) (meant (game_of self.old) (state_of self.old) command.now)
            (state_of self.old) (state_of self.new) text.old.said text.new.said result }
        ensures room { text.new.left + 1 ≡ text.old.left }
        ensures game { game_of self.new ≡ game_of self.old }
        ensures story { story_of self.new ≡ story_of self.old }
    {
        match read(self.alloc, self.world(), self.question.as_ref(), command) {
            Ok(reading) => self.answer(reading, text),
            Err(_) => self.abandon(Abandon::Memory, text),
        }
    }

    /// Answers commands, one behind the other.
    fn commands<'a>(
        &mut self,
        first: Command<'a>,
        more: Pieces<'a>,
        text: &mut LineText,
    ) -> ReplyKind
        requires going { (state_of self.old).ending ≡ None }
        requires room { length more < text.old.left }
        ensures answer { AreGiven (game_of self.old) 0 first.entry more.entry (state_of self.old) (state_of self.new) text.old.said text.new.said result }
        ensures game { game_of self.new ≡ game_of self.old }
        ensures story { story_of self.new ≡ story_of self.old }
    {
        let mut command = first;
        let mut rest = more;
        loop {
            let given = self.command(&command, text);
            if !given.goes_on {
                return given.kind;
            }
            match rest.next() {
                None => return given.kind,
                Some(next) => command = next,
            }
        }
    }

    /// Answers the parts of a line.
    pub(crate) fn answer_parts(&mut self, parts: Parts<'_>, text: &mut LineText) -> ReplyKind
        requires room { most_commands ≤ text.old.left }
        requires few { command_count parts ≤ most_commands }
        ensures answer { IsLineGiven (game_of self.old) (told_parts parts.entry) (state_of self.old) (state_of self.new) text.old.said text.new.said result }
        ensures game { game_of self.new ≡ game_of self.old }
        ensures story { story_of self.new ≡ story_of self.old }
    {
        if self.ending.is_some() {
            return ReplyKind::Over;
        }
        match parts {
            Parts::Blank => self.say(Said::Empty, text).kind,
            Parts::Overlong => self.say(Said::TooLong, text).kind,
            Parts::Commands(first, more) => self.commands(first, more, text),
        }
    }
}
