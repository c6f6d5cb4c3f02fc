//! Light and reach: where what an action needs isn't there, it fails and says so.
ghost use Rattle.std.specs.Prelude.{◌≡◌, ◌||◌, Err, OnErr, OnOk, not};
ghost use Rattle.play_meaning.specs.Acting.{access, asks_holding, asks_sight, asks_touch, fails, first_taking_text, out_of_reach_text, reach, visibility};
ghost use Rattle.play_meaning.specs.Progress.{say};
ghost use Rattle.play_meaning.specs.Seeing.{is_visible};
ghost use Rattle.play_meaning.specs.Truth.{of_some};
ghost use Rattle.world_meaning.specs.declared.session.Abandon.TheVariants.{Memory};
ghost use Rattle.world_store.specs.StorySettings.{setting_of};
ghost use Rattle.world_store.specs.StoryPlay.{game_in_play};
ghost use Rattle.action_stages.specs.Answering.{Answers, asked};

use crate::playing::Playing;
use play_meaning::{ActionNow, Outcome};
use world_meaning::{Abandon, ObjNo, Slot};

/// Whether a noun must be seen.
fn asks_sight(slot: Slot) -> bool
    ensures { result ≡ asks_sight slot }
{
    slot != Slot::Absent
}

/// Whether a noun must be touched.
fn asks_touch(slot: Slot) -> bool
    ensures { result ≡ asks_touch slot }
{
    slot == Slot::Touched || slot == Slot::Carried
}

/// Whether a noun must be held.
pub fn asks_holding(slot: Slot) -> bool
    ensures { result ≡ asks_holding slot }
{
    slot == Slot::Carried
}

/// The action fails, and a text is said.
pub fn fails<P: Playing>(play: &mut P, text: &[u8]) -> Result<Option<Outcome>, Abandon>
    ensures same { P.tables play.new ≡ P.tables play.old }
    ensures kept { P.loaded play.new ≡ P.loaded play.old }
    ensures answer { Answers result (asked (P.progress play.new)) (fails text.now (P.progress play.old)) }
{
    play.say(text)?;
    Ok(Some(Outcome::Failure))
}

/// An action that needs light fails in darkness.
#[tactic(auto, unfolding(play_meaning::specs::Acting::visibility, play_meaning::specs::CodedStories::game_of_codes, world_store::specs::StoryPlay::coded_story))]
pub fn light<P: Playing>(play: &mut P, now: &ActionNow) -> Result<Option<Outcome>, Abandon>
    ensures same { P.tables play.new ≡ P.tables play.old }
    ensures kept { P.loaded play.new ≡ P.loaded play.old }
    ensures answer { Answers result (asked (P.progress play.new)) (visibility (game_in_play (P.tables play.old)) now.now (P.progress play.old)) }
{
    if !play.needs(now.action).light || play.has_light() {
        return Ok(None);
    }
    fails(play, b"It is pitch dark, and you can't see a thing.\n")
}

/// Says that a noun is out of reach; the action fails.
fn out_of_reach<P: Playing>(play: &mut P, noun: &Option<ObjNo>) -> Result<Option<Outcome>, Abandon>
    ensures same { P.tables play.new ≡ P.tables play.old }
    ensures kept { P.loaded play.new ≡ P.loaded play.old }
    ensures answer { Answers result (asked (P.progress play.new)) (fails (out_of_reach_text (setting_of (P.tables play.old)) noun.now) (P.progress play.old)) }
{
    play.say(b"You can't reach ")?;
    play.say_name(noun)?;
    play.say(b".\n")?;
    Ok(Some(Outcome::Failure))
}

/// Says that a noun is taken first.
pub fn say_first_taking<P: Playing>(play: &mut P, noun: &Option<ObjNo>) -> Result<(), Abandon>
    ensures same { P.tables play.new ≡ P.tables play.old }
    ensures kept { P.loaded play.new ≡ P.loaded play.old }
    ensures said { OnOk result (P.progress play.new ≡ say (first_taking_text (setting_of (P.tables play.old)) noun.now) (P.progress play.old)) }
    ensures refused { OnErr result (result ≡ Err Memory) }
{
    play.say(b"(first taking ")?;
    play.say_name(noun)?;
    play.say(b")\n")?;
    Ok(())
}

/// A noun that must be touched is within reach.
fn reach<P: Playing>(
    play: &mut P,
    slot: Slot,
    noun: &Option<ObjNo>,
) -> Result<Option<Outcome>, Abandon>
    ensures same { P.tables play.new ≡ P.tables play.old }
    ensures kept { P.loaded play.new ≡ P.loaded play.old }
    ensures answer { Answers result (asked (P.progress play.new)) (reach (setting_of (P.tables play.old)) slot noun.now (P.progress play.old)) }
{
    if !asks_touch(slot) || play.touches(noun) {
        return Ok(None);
    }
    out_of_reach(play, noun)
}

/// Whether a noun is seen, where it must be.
fn is_seen<P: Playing>(play: &P, slot: Slot, noun: &Option<ObjNo>) -> bool
    ensures { result ≡ (not (asks_sight slot) || of_some noun.now (is_visible (setting_of (P.tables play.now)) (P.progress play.now).world)) }
{
    !asks_sight(slot) || play.sees(noun)
}

/// A noun is seen, and touched, where that is needed.
#[tactic(auto, unfolding(play_meaning::specs::Acting::access))]
pub fn access<P: Playing>(
    play: &mut P,
    slot: Slot,
    noun: &Option<ObjNo>,
) -> Result<Option<Outcome>, Abandon>
    ensures same { P.tables play.new ≡ P.tables play.old }
    ensures kept { P.loaded play.new ≡ P.loaded play.old }
    ensures answer { Answers result (asked (P.progress play.new)) (access (setting_of (P.tables play.old)) slot noun.now (P.progress play.old)) }
{
    if is_seen(play, slot, noun) {
        reach(play, slot, noun)
    } else {
        fails(play, b"You can't see any such thing.\n")
    }
}
