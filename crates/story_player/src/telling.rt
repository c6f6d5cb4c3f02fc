//! What is told of a turn: its text with a line break at its end, and a closing line where the story ended, or that it was
//! abandoned.
ghost use Rattle.std.specs.Prelude.{◌≡◌, ◌<◌, ◌≤◌, ◌+◌, ◌++◌, Err, IfErr, IfOk, OnErr, OnOk, length};
ghost use Rattle.std.specs.Option.{option_map};
ghost use Rattle.play_meaning.specs.Sessions.{abandon_text, parted_by_break};
ghost use Rattle.play_meaning.specs.Turns.{completed};
ghost use Rattle.world_meaning.specs.Texts.{closing_text};
ghost use Rattle.world_meaning.specs.declared.session.Abandon.TheVariants.{Memory};
ghost use Rattle.story_player.specs.LineTexts.{longest_fixed};
ghost use Rattle.story_player.specs.Turns.{lacks_break, told_text};

use crate::line_text::LineText;
use crate::texts;
use world_meaning::{Abandon, TextBytes};

/// Adds bytes to what is said.
pub(crate) fn add(text: &mut Vec<u8>, bytes: &[u8]) -> Result<(), Abandon>
    ensures said { OnOk result (text.new.items ≡ text.old.items ++ bytes.now) }
    ensures refused { OnErr result (result ≡ Err Memory) }
{
    match text.extend_from_slice(bytes) {
        Ok(()) => Ok(()),
        Err(_) => Err(Abandon::Memory),
    }
}

/// Adds the line that closes a story with this ending.
fn add_closing(text: &mut Vec<u8>, ending: &[u8]) -> Result<(), Abandon>
    ensures said { OnOk result (text.new.items ≡ text.old.items ++ closing_text ending.now) }
    ensures refused { OnErr result (result ≡ Err Memory) }
{
    add(text, b"\n*** ")?;
    add(text, ending)?;
    add(text, b" ***\n")
}

/// Whether a text says anything and has no line break at its end.
pub(crate) fn lacks_break(text: &[u8]) -> bool
    ensures { result ≡ lacks_break text.now }
{
    if text.is_empty() {
        return false;
    }
    text[text.len() - 1] != b'\n'
}

/// Adds a line break to a text that says anything and has none at its end.
fn complete(text: &mut Vec<u8>) -> Result<(), Abandon>
    ensures text { OnOk result (text.new.items ≡ completed text.old.items) }
    ensures refused { OnErr result (result ≡ Err Memory) }
{
    if lacks_break(text.as_slice()) {
        add(text, b"\n")?;
    }
    Ok(())
}

/// What is told of a text, behind which the story ended so, if it did.
fn told_text(text: Vec<u8>, ending: Option<&[u8]>) -> Result<TextBytes, Abandon>
    ensures text { IfOk result (λ whole. whole ≡ told_text text.items (option_map (λ e. e.now) ending.entry)) }
    ensures refused { IfErr result (λ reason. reason ≡ Memory) }
{
    let mut text = text;
    complete(&mut text)?;
    if let Some(ending) = ending {
        add_closing(&mut text, ending)?;
    }
    Ok(TextBytes::new(text))
}

/// Tells of a text, behind which the story ended so, if it did. Where memory is refused nothing is told.
pub(crate) fn tell(said: Vec<u8>, ending: Option<&[u8]>, text: &mut LineText) -> Result<(), Abandon>
    requires room { 0 < text.old.left }
    ensures said { OnOk result (text.new.said ≡ parted_by_break text.old.said (told_text said.items (option_map (λ e. e.now) ending.entry))) }
    ensures left { OnOk result (text.new.left + 1 ≡ text.old.left) }
    ensures refused { IfErr result (λ reason. reason ≡ Memory) }
    ensures same { OnErr result (text.new ≡ text.old) }
{
    let told = told_text(said, ending)?;
    Ok(text.add_made(told.as_slice())?)
}

/// The line that is said where play is abandoned.
pub(crate) fn abandon_text(reason: Abandon) -> &'static [u8]
    ensures text { result.now ≡ abandon_text reason }
    ensures short { length result.now ≤ longest_fixed }
{
    match reason {
        Abandon::NestedTooDeep => texts::TOO_DEEP,
        Abandon::TooMuchWork => texts::TOO_MUCH_WORK,
        Abandon::NumberOutOfRange => texts::OUT_OF_RANGE,
        Abandon::Memory => texts::OUT_OF_MEMORY,
    }
}
