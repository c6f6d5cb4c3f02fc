//! Playing a session over a reader and a writer.
ghost use Rattle.std.specs.Prelude.{◌≡◌, ◌++◌, ◌∷◌, [], false, true, None, Ok, Some, IfErr, IfOk, OnErr, OnOk};
ghost use Rattle.std.specs.Io.KnownBytes.{Appends, Consumes, IsAtEnd};
ghost use Rattle.world_meaning.specs.Texts.{prompt};
ghost use Rattle.play_meaning.specs.Transcripts.{while_going};
ghost use Rattle.story_player.specs.Breaks.{Blames};
ghost use Rattle.story_player.specs.Runs.{streams};
ghost use Rattle.story_player.specs.SessionRuns.{IsBrokenOff, IsLastPlayed, IsLineBrokenOff, IsLinePlayed, IsPlayed};
ghost use Rattle.story_player.specs.Sessions.{game_of, state_of, story_of};
ghost use Rattle.story_player.specs.Steps.{AnsweredLast, AnsweredTyped, BrokeLast, BrokeTyped, BrokeTyping, IsTyping, ReadsByte, WroteFront, shown};
ghost use Rattle.story_player.specs.Typed.{flushed, nothing_typed, typed_with};
ghost use Rattle.story_player.specs.Watches.{watched_failed, watched_inner};

use crate::fault::RunFault;
use crate::line_text::LineText;
use crate::typed::TypedLine;
use crate::{Session, Watched};
use std::io::{Read, Write};
use world_meaning::Ending;

/// The most bytes of commands that are read.
const MOST_INPUT: u32 = 16_777_216;

/// What stands before each line.
const PROMPT: &[u8] = b"\n>";

/// How a typed line ended.
#[derive(Clone, Copy, PartialEq, Eq)]
enum LineEnd {
    /// With a line break.
    Break,
    /// With the input.
    Input,
}

/// Writes all of the bytes.
#[tactic(auto, using(crate::proofs::Writes::write_steps))]
fn write_whole<W: Write>(writer: &mut Watched<W>, bytes: &[u8]) -> Result<(), RunFault>
    requires writer { watched_failed writer.old ≡ false }
    ensures stands { OnOk result (watched_failed writer.new ≡ false) }
    ensures broke { IfErr result (λ fault. (fault ≡ RunFault.Write) × (watched_failed writer.new ≡ true)) }
    ensures wrote { OnOk result (Appends (W.contents (watched_inner writer.old)) (W.contents (watched_inner writer.new)) bytes.now) }
    ensures front { OnErr result (WroteFront (W.contents (watched_inner writer.old)) (W.contents (watched_inner writer.new)) bytes.now) }
{
    let mut rest = bytes;
    while !rest.is_empty() {
        match writer.write(rest) {
            Err(_) => return Err(RunFault::Write),
            Ok(count) => {
                if count == 0 {
                    return Err(RunFault::Write);
                }
                let (_, behind) = rest.split_at(count);
                rest = behind;
            }
        }
    }
    Ok(())
}

/// The next byte of the input, or none at its end.
fn next_byte<R: Read>(reader: &mut Watched<R>) -> Result<Option<u8>, RunFault>
    requires { watched_failed reader.old ≡ false }
    ensures stands { OnOk result (watched_failed reader.new ≡ false) }
    ensures broke { IfErr result (λ fault. (fault ≡ RunFault.Read) × (watched_failed reader.new ≡ true)) }
    ensures read { IfOk result (ReadsByte (R.remaining (watched_inner reader.old)) (R.remaining (watched_inner reader.new))) }
    ensures kept { OnErr result (Consumes (R.remaining (watched_inner reader.old)) (R.remaining (watched_inner reader.new)) []) }
{
    let mut byte = [0u8; 1];
    match reader.read(&mut byte) {
        Err(_) => Err(RunFault::Read),
        Ok(count) => Ok(if count == 0 { None } else { Some(byte[0]) }),
    }
}

/// Writes the bytes of a command, if commands are echoed.
fn echo_bytes<W: Write>(writer: &mut Watched<W>, bytes: &[u8], echo: bool) -> Result<(), RunFault>
    requires writer { watched_failed writer.old ≡ false }
    ensures stands { OnOk result (watched_failed writer.new ≡ false) }
    ensures broke { IfErr result (λ fault. (fault ≡ RunFault.Write) × (watched_failed writer.new ≡ true)) }
    ensures wrote { OnOk result (Appends (W.contents (watched_inner writer.old)) (W.contents (watched_inner writer.new)) (shown echo bytes.now)) }
    ensures front { OnErr result (WroteFront (W.contents (watched_inner writer.old)) (W.contents (watched_inner writer.new)) (shown echo bytes.now)) }
{
    if echo {
        write_whole(writer, bytes)
    } else {
        Ok(())
    }
}

/// Keeps one more byte of the line; bytes that find no room any more are written before it.
fn keep_byte<W: Write>(
    writer: &mut Watched<W>,
    line: &mut TypedLine,
    byte: u8,
    echo: bool,
) -> Result<(), RunFault>
    requires writer { watched_failed writer.old ≡ false }
    ensures stands { OnOk result (watched_failed writer.new ≡ false) }
    ensures broke { IfErr result (λ fault. (fault ≡ RunFault.Write) × (watched_failed writer.new ≡ true)) }
    ensures kept { OnOk result (line.new ≡ typed_with line.old byte) }
    ensures wrote { OnOk result (Appends (W.contents (watched_inner writer.old)) (W.contents (watched_inner writer.new)) (shown echo (flushed line.old))) }
    ensures front { OnErr result (WroteFront (W.contents (watched_inner writer.old)) (W.contents (watched_inner writer.new)) (shown echo (flushed line.old))) }
{
    if line.is_full() {
        echo_bytes(writer, line.kept(), echo)?;
        line.let_go();
    }
    line.push(byte);
    Ok(())
}

/// Reads a line up to its line break, or to the end of the input, when `left` more bytes may be read.
fn type_line<R: Read, W: Write>(
    reader: &mut Watched<R>,
    writer: &mut Watched<W>,
    line: &mut TypedLine,
    left: &mut u32,
    echo: bool,
) -> Result<LineEnd, RunFault>
    requires reader { watched_failed reader.old ≡ false }
    requires writer { watched_failed writer.old ≡ false }
    requires fresh { line.old ≡ nothing_typed }
    ensures stand { OnOk result ((watched_failed reader.new ≡ false) × (watched_failed writer.new ≡ false)) }
    ensures broke { IfErr result (λ fault. Blames fault (watched_failed reader.new) (watched_failed writer.new)) }
    ensures whole { result ≡ Ok LineEnd.Break → IsTyping echo left.old left.new
        (streams R.remaining W.contents reader.old writer.old)
        (streams R.remaining W.contents reader.new writer.new)
        line.new (10 ∷ []) }
    ensures last { result ≡ Ok LineEnd.Input → IsTyping echo left.old left.new
        (streams R.remaining W.contents reader.old writer.old)
        (streams R.remaining W.contents reader.new writer.new)
        line.new [] }
    ensures ends { result ≡ Ok LineEnd.Input → IsAtEnd (R.remaining (watched_inner reader.new)) }
    ensures cut { IfErr result (λ fault. BrokeTyping fault echo left.old
        (streams R.remaining W.contents reader.old writer.old)
        (streams R.remaining W.contents reader.new writer.new)
        ) }
{
    while let Some(byte) = next_byte(reader)? {
        if *left == 0 {
            return Err(RunFault::InputTooLong);
        }
        *left -= 1;
        if byte == b'\n' {
            return Ok(LineEnd::Break);
        }
        keep_byte(writer, line, byte, echo)?;
    }
    Ok(LineEnd::Input)
}

/// Writes the rest of a line's echo, if commands are echoed, and the session's text.
#[tactic(auto, using(crate::proofs::Writes::write_steps))]
fn tell<W: Write>(
    writer: &mut Watched<W>,
    line: &TypedLine,
    text: &[u8],
    echo: bool,
) -> Result<(), RunFault>
    requires writer { watched_failed writer.old ≡ false }
    ensures stands { OnOk result (watched_failed writer.new ≡ false) }
    ensures broke { IfErr result (λ fault. (fault ≡ RunFault.Write) × (watched_failed writer.new ≡ true)) }
    ensures wrote { OnOk result (Appends (W.contents (watched_inner writer.old)) (W.contents (watched_inner writer.new)) (shown echo (line.now.kept ++ 10 ∷ []) ++ text.now)) }
    ensures front { OnErr result (WroteFront (W.contents (watched_inner writer.old)) (W.contents (watched_inner writer.new)) (shown echo (line.now.kept ++ 10 ∷ []) ++ text.now)) }
{
    echo_bytes(writer, line.kept(), echo)?;
    echo_bytes(writer, b"\n", echo)?;
    write_whole(writer, text)
}

/// Answers a line: its echo, if commands are echoed, and the session's text, for which there is room that the line before it had.
fn answer<W: Write>(
    writer: &mut Watched<W>,
    session: &mut Session,
    line: &TypedLine,
    text: &mut LineText,
    echo: bool,
) -> Result<(), RunFault>
    requires writer { watched_failed writer.old ≡ false }
    ensures stands { OnOk result (watched_failed writer.new ≡ false) }
    ensures broke { IfErr result (λ fault. (fault ≡ RunFault.Write) × (watched_failed writer.new ≡ true)) }
    ensures game { game_of session.new ≡ game_of session.old }
    ensures story { story_of session.new ≡ story_of session.old }
    ensures answered { OnOk result (AnsweredTyped (game_of session.old) echo (state_of session.old) line.now
        (W.contents (watched_inner writer.old)) (W.contents (watched_inner writer.new)) (state_of session.new)) }
    ensures front { OnErr result (BrokeTyped (game_of session.old) echo (state_of session.old) line.now
        (W.contents (watched_inner writer.old)) (W.contents (watched_inner writer.new)) (state_of session.new)) }
{
    let _ = session.typed(line.typed(), text);
    tell(writer, line, text.as_slice(), echo)
}

/// Writes the prompt, unless the session is over.
fn prompt<W: Write>(writer: &mut Watched<W>, session: &Session) -> Result<(), RunFault>
    requires writer { watched_failed writer.old ≡ false }
    ensures stands { OnOk result (watched_failed writer.new ≡ false) }
    ensures broke { IfErr result (λ fault. (fault ≡ RunFault.Write) × (watched_failed writer.new ≡ true)) }
    ensures wrote { OnOk result (Appends (W.contents (watched_inner writer.old)) (W.contents (watched_inner writer.new)) (while_going (state_of session.now).ending prompt)) }
    ensures front { OnErr result (WroteFront (W.contents (watched_inner writer.old)) (W.contents (watched_inner writer.new)) (while_going (state_of session.now).ending prompt)) }
{
    if session.ending().is_none() {
        write_whole(writer, PROMPT)
    } else {
        Ok(())
    }
}

/// Answers the line that the input's end cut off, if there is one.
#[tactic(auto, using(crate::proofs::Writes::write_steps))]
fn answer_last<W: Write>(
    writer: &mut Watched<W>,
    session: &mut Session,
    line: &TypedLine,
    text: &mut LineText,
    echo: bool,
) -> Result<(), RunFault>
    requires writer { watched_failed writer.old ≡ false }
    ensures stands { OnOk result (watched_failed writer.new ≡ false) }
    ensures broke { IfErr result (λ fault. (fault ≡ RunFault.Write) × (watched_failed writer.new ≡ true)) }
    ensures game { game_of session.new ≡ game_of session.old }
    ensures story { story_of session.new ≡ story_of session.old }
    ensures answered { OnOk result (AnsweredLast (game_of session.old) echo (state_of session.old) line.now
        (W.contents (watched_inner writer.old)) (W.contents (watched_inner writer.new)) (state_of session.new)) }
    ensures front { OnErr result (BrokeLast (game_of session.old) echo (state_of session.old) line.now
        (W.contents (watched_inner writer.old)) (W.contents (watched_inner writer.new)) (state_of session.new)) }
{
    if line.is_empty() {
        return Ok(());
    }
    answer(writer, session, line, text, echo)?;
    prompt(writer, session)
}

/// Plays one line: a prompt, an echo if commands are echoed, and an answer.
fn play_line<R: Read, W: Write>(
    reader: &mut Watched<R>,
    writer: &mut Watched<W>,
    session: &mut Session,
    text: &mut LineText,
    left: &mut u32,
    echo: bool,
) -> Result<LineEnd, RunFault>
    requires reader { watched_failed reader.old ≡ false }
    requires writer { watched_failed writer.old ≡ false }
    requires going { (state_of session.old).ending ≡ None }
    ensures stand { OnOk result ((watched_failed reader.new ≡ false) × (watched_failed writer.new ≡ false)) }
    ensures broke { IfErr result (λ fault. Blames fault (watched_failed reader.new) (watched_failed writer.new)) }
    ensures game { game_of session.new ≡ game_of session.old }
    ensures story { story_of session.new ≡ story_of session.old }
    ensures whole { result ≡ Ok LineEnd.Break → IsLinePlayed echo left.old left.new session.old session.new
        (streams R.remaining W.contents reader.old writer.old)
        (streams R.remaining W.contents reader.new writer.new) }
    ensures last { result ≡ Ok LineEnd.Input → IsLastPlayed echo left.old left.new session.old session.new
        (streams R.remaining W.contents reader.old writer.old)
        (streams R.remaining W.contents reader.new writer.new) }
    ensures cut { IfErr result (λ fault. IsLineBrokenOff fault echo left.old session.old session.new
        (streams R.remaining W.contents reader.old writer.old)
        (streams R.remaining W.contents reader.new writer.new)) }
{
    prompt(writer, session)?;
    let mut line = TypedLine::new();
    let end = type_line(reader, writer, &mut line, left, echo)?;
    match end {
        LineEnd::Break => {
            line.drop_return();
            answer(writer, session, &line, text, echo)?;
        }
        LineEnd::Input => answer_last(writer, session, &line, text, echo)?,
    }
    Ok(end)
}

/// Plays the session: writes its opening, then a prompt, an echo (if asked) and an answer for each
/// line that is read, until the session or the input ends. Each whole line is answered before more is
/// read. Takes no memory but that of the session's lines.
pub fn run<R: Read, W: Write>(
    reader: &mut Watched<R>,
    writer: &mut Watched<W>,
    session: &mut Session,
    echo: bool,
) -> Result<Ending, RunFault>
    requires reader { watched_failed reader.old ≡ false }
    requires writer { watched_failed writer.old ≡ false }

    // A run that comes to its end has written the play of the reader's commands.
    ensures played { OnOk result (IsPlayed echo session.old session.new
        (streams R.remaining W.contents reader.old writer.old)
        (streams R.remaining W.contents reader.new writer.new)) }
    ensures ended { IfOk result (λ ending. (state_of session.new).ending ≡ Some ending) }

    // A run that breaks off has written a front of it.
    ensures cut { IfErr result (λ fault. IsBrokenOff fault echo session.old session.new
        (streams R.remaining W.contents reader.old writer.old)
        (streams R.remaining W.contents reader.new writer.new)) }

    // It breaks off with the reader's fault exactly where the reader has failed, with the writer's
    // exactly where the writer has.
    ensures stand { OnOk result ((watched_failed reader.new ≡ false) × (watched_failed writer.new ≡ false)) }
    ensures broke { IfErr result (λ fault. Blames fault (watched_failed reader.new) (watched_failed writer.new)) }
    ensures game { game_of session.new ≡ game_of session.old }
    ensures story { story_of session.new ≡ story_of session.old }
{
    let mut left = MOST_INPUT;
    let mut text = LineText::new(session.alloc);
    write_whole(writer, session.opening())?;
    while session.ending().is_none() {
        match play_line(reader, writer, session, &mut text, &mut left, echo)? {
            LineEnd::Break => {}
            LineEnd::Input => return Ok(session.end_input()),
        }
    }
    Ok(session.end_input())
}
