//! The strings that codes name, counted.
ghost use Rattle.std.specs.Prelude.{◌≡◌, map};
ghost use Rattle.play_meaning.specs.TranslatedScripts.{in_list};
ghost use Rattle.story_code.specs.Fronts.{code_in};
ghost use Rattle.story_code.specs.Runs.{code_told};
ghost use Rattle.code_table.specs.Growing.{count_code};
ghost use Rattle.code_table.specs.Strings.{counted_on, string_named, strings_of};

use play_meaning::Instruction;
use story_code::{Verified, first, size, verified_code_is_sound};

/// The string that an instruction names.
fn string_named(instruction: Instruction) -> Option<u16>
    ensures { result ≡ string_named instruction }
{
    match instruction {
        Instruction::Say(string) | Instruction::EndStory(string) => Some(string),
        _ => None,
    }
}

/// How many strings there are with the one that an instruction names, if it is among them or the next.
fn count_string(next: usize, instruction: Instruction) -> Option<usize>
    ensures { result ≡ counted_on next (in_list (string_named instruction)) }
{
    let Some(string) = string_named(instruction) else {
        return Some(next);
    };
    let string = usize::from(string);
    if string > next {
        return None;
    }
    Some(next.max(string + 1))
}

/// How many there are with those that a code names.
fn count_code(next: usize, code: &[u8]) -> Option<usize>
    ensures { result ≡ count_code next (code_in code.now) }
{
    let mut count = next;
    let mut rest = code;
    while let Some(instruction) = first(rest) {
        match count_string(count, instruction) {
            Some(more) => count = more,
            None => return None,
        }
        let (_, after) = rest.split_at(size(instruction));
        rest = after;
    }
    if !rest.is_empty() {
        return None;
    }
    Some(count)
}

/// How many strings there are, if there are so many in front of those that the codes name, in order, and each of these is
/// among those so far or is the next; none at the first that is neither. Takes time in the codes' bytes, and no memory.
pub fn strings_counted(next: usize, codes: &[Verified]) -> Option<usize>
    ensures { result ≡ counted_on next (strings_of (map code_told codes.now)) }
{
    let mut count = next;
    let mut rest = codes;
    while let [code, after @ ..] = rest {
        verified_code_is_sound(code);
        match count_code(count, code.bytes()) {
            Some(more) => count = more,
            None => return None,
        }
        rest = after;
    }
    Some(count)
}
