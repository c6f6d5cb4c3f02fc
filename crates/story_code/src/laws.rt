//! What is known of codes and their bytes.
ghost use Rattle.story_code.specs.FittingRows.{FittingRows};
ghost use Rattle.story_code.specs.Laws.{BodiesAreSound, BodiesBeginStanding, ConditionsAreSound, DescriptionsAreSound, DescriptionsSayTheirTexts, EmittedBytesAreSound, OneCode, RunsBeginStanding, RunsStandBehindAnyWork, SoundCodesStandRightly};
ghost use Rattle.story_code.specs.Soundness.{IsSoundCode};

use crate::verified::Verified;

/// No bytes spell two codes.
pub fn one_code()
    ensures { OneCode }
{}

/// Bytes that were kept are a sound code.
pub fn verified_code_is_sound(code: &Verified)
    ensures { IsSoundCode code.now.sizes code.now.bytes }
{
    let _ = &code.bytes;
}

/// A run of a test or a description may be read from its beginning, if no loop is open around the code; one of a body may
/// be run from there, and wherever it may be, whatever work was done.
pub fn runs_begin_standing()
    ensures reads { RunsBeginStanding }
    ensures does { BodiesBeginStanding }
    ensures work { RunsStandBehindAnyWork }
{}

/// What is emitted of a body, a condition or a description that fits a story is sound, and so is each test that it names,
/// for the use that it is named for: whatever number the first of them has, if it comes behind the code's own and all are
/// numbers of codes.
pub fn emitted_codes_are_sound()
    ensures bodies { BodiesAreSound }
    ensures conditions { ConditionsAreSound }
    ensures descriptions { DescriptionsAreSound }
{}

/// The code of a description that fits a story, among the codes of that story, says what the description's text says, in
/// every world and action, or abandons as it does: whatever numbers the story gives to the strings that it says and to the
/// tests that it names.
pub fn descriptions_say_their_texts()
    ensures { DescriptionsSayTheirTexts }
{}

/// Where what is emitted is sound and bytes say it, these are sound codes; and in a story that holds them, each by its
/// number and for its use, they stand rightly among its codes.
pub fn emitted_bytes_are_sound()
    ensures bytes { EmittedBytesAreSound }
    ensures together { SoundCodesStandRightly }
{}

/// What fits a small story and what doesn't.
pub fn rows_of_fitting()
    ensures { FittingRows }
{}
