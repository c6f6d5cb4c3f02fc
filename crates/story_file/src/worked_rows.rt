//! The definitions, computed on worked examples: each function is a law about them alone.
ghost use Rattle.story_file.specs.WorkedRows.{GivesTranscript, IsRefusedEmpty};

/// By the definitions the two-room source has its transcript.
pub fn two_rooms_are_played()
    ensures { GivesTranscript }
{}

/// By the definitions the empty source has no room.
#[tactic(auto, unfolding(i7_kinds::specs::Tales::frame_refusal, i7_claims::specs::Sorts::built_in_kinds, world_meaning::specs::Kinds::built_in_parents, world_meaning::specs::Kinds::is_under))]
pub fn empty_source_is_refused()
    ensures { IsRefusedEmpty }
{}
