//! What holds of the ends of runs of bodies' codes.
ghost use Rattle.std.specs.Prelude.{◌≡◌, ℕ, ◌+◌, ◌<◌, ◌≤◌, List, [], Option};
ghost use Rattle.play_meaning.specs.Acting.{act, inner_of};
ghost use Rattle.play_meaning.specs.CodedStories.{CodedStory, game_of_codes};
ghost use Rattle.play_meaning.specs.Codes.{Codes, body_done, code_of, most_steps, start_at};
ghost use Rattle.play_meaning.specs.Consulting.{consult};
ghost use Rattle.play_meaning.specs.Doing.{Inner};
ghost use Rattle.play_meaning.specs.Games.{Game};
ghost use Rattle.play_meaning.specs.Machines.{Frame, Goes, State, Step, run, step};
ghost use Rattle.play_meaning.specs.Progress.{Progress, most_work};
ghost use Rattle.play_meaning.specs.Saying.{Telling};
ghost use Rattle.play_meaning.specs.SoundCodes.{IsSound};
ghost use Rattle.play_meaning.specs.Stands.{StandsBy};
ghost use Rattle.play_meaning.specs.declared.action.ActionNow.{ActionNow};
ghost use Rattle.play_meaning.specs.declared.instruction.Instruction.{Instruction};
ghost use Rattle.play_meaning.specs.declared.operand.Counts.{Counts};
ghost use Rattle.play_meaning.specs.declared.operand.Use.{Use};
ghost use Rattle.play_meaning.specs.declared.operand.Use.TheVariants.{Body};
ghost use Rattle.action_stages.specs.Lowering.{AskedBetween, BodiesLowerNoWork, DoneBetween, HasSoundBodies};
ghost use Rattle.action_stages.specs.Measures.{Gives, HasEnded, IsBetween, IsOver, LowersNoWork, outcome_from, steps_left};

/// A sound body's run comes to an end: by itself, or because play is abandoned, within the steps that a story's game gives
/// it, and from wherever it may stand within the steps that are left. What is tried and followed in it lowers no work, and
/// then the body lowers none.
pub fn sound_bodies_end()
    ensures begun { (z : Counts) (code : List Instruction) → IsSound z Body code → (f : Frame) (p : Progress) → LowersNoWork f.inner → p.work ≤ most_work
        → HasEnded p.work (run f code (most_steps code) (start_at [] p)) }
    ensures anywhere { (z : Counts) (code : List Instruction) (sound : IsSound z Body code) (f : Frame) (n : ℕ) (s : State) → LowersNoWork f.inner → s.progress.work ≤ most_work
        → StandsBy sound s → steps_left code s ≤ n → HasEnded s.progress.work (run f code n s) }
{}

/// Behind each step of a sound code that leads on fewer steps are left than before it, if it lowers no work; and it lowers
/// none, if what is tried and followed doesn't. A run begins with no more left than a body's run is given.
pub fn each_step_is_nearer_the_end()
    ensures falls { (z : Counts) (role : Use) (code : List Instruction) (sound : IsSound z role code) (f : Frame) (s t : State)
        → StandsBy sound s → step f code s ≡ Goes t → s.progress.work ≤ t.progress.work → t.progress.work ≤ most_work → steps_left code t < steps_left code s }
    ensures works { (f : Frame) (code : List Instruction) (s t : State) → LowersNoWork f.inner → s.progress.work ≤ most_work → step f code s ≡ Goes t
        → IsBetween s.progress.work t.progress }
    ensures starts { (z : Counts) (code : List Instruction) → IsSound z Body code → (loops : List (Option ℕ)) (p : Progress) → steps_left code (start_at loops p) ≤ most_steps code }
{}

/// What a sound body's run comes to with the steps that are left is the same from step to step, from its start on up to the
/// step that ends it; and more steps change nothing where a run has left off.
pub fn runs_keep_their_outcome()
    ensures starts { (z : Counts) (code : List Instruction) → IsSound z Body code → (f : Frame) (p : Progress) → LowersNoWork f.inner → p.work ≤ most_work
        → run f code (most_steps code) (start_at [] p) ≡ outcome_from f code (start_at [] p) }
    ensures enough { (z : Counts) (code : List Instruction) (sound : IsSound z Body code) (f : Frame) (n : ℕ) (s : State) → LowersNoWork f.inner → s.progress.work ≤ most_work
        → StandsBy sound s → steps_left code s ≤ n → run f code n s ≡ outcome_from f code s }
    ensures goes_on { (z : Counts) (code : List Instruction) (sound : IsSound z Body code) (f : Frame) (s t : State) → LowersNoWork f.inner → s.progress.work ≤ most_work
        → StandsBy sound s → step f code s ≡ Goes t → outcome_from f code s ≡ outcome_from f code t }
    ensures ends { (z : Counts) (code : List Instruction) (sound : IsSound z Body code) (f : Frame) (s : State) (came : Step)
        → StandsBy sound s → step f code s ≡ came → IsOver came → outcome_from f code s ≡ came }
    ensures longer { (f : Frame) (code : List Instruction) (n m : ℕ) (s : State) → IsOver (run f code n s) → run f code (n + m) s ≡ run f code n s }
{}

/// In a story's game whose rules have sound bodies nothing that is tried or followed lowers the work, at no depth; nor does
/// an action, a rulebook or a rule's body that is done over such.
pub fn stories_lower_no_work()
    ensures inner { (k : CodedStory) (depth : ℕ) → HasSoundBodies k → LowersNoWork (inner_of (game_of_codes k) depth) }
    ensures bodies { (k : CodedStory) → HasSoundBodies k → BodiesLowerNoWork (game_of_codes k) }
    ensures codes { (z : Counts) (c : Codes) (t : Telling) (inner : Inner) (n : ℕ) (now : ActionNow) (p : Progress) → IsSound z Body (code_of c n) → LowersNoWork inner → p.work ≤ most_work
        → Gives (DoneBetween p.work) (body_done c t inner n now p) }
    ensures actions { (g : Game) (inner : Inner) (now : ActionNow) (p : Progress) → BodiesLowerNoWork g → LowersNoWork inner → p.work ≤ most_work
        → Gives (AskedBetween p.work) (act g inner now p) }
    ensures rulebooks { (g : Game) (inner : Inner) (book : ℕ) (now : ActionNow) (p : Progress) → BodiesLowerNoWork g → LowersNoWork inner → p.work ≤ most_work
        → Gives (AskedBetween p.work) (consult g inner book now p) }
{}
