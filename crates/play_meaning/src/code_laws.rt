//! What holds of the codes of trees.
ghost use Rattle.std.specs.Prelude.{◌≡◌, ◌<◌, ℕ, false, List, [], length, Option, Some};
ghost use Rattle.play_meaning.specs.AmongCodes.{IsAmong, IsTestAmong};
ghost use Rattle.play_meaning.specs.Codes.{Codes, RunsTo, start_at, test_of};
ghost use Rattle.play_meaning.specs.Doing.{Inner, do_body};
ghost use Rattle.play_meaning.specs.Instructions.{Instruction, at_place, sizes};
ghost use Rattle.play_meaning.specs.Machines.{Frame, Goes, State, does};
ghost use Rattle.play_meaning.specs.Operands.{Counts, Describing, Test, Use, gives};
ghost use Rattle.play_meaning.specs.Progress.{Progress};
ghost use Rattle.play_meaning.specs.Saying.{Telling};
ghost use Rattle.play_meaning.specs.Scoping.{BodyIsWithin, ConditionIsWithin};
ghost use Rattle.play_meaning.specs.Scripts.{scope_of};
ghost use Rattle.play_meaning.specs.SoundCodes.{IsSound, loops_around};
ghost use Rattle.play_meaning.specs.SoundRuns.{AlwaysAnswers, AlwaysEnds, NeverStuck};
ghost use Rattle.play_meaning.specs.Stands.{Finds, GivesObject, StandsBy, is_body};
ghost use Rattle.play_meaning.specs.Translation.{translated, translated_condition};
ghost use Rattle.play_meaning.specs.Trees.{Body, Condition};
ghost use Rattle.play_meaning.specs.Truth.{truth_in};
ghost use Rattle.play_meaning.specs.Worlds.{World};
ghost use Rattle.play_meaning.specs.declared.action.ActionNow.{ActionNow};

/// The code of a condition answers what the condition is, in every world, or abandons as it does. The condition names the
/// object of no loop.
pub fn tests_mean_their_conditions()
    ensures { (condition : Condition) (t : Telling) (now : ActionNow) (w : World) → ConditionIsWithin 0 condition
        → test_of (translated_condition condition) t now 0 [] w ≡ truth_in t.setting (scope_of now) w condition }
{}

/// The same of a condition's code among the codes of a story, whatever numbers the story gives to the tests that it names.
pub fn tests_mean_among_codes()
    ensures { (condition : Condition) (c : Codes) (n first : ℕ) (t : Telling) (now : ActionNow) (w : World) → ConditionIsWithin 0 condition → IsTestAmong c n first condition
        → test_of c t now n [] w ≡ truth_in t.setting (scope_of now) w condition }
{}

/// A run of a body's code does what the body means: in every world, whatever the actions that it tries and the rulebooks
/// that it follows do, through repeats and choices, up to its end, a decision or what abandons it. The body names the
/// object of no loop that isn't open.
pub fn bodies_run_as_they_mean()
    ensures { (body : Body) (t : Telling) (inner : Inner) (now : ActionNow) (p : Progress) → BodyIsWithin 0 body
        → RunsTo (translated body) t inner 0 now p (do_body t inner body (scope_of now) p) }
{}

/// The same of a body's code among the codes of a story, whatever numbers the story gives to the strings that it says and
/// to the tests that it names.
pub fn bodies_run_among_codes()
    ensures { (body : Body) (c : Codes) (string : List ℕ → ℕ) (n first : ℕ) (t : Telling) (inner : Inner) (now : ActionNow) (p : Progress)
        → BodyIsWithin 0 body → IsAmong c string n first body → RunsTo c t inner n now p (do_body t inner body (scope_of now) p) }
{}

/// A run of a sound code never lacks an instruction or an operand. A sound test answers and a sound description ends, within
/// as many steps as they have bytes, unless a number out of range, or what they call, abandons play.
pub fn sound_codes_run()
    ensures unstuck { (z : Counts) (role : Use) (code : List Instruction) → IsSound z role code → NeverStuck code }
    ensures tests { (z : Counts) (loops : ℕ) (code : List Instruction) → IsSound z (Test loops) code → AlwaysAnswers code }
    ensures descriptions { (z : Counts) (code : List Instruction) → IsSound z Describing code → AlwaysEnds code }
{}

/// What stands where a sound code says so: a run begins so; each instruction then finds its operands, its loops and room
/// for what it gives; and behind it the state stands again, if an object that it gives has an object's number. What is no
/// body goes further on with each instruction, and no state stands behind the code's end.
pub fn runs_stand_where_codes_say()
    ensures begins { (z : Counts) (role : Use) (code : List Instruction) (sound : IsSound z role code) (loops : List (Option ℕ)) (p : Progress)
        → length loops ≡ loops_around role → StandsBy sound (start_at loops p) }
    ensures finds { (z : Counts) (role : Use) (code : List Instruction) (sound : IsSound z role code) (s : State) (i : Instruction)
        → StandsBy sound s → at_place code s.place ≡ Some i → Finds z role i s }
    ensures keeps { (z : Counts) (role : Use) (code : List Instruction) (sound : IsSound z role code) (f : Frame) (s t : State) (i : Instruction)
        → z.objects < 65536 → StandsBy sound s → at_place code s.place ≡ Some i → does f s i ≡ Goes t → GivesObject (gives z i) t.operands → StandsBy sound t }
    ensures ahead { (z : Counts) (role : Use) (code : List Instruction) (sound : IsSound z role code) (f : Frame) (s t : State) (i : Instruction)
        → is_body role ≡ false → StandsBy sound s → at_place code s.place ≡ Some i → does f s i ≡ Goes t → s.place < t.place }
    ensures within { (z : Counts) (role : Use) (code : List Instruction) (sound : IsSound z role code) (s : State) → StandsBy sound s → s.place < sizes code }
{}
