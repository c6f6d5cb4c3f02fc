//! What holds of every line that is cut into commands.
ghost use Rattle.std.specs.Prelude.{◌≡◌, ℕ, List, [], ◌∷◌, ◌++◌, codes, fold, replicate};
ghost use Rattle.play_meaning.specs.CommandLines.{Blank, Commands, Overlong, commands_of, parts_of};
ghost use Rattle.command_parser.specs.Scanning.{holds_command, is_there, scan_with};
ghost use Rattle.command_parser.specs.declared.command_scan.CommandScan.TheVariants.{Cut};

/// Bytes that are read one by one are known to hold a command just where their line has one.
pub fn scans_tell_commands()
    ensures { (bytes : List ℕ) → holds_command (fold scan_with Cut bytes) ≡ is_there (commands_of bytes) }
{}

/// Where lines are cut.
pub fn lines_are_cut()
    ensures stop_and_then { commands_of (codes "look.then.look") ≡ (codes "look" ∷ []) ∷ (codes "look" ∷ []) ∷ [] }
    ensures behind_stop { commands_of (codes "drop all. look") ≡ (codes "drop" ∷ codes "all" ∷ []) ∷ (codes "look" ∷ []) ∷ [] }
    ensures blank { commands_of (codes ". then .") ≡ [] }
    ensures any_case { commands_of (codes "take ball THEN x it") ≡ (codes "take" ∷ codes "ball" ∷ []) ∷ (codes "x" ∷ codes "it" ∷ []) ∷ [] }
    ensures whole_word { commands_of (codes "take then-ball") ≡ (codes "take" ∷ codes "then-ball" ∷ []) ∷ [] }
    ensures no_word { parts_of [] ≡ Blank }
    ensures one { parts_of (codes "look") ≡ Commands (codes "look" ∷ []) [] }
    ensures blank_however_long { parts_of (replicate 300 46) ≡ Blank }
    ensures overlong { parts_of (codes "look" ++ replicate 300 46) ≡ Overlong }
{}
