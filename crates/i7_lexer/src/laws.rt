//! What follows from the definitions alone: each function proves the law that is its contract.
ghost use Rattle.std.specs.Prelude.{◌≡◌, ◌≢◌, ◌⊎◌, ℕ, ◌+◌, List, ◌++◌};
ghost use Rattle.i7_lexer.specs.Bytes.{newlines};
ghost use Rattle.i7_lexer.specs.Lexemes.{IsCut};
ghost use Rattle.i7_lexer.specs.Places.{at_front, after_all};
ghost use Rattle.i7_lexer.specs.Texts.{IsFolded, folded};
ghost use Rattle.i7_lexer.specs.declared.lexeme.Lexeme.{Lexeme};
ghost use Rattle.i7_lexer.specs.Readings.{HasTokens};
ghost use Rattle.i7_lexer.specs.Refusals.{IsRefused};
ghost use Rattle.i7_lexer.specs.Rising.{LinesRise};
ghost use Rattle.i7_lexer.specs.declared.token.Token.{Token};
ghost use Rattle.world_meaning.specs.declared.fault.Fault.{Fault};
ghost use Rattle.world_meaning.specs.declared.fault.FaultCode.TheVariants.{Memory};

/// No source spells two lists of tokens.
pub fn one_reading()
    ensures { (source : List ℕ) (v w : List Token) → HasTokens source v → HasTokens source w → v ≡ w }
{}

/// The place behind some lexemes of a text is on the line that the line feeds before it count.
pub fn lines_are_counted()
    ensures { (lexemes : List Lexeme) (front rest : List ℕ) → IsCut lexemes (front ++ rest) rest
        → (after_all at_front lexemes).line ≡ 1 + newlines front }
{}

/// The lines of the tokens of a source rise: none is lower than that of a token before.
pub fn token_lines_rise()
    ensures { (source : List ℕ) (tokens : List Token) → HasTokens source tokens → LinesRise (λ t. t.line) tokens }
{}

/// A text is read as its bytes and its runs of white space say, and in no other way.
pub fn texts_are_folded()
    ensures reads { (bytes : List ℕ) → IsFolded bytes (folded bytes) }
    ensures alone { (bytes text : List ℕ) → IsFolded bytes text → text ≡ folded bytes }
{}

/// No source is refused in two ways, memory aside.
pub fn one_refusal()
    ensures { (source : List ℕ) (f g : Fault) → IsRefused source f → IsRefused source g
        → f.code ≢ Memory → g.code ≢ Memory → (f.code ≡ g.code) × (f.line ≡ g.line) }
{}

/// Each source spells tokens or is refused for another reason than memory, and none both.
pub fn spelled_or_refused()
    ensures one { (source : List ℕ) → ((tokens : List Token) × HasTokens source tokens)
        ⊎ ((fault : Fault) × ((fault.code ≢ Memory) × IsRefused source fault)) }
    ensures never_both { (source : List ℕ) (tokens : List Token) (fault : Fault) → HasTokens source tokens
        → IsRefused source fault → fault.code ≡ Memory }
{}
