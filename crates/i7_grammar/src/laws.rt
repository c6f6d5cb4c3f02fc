//! Laws about what sentences tell commands and words to mean.
ghost use Rattle.std.specs.Prelude.{◌≡◌, List};
ghost use Rattle.i7_sentences.specs.declared.sentence.Sentence.{Sentence as Said};
ghost use Rattle.i7_grammar.specs.Grammars.{IsGrammarFound, grammar_meant};
ghost use Rattle.i7_grammar.specs.GrammarFacts.{IsSound};
ghost use Rattle.i7_grammar.specs.Targets.{Known};
ghost use Rattle.i7_grammar.specs.declared.grammar.GrammarFound.{GrammarFound as Found};

/// No sentences have two answers about what commands and words mean.
pub fn one_grammar()
    ensures { (k : Known) (sentences : List Said) (a b : Found) → IsGrammarFound k sentences a → IsGrammarFound k sentences b → grammar_meant a ≡ grammar_meant b }
{}

/// What sentences tell suits the actions and objects, and is within the limits.
pub fn grammar_is_sound()
    ensures { (k : Known) (sentences : List Said) (found : Found) → IsGrammarFound k sentences found → IsSound k (grammar_meant found) }
{}
