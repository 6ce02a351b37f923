//! Facts about all answers of the text tool. Each law is a function with an empty body, whose contract is the fact.
ghost use Rattle.std.specs.Prelude.{ℕ, List, All};
ghost use Rattle.ipnet.specs.declared.parser.Grammar.{Grammar};
ghost use Rattle.ipnet.specs.Lines.{lines_of, IsGoodLine};
ghost use Rattle.ipnet_tool.specs.Answers.{IsAnswerTo};

/// A text with an answer has no bad line: each of its lines is empty or a network.
pub fn answered_texts_have_no_bad_line()
    ensures { (grammar : Grammar) (text answer : List ℕ) → IsAnswerTo grammar text answer
        → All (IsGoodLine grammar) (lines_of text) }
{}
