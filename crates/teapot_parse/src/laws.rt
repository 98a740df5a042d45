ghost use Rattle.std.specs.Prelude.{◌≡◌, ℕ, List};
ghost use Rattle.tw_lex.specs.declared.token.Line.{Line};
ghost use Rattle.teapot_tree.specs.declared.protocol.Protocol.{Protocol};
ghost use Rattle.teapot_tree.specs.Grammar.{IsTree};
ghost use Rattle.teapot_parse.specs.declared.judge.Kind.{Kind};
ghost use Rattle.teapot_parse.specs.Nesting.{judged};
ghost use Rattle.teapot_parse.specs.Given.{IsGiven, AreTextLines};
ghost use Rattle.teapot_parse.specs.Laws.{Judges, LexedAreTextLines, TextGivesTree};
ghost use Rattle.teapot_parse.specs.declared.reading.ParseError.{ParseError};
ghost use Rattle.teapot_parse.specs.Parsing.{parsed};
ghost use Rattle.teapot_parse.specs.Refusing.{Refuses};

/// Lines nest exactly where they are those of a protocol. Else the line that is named is the first such that the
/// lines up to it are the front of no list that nests, or only the end is missing.
pub fn lines_nest()
    ensures { (ks : List Kind) → Judges ks (judged ks) }
{}

/// Lines that spell the forms of a tree of the grammar, in the order of the tree, are read as that tree.
pub fn given_lines_are_read()
    ensures { (lines : List Line) (p : Protocol) (after : ℕ) → IsTree p → IsGiven lines p → parsed lines after ≡ Ok p }
{}

/// What is read from the lines of a text is a tree of the grammar, and the lines spell its forms in its order.
pub fn read_trees_are_given()
    ensures { (lines : List Line) (p : Protocol) (after : ℕ) → AreTextLines lines → parsed lines after ≡ Ok p →
        IsTree p × IsGiven lines p }
{}

/// What each refusal says: the first line of no form; else the first line up to which the lines are the front of no
/// list that nests, or that only the end is missing; else the first line behind whose front a count passes its limit.
pub fn refusals_are_first()
    ensures { (lines : List Line) (after : ℕ) (e : ParseError) → parsed lines after ≡ Err e → Refuses lines after e }
{}

/// Where what a refusal says holds, it is the answer: so at most one refusal fits, and none where a protocol is read.
pub fn refusals_are_exact()
    ensures { (lines : List Line) (after : ℕ) (e : ParseError) → Refuses lines after e → parsed lines after ≡ Err e }
{}

/// The lines that the lexer finds in a text are lines as they stand in a text: each word is a letter or `_` and then
/// letters, digits and `_`, at most 64 bytes.
pub fn texts_have_text_lines()
    ensures { LexedAreTextLines }
{}

/// Lines of a text that follow each other and are read, as those of a section, give a tree of the grammar, and they
/// spell its forms in its order.
pub fn texts_give_trees()
    ensures { TextGivesTree }
{}
