//! What the tokens of a text are, as laws about the definition that `lines` answers: each function's contract is one.

ghost use Rattle.tw_lex.specs.Laws.{TokensAreSlices, LinesAreTheTexts, NoLineIsLeftOut, FaultsAreFirst};

/// The tokens of a line are slices of the text in order, each as long as can be, with nothing but blanks between them.
#[tactic(auto, using(crate::proofs::Slices::tokens_are_slices))]
pub fn tokens_are_slices()
    ensures { TokensAreSlices }
{}

/// Each line that is found is a line of the text: its number is one more than the line feeds before it, its tokens are
/// those of its code, and the numbers rise.
#[tactic(auto, using(crate::proofs::LinesFound::lines_are_the_texts))]
pub fn lines_are_the_texts()
    ensures { LinesAreTheTexts }
{}

/// Each line of the text whose code is more than blanks is found.
#[tactic(auto, using(crate::proofs::NoneLeft::no_line_is_left_out))]
pub fn no_line_is_left_out()
    ensures { NoLineIsLeftOut }
{}

/// A fault of a text is that of its first line with a fault, and each line before it has its tokens.
#[tactic(auto, using(crate::proofs::Faults::faults_are_first))]
pub fn faults_are_first()
    ensures { FaultsAreFirst }
{}
