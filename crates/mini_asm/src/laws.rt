ghost use Rattle.std.specs.Prelude.{◌≡◌, ℕ, List, ◌∷◌, ◌++◌, ◌<◌, slice_index, length, false, Ok, Some};
ghost use Rattle.std.specs.List.{filter};
ghost use Rattle.tw_lex.specs.declared.token.Line.{Line};
ghost use Rattle.mini_asm.specs.declared.form.Written.{Written};
ghost use Rattle.mini_asm.specs.declared.instr.Instr.{Instr};
ghost use Rattle.mini_asm.specs.Assembled.{is_code, place_of, program_of};
ghost use Rattle.mini_asm.specs.Laws.{Pairwise, IsRead, IsCodeOf, StandsAt};
ghost use Rattle.mini_asm.specs.Programs.{has_faa};
ghost use Rattle.mini_asm.specs.Run.{IsInit, IsApart, first_words};

/// Each instruction of a program is its line's, in order, and each jump goes to the place of its label. That place
/// is the number of instructions before the label.
pub fn program_is_what_its_lines_spell()
    ensures lines { (version : ℕ) (lines : List Line) (instrs : List Instr) → program_of version lines ≡ Ok instrs
        → (ws : List Written) × Pairwise (IsRead version) lines ws
        × Pairwise (λ (w : Written) i. IsCodeOf (place_of ws) w.form i) (filter is_code ws) instrs }
    ensures places { (ws : List Written) (name : List ℕ) (place : ℕ) → place_of ws name ≡ Some place → StandsAt ws name place }
{}

/// A word of memory starts at the value that is given for its address, and at 0 where none is given.
pub fn words_at_the_start()
    ensures count { (size : ℕ) (init : List (ℕ × ℕ)) → length (first_words size init) ≡ size }
    ensures given { (size address value : ℕ) (before after : List (ℕ × ℕ)) → IsInit size (before ++ (address, value) ∷ after) →
        slice_index (first_words size (before ++ (address, value) ∷ after)) address ≡ value }
    ensures others { (size address : ℕ) (init : List (ℕ × ℕ)) → IsApart address init →
        slice_index (first_words size init) address ≡ 0 }
{}

/// A program that is read as one of the first version has no fetch-and-add.
pub fn programs_are_of_their_version()
    ensures { (version : ℕ) (lines : List Line) (instrs : List Instr) → program_of version lines ≡ Ok instrs → version < 2 →
        has_faa instrs ≡ false }
{}
