ghost use Rattle.std.specs.Prelude.{◌≡◌, ℕ, ◌+◌, ◌≤◌, ◌++◌, ◌∷◌, List, length, drop, slice_get, Some};
ghost use Rattle.mini_asm.specs.declared.instr.Instr.{Instr};
ghost use Rattle.mini_asm.specs.Programs.{IsProgram};
ghost use Rattle.blizzard_guard.specs.declared.guarding.GuardOp.TheVariants.{Do};
ghost use Rattle.blizzard_guard.specs.Guarding.{check_of, first_op, moved, guarded, plain_place, plain_of};

/// A guarded program stands for the program that it was made of. The first op of an instruction has its place; there
/// stand its check, if it is an access, and the instruction itself, and then the ops of the next.
pub fn guarded_programs_are_plain()
    ensures plain { (p : List Instr) → IsProgram p → plain_of (guarded p) ≡ p }
    ensures places { (p : List Instr) (k : ℕ) → k ≤ length p → plain_place (guarded p) (first_op p k) ≡ k }
    ensures checked { (p : List Instr) (k : ℕ) (i : Instr) → slice_get p k ≡ Some i
        → drop (first_op p k) (guarded p).ops ≡ check_of i ++ Do (moved (first_op p) i) ∷ drop (first_op p (k + 1))
        (guarded p).ops }
{}
