ghost use Rattle.std.specs.Prelude.{◌≡◌, ◌↔◌, ◌<◌, ℕ, Bool, false, List, Option, Some, None};
ghost use Rattle.teapot_tree.specs.declared.protocol.Protocol.{Protocol};
ghost use Rattle.teapot_tree.specs.declared.rule.Rule.{Rule};
ghost use Rattle.teapot_tree.specs.Bodies.{Body};
ghost use Rattle.teapot_tree.specs.Rules.{Breaks, IsFirstBreak, IsAccepted, body_in};
ghost use Rattle.teapot_tree.specs.Scopes.{Scope};
ghost use Rattle.teapot_rules.specs.Deeds.{comes_first, breaks_at};
ghost use Rattle.teapot_tree.specs.Grammar.{IsTree};
ghost use Rattle.teapot_rules.specs.declared.fault.Fault.{Fault};
ghost use Rattle.teapot_rules.specs.Firsts.{first_of_rules, all_rules};
ghost use Rattle.teapot_rules.specs.Faults.{body_lines, lines};
ghost use Rattle.teapot_tree.specs.Paths.{Step, Deed, Path, Follows, NotLast, Sends};
ghost use Rattle.teapot_rules.specs.Lists.{Lists};
ghost use Rattle.teapot_rules.specs.Walks.{follow, not_last, most, walk};

/// Each walk finds what some path meets, and nothing else.
pub fn paths()
    ensures follows { (one other : Deed → Bool) (b : Body) →
        Lists (follow one other b false) (λ line. (p : List Step) × Path b p × Follows one other line p) }
    ensures last { (kind : Deed → Bool) (b : Body) → Lists (not_last kind b false)
        (λ line. (p : List Step) × Path b p × NotLast kind line p) }
    ensures sends { (b : Body) → (32 < most b) ↔ ((n : ℕ) × Sends b n × (32 < n)) }
{}

/// The lines that are found for each rule are those at which it is broken.
pub fn faults()
    ensures { (p : Protocol) (rule : Rule) → Lists (lines p rule) (λ line. Breaks p line rule) }
{}

/// One walk finds the lines of each rule that speaks of statements.
pub fn one_walk()
    ensures { (r : Rule) (c : Scope) → walk (comes_first r) (breaks_at c r) (body_in c) false false ≡ body_lines r c }
{}

/// The first break of a protocol is the first of the least lines of its rules, and a tree of the grammar without such a
/// line is accepted.
pub fn firsts()
    ensures broken { (p : Protocol) (f : Fault) → first_of_rules p all_rules ≡ Some f → IsFirstBreak p f.line f.rule }
    ensures accepted { (p : Protocol) → IsTree p → first_of_rules p all_rules ≡ None → IsAccepted p }
{}
