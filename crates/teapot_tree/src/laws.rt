ghost use Rattle.std.specs.Prelude.{◌≡◌, ℕ, List};
ghost use Rattle.teapot_tree.specs.declared.protocol.Protocol.{Protocol};
ghost use Rattle.teapot_tree.specs.declared.rule.Rule.{Rule};
ghost use Rattle.teapot_tree.specs.declared.stmt.Stmt.{Stmt};
ghost use Rattle.teapot_tree.specs.Bodies.{Body, body_of, tree_of};
ghost use Rattle.teapot_tree.specs.Rules.{IsFirstBreak};

/// Lists of statements are bodies, written another way.
pub fn trees()
    ensures tree { (ss : List Stmt) → tree_of (body_of ss) ≡ ss }
    ensures body { (b : Body) → body_of (tree_of b) ≡ b }
{}

/// There is at most one first break.
pub fn one_first_break()
    ensures { (p : Protocol) (line l : ℕ) (rule r : Rule) → IsFirstBreak p line rule → IsFirstBreak p l r →
        (line ≡ l) × (rule ≡ r) }
{}
