ghost use Rattle.std.specs.Prelude.{◌≡◌, ℕ, true, ◌++◌, ◌≤◌, ◌<◌, List, IfSome};
ghost use Rattle.teapot_tree.specs.declared.expr.Expr.{Expr};
ghost use Rattle.teapot_lines.specs.declared.form.Form.{Form};
ghost use Rattle.teapot_lines.specs.declared.cut.Cut.TheVariants.{Deep, Kept};
ghost use Rattle.teapot_lines.specs.Seen.{Seen};
ghost use Rattle.teapot_tree.specs.Parts.{fits, depth};
ghost use Rattle.teapot_lines.specs.Exprs.{spelled};
ghost use Rattle.teapot_lines.specs.Cuts.{cut};
ghost use Rattle.teapot_lines.specs.Reading.{read};
ghost use Rattle.teapot_lines.specs.Lines.{form_of};
ghost use Rattle.teapot_lines.specs.Spelling.{spelling, fits_form, cut_form, IsForm, Fronts};

/// What is read at the front of the tokens is the one expression that is spelled there.
pub fn expressions_are_spelled()
    ensures found { (ts : List Seen) → IfSome (read ts) (Fronts ts) }
    ensures again { (e : Expr) (rest : List Seen) → fits e ≡ true → read (spelled e ++ rest) ≡ Some (cut e, rest) }
{}

/// An expression is kept whole up to the limit on its depth, and not at all past it.
pub fn cuts_keep_depth()
    ensures kept { (e : Expr) → depth e ≤ 16 → cut e ≡ Kept (depth e) e }
    ensures deep { (e : Expr) → 16 < depth e → cut e ≡ Deep }
{}

/// A line is of a form exactly where its tokens spell the form.
pub fn forms_are_spelled()
    ensures found { (profile : ℕ) (ts : List Seen) → IfSome (form_of profile ts) (IsForm profile ts) }
    ensures again { (profile : ℕ) (f : Form Expr) → fits_form profile f ≡ true →
        form_of profile (spelling f) ≡ Some (cut_form f) }
{}
