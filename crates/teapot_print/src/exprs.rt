ghost use Rattle.std.specs.Prelude.{◌≡◌, OnOk};
ghost use Rattle.teapot_lines.specs.Exprs.{way, spelled};
ghost use Rattle.teapot_lines.specs.Seen.{Key, Marked};
ghost use Rattle.teapot_print.specs.Printing.{put, put_all, written_way, before_two, between_two};

use crate::printer::Printer;
use teapot_tree::{Expr, Keyword, Op};
use tw_base::Memory;
use tw_lex::Mark;

/// How an operator is written.
#[derive(Clone, Copy)]
pub enum Written {
    /// A mark between its operands.
    Infix(Mark),
    /// A word before them.
    Before(Keyword),
}

fn way(op: Op) -> Written
    ensures { written_way result ≡ way op }
{
    match op {
        Op::Add => Written::Infix(Mark::Plus),
        Op::Sub => Written::Infix(Mark::Minus),
        Op::Eq => Written::Infix(Mark::Equal),
        Op::Ne => Written::Infix(Mark::Unequal),
        Op::Lt => Written::Infix(Mark::Less),
        Op::Le => Written::Infix(Mark::LessEqual),
        Op::And => Written::Infix(Mark::Both),
        Op::Or => Written::Infix(Mark::Either),
        Op::Has => Written::Before(Keyword::Has),
        Op::With => Written::Before(Keyword::With),
        Op::Without => Written::Before(Keyword::Without),
    }
}

impl Printer {
    // A word and its bracket.
    fn word_opened(&mut self, key: Keyword) -> Result<(), Memory>
        ensures { OnOk result (self.new ≡ put (put self.old (Key key)) (Marked Mark.Open)) }
    {
        self.key(key)?;
        self.mark(Mark::Open)
    }

    // What stands before the first of two operands.
    fn before_two(&mut self, way: Written) -> Result<(), Memory>
        ensures { OnOk result (self.new ≡ put_all self.old (before_two (written_way way))) }
    {
        match way {
            Written::Infix(_) => self.mark(Mark::Open),
            Written::Before(key) => self.word_opened(key),
        }
    }

    // What stands between two operands.
    fn between_two(&mut self, way: Written) -> Result<(), Memory>
        ensures { OnOk result (self.new ≡ put self.old (Marked (between_two (written_way way)))) }
    {
        match way {
            Written::Infix(mark) => self.mark(mark),
            Written::Before(_) => self.mark(Mark::Comma),
        }
    }

    pub fn expr(&mut self, e: &Expr) -> Result<(), Memory>
        ensures { OnOk result (self.new ≡ put_all self.old (spelled e.now)) }
    {
        match e {
            Expr::Number(n) => self.number(u64::from(*n)),
            Expr::True => self.key(Keyword::True),
            Expr::False => self.key(Keyword::False),
            Expr::Empty => self.key(Keyword::Empty),
            Expr::Src => self.key(Keyword::Src),
            Expr::SelfNode => self.key(Keyword::SelfNode),
            Expr::Home => self.key(Keyword::Home),
            Expr::Var(name) => self.named(name),
            Expr::One(a) => {
                self.word_opened(Keyword::One)?;
                self.expr(a.get())?;
                self.mark(Mark::Close)
            }
            Expr::Not(a) => {
                self.word_opened(Keyword::Not)?;
                self.expr(a.get())?;
                self.mark(Mark::Close)
            }
            Expr::Count(a) => {
                self.word_opened(Keyword::Count)?;
                self.expr(a.get())?;
                self.mark(Mark::Close)
            }
            Expr::Two(op, a, b) => {
                self.before_two(way(*op))?;
                self.expr(a.get())?;
                self.between_two(way(*op))?;
                self.expr(b.get())?;
                self.mark(Mark::Close)
            }
        }
    }
}
