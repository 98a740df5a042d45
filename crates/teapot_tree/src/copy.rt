ghost use Rattle.std.specs.Prelude.{◌≡◌, IfOk};

use crate::{Do, Expr, Stmt};
use sqlite_items::Boxed;
use std::alloc::Global;
use tw_base::{Listed, Memory};

impl Expr {
    pub fn copy(&self, alloc: Global) -> Result<Expr, Memory>
        ensures { IfOk result (λ e. e ≡ self.now) }
    {
        match self {
            Expr::Number(n) => Ok(Expr::Number(*n)),
            Expr::True => Ok(Expr::True),
            Expr::False => Ok(Expr::False),
            Expr::Empty => Ok(Expr::Empty),
            Expr::Src => Ok(Expr::Src),
            Expr::SelfNode => Ok(Expr::SelfNode),
            Expr::Home => Ok(Expr::Home),
            Expr::Var(name) => Ok(Expr::Var(name.copy(alloc)?)),
            Expr::One(a) => Ok(Expr::One(Boxed::new(alloc, a.get().copy(alloc)?)?)),
            Expr::Not(a) => Ok(Expr::Not(Boxed::new(alloc, a.get().copy(alloc)?)?)),
            Expr::Count(a) => Ok(Expr::Count(Boxed::new(alloc, a.get().copy(alloc)?)?)),
            Expr::Two(op, a, b) => {
                let a = Boxed::new(alloc, a.get().copy(alloc)?)?;
                let b = Boxed::new(alloc, b.get().copy(alloc)?)?;
                Ok(Expr::Two(*op, a, b))
            }
        }
    }
}

pub fn copy_exprs(alloc: Global, exprs: &[Expr]) -> Result<Listed<Expr>, Memory>
    ensures { IfOk result (λ copies. copies ≡ exprs.now) }
{
    let mut copies = Listed::new(alloc);
    for e in exprs {
        copies.push(e.copy(alloc)?)?;
    }
    Ok(copies)
}

impl Stmt {
    #[cycle(copy)]
    pub fn copy(&self, alloc: Global) -> Result<Stmt, Memory>
        ensures { IfOk result (λ s. s ≡ self.now) }
    {
        let what = self.what.copy(alloc)?;
        Ok(Stmt {
            what,
            line: self.line,
        })
    }
}

impl Do {
    #[cycle(copy)]
    fn copy(&self, alloc: Global) -> Result<Do, Memory>
        ensures { IfOk result (λ d. d ≡ self.now) }
    {
        match self {
            Do::Assign(name, e) => Ok(Do::Assign(name.copy(alloc)?, e.copy(alloc)?)),
            Do::If(e, first, second) => {
                let e = e.copy(alloc)?;
                let first = copy_stmts(alloc, first.items())?;
                match second {
                    Some(stmts) => Ok(Do::If(e, first, Some(copy_stmts(alloc, stmts.items())?))),
                    None => Ok(Do::If(e, first, None)),
                }
            }
            Do::Send(to, name, args) => {
                let args = copy_exprs(alloc, args.items())?;
                Ok(Do::Send(to.copy(alloc)?, name.copy(alloc)?, args))
            }
            Do::SendAll(to, name, args) => {
                let args = copy_exprs(alloc, args.items())?;
                Ok(Do::SendAll(to.copy(alloc)?, name.copy(alloc)?, args))
            }
            Do::SetTag(tag) => Ok(Do::SetTag(*tag)),
            Do::SetState(name, args) => {
                let args = copy_exprs(alloc, args.items())?;
                Ok(Do::SetState(name.copy(alloc)?, args))
            }
            Do::Suspend(label, name, args, passed) => {
                let args = copy_exprs(alloc, args.items())?;
                Ok(Do::Suspend(
                    label.copy(alloc)?,
                    name.copy(alloc)?,
                    args,
                    passed.copy(alloc)?,
                ))
            }
            Do::Resume(name) => Ok(Do::Resume(name.copy(alloc)?)),
            Do::Install => Ok(Do::Install),
            Do::Enqueue => Ok(Do::Enqueue),
            Do::WakeUp => Ok(Do::WakeUp),
            Do::Error(name) => Ok(Do::Error(name.copy(alloc)?)),
            Do::ForEach(name, e, stmts) => {
                let stmts = copy_stmts(alloc, stmts.items())?;
                Ok(Do::ForEach(name.copy(alloc)?, e.copy(alloc)?, stmts))
            }
            Do::Each(name, set, stmts) => {
                let stmts = copy_stmts(alloc, stmts.items())?;
                Ok(Do::Each(name.copy(alloc)?, *set, stmts))
            }
        }
    }
}

#[cycle(copy)]
pub fn copy_stmts(alloc: Global, stmts: &[Stmt]) -> Result<Listed<Stmt>, Memory>
    ensures { IfOk result (λ copies. copies ≡ stmts.now) }
{
    let mut copies = Listed::new(alloc);
    for s in stmts {
        copies.push(s.copy(alloc)?)?;
    }
    Ok(copies)
}
