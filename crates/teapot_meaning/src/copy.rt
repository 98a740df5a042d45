ghost use Rattle.std.specs.Prelude.{◌≡◌, IfOk};

use crate::state::{Bound, Cont, Here, StateVal};
use sqlite_items::Boxed;
use std::alloc::Global;
use teapot_tree::copy_stmts;
use tw_base::{Listed, Memory};

impl Here {
    pub fn copy(&self, alloc: Global) -> Result<Here, Memory>
        ensures { IfOk result (λ h. h ≡ self.now) }
    {
        let infos = Listed::from_slice(alloc, self.infos.items())?;
        let state = self.state.copy(alloc)?;
        Ok(Here {
            me: self.me,
            home: self.home,
            block: self.block,
            infos,
            state,
            tag: self.tag,
            words: self.words,
        })
    }
}

impl Bound {
    pub fn copy(&self, alloc: Global) -> Result<Bound, Memory>
        ensures { IfOk result (λ b. b ≡ self.now) }
    {
        let name = self.name.copy(alloc)?;
        Ok(Bound {
            name,
            value: self.value,
        })
    }
}

impl StateVal {
    #[cycle(copy)]
    pub fn copy(&self, alloc: Global) -> Result<StateVal, Memory>
        ensures { IfOk result (λ s. s ≡ self.now) }
    {
        let args = Listed::from_slice(alloc, self.args.items())?;
        match &self.cont {
            Some(cont) => {
                let cont = Boxed::new(alloc, cont.get().copy(alloc)?)?;
                Ok(StateVal {
                    state: self.state,
                    args,
                    cont: Some(cont),
                })
            }
            None => Ok(StateVal {
                state: self.state,
                args,
                cont: None,
            }),
        }
    }
}

impl Cont {
    #[cycle(copy)]
    pub fn copy(&self, alloc: Global) -> Result<Cont, Memory>
        ensures { IfOk result (λ k. k ≡ self.now) }
    {
        let rest = copy_stmts(alloc, self.rest.items())?;
        let vars = copy_bounds(alloc, self.vars.items())?;
        let saved = Boxed::new(alloc, self.saved.get().copy(alloc)?)?;
        Ok(Cont {
            rest,
            vars,
            came: self.came,
            saved,
        })
    }
}

fn copy_bounds(alloc: Global, bounds: &[Bound]) -> Result<Listed<Bound>, Memory>
    ensures { IfOk result (λ copies. copies ≡ bounds.now) }
{
    let mut copies = Listed::new(alloc);
    for b in bounds {
        copies.push(b.copy(alloc)?)?;
    }
    Ok(copies)
}
