ghost use Rattle.std.specs.Prelude.{◌≡◌, ◌∷◌, ◌++◌, [], OnOk, IfOk, map};
ghost use Rattle.std.specs.List.{flat_map};
ghost use Rattle.teapot_tree.specs.Bodies.{Body, body_of, put as put_stmt};
ghost use Rattle.teapot_parse.specs.Trees.{body_lines, local_line, handler_lines, state_lines, message_line, info_line};
ghost use Rattle.teapot_parse.specs.Trees.{start_line, lines_of};
ghost use Rattle.teapot_print.specs.Text.{canon};
ghost use Rattle.teapot_print.specs.Printing.{put_lines};

use crate::printer::Printer;
use std::alloc::Global;
use teapot_lines::{Form, Reach};
use teapot_tree::{Do, Handler, Keyword, MessageDecl, Param, Protocol, Start, State, Stmt};
use tw_base::Memory;

impl Printer {
    #[cycle(statements)]
    fn statements(&mut self, stmts: &[Stmt]) -> Result<(), Memory>
        ensures { OnOk result (self.new ≡ put_lines self.old (body_lines (body_of stmts.now))) }
    {
        'stmts: for stmt in stmts {
            self.statement(stmt)?;
        }
        Ok(())
    }

    // What follows the line of a statement that holds others.
    #[cycle(statements)]
    fn block(&mut self, stmts: &[Stmt]) -> Result<(), Memory>
        ensures { OnOk result (self.new ≡ put_lines self.old
            ((0, Form.Begin) ∷ (body_lines (body_of stmts.now) ++ (0, Form.End) ∷ []))) }
    {
        self.begin_line()?;
        self.statements(stmts)?;
        self.end_line()
    }

    #[cycle(statements)]
    fn statement(&mut self, stmt: &Stmt) -> Result<(), Memory>
        ensures { OnOk result ((b : Body) → put_lines self.old (body_lines (put_stmt stmt.now b))
            ≡ put_lines self.new (body_lines b)) }
    {
        match &stmt.what {
            Do::Assign(name, value) => self.assign_line(name, value),
            Do::If(test, first, second) => {
                self.if_line(test)?;
                self.block(first.items())?;
                match second {
                    None => Ok(()),
                    Some(second) => {
                        self.word_line(Keyword::Else)?;
                        self.block(second.items())
                    }
                }
            }
            Do::Send(to, name, args) => self.send_line(Reach::One, to, name, args.items()),
            Do::SendAll(to, name, args) => self.send_line(Reach::All, to, name, args.items()),
            Do::SetTag(tag) => self.set_tag_line(*tag),
            Do::SetState(name, args) => self.set_state_line(name, args.items()),
            Do::Suspend(label, name, args, passed) => {
                self.suspend_line(label, name, args.items(), passed)
            }
            Do::Resume(name) => self.resume_line(name),
            Do::Install => self.word_line(Keyword::Install),
            Do::Enqueue => self.word_line(Keyword::Enqueue),
            Do::WakeUp => self.word_line(Keyword::WakeUp),
            Do::Error(name) => self.error_line(name),
            Do::ForEach(name, set, body) => {
                self.for_each_line(name, set)?;
                self.block(body.items())
            }
            Do::Each(_, _, _) => Ok(()),
        }
    }

    fn locals(&mut self, locals: &[Param]) -> Result<(), Memory>
        ensures { OnOk result (self.new ≡ put_lines self.old (map local_line locals.now)) }
    {
        'locals: for local in locals {
            self.local_line(&local.name, local.ty)?;
        }
        Ok(())
    }

    #[tactic(auto, using(crate::proofs::Puts::put_lines_append))]
    fn handler(&mut self, handler: &Handler) -> Result<(), Memory>
        ensures { OnOk result (self.new ≡ put_lines self.old (handler_lines handler.now)) }
    {
        self.handler_line(&handler.on, handler.args.items())?;
        self.begin_line()?;
        self.locals(handler.locals.items())?;
        self.statements(handler.body.items())?;
        self.end_line()
    }

    fn handlers(&mut self, handlers: &[Handler]) -> Result<(), Memory>
        ensures { OnOk result (self.new ≡ put_lines self.old (flat_map handler_lines handlers.now)) }
    {
        'handlers: for handler in handlers {
            self.handler(handler)?;
        }
        Ok(())
    }

    #[tactic(auto, using(crate::proofs::Puts::put_lines_append))]
    fn state(&mut self, state: &State) -> Result<(), Memory>
        ensures { OnOk result (self.new ≡ put_lines self.old (state_lines state.now)) }
    {
        self.state_line(&state.name, state.params.items(), &state.cont)?;
        self.begin_line()?;
        self.handlers(state.handlers.items())?;
        self.end_line()
    }

    fn states(&mut self, states: &[State]) -> Result<(), Memory>
        ensures { OnOk result (self.new ≡ put_lines self.old (flat_map state_lines states.now)) }
    {
        'states: for state in states {
            self.state(state)?;
        }
        Ok(())
    }

    fn messages(&mut self, messages: &[MessageDecl]) -> Result<(), Memory>
        ensures { OnOk result (self.new ≡ put_lines self.old (map message_line messages.now)) }
    {
        'messages: for m in messages {
            self.message_line(&m.name, m.args.items(), m.chan, m.carries)?;
        }
        Ok(())
    }

    fn infos(&mut self, infos: &[Param]) -> Result<(), Memory>
        ensures { OnOk result (self.new ≡ put_lines self.old (map info_line infos.now)) }
    {
        'infos: for info in infos {
            self.info_line(&info.name, info.ty)?;
        }
        Ok(())
    }

    fn starts(&mut self, starts: &[Start]) -> Result<(), Memory>
        ensures { OnOk result (self.new ≡ put_lines self.old (map start_line starts.now)) }
    {
        'starts: for start in starts {
            self.start_line(start.home, &start.state, start.tag)?;
        }
        Ok(())
    }

    #[tactic(auto, using(crate::proofs::Puts::put_lines_append))]
    fn protocol(&mut self, p: &Protocol) -> Result<(), Memory>
        ensures { OnOk result (self.new ≡ put_lines self.old (lines_of p.now)) }
    {
        self.protocol_line(&p.name, p.profile)?;
        self.messages(p.messages.items())?;
        self.infos(p.infos.items())?;
        self.starts(p.starts.items())?;
        self.states(p.states.items())
    }
}

/// The canonical text of a protocol: one line per form, indented by two spaces for each block around it, numbers
/// without leading zeros, and spaces between tokens exactly where the spelling has them.
pub fn print(alloc: Global, p: &Protocol) -> Result<Vec<u8>, Memory>
    ensures { IfOk result (λ text. text.items ≡ canon p.now) }
{
    let mut printer = Printer::new(alloc);
    printer.protocol(p)?;
    let Printer {
        text,
        last: _,
        begins: _,
    } = printer;
    Ok(text.into_vec())
}
