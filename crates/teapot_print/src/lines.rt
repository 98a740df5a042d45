ghost use Rattle.std.specs.Prelude.{◌≡◌, ◌∷◌, ◌++◌, [], map, OnOk};
ghost use Rattle.teapot_lines.specs.Seen.{Key, Named, Marked};
ghost use Rattle.teapot_lines.specs.Exprs.{spelled};
ghost use Rattle.teapot_lines.specs.Parts.{tails, spelled_list, spelled_name, spelled_param, spelled_type, word_of, tag_word};
ghost use Rattle.teapot_lines.specs.Parts.{chan_number};
ghost use Rattle.teapot_lines.specs.Spelling.{send_word, spelled_carries, spelled_cont, spelled_bracketed};
ghost use Rattle.teapot_parse.specs.Trees.{typed_of, handler_form};
ghost use Rattle.teapot_print.specs.Printing.{put, put_all, put_line, begun, ended};

use crate::printer::Printer;
use teapot_lines::{Form, Reach};
use teapot_tree::{Expr, Keyword, Param, Trigger, ValType};
use tw_base::{Chan, Memory, Name, Tag};
use tw_lex::Mark;

fn word_of(ty: ValType) -> Keyword
    ensures { result ≡ word_of ty }
{
    match ty {
        ValType::Int => Keyword::Int,
        ValType::Bool => Keyword::Bool,
        ValType::Node => Keyword::Node,
        ValType::Set => Keyword::Set,
    }
}

fn tag_word(tag: Tag) -> Keyword
    ensures { result ≡ tag_word tag }
{
    match tag {
        Tag::Invalid => Keyword::Invalid,
        Tag::ReadOnly => Keyword::ReadOnly,
        Tag::ReadWrite => Keyword::ReadWrite,
    }
}

fn chan_number(chan: Chan) -> u64
    ensures { result ≡ chan_number chan }
{
    match chan {
        Chan::Zero => 0,
        Chan::One => 1,
    }
}

fn send_word(reach: Reach) -> Keyword
    ensures { result ≡ send_word reach }
{
    match reach {
        Reach::One => Keyword::Send,
        Reach::All => Keyword::SendAll,
    }
}

impl Printer {
    /// Further expressions, each behind a comma.
    fn more_exprs(&mut self, args: &[Expr]) -> Result<(), Memory>
        ensures { OnOk result (self.new ≡ put_all self.old (tails spelled args.now)) }
    {
        'rest: for arg in args {
            self.mark(Mark::Comma)?;
            self.expr(arg)?;
        }
        Ok(())
    }

    fn exprs(&mut self, args: &[Expr]) -> Result<(), Memory>
        ensures { OnOk result (self.new ≡ put_all self.old (spelled_list spelled args.now)) }
    {
        match args.split_first() {
            None => Ok(()),
            Some((first, rest)) => {
                self.expr(first)?;
                self.more_exprs(rest)
            }
        }
    }

    fn more_names(&mut self, names: &[Name]) -> Result<(), Memory>
        ensures { OnOk result (self.new ≡ put_all self.old (tails spelled_name names.now)) }
    {
        'names: for name in names {
            self.mark(Mark::Comma)?;
            self.named(name)?;
        }
        Ok(())
    }

    fn names(&mut self, names: &[Name]) -> Result<(), Memory>
        ensures { OnOk result (self.new ≡ put_all self.old (spelled_list spelled_name names.now)) }
    {
        match names.split_first() {
            None => Ok(()),
            Some((first, rest)) => {
                self.named(first)?;
                self.more_names(rest)
            }
        }
    }

    fn more_types(&mut self, types: &[ValType]) -> Result<(), Memory>
        ensures { OnOk result (self.new ≡ put_all self.old (tails spelled_type types.now)) }
    {
        'types: for ty in types {
            self.mark(Mark::Comma)?;
            self.key(word_of(*ty))?;
        }
        Ok(())
    }

    fn types(&mut self, types: &[ValType]) -> Result<(), Memory>
        ensures { OnOk result (self.new ≡ put_all self.old (spelled_list spelled_type types.now)) }
    {
        match types.split_first() {
            None => Ok(()),
            Some((first, rest)) => {
                self.key(word_of(*first))?;
                self.more_types(rest)
            }
        }
    }

    fn param(&mut self, param: &Param) -> Result<(), Memory>
        ensures { OnOk result (self.new ≡ put_all self.old (spelled_param (typed_of param.now))) }
    {
        self.named(&param.name)?;
        self.key(word_of(param.ty))
    }

    fn more_params(&mut self, params: &[Param]) -> Result<(), Memory>
        ensures { OnOk result (self.new ≡ put_all self.old (tails spelled_param (map typed_of params.now))) }
    {
        'params: for param in params {
            self.mark(Mark::Comma)?;
            self.param(param)?;
        }
        Ok(())
    }

    fn params(&mut self, params: &[Param]) -> Result<(), Memory>
        ensures { OnOk result (self.new ≡ put_all self.old (spelled_list spelled_param (map typed_of params.now))) }
    {
        match params.split_first() {
            None => Ok(()),
            Some((first, rest)) => {
                self.param(first)?;
                self.more_params(rest)
            }
        }
    }

    /// A line of one word.
    pub fn word_line(&mut self, key: Keyword) -> Result<(), Memory>
        ensures { OnOk result (self.new ≡ ended (put (begun self.old self.old.begins) (Key key)) self.old.begins) }
    {
        let begins = self.begins;
        self.begin(begins)?;
        self.key(key)?;
        self.end(begins)
    }

    pub fn begin_line(&mut self) -> Result<(), Memory>
        ensures { OnOk result (self.new ≡ put_line self.old Form.Begin) }
    {
        let begins = self.begins;
        let more = begins.checked_add(1).ok_or(Memory)?;
        self.begin(begins)?;
        self.key(Keyword::Begin)?;
        self.end(more)
    }

    pub fn end_line(&mut self) -> Result<(), Memory>
        ensures { OnOk result (self.new ≡ put_line self.old Form.End) }
    {
        let begins = self.begins.saturating_sub(1);
        self.begin(begins)?;
        self.key(Keyword::End)?;
        self.end(begins)
    }

    pub fn protocol_line(&mut self, name: &Name, profile: u8) -> Result<(), Memory>
        ensures { OnOk result (self.new ≡ put_line self.old (Form.Protocol name.now profile)) }
    {
        let begins = self.begins;
        self.begin(begins)?;
        self.key(Keyword::Protocol)?;
        self.named(name)?;
        if profile != 1 {
            self.number(u64::from(profile))?;
        }
        self.end(begins)
    }

    // What stands behind the channel of a message.
    fn carries(&mut self, carries: bool) -> Result<(), Memory>
        ensures { OnOk result (self.new ≡ put_all self.old (spelled_carries carries)) }
    {
        if carries {
            self.key(Keyword::Data)
        } else {
            Ok(())
        }
    }

    #[tactic(auto, using(crate::proofs::Puts::put_all_append))]
    pub fn message_line(
        &mut self,
        name: &Name,
        args: &[ValType],
        chan: Chan,
        carries: bool,
    ) -> Result<(), Memory>
        ensures { OnOk result (self.new ≡ put_line self.old (Form.Message name.now args.now chan carries)) }
    {
        let begins = self.begins;
        self.begin(begins)?;
        self.key(Keyword::Message)?;
        self.named(name)?;
        self.mark(Mark::Open)?;
        self.types(args)?;
        self.mark(Mark::Close)?;
        self.number(chan_number(chan))?;
        self.carries(carries)?;
        self.end(begins)
    }

    pub fn info_line(&mut self, name: &Name, ty: ValType) -> Result<(), Memory>
        ensures { OnOk result (self.new ≡ put_line self.old (Form.Info name.now ty)) }
    {
        let begins = self.begins;
        self.begin(begins)?;
        self.key(Keyword::Info)?;
        self.named(name)?;
        self.key(word_of(ty))?;
        self.end(begins)
    }

    pub fn start_line(&mut self, home: bool, state: &Name, tag: Tag) -> Result<(), Memory>
        ensures { OnOk result (self.new ≡ put_line self.old (Form.Start home state.now tag)) }
    {
        let begins = self.begins;
        self.begin(begins)?;
        self.key(if home {
            Keyword::HomeStart
        } else {
            Keyword::CacheStart
        })?;
        self.named(state)?;
        self.key(tag_word(tag))?;
        self.end(begins)
    }

    fn cont(&mut self, cont: &Option<Name>) -> Result<(), Memory>
        ensures { OnOk result (self.new ≡ put_all self.old (spelled_cont cont.now)) }
    {
        if let Some(name) = cont {
            self.mark(Mark::Semicolon)?;
            self.named(name)?;
        }
        self.mark(Mark::BraceClose)
    }

    #[tactic(auto, using(crate::proofs::Puts::put_all_append))]
    pub fn state_line(
        &mut self,
        name: &Name,
        params: &[Param],
        cont: &Option<Name>,
    ) -> Result<(), Memory>
        ensures { OnOk result (self.new ≡ put_line self.old (Form.State name.now (map typed_of params.now) cont.now)) }
    {
        let begins = self.begins;
        self.begin(begins)?;
        self.key(Keyword::State)?;
        self.named(name)?;
        self.mark(Mark::BraceOpen)?;
        self.params(params)?;
        self.cont(cont)?;
        self.end(begins)
    }

    #[tactic(auto, using(crate::proofs::Puts::put_all_append))]
    fn in_brackets(&mut self, args: &[Name]) -> Result<(), Memory>
        ensures { OnOk result
            (self.new ≡ put_all self.old (Marked Mark.Open ∷ (spelled_list spelled_name args.now ++ (Marked Mark.Close ∷ [])))) }
    {
        self.mark(Mark::Open)?;
        self.names(args)?;
        self.mark(Mark::Close)
    }

    #[tactic(auto, using(crate::proofs::Puts::put_all_append))]
    fn fault_line(&mut self, fault: Keyword, args: &[Name]) -> Result<(), Memory>
        ensures { OnOk result
            (self.new ≡ ended (put_all (begun self.old self.old.begins)
            (Key Keyword.On ∷ Key fault ∷ Marked Mark.Open ∷ (spelled_list spelled_name args.now ++ (Marked Mark.Close ∷ []))))
            self.old.begins) }
    {
        let begins = self.begins;
        self.begin(begins)?;
        self.key(Keyword::On)?;
        self.key(fault)?;
        self.in_brackets(args)?;
        self.end(begins)
    }

    #[tactic(auto, using(crate::proofs::Puts::put_all_append))]
    fn on_line(&mut self, name: &Name, args: &[Name]) -> Result<(), Memory>
        ensures { OnOk result
            (self.new ≡ ended (put_all (begun self.old self.old.begins)
            (Key Keyword.On ∷ Named name.now ∷ Marked Mark.Open ∷
            (spelled_list spelled_name args.now ++ (Marked Mark.Close ∷ [])))) self.old.begins) }
    {
        let begins = self.begins;
        self.begin(begins)?;
        self.key(Keyword::On)?;
        self.named(name)?;
        self.in_brackets(args)?;
        self.end(begins)
    }

    pub fn handler_line(&mut self, on: &Trigger, args: &[Name]) -> Result<(), Memory>
        ensures { OnOk result (self.new ≡ put_line self.old (handler_form on.now args.now)) }
    {
        match on {
            Trigger::Default => self.word_line(Keyword::Default),
            Trigger::RdFault => self.fault_line(Keyword::RdFault, args),
            Trigger::WrFault => self.fault_line(Keyword::WrFault, args),
            Trigger::Named(name) => self.on_line(name, args),
        }
    }

    pub fn local_line(&mut self, name: &Name, ty: ValType) -> Result<(), Memory>
        ensures { OnOk result (self.new ≡ put_line self.old (Form.Local name.now ty)) }
    {
        let begins = self.begins;
        self.begin(begins)?;
        self.key(Keyword::Local)?;
        self.named(name)?;
        self.key(word_of(ty))?;
        self.end(begins)
    }

    #[tactic(auto, using(crate::proofs::Puts::put_all_append))]
    pub fn if_line(&mut self, test: &Expr) -> Result<(), Memory>
        ensures { OnOk result (self.new ≡ put_line self.old (Form.If test.now)) }
    {
        let begins = self.begins;
        self.begin(begins)?;
        self.key(Keyword::If)?;
        self.expr(test)?;
        self.end(begins)
    }

    #[tactic(auto, using(crate::proofs::Puts::put_all_append))]
    pub fn for_each_line(&mut self, name: &Name, set: &Expr) -> Result<(), Memory>
        ensures { OnOk result (self.new ≡ put_line self.old (Form.ForEach name.now set.now)) }
    {
        let begins = self.begins;
        self.begin(begins)?;
        self.key(Keyword::ForEach)?;
        self.named(name)?;
        self.expr(set)?;
        self.end(begins)
    }

    #[tactic(auto, using(crate::proofs::Puts::put_all_append))]
    pub fn assign_line(&mut self, name: &Name, value: &Expr) -> Result<(), Memory>
        ensures { OnOk result (self.new ≡ put_line self.old (Form.Assign name.now value.now)) }
    {
        let begins = self.begins;
        self.begin(begins)?;
        self.named(name)?;
        self.mark(Mark::Becomes)?;
        self.expr(value)?;
        self.end(begins)
    }

    #[tactic(auto, using(crate::proofs::Puts::put_all_append))]
    pub fn send_line(
        &mut self,
        reach: Reach,
        to: &Expr,
        name: &Name,
        args: &[Expr],
    ) -> Result<(), Memory>
        ensures { OnOk result (self.new ≡ put_line self.old (Form.Send reach to.now name.now args.now)) }
    {
        let begins = self.begins;
        self.begin(begins)?;
        self.key(send_word(reach))?;
        self.mark(Mark::Open)?;
        self.expr(to)?;
        self.mark(Mark::Comma)?;
        self.named(name)?;
        self.more_exprs(args)?;
        self.mark(Mark::Close)?;
        self.end(begins)
    }

    pub fn set_tag_line(&mut self, tag: Tag) -> Result<(), Memory>
        ensures { OnOk result (self.new ≡ put_line self.old (Form.SetTag tag)) }
    {
        let begins = self.begins;
        self.begin(begins)?;
        self.key(Keyword::SetTag)?;
        self.mark(Mark::Open)?;
        self.key(tag_word(tag))?;
        self.mark(Mark::Close)?;
        self.end(begins)
    }

    #[tactic(auto, using(crate::proofs::Puts::put_all_append))]
    pub fn set_state_line(&mut self, name: &Name, args: &[Expr]) -> Result<(), Memory>
        ensures { OnOk result (self.new ≡ put_line self.old (Form.SetState name.now args.now)) }
    {
        let begins = self.begins;
        self.begin(begins)?;
        self.key(Keyword::SetState)?;
        self.mark(Mark::Open)?;
        self.named(name)?;
        self.mark(Mark::BraceOpen)?;
        self.exprs(args)?;
        self.mark(Mark::BraceClose)?;
        self.mark(Mark::Close)?;
        self.end(begins)
    }

    #[tactic(auto, using(crate::proofs::Puts::put_all_append))]
    pub fn suspend_line(
        &mut self,
        label: &Name,
        name: &Name,
        args: &[Expr],
        passed: &Name,
    ) -> Result<(), Memory>
        ensures { OnOk result (self.new ≡ put_line self.old (Form.Suspend label.now name.now args.now passed.now)) }
    {
        let begins = self.begins;
        self.begin(begins)?;
        self.key(Keyword::Suspend)?;
        self.mark(Mark::Open)?;
        self.named(label)?;
        self.mark(Mark::Comma)?;
        self.named(name)?;
        self.mark(Mark::BraceOpen)?;
        self.exprs(args)?;
        self.mark(Mark::Semicolon)?;
        self.named(passed)?;
        self.mark(Mark::BraceClose)?;
        self.mark(Mark::Close)?;
        self.end(begins)
    }

    fn name_line(&mut self, key: Keyword, name: &Name) -> Result<(), Memory>
        ensures { OnOk result
            (self.new ≡ ended (put_all (begun self.old self.old.begins) (Key key ∷ spelled_bracketed name.now))
            self.old.begins) }
    {
        let begins = self.begins;
        self.begin(begins)?;
        self.key(key)?;
        self.mark(Mark::Open)?;
        self.named(name)?;
        self.mark(Mark::Close)?;
        self.end(begins)
    }

    pub fn resume_line(&mut self, name: &Name) -> Result<(), Memory>
        ensures { OnOk result (self.new ≡ put_line self.old (Form.Resume name.now)) }
    {
        self.name_line(Keyword::Resume, name)
    }

    pub fn error_line(&mut self, name: &Name) -> Result<(), Memory>
        ensures { OnOk result (self.new ≡ put_line self.old (Form.Error name.now)) }
    {
        self.name_line(Keyword::Error, name)
    }
}
