ghost use Rattle.std.specs.Prelude.{◌≡◌, ◌<◌, length, IfSome, IfOk};
ghost use Rattle.std.specs.Option.{option_copied};
ghost use Rattle.mini_asm.specs.Programs.{IsInstr};
ghost use Rattle.mini_asm.specs.Assembled.{IsForm};
ghost use Rattle.mini_asm.specs.Spelling.{register_named, keyword_named, is_of_version, word_at, number_of_token, is_colon};
ghost use Rattle.mini_asm.specs.Spelling.{register_at, number_at, label_at, keyword_at, register_number, one_register};
ghost use Rattle.mini_asm.specs.Spelling.{two_registers, three_registers, register_address, two_registers_label, has_one_label};
ghost use Rattle.mini_asm.specs.Spelling.{two_registers_address, instr_with, instr_of, target_at, target_of, label_of, form_of};

use crate::Instr;
use crate::form::Form;
use crate::instr::Keyword;
use std::alloc::Global;
use tw_base::{Memory, Name};
use tw_lex::{Mark, Token, What};

fn register_named(name: &[u8]) -> Option<u8>
    ensures value { result ≡ register_named name.now }
    ensures below { IfSome result (λ r. r < 16) }
{
    match name {
        [b'r', d @ b'0'..=b'9'] => Some(*d - b'0'),
        [b'r', b'1', d @ b'0'..=b'5'] => Some(10 + (*d - b'0')),
        _ => None,
    }
}

fn keyword_named(name: &[u8]) -> Option<Keyword>
    ensures { result ≡ keyword_named name.now }
{
    match name {
        b"li" => Some(Keyword::Li),
        b"mov" => Some(Keyword::Mov),
        b"add" => Some(Keyword::Add),
        b"sub" => Some(Keyword::Sub),
        b"and" => Some(Keyword::And),
        b"or" => Some(Keyword::Or),
        b"xor" => Some(Keyword::Xor),
        b"ld" => Some(Keyword::Ld),
        b"st" => Some(Keyword::St),
        b"beq" => Some(Keyword::Beq),
        b"bne" => Some(Keyword::Bne),
        b"blt" => Some(Keyword::Blt),
        b"jmp" => Some(Keyword::Jmp),
        b"print" => Some(Keyword::Print),
        b"halt" => Some(Keyword::Halt),
        b"faa" => Some(Keyword::Faa),
        _ => None,
    }
}

impl Keyword {
    /// Whether the input's version has the instruction.
    fn is_of_version(self, version: u8) -> bool
        ensures { result ≡ is_of_version version self }
    {
        self != Keyword::Faa || version >= 2
    }
}

fn word_at(tokens: &[Token], i: usize) -> Option<&Name>
    ensures { option_copied result ≡ word_at tokens.now i }
{
    match tokens.get(i) {
        Some(token) => match &token.what {
            What::Word(name) => Some(name),
            _ => None,
        },
        None => None,
    }
}

fn register_at(tokens: &[Token], i: usize) -> Option<u8>
    ensures value { result ≡ register_at tokens.now i }
    ensures below { IfSome result (λ r. r < 16) }
{
    register_named(word_at(tokens, i)?.bytes())
}

fn number_at(tokens: &[Token], i: usize) -> Option<u64>
    ensures { result ≡ number_at tokens.now i }
{
    match tokens.get(i) {
        Some(token) => match &token.what {
            What::Number(n) => Some(*n),
            _ => None,
        },
        None => None,
    }
}

/// The word at a place, if it is no register.
fn label_at(tokens: &[Token], i: usize) -> Option<&Name>
    ensures { option_copied result ≡ label_at tokens.now i }
{
    let name = word_at(tokens, i)?;
    match register_named(name.bytes()) {
        Some(_) => None,
        None => Some(name),
    }
}

fn keyword_at(tokens: &[Token], i: usize) -> Option<Keyword>
    ensures { result ≡ keyword_at tokens.now i }
{
    keyword_named(word_at(tokens, i)?.bytes())
}

fn is_colon(what: &What) -> bool
    ensures { result ≡ is_colon what.now }
{
    matches!(what, What::Mark(Mark::Colon))
}

fn register_number(tokens: &[Token]) -> Option<(u8, u64)>
    ensures value { result ≡ register_number tokens.now }
    ensures below { IfSome result (λ r. r.0 < 16) }
{
    if tokens.len() != 3 {
        return None;
    }
    Some((register_at(tokens, 1)?, number_at(tokens, 2)?))
}

fn one_register(tokens: &[Token]) -> Option<u8>
    ensures value { result ≡ one_register tokens.now }
    ensures below { IfSome result (λ r. r < 16) }
{
    if tokens.len() != 2 {
        return None;
    }
    register_at(tokens, 1)
}

fn two_registers(tokens: &[Token]) -> Option<(u8, u8)>
    ensures value { result ≡ two_registers tokens.now }
    ensures below { IfSome result (λ r. (r.0 < 16) × (r.1 < 16)) }
{
    if tokens.len() != 3 {
        return None;
    }
    Some((register_at(tokens, 1)?, register_at(tokens, 2)?))
}

fn three_registers(tokens: &[Token]) -> Option<(u8, u8, u8)>
    ensures value { result ≡ three_registers tokens.now }
    ensures below { IfSome result (λ r. (r.0 < 16) × (r.1 < 16) × (r.2 < 16)) }
{
    if tokens.len() != 4 {
        return None;
    }
    Some((
        register_at(tokens, 1)?,
        register_at(tokens, 2)?,
        register_at(tokens, 3)?,
    ))
}

fn register_address(tokens: &[Token]) -> Option<(u8, u8, u64)>
    ensures value { result ≡ register_address tokens.now }
    ensures below { IfSome result (λ r. (r.0 < 16) × (r.1 < 16)) }
{
    if tokens.len() != 4 {
        return None;
    }
    Some((
        register_at(tokens, 1)?,
        register_at(tokens, 2)?,
        number_at(tokens, 3)?,
    ))
}

fn two_registers_label(tokens: &[Token]) -> Option<(u8, u8)>
    ensures value { result ≡ two_registers_label tokens.now }
    ensures below { IfSome result (λ r. (r.0 < 16) × (r.1 < 16)) }
{
    if tokens.len() != 4 {
        return None;
    }
    let registers = (register_at(tokens, 1)?, register_at(tokens, 2)?);
    label_at(tokens, 3)?;
    Some(registers)
}

fn has_one_label(tokens: &[Token]) -> bool
    ensures { result ≡ has_one_label tokens.now }
{
    tokens.len() == 2 && label_at(tokens, 1).is_some()
}

fn two_registers_address(tokens: &[Token]) -> Option<(u8, u8, u8, u64)>
    ensures value { result ≡ two_registers_address tokens.now }
    ensures below { IfSome result (λ r. (r.0 < 16) × (r.1 < 16) × (r.2 < 16)) }
{
    if tokens.len() != 5 {
        return None;
    }
    Some((
        register_at(tokens, 1)?,
        register_at(tokens, 2)?,
        register_at(tokens, 3)?,
        number_at(tokens, 4)?,
    ))
}

/// The instruction of a line with this keyword. The place of a jump is still 0.
#[tactic(auto, unfolding(crate::specs::Spelling::instr_with))]
fn instr_with(keyword: Keyword, tokens: &[Token]) -> Option<Instr>
    ensures value { result ≡ instr_with keyword tokens.now }
    ensures valid { IfSome result (IsInstr 0) }
{
    match keyword {
        Keyword::Li => register_number(tokens).map(|(d, n)| Instr::Li(d, n)),
        Keyword::Mov => two_registers(tokens).map(|(d, a)| Instr::Mov(d, a)),
        Keyword::Add => three_registers(tokens).map(|(d, a, b)| Instr::Add(d, a, b)),
        Keyword::Sub => three_registers(tokens).map(|(d, a, b)| Instr::Sub(d, a, b)),
        Keyword::And => three_registers(tokens).map(|(d, a, b)| Instr::And(d, a, b)),
        Keyword::Or => three_registers(tokens).map(|(d, a, b)| Instr::Or(d, a, b)),
        Keyword::Xor => three_registers(tokens).map(|(d, a, b)| Instr::Xor(d, a, b)),
        Keyword::Ld => register_address(tokens).map(|(d, a, n)| Instr::Ld(d, a, n)),
        Keyword::St => register_address(tokens).map(|(s, a, n)| Instr::St(s, a, n)),
        Keyword::Beq => two_registers_label(tokens).map(|(a, b)| Instr::Beq(a, b, 0)),
        Keyword::Bne => two_registers_label(tokens).map(|(a, b)| Instr::Bne(a, b, 0)),
        Keyword::Blt => two_registers_label(tokens).map(|(a, b)| Instr::Blt(a, b, 0)),
        Keyword::Jmp => has_one_label(tokens).then_some(Instr::Jmp(0)),
        Keyword::Print => one_register(tokens).map(Instr::Print),
        Keyword::Halt => (tokens.len() == 1).then_some(Instr::Halt),
        Keyword::Faa => two_registers_address(tokens).map(|(d, s, a, n)| Instr::Faa(d, s, a, n)),
    }
}

#[tactic(auto, unfolding(crate::specs::Spelling::instr_of))]
fn instr_of(version: u8, tokens: &[Token]) -> Option<Instr>
    ensures value { result ≡ instr_of version tokens.now }
    ensures valid { IfSome result (IsInstr 0) }
{
    let keyword = keyword_at(tokens, 0)?;
    if !keyword.is_of_version(version) {
        return None;
    }
    instr_with(keyword, tokens)
}

/// Where in its line a jump names its label.
fn target_at(instr: Instr) -> Option<usize>
    ensures { result ≡ target_at instr }
{
    match instr {
        Instr::Beq(..) | Instr::Bne(..) | Instr::Blt(..) => Some(3),
        Instr::Jmp(_) => Some(1),
        _ => None,
    }
}

fn target_of(instr: Instr, tokens: &[Token]) -> Option<&Name>
    ensures { option_copied result ≡ target_of instr tokens.now }
{
    label_at(tokens, target_at(instr)?)
}

/// The word of a line that is a word and a colon.
fn label_of(tokens: &[Token]) -> Option<&Name>
    ensures { option_copied result ≡ label_of tokens.now }
{
    if tokens.len() == 2 && is_colon(&tokens[1].what) {
        label_at(tokens, 0)
    } else {
        None
    }
}

fn copied(alloc: Global, name: Option<&Name>) -> Result<Option<Name>, Memory>
    ensures { IfOk result (λ copy. copy ≡ option_copied name.entry) }
{
    match name {
        Some(name) => Ok(Some(name.copy(alloc)?)),
        None => Ok(None),
    }
}

/// What a line is, if it is a line of the assembly.
#[tactic(auto, unfolding(crate::specs::Spelling::form_of))]
pub fn form_of(alloc: Global, version: u8, tokens: &[Token]) -> Result<Option<Form>, Memory>
    ensures value { IfOk result (λ form. form ≡ form_of version tokens.now) }
    ensures valid { IfOk result (λ form. IfSome form IsForm) }
{
    if let Some(label) = label_of(tokens) {
        return Ok(Some(Form::Label(label.copy(alloc)?)));
    }
    let Some(instr) = instr_of(version, tokens) else {
        return Ok(None);
    };
    let target = copied(alloc, target_of(instr, tokens))?;
    Ok(Some(Form::Code(instr, target)))
}
