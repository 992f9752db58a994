// Parses an expression from tokens that may stand one after the other, in one pass: the groups that
// are open are kept in a list, so that their depth takes memory and no stack.
ghost use Rattle.std.specs.Prelude.{◌≡◌, ◌≤◌, ◌^◌, ◌∷◌, [], true, IfOk, OnOk, unwrap_or, length};
ghost use Rattle.std.specs.List.{position};
ghost use Rattle.std.specs.Str.{bytes_eq};
ghost use Rattle.lw_genlib.specs.declared.token.Token.TheVariants.{Punct};
ghost use Rattle.lw_genlib.specs.Grammar as grammar;
ghost use Rattle.lw_genlib.specs.Grammar.{SpellsSum, go_on, begins_with, names_in};
ghost use Rattle.lw_genlib.specs.Parsing.{IsNew, MayTake, Takes};
ghost use Rattle.lw_genlib.specs.Postfix.{postfix};

use crate::open_group::OpenGroup;
use crate::{Expr, ExprOp, Token};
use lw_pool::Name;
use std::alloc::{AllocError, Global};

/// The expression that the tokens spell, over these pins.
pub(crate) fn expression(alloc: Global, tokens: &[Token], pins: &[Name]) -> Result<Expr, AllocError>
    requires fits { go_on true 0 tokens.now ≡ true }
    requires few { names_in tokens.now ≤ 64 }
    requires short { length tokens.now ≤ 2 ^ 32 }
    requires pins { length pins.now ≤ 16 }
    ensures { IfOk result (λ expr. SpellsSum pins.now tokens.now expr) }
{
    let mut reading = Reading::new(alloc);
    for token in tokens {
        reading.take(token, pins)?;
    }
    reading.inner.end_sum(&mut reading.ops)?;
    Ok(Expr::new(reading.ops))
}

/// What was read of an expression.
#[derive(Drop)]
struct Reading {
    // the open groups around the inmost one, from the outside in
    outer: Vec<OpenGroup>,
    inner: OpenGroup,
    // the steps of all operands so far
    ops: Vec<ExprOp>,
}

impl Reading {
    fn new(alloc: Global) -> Self
        ensures { IsNew result }
    {
        Reading {
            outer: Vec::new(alloc),
            inner: OpenGroup::new(),
            ops: Vec::new(alloc),
        }
    }

    // Reads one more token.
    fn take(&mut self, token: &Token, pins: &[Name]) -> Result<(), AllocError>
        requires may { MayTake token.now self.old }
        requires pins { length pins.now ≤ 16 }
        ensures { OnOk result (Takes pins.now token.now self.old self.new) }
    {
        match token {
            Token::Name(name) => {
                self.ops.push(literal_of(name, pins))?;
                self.inner.end_factor(&mut self.ops)?;
                Ok(())
            }
            Token::Punct(byte) => self.punct(*byte),
        }
    }

    fn punct(&mut self, byte: u8) -> Result<(), AllocError>
        requires { MayTake (Punct byte) self.old }
        ensures { OnOk result (Takes [] (Punct byte) self.old self.new) }
    {
        match byte {
            b'(' => self.open(),
            b')' => self.close(),
            b'!' => {
                self.inner.add_bang();
                Ok(())
            }
            b'\'' => {
                self.ops.push(ExprOp::Not)?;
                Ok(())
            }
            b'+' => {
                self.inner.end_product(&mut self.ops)?;
                Ok(())
            }
            _ => Ok(()),
        }
    }

    fn open(&mut self) -> Result<(), AllocError>
        ensures { OnOk result (Takes [] grammar.open_token self.old self.new) }
    {
        self.outer.push(self.inner)?;
        self.inner = OpenGroup::new();
        Ok(())
    }

    // The inmost group becomes an operand of the one around it.
    fn close(&mut self) -> Result<(), AllocError>
        requires { MayTake grammar.close_token self.old }
        ensures { OnOk result (Takes [] grammar.close_token self.old self.new) }
    {
        self.inner.end_sum(&mut self.ops)?;
        let Some(group) = self.outer.pop() else {
            return Ok(());
        };
        self.inner = group;
        self.inner.end_factor(&mut self.ops)?;
        Ok(())
    }
}

// The name that stands first, and what stands behind it.
pub(crate) fn first_name(tokens: &[Token]) -> (&Name, &[Token])
    requires { begins_with grammar.is_name tokens.now ≡ true }
    ensures { tokens.now ≡ Token.Name result.0.now ∷ result.1.now }
{
    match tokens {
        [Token::Name(name), rest @ ..] => (name, rest),
        _ => unreachable!(),
    }
}

fn literal_of(name: &Name, pins: &[Name]) -> ExprOp
    requires { length pins.now ≤ 16 }
    ensures { result ∷ [] ≡ postfix (grammar.literal_of pins.now name.now) }
{
    let bytes = name.as_bytes();
    if bytes == b"CONST0".as_slice() {
        ExprOp::Const(false)
    } else if bytes == b"CONST1".as_slice() {
        ExprOp::Const(true)
    } else {
        ExprOp::Pin(place_of(bytes, pins))
    }
}

fn place_of(bytes: &[u8], pins: &[Name]) -> u8
    requires { length pins.now ≤ 16 }
    ensures { result ≡ unwrap_or (position (bytes_eq bytes.now) pins.now) 0 }
{
    for (place, pin) in pins.iter().enumerate() {
        if bytes == pin.as_bytes() {
            return place as u8;
        }
    }
    0
}
