// Checks the tokens of a function one by one: finds the first that may not stand where it does.
ghost use Rattle.std.specs.Prelude.{◌≡◌, ◌<◌, ◌^◌, [], MatchResult, OnOk, Some, None, ◌||◌, ◌==◌};
ghost use Rattle.std.specs.Prelude.{false, if◌then◌else◌};
ghost use Rattle.lw_genlib.specs.Grammar as grammar;
ghost use Rattle.lw_genlib.specs.Functions as function;
ghost use Rattle.lw_genlib.specs.FunctionChecks as checks;
ghost use Rattle.lw_genlib.specs.Tells.{TellsFault};

use crate::function_check::{self, FunctionCheck};
use crate::{LibFault, LibKind, Token};
use lw_pool::{Name, Names};
use std::alloc::{AllocError, Global};

/// The pins that the tokens name, or the first token that may not stand, by its line.
pub(crate) fn pins_of(alloc: Global, tokens: &[Token], lines: &[u32]) -> Result<Names, LibFault>
    requires { function.AreLined tokens.now lines.now }
    ensures { MatchResult result
        (λ pins. (pins ≡ function.pins_in tokens.now) ×
        (function.first_fault [] lines.now tokens.now ≡ None))
        (TellsFault (function.first_fault [] lines.now tokens.now)) }
{
    let mut check = nothing_checked(alloc);
    for (place, token) in tokens.iter().enumerate() {
        if let Some(kind) = fault(&check, token) {
            return Err(LibFault::Line(lines[place], kind));
        }
        let Ok(()) = add(alloc, &mut check, token) else {
            return Err(LibFault::Memory);
        };
    }
    Ok(check.pins)
}

fn nothing_checked(alloc: Global) -> FunctionCheck
    ensures { result ≡ checks.check_of [] }
{
    FunctionCheck {
        count: 0,
        equals: false,
        awaits: false,
        depth: 0,
        names: 0,
        constant: false,
        no_parens: 0,
        pins: Names::new(alloc),
    }
}

// The first rule that the token breaks behind those that were checked.
fn fault(check: &FunctionCheck, token: &Token) -> Option<LibKind>
    ensures { result ≡ checks.fault_at check.now token.now }
{
    if is_bad(check, token) {
        Some(LibKind::BadByte)
    } else if !may_follow(check, token) {
        Some(LibKind::Expected)
    } else if function_check::is_name(token) && check.names >= 65 {
        Some(LibKind::LimitLiterals)
    } else if is_new_pin(check, token) && check.pins.len() >= 16 {
        Some(LibKind::LimitPins)
    } else if function_check::is_punct(b';', token) && has_constant_inside(check) {
        Some(LibKind::ConstInside)
    } else {
        None
    }
}

fn is_bad(check: &FunctionCheck, token: &Token) -> bool
    ensures { result ≡ checks.bad_at check.now token.now }
{
    match token {
        Token::Name(name) => function_check::ends_in_stroke(name.as_bytes()),
        Token::Punct(b'=') => check.equals,
        Token::Punct(byte) => matches!(*byte, b'&' | b'|' | b'^' | b'"'),
    }
}

fn may_follow(check: &FunctionCheck, token: &Token) -> bool
    ensures { result ≡ checks.may_follow_at check.now token.now }
{
    if check.count == 0 {
        function_check::is_name(token)
    } else if check.count == 1 {
        function_check::is_punct(b'=', token)
    } else if function_check::is_punct(b';', token) {
        !check.awaits && check.depth == 0
    } else {
        function_check::fits(check.awaits, check.depth, token)
    }
}

fn is_new_pin(check: &FunctionCheck, token: &Token) -> bool
    ensures { result ≡ checks.new_pin_at check.now token.now }
{
    match token {
        Token::Name(name) => {
            let name = name.as_bytes();
            !function_check::is_constant_name(name) && !function_check::is_among(name, &check.pins)
        }
        Token::Punct(_) => false,
    }
}

fn has_constant_inside(check: &FunctionCheck) -> bool
    ensures { result ≡ checks.constant_inside_at check.now }
{
    check.constant && check.no_parens != 3
}

// Adds one more token to those that were checked.
fn add(alloc: Global, check: &mut FunctionCheck, token: &Token) -> Result<(), AllocError>
    requires { checks.HasRoom check.old }
    ensures { OnOk result (check.new ≡ checks.check_more check.old token.now) }
{
    add_pin(alloc, check.count, &mut check.pins, token)?;
    check.constant = constant_behind(check.count, check.constant, token);
    check.count += 1;
    check.equals = equals_behind(check.equals, token);
    check.awaits = function_check::awaits_behind(token);
    check.depth = depth_behind(token, check.depth);
    check.names += usize::from(function_check::is_name(token));
    check.no_parens += usize::from(function_check::is_no_paren(token));
    Ok(())
}

fn equals_behind(equals: bool, token: &Token) -> bool
    ensures { result ≡ (equals || grammar.is_punct 61 token.now) }
{
    equals || function_check::is_punct(b'=', token)
}

fn constant_behind(count: usize, constant: bool, token: &Token) -> bool
    ensures { result
        ≡ (if count == 0 then false else (constant || function.is_constant token.now)) }
{
    count != 0 && (constant || function_check::is_constant(token))
}

fn depth_behind(token: &Token, depth: usize) -> usize
    requires { depth < 2 ^ 32 }
    ensures { result ≡ grammar.depth_behind token.now depth }
{
    match token {
        Token::Punct(b'(') => depth + 1,
        Token::Punct(b')') => depth.saturating_sub(1),
        _ => depth,
    }
}

// Adds the pin that the token names, where it is a new one and not the output's name.
fn add_pin(alloc: Global, count: usize, pins: &mut Names, token: &Token) -> Result<(), AllocError>
    ensures { OnOk result (pins.new
        ≡ (if count == 0 then pins.old else function.with_pin pins.old token.now)) }
{
    let Token::Name(name) = token else {
        return Ok(());
    };
    let bytes = name.as_bytes();
    if count != 0
        && !function_check::is_constant_name(bytes)
        && !function_check::is_among(bytes, pins)
    {
        pins.push(Name::from_slice(alloc, bytes)?)?;
    }
    Ok(())
}
