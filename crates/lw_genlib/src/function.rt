// What the text of a function says.
ghost use Rattle.std.specs.Prelude.{◌≡◌, ◌<◌, [], None, MatchResult};
ghost use Rattle.lw_genlib.specs.Functions.{AreLined, IsText, Says, first_fault};
ghost use Rattle.lw_genlib.specs.Spelled.{inner_of};
ghost use Rattle.lw_genlib.specs.Tells.{TellsFault};

use crate::check_tokens::pins_of;
use crate::parsing::{expression, first_name};
use crate::{Expr, LibFault, Token};
use lw_pool::{Name, Names};
use std::alloc::Global;

/// What the text of a function says: the output, the pins, and an expression over them.
#[derive(Drop)]
pub(crate) struct Function {
    pub(crate) output: Name,
    pub(crate) pins: Names,
    pub(crate) form: Expr,
}

/// The function that the tokens spell, or the first token that may not stand, by its line.
pub(crate) fn function_of(
    alloc: Global,
    tokens: &[Token],
    lines: &[u32],
) -> Result<Function, LibFault>
    requires lined { AreLined tokens.now lines.now }
    requires text { IsText tokens.now }
    ensures { MatchResult result
        (λ f. Says tokens.now f.output f.pins f.form × (first_fault [] lines.now tokens.now ≡ None))
        (TellsFault (first_fault [] lines.now tokens.now)) }
{
    let pins = pins_of(alloc, tokens, lines)?;
    let (output, _) = first_name(tokens);
    let Ok(output) = Name::from_slice(alloc, output.as_bytes()) else {
        return Err(LibFault::Memory);
    };
    let Ok(form) = expression(alloc, between(tokens), pins.as_slice()) else {
        return Err(LibFault::Memory);
    };
    Ok(Function { output, pins, form })
}

// The tokens behind the first two and before the last: those of the expression.
pub(crate) fn between(tokens: &[Token]) -> &[Token]
    ensures { result.now ≡ inner_of tokens.now }
{
    match tokens {
        [_, _, inner @ .., _] => inner,
        _ => &[],
    }
}
