//! Reading an expression's text.
ghost use Rattle.std.specs.Prelude.{◌≡◌, IfOk, IfErr, ◌⊎◌};
ghost use Rattle.evp_expr.specs.declared.fault.ExprFault.TheVariants.{Memory};
ghost use Rattle.evp_expr.specs.Parsing.{HasTree, HasFault};

use crate::expr::Expr;
use crate::fault::ExprFault;
use crate::lexer::tokens;
use crate::parser::read;
use std::alloc::Global;

/// The bytes that a text may have.
const MAX_BYTES: usize = 4096;

/// The expression of a text, or the first fault: the text is too long; then the first place where
/// no token stands, or a number that is too large; then the first token that is unexpected or opens
/// a level too many, or the end of a text that isn't complete. The grammar is stated in
/// specs/Grammar.antt.
pub fn parse(alloc: Global, text: &str) -> Result<Expr, ExprFault>
    ensures tree { IfOk result (λ expr. HasTree text.now expr) }
    ensures fault { IfErr result (λ fault. (fault ≡ Memory) ⊎ HasFault text.now fault) }
{
    let bytes = text.as_bytes();
    if bytes.len() > MAX_BYTES {
        return Err(ExprFault::Long);
    }
    let tokens = tokens(alloc, bytes)?;
    read(alloc, tokens, bytes.len() as u32)
}
