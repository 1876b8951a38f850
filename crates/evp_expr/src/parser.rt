//! The parser: reading token by token.
ghost use Rattle.std.specs.Prelude.{◌≡◌, ◌≤◌, IfSome, true};
ghost use Rattle.evp_expr.specs.Levels.{levels, opens_level};
ghost use Rattle.evp_expr.specs.Parsing.{ReadAnswers};
ghost use Rattle.evp_expr.specs.Steps.{joins, takes_more, function_of};

use crate::expr::Expr;
use crate::fault::ExprFault;
use crate::frames::Frames;
use crate::node::Node;
use crate::operator::{Level, Operator, Sign};
use crate::quoted_text::QuotedText;
use crate::state::{Frame, Mode, Pending};
use crate::token::{Placed, Token};
use crate::trees::Trees;
use evp_base::Name;
use std::alloc::Global;
use std::collections::VecDeque;

/// What is open, and the trees that stand ready.
#[derive(Drop)]
pub struct Parser {
    frames: Frames,
    trees: Trees,
    ghost within: { levels frames ≤ 64 },
}

/// Whether a phrase of this level takes one more operator: a comparison has one at most.
fn takes_more(level: Level, pending: Option<Pending>) -> bool
    ensures { result ≡ takes_more level pending }
{
    match (level, pending) {
        (Level::Comparison, Some(_)) => false,
        _ => true,
    }
}

/// The operator by which a token goes on with a phrase of this level.
fn joining(level: Level, pending: Option<Pending>, token: &Token) -> Option<Operator>
    ensures { result ≡ joins level pending token.now }
{
    match token {
        Token::Operator(operator) => {
            if operator.level() == level && takes_more(level, pending) {
                Some(*operator)
            } else {
                None
            }
        }
        _ => None,
    }
}

/// The function of a name, where it has one.
fn function_of(name: &Name) -> Option<Frame>
    ensures named { result ≡ function_of name.now }
    ensures opens { IfSome result (λ function. opens_level function ≡ true) }
{
    if name.as_bytes() == b"len".as_slice() {
        Some(Frame::Length)
    } else if name.as_bytes() == b"same".as_slice() {
        Some(Frame::Same)
    } else {
        None
    }
}

impl Parser {
    ghost use Rattle.std.specs.Prelude.{◌≡◌, ◌≤◌, IfOk, IfSome, OnOk, true, Some, None, [], ◌∷◌};
    ghost use Rattle.evp_expr.specs.declared.state.Mode.TheVariants as mode;
    ghost use Rattle.evp_expr.specs.declared.token.Token.TheVariants as token;
    ghost use Rattle.evp_expr.specs.Levels.{levels, opens_level, is_bracket};
    ghost use Rattle.evp_expr.specs.Nodes.{last_tree};
    ghost use Rattle.evp_expr.specs.Steps.{State, state, start, settle, goes_on, rungs, begins};
    ghost use Rattle.evp_expr.specs.Steps.{begins_path, names_field, follows_name, extends, after};
    ghost use Rattle.evp_expr.specs.Steps.{gives_text, ends_same, step_at, finish_at, close_all};
    ghost use Rattle.evp_expr.specs.Sound.{IsSound};
    ghost use Rattle.evp_expr.specs.Standing.{StandsAt, HasOperand, CanSettle};
    ghost use Rattle.evp_expr.specs.Opening.{Answers, ClosingAnswers, FinalAnswers, MemoryAlone};

    /// At the start of an expression.
    pub fn new(alloc: Global) -> Result<Parser, ExprFault>
        ensures begun { IfOk result (λ parser.
            state mode.Operand parser.frames parser.trees ≡ start) }
        ensures fault { MemoryAlone result }
    {
        let mut frames = Frames::new(alloc);
        frames.push_rung(Level::Disjunction, None)?;
        frames.climb(Level::Disjunction)?;
        Ok(Parser {
            frames,
            trees: Trees::new(alloc),
        })
    }

    /// Opens a bracket and the phrases of a whole expression.
    fn open_whole(&mut self, at: u32, bracket: Frame) -> Result<Mode, ExprFault>
        requires { opens_level bracket ≡ true }
        ensures { Answers at
            (Some (state mode.Operand (rungs (bracket ∷ self.old.frames)) self.old.trees))
            result self.new.frames self.new.trees }
    {
        self.frames.open(at, bracket)?;
        self.frames.push_rung(Level::Disjunction, None)?;
        self.frames.climb(Level::Disjunction)?;
        Ok(Mode::Operand)
    }

    /// A token where an operand should begin.
    fn begin(&mut self, at: u32, token: Token) -> Result<Mode, ExprFault>
        ensures { Answers at (begins at token self.old.frames self.old.trees)
            result self.new.frames self.new.trees }
    {
        match token {
            Token::Name(name) => Ok(Mode::AfterName(at, name)),
            Token::Number(number) => {
                self.trees.push(Node::Number(number))?;
                Ok(Mode::AfterOperand)
            }
            Token::Operator(operator) => self.begin_negated(at, operator),
            Token::Not => {
                self.frames.open(at, Frame::Sign(at, Sign::Not))?;
                Ok(Mode::Operand)
            }
            Token::OpenParen => self.open_whole(at, Frame::Group),
            _ => Err(ExprFault::Unexpected(at)),
        }
    }

    /// An operator where an operand should begin.
    fn begin_negated(&mut self, at: u32, operator: Operator) -> Result<Mode, ExprFault>
        ensures { Answers at (begins at (token.Operator operator) self.old.frames self.old.trees)
            result self.new.frames self.new.trees }
    {
        match operator {
            Operator::Subtract => {
                self.frames.open(at, Frame::Sign(at, Sign::Negate))?;
                Ok(Mode::Operand)
            }
            _ => Err(ExprFault::Unexpected(at)),
        }
    }

    /// The first token of a path in `len` or `same`.
    fn begin_path(&mut self, at: u32, token: Token) -> Result<Mode, ExprFault>
        ensures { Answers at (begins_path at token self.old.frames self.old.trees)
            result self.new.frames self.new.trees }
    {
        match token {
            Token::Name(name) => {
                self.trees.push(Node::Name(at, name))?;
                Ok(Mode::AfterPath)
            }
            _ => Err(ExprFault::Unexpected(at)),
        }
    }

    /// The token behind a `.`.
    fn name_field(&mut self, at: u32, token: Token) -> Result<Mode, ExprFault>
        requires { StandsAt mode.FieldName self.old.frames self.old.trees }
        ensures { Answers at (names_field at token self.old.frames self.old.trees)
            result self.new.frames self.new.trees }
    {
        match token {
            Token::Name(name) => {
                self.trees.push(Node::Field(at, name))?;
                Ok(Mode::AfterPath)
            }
            _ => Err(ExprFault::Unexpected(at)),
        }
    }

    /// A token behind a path.
    fn extend(&mut self, at: u32, token: Token) -> Result<Mode, ExprFault>
        requires { StandsAt mode.AfterPath self.old.frames self.old.trees }
        ensures { Answers at (extends at token self.old.frames self.old.trees)
            result self.new.frames self.new.trees }
    {
        match token {
            Token::Dot => Ok(Mode::FieldName),
            Token::OpenBracket => self.open_whole(at, Frame::Index(at)),
            _ => self.close(at, &token),
        }
    }

    /// A token behind a name that begins an operand.
    fn follow_name(
        &mut self,
        place: u32,
        name: Name,
        at: u32,
        token: Token,
    ) -> Result<Mode, ExprFault>
        requires { StandsAt (mode.AfterName place name) self.old.frames self.old.trees }
        ensures { Answers at (follows_name place name at token self.old.frames self.old.trees)
            result self.new.frames self.new.trees }
    {
        if !matches!(token, Token::OpenParen) {
            self.trees.push(Node::Name(place, name))?;
            return self.extend(at, token);
        }
        match function_of(&name) {
            Some(function) => {
                self.frames.open(at, function)?;
                Ok(Mode::PathStart)
            }
            None => Err(ExprFault::Unexpected(at)),
        }
    }

    /// Adds the operator that is pending in a phrase, whose operands stand ready.
    fn settle(&mut self, pending: Option<Pending>) -> Result<(), ExprFault>
        requires { CanSettle pending self.old.trees }
        ensures settled { OnOk result (self.new.trees ≡ settle pending self.old.trees) }
        ensures same { self.new.frames ≡ self.old.frames }
        ensures fault { MemoryAlone result }
    {
        match pending {
            Some(pending) => self.trees.push(Node::Joined(pending.at, pending.operator)),
            None => Ok(()),
        }
    }

    /// Goes on with a phrase of this level, by an operator.
    fn join(&mut self, at: u32, level: Level, operator: Operator) -> Result<Mode, ExprFault>
        ensures { Answers at
            (Some (state mode.Operand (goes_on at level operator self.old.frames) self.old.trees))
            result self.new.frames self.new.trees }
    {
        self.frames
            .push_rung(level, Some(Pending { at, operator }))?;
        self.frames.climb(level)?;
        Ok(Mode::Operand)
    }

    /// A token behind what a bracket holds.
    fn leave(&mut self, at: u32, bracket: Frame, token: &Token) -> Result<Mode, ExprFault>
        requires bracket { is_bracket bracket ≡ true }
        requires operand { HasOperand (bracket ∷ self.old.frames) self.old.trees }
        ensures { Answers at (after at token.now (bracket ∷ self.old.frames) self.old.trees)
            result self.new.frames self.new.trees }
    {
        match (bracket, token) {
            (Frame::Group, Token::CloseParen) => Ok(Mode::AfterOperand),
            (Frame::Length, Token::CloseParen) => {
                self.trees.push(Node::Length)?;
                Ok(Mode::AfterOperand)
            }
            (Frame::Index(place), Token::CloseBracket) => {
                self.trees.push(Node::Index(place))?;
                Ok(Mode::AfterPath)
            }
            (Frame::Same, Token::Comma) => {
                self.frames.open(at, Frame::Same)?;
                Ok(Mode::TextOfSame)
            }
            _ => Err(ExprFault::Unexpected(at)),
        }
    }

    /// A token behind an operand that nothing extends: closes what the operand ends, up to what the
    /// token belongs to.
    fn close(&mut self, at: u32, token: &Token) -> Result<Mode, ExprFault>
        requires { HasOperand self.old.frames self.old.trees }
        ensures { Answers at (after at token.now self.old.frames self.old.trees)
            result self.new.frames self.new.trees }
    {
        while let Some(frame) = self.frames.pop() {
            match frame {
                Frame::Rung(level, pending) => {
                    self.settle(pending)?;
                    if let Some(operator) = joining(level, pending, token) {
                        return self.join(at, level, operator);
                    }
                }
                Frame::Sign(place, sign) => self.trees.push(Node::Signed(place, sign))?,
                bracket => return self.leave(at, bracket, token),
            }
        }
        Err(ExprFault::Unexpected(at))
    }

    /// The token in the place of a text in `same`.
    fn give_text(&mut self, at: u32, token: Token) -> Result<Mode, ExprFault>
        ensures { Answers at (gives_text token self.old.frames self.old.trees)
            result self.new.frames self.new.trees }
    {
        match token {
            Token::Text(text) => Ok(Mode::EndOfSame(text)),
            _ => Err(ExprFault::Unexpected(at)),
        }
    }

    /// The token in the place of the `)` of `same`.
    fn end_same(&mut self, text: QuotedText, at: u32, token: Token) -> Result<Mode, ExprFault>
        requires { StandsAt (mode.EndOfSame text) self.old.frames self.old.trees }
        ensures { Answers at (ends_same text token self.old.frames self.old.trees)
            result self.new.frames self.new.trees }
    {
        match (self.frames.pop(), token) {
            (Some(Frame::Same), Token::CloseParen) => {
                self.trees.push(Node::Same(text))?;
                Ok(Mode::AfterOperand)
            }
            _ => Err(ExprFault::Unexpected(at)),
        }
    }

    /// Takes the next token, in this mode; gives the mode behind it.
    pub fn take(&mut self, mode: Mode, at: u32, token: Token) -> Result<Mode, ExprFault>
        requires { StandsAt mode self.old.frames self.old.trees }
        ensures { Answers at (step_at mode self.old.frames self.old.trees at token)
            result self.new.frames self.new.trees }
    {
        match mode {
            Mode::Operand => self.begin(at, token),
            Mode::PathStart => self.begin_path(at, token),
            Mode::FieldName => self.name_field(at, token),
            Mode::AfterName(place, name) => self.follow_name(place, name, at, token),
            Mode::AfterPath => self.extend(at, token),
            Mode::AfterOperand => self.close(at, &token),
            Mode::TextOfSame => self.give_text(at, token),
            Mode::EndOfSame(text) => self.end_same(text, at, token),
        }
    }

    /// The expression where the text ends here, in this mode.
    pub fn finish(mut self, mode: Mode, end: u32) -> Result<Expr, ExprFault>
        requires reached { StandsAt mode self.frames self.trees }
        requires sound { IfSome (finish_at mode self.frames self.trees) IsSound }
        ensures { FinalAnswers end (finish_at mode self.frames self.trees) result }
    {
        match mode {
            Mode::AfterName(place, name) => self.trees.push(Node::Name(place, name))?,
            Mode::AfterPath | Mode::AfterOperand => {}
            _ => return Err(ExprFault::Unexpected(end)),
        }
        self.close_all(end)?;
        Ok(self.trees.into_expr())
    }

    /// Closes all that an operand at the end of the text may end, which leaves the tree of the
    /// whole.
    fn close_all(&mut self, end: u32) -> Result<(), ExprFault>
        requires { HasOperand self.old.frames self.old.trees }
        ensures { ClosingAnswers end (close_all self.old.frames self.old.trees)
            result self.new.trees }
    {
        while let Some(frame) = self.frames.pop() {
            match frame {
                Frame::Rung(_, pending) => self.settle(pending)?,
                Frame::Sign(place, sign) => self.trees.push(Node::Signed(place, sign))?,
                _ => return Err(ExprFault::Unexpected(end)),
            }
        }
        Ok(())
    }
}

/// The expression of these tokens, whose text ends at `end`.
pub fn read(alloc: Global, mut tokens: VecDeque<Placed>, end: u32) -> Result<Expr, ExprFault>
    ensures { ReadAnswers tokens.items end result }
{
    let mut parser = Parser::new(alloc)?;
    let mut mode = Mode::Operand;
    while let Some(placed) = tokens.pop_front() {
        mode = parser.take(mode, placed.at, placed.token)?;
    }
    parser.finish(mode, end)
}
