//! Operators and the levels at which they bind.
ghost use Rattle.std.specs.Prelude.{◌≡◌};
ghost use Rattle.evp_expr.specs.Levels.{level_of};

/// An operator between two operands.
#[derive(Clone, Copy, Debug, PartialEq, Eq)]
pub enum Operator {
    /// `||`
    Or,
    /// `&&`
    And,
    /// `==`
    Equal,
    /// `!=`
    NotEqual,
    /// `<`
    Less,
    /// `<=`
    LessEqual,
    /// `>`
    Greater,
    /// `>=`
    GreaterEqual,
    /// `+`
    Add,
    /// `-`
    Subtract,
    /// `*`
    Multiply,
    /// `/`
    Divide,
    /// `%`
    Remainder,
}

/// An operator before one operand.
#[derive(Clone, Copy, Debug, PartialEq, Eq)]
pub enum Sign {
    /// `-`
    Negate,
    /// `!`
    Not,
}

/// A level of operators between two operands, the loosest first.
#[derive(Clone, Copy, Debug, PartialEq, Eq)]
pub enum Level {
    /// `||`
    Disjunction,
    /// `&&`
    Conjunction,
    /// `==`, `!=`, `<`, `<=`, `>`, `>=`
    Comparison,
    /// `+`, `-`
    Sum,
    /// `*`, `/`, `%`
    Product,
}

impl Operator {
    /// The level at which this operator binds.
    pub fn level(self) -> Level
        ensures { result ≡ level_of self }
    {
        match self {
            Operator::Or => Level::Disjunction,
            Operator::And => Level::Conjunction,
            Operator::Equal
            | Operator::NotEqual
            | Operator::Less
            | Operator::LessEqual
            | Operator::Greater
            | Operator::GreaterEqual => Level::Comparison,
            Operator::Add | Operator::Subtract => Level::Sum,
            Operator::Multiply | Operator::Divide | Operator::Remainder => Level::Product,
        }
    }
}
