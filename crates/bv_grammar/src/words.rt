//! The words of the grammar, and what a terminal is and is taken as.

ghost use Rattle.std.specs.Prelude.{◌≡◌};
ghost use Rattle.bv_grammar.specs.Operators.{prefix_level, fixity_of};
ghost use Rattle.bv_grammar.specs.Grammar.{terminal_of};

/// A word of the grammar: a reserved word, a sign or an operator. Two spellings of one operator are one word.
#[derive(Clone, Copy, Debug, PartialEq, Eq)]
pub enum Word {
    /// `theorem`, the head of a goal with a name.
    Theorem,
    /// `example`, the head of a goal without a name.
    Example,
    /// `import`.
    Import,
    /// `open`.
    Open,
    /// `by`, which begins a proof.
    By,
    /// `if`.
    If,
    /// `then`.
    Then,
    /// `else`.
    Else,
    /// `true`, the Boolean.
    True,
    /// `false`, the Boolean.
    False,
    /// `True`, the proposition.
    TrueProposition,
    /// `False`, the proposition.
    FalseProposition,
    /// `Bool`, the sort of truths.
    Bool,
    /// `BitVec`, the sort of bit vectors.
    BitVec,
    /// `intros`.
    Intros,
    /// `bv_decide`.
    Decide,
    /// `bv_check`.
    Check,
    /// `(`.
    LeftRound,
    /// `)`.
    RightRound,
    /// `{`.
    LeftBrace,
    /// `}`.
    RightBrace,
    /// `:`.
    Colon,
    /// `:=`.
    Assign,
    /// `.`.
    Dot,
    /// `,`, which no rule takes.
    Comma,
    /// `;`.
    Semicolon,
    /// `#`, between a literal's number and its width.
    Hash,
    /// `~~~`, bitwise complement, a prefix operator.
    Complement,
    /// `<<<`, shift to the left.
    ShiftLeft,
    /// `>>>`, shift to the right.
    ShiftRight,
    /// `-`, negation as a prefix operator and subtraction as an infix one.
    Minus,
    /// `*`, product.
    Times,
    /// `/`, quotient.
    Divide,
    /// `%`, remainder.
    Modulo,
    /// `+`, sum.
    Plus,
    /// `++`, concatenation.
    Append,
    /// `&&&`, bitwise and.
    BitAnd,
    /// `^^^`, bitwise exclusive or.
    BitXor,
    /// `|||`, bitwise or.
    BitOr,
    /// `=`, equality of propositions.
    Equal,
    /// `≠`, its negation.
    NotEqual,
    /// `==`, Boolean equality.
    BoolEqual,
    /// `!=`, its negation.
    BoolNotEqual,
    /// `<`, less as unsigned numbers.
    Less,
    /// `≤` or `<=`, at most as unsigned numbers.
    AtMost,
    /// `>`, greater as unsigned numbers.
    Greater,
    /// `≥` or `>=`, at least as unsigned numbers.
    AtLeast,
    /// `¬`, negation of a proposition, a prefix operator.
    Not,
    /// `!`, Boolean negation, a prefix operator.
    BoolNot,
    /// `∧` or `/\`, conjunction of propositions.
    And,
    /// `&&`, Boolean conjunction.
    BoolAnd,
    /// `^^`, Boolean exclusive or.
    BoolXor,
    /// `∨` or `\/`, disjunction of propositions.
    Or,
    /// `||`, Boolean disjunction.
    BoolOr,
    /// `→` or `->`, implication.
    Implies,
    /// `↔` or `<->`, equivalence.
    Iff,
}

/// What stands at one place of a file for the grammar.
#[derive(Clone, Copy, Debug, PartialEq, Eq)]
pub enum Terminal {
    /// A name, whichever.
    Name,
    /// A numeral, whichever.
    Numeral,
    /// A string, whichever.
    Text,
    /// A reserved word, a sign or an operator.
    Word(Word),
}

/// What a terminal is taken as.
#[derive(Clone, Copy, Debug, PartialEq, Eq)]
pub enum Role {
    /// A name in a path. (`Bool` or `BitVec` in a path is taken as that word.)
    Part,
    /// A name that a binder in round brackets binds, or which stands before a hypothesis.
    Binder,
    /// A name that a binder in braces binds.
    BraceBinder,
    /// A name that is a term.
    Variable,
    /// The name of a method.
    Method,
    /// A numeral that is a term, or the number of a literal.
    Numeral,
    /// The numeral of a width, behind `BitVec` or `#`.
    Width,
    /// The string behind `bv_check`.
    File,
    /// A prefix operator of a term.
    Prefix(Word),
    /// An infix operator of a term.
    Infix(Word),
    /// `true`, `false`, `True` or `False`, which are terms.
    Constant(Word),
    /// The `(` of a term in brackets, which also stands before an ascription.
    Bracket,
    /// The `:` of an ascription.
    Ascription,
    /// Any other word, as itself: the words of items, binders, sorts and proofs, `if`, `then` and `else`, `.`, `#`, and the
    /// closing brackets.
    Word(Word),
}

/// The level of an infix operator, and the levels that bound its operands.
#[derive(Clone, Copy, Debug, PartialEq, Eq)]
pub struct Fixity {
    /// The level of the term that the operator makes.
    pub level: u32,
    /// The least level of what stands to its left.
    pub left: u32,
    /// The level at which its right operand is read.
    pub right: u32,
}

impl Word {
    /// The level of a prefix operator, at which its operand is read too.
    pub fn prefix_level(self) -> Option<u32>
        ensures { result ≡ prefix_level self }
    {
        match self {
            Word::Complement => Some(100),
            Word::Minus => Some(75),
            Word::Not | Word::BoolNot => Some(40),
            _ => None,
        }
    }

    /// The level and the bounds of an infix operator.
    pub fn fixity(self) -> Option<Fixity>
        ensures { result ≡ fixity_of self }
    {
        let (level, left, right) = match self {
            Word::ShiftLeft | Word::ShiftRight => (75, 75, 76),
            Word::Times | Word::Divide | Word::Modulo => (70, 70, 71),
            Word::Plus | Word::Minus | Word::Append => (65, 65, 66),
            Word::BitAnd => (60, 60, 61),
            Word::BitXor => (58, 58, 59),
            Word::BitOr => (55, 55, 56),
            Word::Equal | Word::NotEqual | Word::BoolEqual | Word::BoolNotEqual => (50, 51, 51),
            Word::Less | Word::AtMost | Word::Greater | Word::AtLeast => (50, 51, 51),
            Word::And | Word::BoolAnd => (35, 35, 36),
            Word::BoolXor => (33, 33, 34),
            Word::Or | Word::BoolOr => (30, 30, 31),
            Word::Implies => (25, 26, 25),
            Word::Iff => (20, 21, 21),
            _ => return None,
        };
        Some(Fixity { level, left, right })
    }
}

impl Role {
    /// The terminal that is taken in this role.
    pub fn terminal(self) -> Terminal
        ensures { result ≡ terminal_of self }
    {
        match self {
            Role::Part | Role::Variable | Role::Method => Terminal::Name,
            Role::Binder | Role::BraceBinder => Terminal::Name,
            Role::Numeral | Role::Width => Terminal::Numeral,
            Role::File => Terminal::Text,
            Role::Prefix(word) | Role::Infix(word) | Role::Constant(word) => Terminal::Word(word),
            Role::Bracket => Terminal::Word(Word::LeftRound),
            Role::Ascription => Terminal::Word(Word::Colon),
            Role::Word(word) => Terminal::Word(word),
        }
    }
}
