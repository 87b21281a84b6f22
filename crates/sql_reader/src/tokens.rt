//! Tokens.

ghost use Rattle.std.specs.Prelude.{◌≡◌};
ghost use Rattle.sql_reader.specs.Marks.{mark_number};

use orca_base::Text;

/// A token that its spelling alone tells apart: a word of the language or a symbol.
#[derive(Clone, Copy)]
pub enum Mark {
    Select,
    From,
    And,
    By,
    Asc,
    Desc,
    As,
    /// A reserved word that no query has.
    Reserved,
    Comma,
    Dot,
    Open,
    Close,
    Star,
    Equal,
    NotEqual,
    Less,
    LessEqual,
    Greater,
    GreaterEqual,
    Where,
    Group,
    Order,
    Semicolon,
}

/// A function of a column.
#[derive(Clone, Copy)]
pub enum Function {
    Count,
    Sum,
    Min,
    Max,
}

#[derive(Drop)]
pub enum Kind {
    Mark(Mark),
    Name(Text),
    Function(Function),
    Integer(i64),
    Quoted(Text),
}

/// A token and the offset of its first byte.
#[derive(Drop)]
pub struct Token {
    pub at: u32,
    pub kind: Kind,
}

/// A name and the offset of its first byte.
#[derive(Drop)]
pub struct Name {
    pub at: u32,
    pub text: Text,
}

impl Mark {
    /// Tells marks apart.
    pub fn number(self) -> u8
        ensures { result ≡ mark_number self }
    {
        match self {
            Mark::Select => 0,
            Mark::From => 1,
            Mark::And => 2,
            Mark::By => 3,
            Mark::Asc => 4,
            Mark::Desc => 5,
            Mark::As => 6,
            Mark::Reserved => 7,
            Mark::Comma => 8,
            Mark::Dot => 9,
            Mark::Open => 10,
            Mark::Close => 11,
            Mark::Star => 12,
            Mark::Equal => 13,
            Mark::NotEqual => 14,
            Mark::Less => 15,
            Mark::LessEqual => 16,
            Mark::Greater => 17,
            Mark::GreaterEqual => 18,
            Mark::Where => 19,
            Mark::Group => 20,
            Mark::Order => 21,
            Mark::Semicolon => 22,
        }
    }
}
