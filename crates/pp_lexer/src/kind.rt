//! The kinds of tokens.

/// What a token is.
#[derive(Clone, Copy, Debug, PartialEq, Eq)]
pub enum Kind {
    /// A name that is neither a keyword nor the name of a statement function, such as `notify` or `::web::vhost`.
    Name,
    /// The name of a function that may stand without parentheses: `include contain require realize notice warning info
    /// debug err fail`.
    StatementFunction,
    /// A name whose segments begin with a capital, such as `File` or `Web::Vhost`.
    Type,
    /// A variable of one segment without a leading `::`. Its text is what stands after `$`.
    Variable,
    /// Any other variable, such as `$::x` or `$a::b`.
    QualifiedVariable,
    /// A whole number. Its token has the value.
    Number,
    /// A text in single quotes. The token's text is what it says.
    Text,

    // ---- a text in double quotes, or one in single quotes that the end of the file cuts off
    /// The quote that begins it.
    TextBegin,
    /// A run of characters in it, with what they say. It is never empty, and no two stand side by side.
    Piece,
    /// `$name` in it. The token's text is what stands after `$`.
    VariableInText,
    /// `${`.
    InterpolationBegin,
    /// The `}` that ends `${`.
    InterpolationEnd,
    /// The quote that ends it.
    TextEnd,

    // ---- keywords
    And,
    Case,
    Class,
    Default,
    Define,
    Else,
    Elsif,
    False,
    Function,
    If,
    In,
    Inherits,
    Node,
    Or,
    True,
    Undef,
    Unless,

    // ---- punctuation
    /// `{`
    OpenBrace,
    /// `}`
    CloseBrace,
    /// `(`
    OpenParen,
    /// `)`
    CloseParen,
    /// `[` that stands directly behind another token
    TightBracket,
    /// `[` behind white space or a comment, or at the beginning of the file
    OpenBracket,
    /// `]`
    CloseBracket,
    /// `:`
    Colon,
    /// `;`
    Semicolon,
    /// `,`
    Comma,
    /// `.`
    Dot,
    /// `?`
    Question,
    /// `=>`
    Arrow,
    /// `+>`
    PlusArrow,
    /// `->`
    InEdge,
    /// `~>`
    InEdgeSub,
    /// `<-`
    OutEdge,
    /// `<~`
    OutEdgeSub,
    /// `@`
    At,
    /// `@@`
    AtAt,
    /// `<|`
    OpenCollector,
    /// `|>`
    CloseCollector,
    /// `<<|`
    OpenExported,
    /// `|>>`
    CloseExported,
    /// `|` that the token `{` does not follow
    Bar,
    /// `|` that the token `{` follows
    LastBar,
    /// `=`
    Assign,
    /// `==`
    Equal,
    /// `!=`
    NotEqual,
    /// `=~`
    Match,
    /// `!~`
    NoMatch,
    /// `<`
    Less,
    /// `<=`
    AtMost,
    /// `>`
    Greater,
    /// `>=`
    AtLeast,
    /// `>>`, before the type of what a function gives
    Returns,
    /// `<<`
    Append,
    /// `+`
    Plus,
    /// `-`
    Minus,
    /// `*`
    Star,
    /// `/`
    Slash,
    /// `%`
    Percent,
    /// `!`
    Bang,

    // ---- a template's alone, which stand in no manifest
    /// What stands outside of its tags. The token's text is what it emits.
    RenderString,
    /// `<%=`, before a value that is emitted.
    RenderExpr,
    /// The `|` that begins its parameters, as the first token of its first tag.
    ParamsBegin,
    /// A `|` that is the last token of the tag of its parameters.
    ParamsEnd,
    /// The `%>` that ends `<%=`, or the tag of its parameters.
    TagEnd,

    // ---- what ends a list of tokens early
    /// No token can be read here. It is the last of its list.
    Bad,
    /// The end of the file, where a text or a comment is not ended. It is the last of its list.
    Unclosed,
}
