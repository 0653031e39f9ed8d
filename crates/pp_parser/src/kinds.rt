//! Which kinds of token play which part.

ghost use Rattle.std.specs.Prelude.{◌≡◌};
ghost use Rattle.pp_parser.specs.Kinds as spec;

use pp_lexer::Kind;

/// A name, also that of a statement function.
pub fn is_name(next: Option<Kind>) -> bool
    ensures { result ≡ spec.is_name next }
{
    match next {
        Some(Kind::Name | Kind::StatementFunction) => true,
        _ => false,
    }
}

/// A name or a keyword, as the name of an attribute.
pub fn is_word(next: Option<Kind>) -> bool
    ensures { result ≡ spec.is_word next }
{
    match next {
        Some(
            Kind::Name
            | Kind::StatementFunction
            | Kind::And
            | Kind::Case
            | Kind::Class
            | Kind::Default
            | Kind::Define
            | Kind::Else
            | Kind::Elsif
            | Kind::False
            | Kind::Function
            | Kind::If
            | Kind::In
            | Kind::Inherits
            | Kind::Node
            | Kind::Or
            | Kind::True
            | Kind::Undef
            | Kind::Unless,
        ) => true,
        _ => false,
    }
}

/// A token that an expression may begin with.
pub fn begins_expression(next: Option<Kind>) -> bool
    ensures { result ≡ spec.begins_expression next }
{
    match next {
        Some(
            Kind::Name
            | Kind::StatementFunction
            | Kind::Type
            | Kind::Variable
            | Kind::QualifiedVariable
            | Kind::Number
            | Kind::Text
            | Kind::TextBegin
            | Kind::True
            | Kind::False
            | Kind::Undef
            | Kind::Default
            | Kind::TightBracket
            | Kind::OpenBracket
            | Kind::OpenBrace
            | Kind::OpenParen
            | Kind::If
            | Kind::Unless
            | Kind::Case
            | Kind::Bang
            | Kind::Minus
            | Kind::Star,
        ) => true,
        _ => false,
    }
}

/// A bar of a lambda's parameters.
pub fn is_bar(next: Option<Kind>) -> bool
    ensures { result ≡ spec.is_bar next }
{
    match next {
        Some(Kind::Bar | Kind::LastBar) => true,
        _ => false,
    }
}

/// A bar that may end the parameters of a template.
pub fn ends_params(next: Option<Kind>) -> bool
    ensures { result ≡ spec.ends_params next }
{
    match next {
        Some(Kind::Bar | Kind::LastBar | Kind::ParamsEnd) => true,
        _ => false,
    }
}

/// The end of the attributes of a resource's body.
pub fn ends_body(next: Option<Kind>) -> bool
    ensures { result ≡ spec.ends_body next }
{
    match next {
        Some(Kind::Semicolon | Kind::CloseBrace) => true,
        _ => false,
    }
}

/// A token that something behind a value may begin with.
pub fn begins_postfix(next: Option<Kind>) -> bool
    ensures { result ≡ spec.begins_postfix next }
{
    match next {
        Some(Kind::TightBracket | Kind::Dot | Kind::Question) => true,
        _ => false,
    }
}
