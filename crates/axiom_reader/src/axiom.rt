//! The axiom over names that a line says.

ghost use Rattle.std.specs.Prelude.{◌≡◌, option_map, IfSome, IfNone};
ghost use Rattle.axiom_reader.specs.Axioms.{NamedAxiom as Named, Says};
ghost use Rattle.axiom_reader.specs.Lines.{words_of};
ghost use Rattle.axiom_reader.specs.Parts.{IsFound, axiom_at, axiom_of, basic_at, basic_of, concepts_at, name_at, role_at, role_of, roles_at, sign_at};

use crate::name::name;
use crate::words::{is_end, next_word, skip_word};

/// A role over names.
#[derive(Clone, Copy, Debug)]
pub(crate) struct NamedRole<'a> {
    /// The name of the role.
    pub name: &'a str,
    /// Whether `inv` stands before it.
    pub inverse: bool,
}

/// A basic concept over names.
#[derive(Clone, Copy, Debug)]
pub(crate) enum NamedBasic<'a> {
    /// A concept name.
    Concept(&'a str),
    /// `some` and a role.
    Has(NamedRole<'a>),
}

/// An axiom over names. It is negated where `not` stands before its right side.
#[derive(Clone, Copy, Debug)]
pub(crate) enum NamedAxiom<'a> {
    /// An axiom of two basic concepts.
    Concepts {
        left: NamedBasic<'a>,
        negated: bool,
        right: NamedBasic<'a>,
    },
    /// An axiom of two roles.
    Roles {
        left: NamedRole<'a>,
        negated: bool,
        right: NamedRole<'a>,
    },
}

/// The axiom that a line says, or `None` where it says none.
pub(crate) fn axiom(line: &[u8]) -> Option<NamedAxiom<'_>>
    ensures found { IfSome result (λ named. Says line.now (axiom_of named)) }
    ensures none { IfNone result ((named : Named) → ¬ (Says line.now named)) }
{
    parsed(line)
}

/// The axiom that the words of a line have the form of.
fn parsed(line: &[u8]) -> Option<NamedAxiom<'_>>
    ensures exact { option_map axiom_of result ≡ axiom_at (words_of line.now) }
{
    let (of_roles, sides) = skip_word(line, b"role");
    if of_roles {
        roles(sides)
    } else {
        concepts(sides)
    }
}

/// Two basic concepts with a sign between them.
fn concepts(line: &[u8]) -> Option<NamedAxiom<'_>>
    ensures exact { option_map axiom_of result ≡ concepts_at (words_of line.now) }
{
    let (left, rest) = basic(line)?;
    let (negated, rest) = sign(rest)?;
    let (right, rest) = basic(rest)?;
    is_end(rest).then_some(NamedAxiom::Concepts {
        left,
        negated,
        right,
    })
}

/// Two roles with a sign between them.
fn roles(line: &[u8]) -> Option<NamedAxiom<'_>>
    ensures exact { option_map axiom_of result ≡ roles_at (words_of line.now) }
{
    let (left, rest) = role(line)?;
    let (negated, rest) = sign(rest)?;
    let (right, rest) = role(rest)?;
    is_end(rest).then_some(NamedAxiom::Roles {
        left,
        negated,
        right,
    })
}

/// `<`, and whether `not` follows it.
fn sign(line: &[u8]) -> Option<(bool, &[u8])>
    ensures exact { IsFound (λ negated. negated) result (sign_at (words_of line.now)) }
{
    let (less, rest) = skip_word(line, b"<");
    if less {
        Some(skip_word(rest, b"not"))
    } else {
        None
    }
}

/// A name, or `some` and a role.
fn basic(line: &[u8]) -> Option<(NamedBasic<'_>, &[u8])>
    ensures exact { IsFound basic_of result (basic_at (words_of line.now)) }
{
    let (some, rest) = skip_word(line, b"some");
    if some {
        let (role, rest) = role(rest)?;
        Some((NamedBasic::Has(role), rest))
    } else {
        let (name, rest) = next_name(rest)?;
        Some((NamedBasic::Concept(name), rest))
    }
}

/// A name, or `inv` and a name.
fn role(line: &[u8]) -> Option<(NamedRole<'_>, &[u8])>
    ensures exact { IsFound role_of result (role_at (words_of line.now)) }
{
    let (inverse, rest) = skip_word(line, b"inv");
    let (name, rest) = next_name(rest)?;
    Some((NamedRole { name, inverse }, rest))
}

/// A name.
fn next_name(line: &[u8]) -> Option<(&str, &[u8])>
    ensures exact { IsFound (λ text. text.now) result (name_at (words_of line.now)) }
{
    let (word, rest) = next_word(line)?;
    Some((name(word)?, rest))
}
