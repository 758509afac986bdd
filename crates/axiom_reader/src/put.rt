//! Names are put into the vocabulary, and axioms made over their numbers.

ghost use Rattle.std.specs.Prelude.{◌≡◌, ◌-◌, ◌<◌, ◌^◌, length, IfOk, OnOk};
ghost use Rattle.axiom_reader.specs.Axioms.{has};
ghost use Rattle.axiom_reader.specs.Meaning.{IsAxiomOf, IsBasicOf, IsRoleOf, concept_axiom, role_axiom};
ghost use Rattle.axiom_reader.specs.Numbering.{Grows, Keeps, with_axiom, with_basic};
ghost use Rattle.axiom_reader.specs.Parts.{axiom_of, basic_of, role_of};

use crate::axiom::{NamedAxiom, NamedBasic, NamedRole};
use cq_terms::{Axiom, Basic, NoMemory, Role, Vocab};

/// Puts the names of an axiom, the left side first, and answers the axiom over their numbers.
pub(crate) fn put_axiom(named: &NamedAxiom<'_>, vocab: &mut Vocab) -> Result<Axiom, NoMemory>
    requires concepts { length vocab.old.concepts < 2 ^ 31 }
    requires roles { length vocab.old.roles < 2 ^ 31 }

    ensures names { OnOk result (vocab.new ≡ with_axiom vocab.old (axiom_of named.now)) }
    ensures exact { IfOk result (λ given. IsAxiomOf vocab.new (axiom_of named.now) given) }

    ensures kept { Keeps vocab.old vocab.new }
    ensures grown { Grows 2 vocab.old vocab.new }
    ensures inds { vocab.new.inds ≡ vocab.old.inds }
{
    match named {
        NamedAxiom::Concepts {
            left,
            negated,
            right,
        } => {
            let left = put_basic(left, vocab)?;
            let right = put_basic(right, vocab)?;
            Ok(concept_axiom(left, *negated, right))
        }
        NamedAxiom::Roles {
            left,
            negated,
            right,
        } => {
            let left = put_role(left, vocab)?;
            let right = put_role(right, vocab)?;
            Ok(role_axiom(left, *negated, right))
        }
    }
}

/// Puts the name of a basic concept.
fn put_basic(named: &NamedBasic<'_>, vocab: &mut Vocab) -> Result<Basic, NoMemory>
    requires concepts { length vocab.old.concepts < 2 ^ 32 - 1 }
    requires roles { length vocab.old.roles < 2 ^ 32 - 1 }

    ensures names { OnOk result (vocab.new ≡ with_basic vocab.old (basic_of named.now)) }
    ensures exact { IfOk result (λ given. IsBasicOf vocab.new (basic_of named.now) given) }

    ensures kept { Keeps vocab.old vocab.new }
    ensures grown { Grows 1 vocab.old vocab.new }
    ensures inds { vocab.new.inds ≡ vocab.old.inds }
{
    match named {
        NamedBasic::Concept(name) => Ok(Basic::Concept(vocab.concepts.put(name)?)),
        NamedBasic::Has(role) => Ok(Basic::Has(put_role(role, vocab)?)),
    }
}

/// Puts the name of a role.
fn put_role(named: &NamedRole<'_>, vocab: &mut Vocab) -> Result<Role, NoMemory>
    requires roles { length vocab.old.roles < 2 ^ 32 - 1 }

    ensures names { OnOk result (vocab.new ≡ with_basic vocab.old (has (role_of named.now))) }
    ensures exact { IfOk result (λ given. IsRoleOf vocab.new (role_of named.now) given) }

    ensures kept { Keeps vocab.old vocab.new }
    ensures grown { Grows 1 vocab.old vocab.new }
    ensures inds { vocab.new.inds ≡ vocab.old.inds }
{
    Ok(Role {
        pred: vocab.roles.put(named.name)?,
        inverse: named.inverse,
    })
}

/// The axiom of two basic concepts.
fn concept_axiom(left: Basic, negated: bool, right: Basic) -> Axiom
    ensures exact { result ≡ concept_axiom left negated right }
{
    if negated {
        Axiom::Disjoint { left, right }
    } else {
        Axiom::Sub { left, right }
    }
}

/// The axiom of two roles.
fn role_axiom(left: Role, negated: bool, right: Role) -> Axiom
    ensures exact { result ≡ role_axiom left negated right }
{
    if negated {
        Axiom::DisjointRole { left, right }
    } else {
        Axiom::SubRole { left, right }
    }
}
