//! The rule of a head.

ghost use Rattle.std.specs.Prelude.{◌↔◌, ℕ, List, IsTrue};
ghost use Rattle.cq_terms.specs.Query.{Query};
ghost use Rattle.report_rules.specs.Inputs.{report_on};
ghost use Rattle.report_rules.specs.Rules.{HeadIsRight};

use cq_terms::Kb;

/// Whether a head tells the sizes of the input and the version.
pub fn is_right_head(kb: &Kb, axioms: u32, facts: u32, version: u32) -> bool
    ensures exact { (names : List (List ℕ)) (q : Query)
        → IsTrue result ↔ HeadIsRight (report_on kb.now names q) axioms facts version }
{
    axioms as usize == kb.axioms().len() && facts as usize == kb.facts().len() && version == 1
}
