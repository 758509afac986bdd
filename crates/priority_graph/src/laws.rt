//! The laws on priorities: chosen repairs and cores over one, and what they are where it is that of a knowledge base. Each
//! law is the contract of a function that does nothing.

ghost use Rattle.priority_graph.specs.ChosenRepairs.{ChosenRepairExists, CoreLiesInChosen};
ghost use Rattle.priority_graph.specs.Inputs.{DirectTellsCores, EmptyIsAll, PairsRankAsPareto, PriorityMeansTheInput, RestrictedIsPareto};

use cq_meaning::local_form;

/// Over a priority there is a chosen repair.
pub fn chosen_repair_exists()
    ensures exists { ChosenRepairExists }
{}

/// Over a priority a core lies in a chosen repair that has nothing of what the core drops.
pub fn core_lies_in_chosen()
    ensures inside { CoreLiesInChosen }
{}

/// Where a priority is that of a knowledge base in a mode, the words over it, from "self-inconsistent" to "chosen repair" and
/// "core", say what they say over the knowledge base.
pub fn priority_means_the_input()
    ensures means { PriorityMeansTheInput }
{
    local_form();
}

/// Over the conflicts of a knowledge base its listed pairs rank facts as "better" of mode `Pareto` does, and have a cycle
/// exactly where that has one.
pub fn pairs_rank_as_pareto()
    ensures ranks { PairsRankAsPareto }
{}

/// What `restrict` answers over the conflicts of a knowledge base and its pairs is its priority in mode `Pareto`.
pub fn restricted_is_pareto()
    ensures pareto { RestrictedIsPareto }
{}

/// What `Better::none` answers over the conflicts of a knowledge base is its priority in mode `All`.
pub fn empty_is_all()
    ensures all { EmptyIsAll }
{}

/// Over the priority of a knowledge base, what `Better::direct` answers makes with what it keeps a core of the knowledge
/// base, and where it answers `None` the knowledge base has no such core.
pub fn direct_tells_cores()
    ensures cores { DirectTellsCores }
{}
