//! A log of learned clauses, seen as what it has got, where it tells, and a count of faults.

ghost use Rattle.std.specs.Prelude.{◌≡◌, ℕ, Option, OnOk, IfErr};
ghost use Rattle.proof_logs.specs.Logs.{LogContent, IsWhole, Appends, Tears, RisesAt};

use crate::log_fault::LogFault;

/// Where a solver writes each clause that it learns, before the clause is live.
pub trait ProofLog {
    /// What it has got and the clause on which it failed, where it tells.
    ghost content: { Self → Option LogContent };

    /// How often it has failed. The count never falls, and stays at 2^64 - 1 once it is reached.
    ghost faults: { Self → ℕ };

    /// What else holds between the log before calls and after them.
    ghost leads: { Self → Self → Type 0 };

    /// Takes a clause with its number. `Failed` comes only where the log counted a fault in this call; the clause is then the torn
    /// one.
    fn learned(&mut self, number: u64, clause: &[u32]) -> Result<(), LogFault>
        requires whole { IsWhole (content self.old) }

        ensures exact { OnOk result (Appends (content self.old) (content self.new) number clause.now) }
        ensures torn { IfErr result (Tears (content self.old) (content self.new) number clause.now) }

        ensures fault { IfErr result (RisesAt (faults self.old) (faults self.new)) }
        ensures no_fault { OnOk result (faults self.new ≡ faults self.old) }
        ensures leads { leads self.old self.new };

    /// It holds where there is no call, and from one call to the next.
    ghost leads_same: { (a : Self) → leads a a };

    ghost leads_on: { (a b c : Self) → leads a b → leads b c → leads a c };
}
