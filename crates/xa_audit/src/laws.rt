// What holds of every record.
ghost use Rattle.std.specs.Prelude.{List, ℕ};
ghost use Rattle.xa_audit.specs.declared.judging.Verdict.{Verdict};
ghost use Rattle.xa_audit.specs.Audit.{IsAudited, LawfulWhereRun, OneAnswer};

use xa_machine::runs_are_lawful;

/// All laws hold of a run that a record says.
pub(crate) fn records_are_lawful()
    ensures { (octets : List ℕ) (verdict : Verdict) → IsAudited octets verdict → LawfulWhereRun octets verdict }
{
    runs_are_lawful();
}

/// What `audit` answers is determined by the octets, but that memory may run out: one verdict, one first fault of the
/// configuration, or one line.
pub fn one_answer()
    ensures { OneAnswer }
{}
