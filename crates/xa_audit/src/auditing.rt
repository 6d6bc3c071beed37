// What a record comes to.
ghost use Rattle.std.specs.Prelude.{IfOk, IfErr};
ghost use Rattle.xa_audit.specs.Audit.{IsAudited, Refuses, LawfulWhereRun, IsOfWritten};

use crate::judging::{Verdict, judge};
use crate::laws::records_are_lawful;
use crate::reading::{RecordRefused, config_of, lines_of};
use std::alloc::Global;
use xa_config::{ConfigRefused, read};
use xa_types::{NoMemory, Octets};

/// Why octets were not audited.
#[derive(Debug, Drop)]
pub enum AuditRefused {
    /// The configuration that stands in front is none: the number of its first fault and its key.
    Config { number: u8, key: Octets },
    /// The octets are no record: the least line, from 1, that fits no place; the configuration counts as one line.
    BadRecord(u64),
    NoMemory,
}

impl From<ConfigRefused> for AuditRefused {
    ghost use Rattle.xa_audit.specs.Audit.{IsSameFault};

    ghost from_gives = { IsSameFault };

    fn from(refused: ConfigRefused) -> Self {
        match refused {
            ConfigRefused::Fault { number, key } => AuditRefused::Config { number, key },
            ConfigRefused::NoMemory => AuditRefused::NoMemory,
        }
    }
}

impl From<RecordRefused> for AuditRefused {
    ghost use Rattle.xa_audit.specs.Audit.{IsSameRefusal};

    ghost from_gives = { IsSameRefusal };

    fn from(refused: RecordRefused) -> Self {
        match refused {
            RecordRefused::BadRecord(line) => AuditRefused::BadRecord(line),
            RecordRefused::NoMemory => AuditRefused::NoMemory,
        }
    }
}

impl From<NoMemory> for AuditRefused {
    ghost use Rattle.std.specs.Prelude.{◌≡◌};
    ghost use Rattle.xa_audit.specs.declared.auditing.AuditRefused.TheVariants as refusals;

    ghost from_gives = { λ _ e. e ≡ refusals.NoMemory };

    fn from(_: NoMemory) -> Self {
        AuditRefused::NoMemory
    }
}

// What the octets come to as a record.
fn answer_of(alloc: Global, octets: &[u8]) -> Result<Verdict, AuditRefused>
    ensures judged { IfOk result (IsAudited octets.now) }
    ensures refused { IfErr result (Refuses octets.now) }
{
    let Some((config, rest)) = config_of(octets) else {
        return Err(AuditRefused::BadRecord(1));
    };
    let setup = read(alloc, config)?;
    let (names, history) = lines_of(alloc, rest)?;
    Ok(judge(alloc, &setup, names.len() as u16, &history)?)
}

/// Reads the record that the octets are, and says what its events come to under its own configuration. Where that is
/// `Run`, every law of a run holds of the events. What `write` wrote is read as what was written.
pub fn audit(alloc: Global, octets: &[u8]) -> Result<Verdict, AuditRefused>
    ensures judged { IfOk result (IsAudited octets.now) }
    ensures refused { IfErr result (Refuses octets.now) }
    ensures lawful { IfOk result (LawfulWhereRun octets.now) }
    ensures written { IsOfWritten octets.now result }
{
    records_are_lawful();
    answer_of(alloc, octets)
}
