//! Why a run has no output.

ghost use Rattle.std.specs.Prelude.{◌≡◌, Some};
ghost use Rattle.replay_run.specs.Faults.{base_fault, board_fault, fault_number, fault_text, journal_fault, policy_fault};
ghost use Rattle.replay_run.specs.declared.fault.Fault.TheVariants as faults;

use circ_policy::PolicyError;
use circ_records::BaseRule;
use journal_table::{JournalError, JournalRule};
use record_tables::{BaseError, RowValues};
use schema::TableName;
use speculate::BoardFault;
use std::alloc::AllocError;
use std::fmt;

/// Why a run has no output, in the order in which the inputs are judged. `Display` prints the text
/// that the program prints after the fault's number.
#[derive(Drop)]
pub enum Fault {
    /// The number of workers isn't 1 to 64.
    BadWorkers,
    /// The policy is no TOML.
    PolicyText,
    /// The first rule that the policy breaks, by the key that it is about.
    PolicyRule {
        key: String,
    },
    /// The first table whose rows don't all have the same number of fields, or whose header is
    /// missing or another.
    BaseTable {
        table: TableName,
    },
    /// The first rule that the tables break, in a row counted from 1 after the header.
    BaseRule {
        table: TableName,
        row: usize,
        rule: BaseRule,
        values: RowValues,
    },
    /// The journal's rows don't all have the same number of fields, or its header is missing or
    /// another.
    JournalTable,
    /// The first rule that the journal breaks, in a row counted from 1 after the header.
    JournalRule {
        row: usize,
        rule: JournalRule,
    },
    /// A line was attempted 4,294,967,296 times.
    Attempts {
        line: u64,
    },
    /// The clock of the board can't be raised: it is the greatest 64-bit number.
    ClockSpent,
    /// Memory ran out.
    Memory,
}

impl Fault {
    /// Gives the number that the program prints, 1 to 10, for what the fault is of.
    pub fn number(&self) -> u8
        ensures { result ≡ fault_number self.now }
    {
        match self {
            Fault::BadWorkers => 1,
            Fault::PolicyText => 2,
            Fault::PolicyRule { .. } => 3,
            Fault::BaseTable { .. } => 4,
            Fault::BaseRule { .. } => 5,
            Fault::JournalTable => 6,
            Fault::JournalRule { .. } => 7,
            Fault::Attempts { .. } => 8,
            Fault::ClockSpent => 9,
            Fault::Memory => 10,
        }
    }
}

impl fmt::Display for Fault {
    ghost output = { λ fault. Some (fault_text fault) };

    fn fmt<W: fmt::Write>(&self, f: &mut fmt::Formatter<W>) -> fmt::Result {
        match self {
            Fault::BadWorkers => write!(f, "workers must be 1 to 64"),
            Fault::PolicyText => write!(f, "policy is not TOML"),
            Fault::PolicyRule { key } => write!(f, "policy rule {key}"),
            Fault::BaseTable { table } => write!(f, "base table {table}"),
            Fault::BaseRule {
                table,
                row,
                rule,
                ..
            } => { write!(f, "base rule {table} row {row} {rule}") }
            Fault::JournalTable => write!(f, "journal table"),
            Fault::JournalRule { row, rule } => write!(f, "journal row {row} {rule}"),
            Fault::Attempts { line } => write!(f, "attempts spent at line {line}"),
            Fault::ClockSpent => write!(f, "clock spent"),
            Fault::Memory => write!(f, "memory"),
        }
    }
}

impl From<AllocError> for Fault {
    ghost from_gives = { λ _ fault. fault ≡ faults.Memory };

    fn from(_error: AllocError) -> Fault {
        Fault::Memory
    }
}

impl From<PolicyError> for Fault {
    ghost from_gives = { λ error fault. fault ≡ policy_fault error };

    fn from(error: PolicyError) -> Fault {
        match error {
            PolicyError::Text => Fault::PolicyText,
            PolicyError::Rule { key } => Fault::PolicyRule { key },
            PolicyError::Memory => Fault::Memory,
        }
    }
}

impl From<BaseError> for Fault {
    ghost from_gives = { λ error fault. fault ≡ base_fault error };

    fn from(error: BaseError) -> Fault {
        match error {
            BaseError::Table { table } => Fault::BaseTable { table },
            BaseError::Rule {
                table,
                row,
                rule,
                values,
            } => Fault::BaseRule {
                table,
                row,
                rule,
                values,
            },
            BaseError::Memory => Fault::Memory,
        }
    }
}

impl From<JournalError> for Fault {
    ghost from_gives = { λ error fault. fault ≡ journal_fault error };

    fn from(error: JournalError) -> Fault {
        match error {
            JournalError::Table => Fault::JournalTable,
            JournalError::Rule { row, rule } => Fault::JournalRule { row, rule },
            JournalError::Memory => Fault::Memory,
        }
    }
}

impl From<BoardFault> for Fault {
    ghost from_gives = { λ error fault. fault ≡ board_fault error };

    fn from(error: BoardFault) -> Fault {
        match error {
            BoardFault::Attempts { line } => Fault::Attempts { line },
            BoardFault::ClockSpent => Fault::ClockSpent,
            BoardFault::Memory => Fault::Memory,
        }
    }
}
