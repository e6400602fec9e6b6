//! What is made of the texts of a run: remarks, the table, test cases and changes.

use crate::cases::cases_of;
use crate::changes::changes_text;
use crate::lines::{add_all, add_lines};
use crate::refused::refused_by;
use crate::wanted::{numbers_of, wanted_lines};
use command_line::WhyOptions;
use read_set::{Plan, Way};
use replay_run::{Inputs, Prepared, judge_inputs};
use schema::Tables;
use std::alloc::{AllocError, Global};
use why_lines::WhyTable;
use why_run::{CaseTexts, Explained, Explainer, NotExplained, Remark, WhyTexts};

/// Explains lines by the rules.
#[derive(Clone, Copy)]
pub struct ByRules;

impl Explainer for ByRules {
    ghost makes = { λ _ _ _ _. Unit {0} };

    fn make(
        &self,
        alloc: Global,
        options: &WhyOptions,
        texts: WhyTexts,
    ) -> Result<Explained, NotExplained> {
        let WhyTexts {
            policy,
            base,
            journal,
            report,
            out,
        } = texts;
        let inputs = Inputs {
            policy,
            tables: base,
            journal,
            way: Way::of(options.as_recorded),
        };
        let numbers = numbers_of(alloc, &options.lines)?;
        match judge_inputs(alloc, &inputs) {
            Ok(prepared) => {
                let wanted = wanted_lines(alloc, &report, &numbers, &prepared.journal)?;
                let task = Task {
                    options,
                    inputs: &inputs,
                    prepared: &prepared,
                    wanted: &wanted,
                };
                task.explained(alloc, &out)
            }
            Err(fault) => Err(refused_by(alloc, &fault)),
        }
    }
}

/// What is to be explained, and of which inputs.
#[derive(Clone, Copy)]
struct Task<'a, 'i> {
    options: &'a WhyOptions,
    inputs: &'a Inputs,
    prepared: &'a Prepared<'i>,
    /// The numbers of the lines that are wanted, rising; without them each answered line is.
    wanted: &'a Option<Vec<u64>>,
}

impl Task<'_, '_> {
    fn explained(&self, alloc: Global, end: &Option<Tables>) -> Result<Explained, NotExplained> {
        let mut remarks = Vec::new(alloc);
        let table = self.table(alloc, &mut remarks)?;
        let cases = self.cases(alloc, &mut remarks)?;
        Ok(Explained {
            remarks,
            policy: Vec::from_slice(alloc, self.inputs.policy.as_slice())?,
            cases,
            changes: self.changes(alloc, end)?,
            table,
        })
    }

    fn table(&self, alloc: Global, remarks: &mut Vec<Remark>) -> Result<Vec<u8>, AllocError> {
        let plan = &self.prepared.plan;
        let mut table = WhyTable::new(alloc, self.inputs.way)?;
        match self.wanted {
            Some(wanted) => add_lines(alloc, plan, wanted, &mut table, remarks)?,
            None => add_all(alloc, plan, &mut table)?,
        }
        table.finish()
    }

    /// Cases where the words ask for them.
    fn cases(
        &self,
        alloc: Global,
        remarks: &mut Vec<Remark>,
    ) -> Result<Vec<CaseTexts>, AllocError> {
        match (&self.options.test, self.wanted) {
            (Some(_), Some(wanted)) => cases_of(alloc, self.inputs, self.prepared, wanted, remarks),
            _ => Ok(Vec::new(alloc)),
        }
    }

    /// Changes where the words ask for them. The tables after the last line must be those of the folder that the words name.
    fn changes(&self, alloc: Global, end: &Option<Tables>) -> Result<Vec<u8>, NotExplained> {
        match (&self.options.out, end) {
            (Some(folder), Some(end)) => changes_text(
                alloc,
                &self.prepared.plan,
                folder.as_str(),
                end,
            ),
            _ => Ok(Vec::new(alloc)),
        }
    }
}
