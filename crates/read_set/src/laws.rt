//! Laws of the definitions: functions without code, whose contracts are proved of every value.

ghost use Rattle.read_set.specs.Coherence.{MeaningKeepsCoherence, ReadPlansStayCoherent, ReplayKeepsCoherence};
ghost use Rattle.read_set.specs.WholeMapLaws.{AskingGivesTheRules, LinesGiveTheRules};

use circ_records::Records;

/// Of each message: the program that asks for one record after the other gives, over the records as a
/// whole map, what the first test of its list that holds over that map says.
pub fn asking_gives_the_rules()
    ensures { AskingGivesTheRules }
{}

/// So of each line, by the rules and as recorded.
pub fn lines_give_the_rules()
    ensures { LinesGiveTheRules }
{}

/// The meaning of a line keeps records coherent.
pub fn meaning_keeps_coherence()
    ensures { MeaningKeepsCoherence }
{}

/// The records before each line of a plan, and those after its last line, are coherent.
pub fn replay_keeps_coherence()
    ensures { ReplayKeepsCoherence }
{}

/// The same for the plan of any policy and journal that were read, over a base that is coherent before the first line. Nothing else is required.
pub fn read_plans_stay_coherent(base: &Records)
    ensures { ReadPlansStayCoherent base.now }
{
    let _records = base.as_slice();
}
