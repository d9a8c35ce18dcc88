// The worked cases of the small lock: from job file and calls to numbers, rows, faults and positions, by the definitions alone.
#![tactic(auto)]

ghost use Rattle.worked.specs.Worked.{WorkedCasesComeOut};

pub fn worked_cases_come_out() -> u8
    ensures { WorkedCasesComeOut }
{
    0
}
