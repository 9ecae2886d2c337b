// What a run did, as an object.

use crate::object::Object;
use job_counts::Statistics;
use linear_term::Memory;

/// Writes a member for what a run did: an object for each of its searches, the steps of other stages, and the memory, where it is known.
pub(crate) fn write_statistics(object: &mut Object, statistics: &Statistics) -> Result<(), Memory> {
    let counts = statistics.counts;
    object.key("statistics")?;
    object.open()?;
    if counts.runs > 0 {
        let run = &counts.canonical;
        let members = [
            ("steps", run.steps),
            ("rounds", run.rounds),
            ("nodes", run.nodes),
            ("leaves", run.leaves),
            ("eliminations", run.eliminations),
        ];
        write_numbers(object, "canonical", &members)?;
    }
    if counts.searches > 0 {
        let search = &counts.clauses;
        let members = [
            ("steps", search.steps),
            ("conflicts", search.conflicts),
            ("decisions", search.decisions),
            ("instances", search.instances),
        ];
        write_numbers(object, "clauses", &members)?;
    }
    if counts.elimination_steps > 0 {
        object.number_member("elimination_steps", counts.elimination_steps)?;
    }
    if counts.least_steps > 0 {
        object.number_member("least_steps", counts.least_steps)?;
    }
    if let Some(kib) = statistics.memory {
        object.number_member("memory_kib", kib)?;
    }
    object.close()
}

/// Writes a member with numbers by their names.
fn write_numbers(object: &mut Object, name: &str, members: &[(&str, u64)]) -> Result<(), Memory> {
    object.key(name)?;
    object.open()?;
    for (name, number) in members {
        object.number_member(*name, *number)?;
    }
    object.close()
}
