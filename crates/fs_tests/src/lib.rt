//! Tests of what no command shows by itself, on litmus tests as text: the reader's layers, slots, site labels, runs and
//! laws; the checker of executions, hunts, and judges; the search with several workers, and final states and logs of
//! them, against plain programs. They stand apart, so that no crate is proved twice for their sake.
#![tactic(auto)]

#[cfg(test)]
mod choices;
#[cfg(test)]
mod condition;
#[cfg(test)]
mod executions;
#[cfg(test)]
mod form;
#[cfg(test)]
mod gates;
#[cfg(test)]
mod hunters;
#[cfg(test)]
mod hunts;
#[cfg(test)]
mod judges;
#[cfg(test)]
mod kept;
#[cfg(test)]
mod laws;
#[cfg(test)]
mod logs_compared;
#[cfg(test)]
mod logs_read;
#[cfg(test)]
mod long;
#[cfg(test)]
mod made;
#[cfg(test)]
mod places;
#[cfg(test)]
mod plain;
#[cfg(test)]
mod rewriting;
#[cfg(test)]
mod rings;
#[cfg(test)]
mod runs;
#[cfg(test)]
mod scouts;
#[cfg(test)]
mod search_tables;
#[cfg(test)]
mod site_labels;
#[cfg(test)]
mod slots;
#[cfg(test)]
mod states;
#[cfg(test)]
mod states_texts;
#[cfg(test)]
mod subtrees;
#[cfg(test)]
mod texts;
#[cfg(test)]
mod traces;
#[cfg(test)]
mod verdict_tables;
#[cfg(test)]
mod workers;
#[cfg(test)]
mod wrong;
