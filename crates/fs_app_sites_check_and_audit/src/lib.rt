//! What `check --sites` and `audit --sites` answer, from the bytes of their files to the text that is printed; and what
//! `solve --sites` answers with a certificate. `audit` asks of tests whose labels name sites whether the FENCEs that are
//! written at the copies of sites are those that rule all outcomes out at the least cost.
#![tactic(auto)]

mod asked;
mod audit;
mod certified;
mod check;
mod check_objects;
mod cost;
mod emptied;
mod findings;
mod held;
mod lines;
mod marks;
mod objects;
mod output;
mod print;
mod read;
mod read_witness;
mod said;
mod values;
mod write;

pub use audit::run_audit_sites;
pub use certified::{Certified, run_sites_certified};
pub use check::run_sites_check;
