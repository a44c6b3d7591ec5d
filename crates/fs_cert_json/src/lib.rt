//! Certificates as plain values, and their JSON text both ways.
#![tactic(auto)]

mod cause;
mod certificate;
mod json_values;
mod operands;
pub mod pieces;
mod read;
mod read_answer;
mod read_cycles;
mod read_inferences;
mod read_tree;
mod write;
mod write_cycles;
mod write_inferences;
mod write_tree;
mod write_witnesses;

pub use certificate::{
    Certificate, CertificateLink, CertifiedAnswer, CertifiedCycles, Item, Version,
};
