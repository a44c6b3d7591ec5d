//! Reads litmus tests in herd7's RISC-V format, and hands on what they are: tests, slots, and the printer. What is printed
//! reads back, and so a fenced test is a test of its own. And reads where site labels stand: the labels by which harts
//! say where a function of a library may have a fence.
#![tactic(auto)]

mod atoms;
mod declared;
mod entries;
mod limits;
mod lines;
mod meaning;
mod names;
mod reader;
mod round_trip;
mod settings;
mod site_cell;
mod site_hart;
mod site_label;
mod site_law;
mod site_name;
mod site_reader;
mod starts;
mod title;

pub use fs_model::{
    Code, Codes, Location, Locations, Name, Outcome, Quantifier, Registers, Starts, Test,
    read_fences, slots, write_fenced,
};
pub use lines::read_lines;
pub use reader::read_test;
pub use round_trip::{fence, reads_back};
pub use site_label::SiteLabel;
pub use site_law::site_labels_stand_free;
pub use site_reader::read_site_labels;
pub use title::{Body, skip_title, skip_top};
