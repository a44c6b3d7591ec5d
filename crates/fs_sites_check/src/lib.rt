//! The checker of certificates of questions over sites: whether one is valid, and then its answer, or a reason against
//! it. It stands on the definitions, on the checkers of executions and of refutations, and on the plan of sites; it
//! calls nothing of the search.
#![tactic(auto)]

mod bars;
mod certificate;
mod full;
mod laws;
mod refuted;
mod verdict;
mod widths;
mod words;

pub use certificate::{SitesCertificate, SitesWitness};
pub use laws::valid_is_right;
pub use verdict::{SitesReason, SitesVerdict, judge};
pub use words::site_words;
