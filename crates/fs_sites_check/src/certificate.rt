//! Certificates of questions over sites, as values.

use fs_cert_evidence::{Inference, WitnessFile};
use fs_cert_json::CertifiedAnswer;
use fs_kinds::List;

/// An execution of the test of this number, as a witness file says it.
#[derive(Drop)]
pub struct SitesWitness {
    pub test: usize,
    pub file: WitnessFile,
}

/// What a certificate says.
#[derive(Drop)]
pub struct SitesCertificate {
    /// The cost and a word for each site that has a fence, as `lock=r,r`, in the order of the sites; or none.
    pub answer: CertifiedAnswer,
    /// For each test the steps of a refutation of it under the answer.
    pub cycles: List<List<Inference>>,
    /// The executions that fences must break.
    pub witnesses: List<SitesWitness>,
}
