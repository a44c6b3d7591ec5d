//! The promises of the commands, as laws over the bytes of files: what answers mean by the model's chapter alone; what
//! an answer of `solve` means of each test that the bytes read as, that `order` agrees with it, that `solve` and
//! `order` have one answer, that printed lines say one answer, what a yes of `check` means, and that the certificate of
//! `solve --cert` gets one; that a certificate has one verdict; that `--why` leaves out no fence of an answer; that the
//! fences which `audit` advises rule the outcome out, and what it writes keeps FENCEs that name devices; what final
//! states tell of the outcome; what an answer over sites means; and that two tests that are the same wherever the parts
//! of their conditions lie in memory have all else alike. No other crate stands on this one, and nothing in it runs.
#![tactic(auto)]

mod agreement;
mod alike;
mod audits;
mod checked;
mod fences;
mod lines;
mod meanings;
mod one_certificate_verdict;
mod promise;
mod sites;
mod states;

pub use agreement::{order_agrees, order_answers_once, words_place_fences};
pub use alike::{
    same_tests_allow_alike, same_tests_are_judged_alike, same_tests_certify_alike,
    same_tests_fail_alike, same_tests_list_alike, same_tests_search_alike,
};
pub use audits::{mended_is_ruled_out, mended_keeps_devices};
pub use checked::{certified_is_accepted, yes_is_true};
pub use fences::each_fence_is_told;
pub use lines::{lines_say_one_answer, solve_answers_once};
pub use meanings::{
    chapter_says_the_headline, check_is_true, print_says_one_program, solve_is_true,
    states_are_true, test_is_true,
};
pub use one_certificate_verdict::one_verdict;
pub use promise::headline;
pub use sites::sites_are_true;
pub use states::states_tell_the_outcome;
