//! The words of causes.

ghost use Rattle.std.specs.Prelude.{◌≡◌, ◌≢◌, IfSome, IfNone};
ghost use Rattle.fs_cert_evidence.specs.Evidence.{cause_of};
ghost use Rattle.fs_cert_evidence.specs.CertificateFile.{cause_word};
ghost use Rattle.fs_cert_evidence.specs.Judged as judged;

use fs_cert_evidence::Cause;

/// The causes with their words.
macro_rules! causes {
    ($use:ident $of:ident) => {
        causes! {
            @$use $of
            Rule1 "p1"
            Rule2 "p2"
            Rule3 "p3"
            Rule4 "p4"
            Rule5 "p5"
            Rule6 "p6"
            Rule7 "p7"
            Rule8 "p8"
            Rule9 "p9"
            Rule10 "p10"
            Rule11 "p11"
            Rule12 "p12"
            Rule13 "p13"
            ReadsFrom "rf"
            Coherence "co"
            FromReads "fr"
        }
    };
    (@word $self:ident $($cause:ident $word:literal)*) => {
        match $self { $(Cause::$cause => $word),* }
    };
    (@of $text:ident $($cause:ident $word:literal)*) => {
        match $text { $($word => Some(Cause::$cause),)* _ => None }
    };
}

/// The word of the cause, as `p4` or `rf`.
pub(crate) fn word_of(cause: Cause) -> &'static str
    ensures { result.now ≡ cause_word (cause_of cause) }
{
    causes!(word cause)
}

/// The cause of this word. No other text is the word of a cause.
pub(crate) fn cause_of_word(text: &str) -> Option<Cause>
    ensures named { IfSome result (λ cause. text.now ≡ cause_word (cause_of cause)) }
    ensures none { IfNone result ((cause : judged.Cause) → text.now ≢ cause_word cause) }
{
    causes!(of text)
}
