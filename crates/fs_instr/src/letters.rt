//! The letters of one side of a fence: i, o, r and w, in this order, each at most once (the manual's FENCE
//! instruction).

ghost use Rattle.std.specs.Prelude.{◌≡◌};
ghost use Rattle.fs_instr.specs.FenceLetters.{letters_of, letters_text};

/// The letters of one side of a FENCE: device input (i) and output (o), memory reads (r) and writes (w).
#[derive(Clone, Copy, PartialEq, Eq)]
pub struct Letters {
    pub input: bool,
    pub output: bool,
    pub reads: bool,
    pub writes: bool,
}

macro_rules! letters {
    ($use:ident $argument:ident) => {
        $use! { $argument
            "w" => false, false, false, true;
            "r" => false, false, true, false;
            "rw" => false, false, true, true;
            "o" => false, true, false, false;
            "ow" => false, true, false, true;
            "or" => false, true, true, false;
            "orw" => false, true, true, true;
            "i" => true, false, false, false;
            "iw" => true, false, false, true;
            "ir" => true, false, true, false;
            "irw" => true, false, true, true;
            "io" => true, true, false, false;
            "iow" => true, true, false, true;
            "ior" => true, true, true, false;
            "iorw" => true, true, true, true;
        }
    };
}

macro_rules! find {
    ($word:ident $($text:literal => $input:literal, $output:literal, $reads:literal, $writes:literal;)*) => {
        match $word {
            $($text => Some(Letters { input: $input, output: $output, reads: $reads, writes: $writes }),)*
            _ => None,
        }
    };
}

macro_rules! text {
    ($letters:ident $($text:literal => $input:literal, $output:literal, $reads:literal, $writes:literal;)*) => {
        match $letters {
            $(Letters { input: $input, output: $output, reads: $reads, writes: $writes } => $text,)*
            _ => "",
        }
    };
}

impl Letters {
    /// `iorw`.
    pub const ALL: Letters = Letters {
        input: true,
        output: true,
        reads: true,
        writes: true,
    };

    /// The letters that a word writes: one or more, in order; nothing for any other word.
    #[tactic(auto, unfolding(crate::specs::FenceLetters::letters_rows))]
    pub fn of(word: &str) -> Option<Letters>
        ensures { result ≡ letters_of word.now }
    {
        letters!(find word)
    }

    /// The word that writes them; empty where there is none.
    pub fn text(self) -> &'static str
        ensures { result.now ≡ letters_text self }
    {
        letters!(text self)
    }
}
