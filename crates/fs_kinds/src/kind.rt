//! The kinds of fence, and which pairs of operations they order.
ghost use Rattle.std.specs.Prelude.{◌≡◌, ◌≢◌, ◌<◌, IfSome, IfNone, Some, slice_get, ◌&&◌};
ghost use Rattle.fs_kinds.specs.Kind.{ReadRead, ReadWrite, WriteRead, WriteWrite, pairs_of, orders, no_stronger};
ghost use Rattle.fs_kinds.specs.Kind.{table_index, word, kind_of};

/// A kind of fence, as `fence p,s` of the base instruction set with letters from `r` and `w`, or
/// `fence.tso`. The variants stand in table order.
#[derive(Clone, Copy, PartialEq, Eq, PartialOrd, Ord)]
pub enum Kind {
    /// `r,r`
    RR,
    /// `r,w`
    RW,
    /// `r,rw`
    RRw,
    /// `w,r`
    WR,
    /// `w,w`
    WW,
    /// `w,rw`
    WRw,
    /// `rw,r`
    RwR,
    /// `rw,w`
    RwW,
    /// `rw,rw`
    RwRw,
    /// `tso`: all pairs but a write before a read.
    Tso,
}

/// Whether an operation reads, and whether it writes.
#[derive(Clone, Copy)]
pub struct Classes {
    pub reads: bool,
    pub writes: bool,
}

/// Which pairs of operations are ordered: an operation of the first class before one of the second.
#[derive(Clone, Copy)]
struct Pairs {
    read_read: bool,
    read_write: bool,
    write_read: bool,
    write_write: bool,
}

const READ: Classes = Classes {
    reads: true,
    writes: false,
};

const WRITE: Classes = Classes {
    reads: false,
    writes: true,
};

const BOTH: Classes = Classes {
    reads: true,
    writes: true,
};

/// Each class of the first before each class of the second.
fn product(first: Classes, second: Classes) -> Pairs
    ensures read_read { result.read_read ≡ (first.reads && second.reads) }
    ensures read_write { result.read_write ≡ (first.reads && second.writes) }
    ensures write_read { result.write_read ≡ (first.writes && second.reads) }
    ensures write_write { result.write_write ≡ (first.writes && second.writes) }
{
    Pairs {
        read_read: first.reads && second.reads,
        read_write: first.reads && second.writes,
        write_read: first.writes && second.reads,
        write_write: first.writes && second.writes,
    }
}

/// The kinds with their words, in table order.
macro_rules! kinds {
    ($use:ident $($of:ident)?) => {
        kinds! {
            @$use $($of)?
            RR "r,r"
            RW "r,w"
            RRw "r,rw"
            WR "w,r"
            WW "w,w"
            WRw "w,rw"
            RwR "rw,r"
            RwW "rw,w"
            RwRw "rw,rw"
            Tso "tso"
        }
    };
    (@all $($kind:ident $word:literal)*) => { [$(Kind::$kind),*] };
    (@name $self:ident $($kind:ident $word:literal)*) => {
        match $self { $(Kind::$kind => $word),* }
    };
    (@of $text:ident $($kind:ident $word:literal)*) => {
        match $text { $($word => Some(Kind::$kind),)* _ => None }
    };
}

impl Kind {
    ghost use Rattle.fs_kinds.specs.declared.kind.Kind.{Kind};

    /// The ten kinds, in table order.
    pub const ALL: [Kind; 10] = kinds!(all);

    /// The kind's word, as `rw,w` or `tso`.
    pub fn name(self) -> &'static str
        ensures { result.now ≡ word self }
    {
        kinds!(name self)
    }

    /// The kind of this word. No other text names a kind.
    pub fn of(text: &str) -> Option<Kind>
        ensures value { result ≡ kind_of text.now }
        ensures named { IfSome result (λ kind. text.now ≡ word kind) }
        ensures none { IfNone result ((kind : Kind) → text.now ≢ word kind) }
    {
        Kind::of_word(text)
    }

    #[tactic(auto, unfolding(crate::specs::Kind::kind_of))]
    fn of_word(text: &str) -> Option<Kind>
        ensures { result ≡ kind_of text.now }
    {
        kinds!(of text)
    }

    /// The pairs of operations that a fence of this kind orders.
    fn pairs(self) -> Pairs
        ensures read_read { result.read_read ≡ pairs_of self ReadRead }
        ensures read_write { result.read_write ≡ pairs_of self ReadWrite }
        ensures write_read { result.write_read ≡ pairs_of self WriteRead }
        ensures write_write { result.write_write ≡ pairs_of self WriteWrite }
    {
        match self {
            Kind::RR => product(READ, READ),
            Kind::RW => product(READ, WRITE),
            Kind::RRw => product(READ, BOTH),
            Kind::WR => product(WRITE, READ),
            Kind::WW => product(WRITE, WRITE),
            Kind::WRw => product(WRITE, BOTH),
            Kind::RwR => product(BOTH, READ),
            Kind::RwW => product(BOTH, WRITE),
            Kind::RwRw => product(BOTH, BOTH),
            Kind::Tso => Pairs {
                read_read: true,
                read_write: true,
                write_read: false,
                write_write: true,
            },
        }
    }

    /// Does a fence of this kind order an operation of classes `first` before one of classes `second`?
    pub fn orders(self, first: Classes, second: Classes) -> bool
        ensures { result ≡ orders self first second }
    {
        let ordered = self.pairs();
        let both = product(first, second);
        ordered.read_read && both.read_read
            || ordered.read_write && both.read_write
            || ordered.write_read && both.write_read
            || ordered.write_write && both.write_write
    }

    /// Is each pair of operations that this kind orders ordered by `other` too?
    pub fn no_stronger(self, other: Kind) -> bool
        ensures { result ≡ no_stronger self other }
    {
        let ordered = self.pairs();
        let by_other = other.pairs();
        (!ordered.read_read || by_other.read_read)
            && (!ordered.read_write || by_other.read_write)
            && (!ordered.write_read || by_other.write_read)
            && (!ordered.write_write || by_other.write_write)
    }

    /// The kind's place in the table, from 0 to 9, which is its place in `ALL`.
    pub fn table_index(self) -> usize
        ensures value { result ≡ table_index self }
        ensures in_table { result < 10 }
        ensures listed { slice_get Kind.ALL result ≡ Some self }
    {
        self as usize
    }
}
