//! Litmus tests as text: those known from the literature, and small ones of few instructions.

/// Message passing.
pub const MP: &str = "RISCV MP
{
0:x6=x; 0:x8=y;
1:x6=y; 1:x8=x;
}
 P0          | P1          ;
 ori x5,x0,1 | lw x5,0(x6) ;
 sw x5,0(x6) | lw x7,0(x8) ;
 ori x7,x0,1 |             ;
 sw x7,0(x8) |             ;
exists (1:x5=1 /\\ 1:x7=0)
";

/// Message passing with a branch to the second load.
pub const MPB: &str = "RISCV MPB
{
0:x6=x; 0:x8=y;
1:x6=y; 1:x8=x;
}
 P0          | P1                ;
 ori x5,x0,1 | lw x5,0(x6)       ;
 sw x5,0(x6) | bne x5,x0,LC00    ;
 ori x7,x0,1 | LC00: lw x7,0(x8) ;
 sw x7,0(x8) |                   ;
exists (1:x5=1 /\\ 1:x7=0)
";

/// Store buffering.
pub const SB: &str = "RISCV SB
{
0:x6=x; 0:x8=y;
1:x6=y; 1:x8=x;
}
 P0          | P1          ;
 ori x5,x0,1 | ori x5,x0,1 ;
 sw x5,0(x6) | sw x5,0(x6) ;
 lw x7,0(x8) | lw x7,0(x8) ;
exists (0:x7=0 /\\ 1:x7=0)
";

/// Load buffering.
pub const LB: &str = "RISCV LB
{
0:x6=x; 0:x8=y;
1:x6=y; 1:x8=x;
}
 P0          | P1          ;
 lw x5,0(x6) | lw x5,0(x6) ;
 ori x7,x0,1 | ori x7,x0,1 ;
 sw x7,0(x8) | sw x7,0(x8) ;
exists (0:x5=1 /\\ 1:x5=1)
";

/// Message passing with an address dependency between the loads.
pub const MPA: &str = "RISCV MPA
{
0:x6=x; 0:x8=y;
1:x6=y; 1:x8=x;
}
 P0          | P1           ;
 ori x5,x0,1 | lw x5,0(x6)  ;
 sw x5,0(x6) | xor x7,x5,x5 ;
 ori x7,x0,1 | add x9,x8,x7 ;
 sw x7,0(x8) | lw x10,0(x9) ;
exists (1:x5=1 /\\ 1:x10=0)
";

/// Store buffering with AMOs in place of the stores.
pub const SBX: &str = "RISCV SBX
{
0:x6=x; 0:x8=y;
1:x6=y; 1:x8=x;
}
 P0                   | P1                   ;
 ori x5,x0,1          | ori x5,x0,1          ;
 amoswap.w x9,x5,(x6) | amoswap.w x9,x5,(x6) ;
 lw x7,0(x8)          | lw x7,0(x8)          ;
exists (0:x7=0 /\\ 1:x7=0)
";

/// Store buffering with AMOs that acquire.
pub const SBXA: &str = "RISCV SBXA
{
0:x6=x; 0:x8=y;
1:x6=y; 1:x8=x;
}
 P0                      | P1                      ;
 ori x5,x0,1             | ori x5,x0,1             ;
 amoswap.w.aq x9,x5,(x6) | amoswap.w.aq x9,x5,(x6) ;
 lw x7,0(x8)             | lw x7,0(x8)             ;
exists (0:x7=0 /\\ 1:x7=0)
";

/// Two stores in each hart, to the same words in the other order.
pub const TWO_WRITES: &str = "RISCV 2+2W
{
0:x6=x; 0:x8=y;
1:x6=y; 1:x8=x;
}
 P0          | P1          ;
 ori x5,x0,2 | ori x5,x0,2 ;
 sw x5,0(x6) | sw x5,0(x6) ;
 ori x7,x0,1 | ori x7,x0,1 ;
 sw x7,0(x8) | sw x7,0(x8) ;
exists (x=2 /\\ y=2)
";

/// Two loads of a word that another hart stores to.
pub const CO_RR: &str = "RISCV CoRR
{
0:x6=x; 1:x6=x;
}
 P0          | P1          ;
 ori x5,x0,1 | lw x5,0(x6) ;
 sw x5,0(x6) | lw x7,0(x6) ;
exists (1:x5=1 /\\ 1:x7=0)
";

/// Message passing in order.
pub const MP11: &str = "RISCV MP11
{
0:x6=x; 0:x8=y;
1:x6=y; 1:x8=x;
}
 P0          | P1          ;
 ori x5,x0,1 | lw x5,0(x6) ;
 sw x5,0(x6) | lw x7,0(x8) ;
 ori x7,x0,1 |             ;
 sw x7,0(x8) |             ;
exists (1:x5=1 /\\ 1:x7=1)
";

/// A store of another hart beside a pair of lr.w and sc.w.
pub const LRSC: &str = "RISCV LRSC
{
0:x6=x; 0:x8=1; 1:x6=x;
}
 P0              | P1          ;
 lr.w x5,(x6)    | ori x5,x0,2 ;
 sc.w x7,x8,(x6) | sw x5,0(x6) ;
exists (0:x5=0 /\\ 0:x7=0 /\\ x=1)
";

/// The same with an sc.w that fails.
pub const LRSCF: &str = "RISCV LRSCF
{
0:x6=x; 0:x8=1; 1:x6=x;
}
 P0              | P1          ;
 lr.w x5,(x6)    | ori x5,x0,2 ;
 sc.w x7,x8,(x6) | sw x5,0(x6) ;
exists (0:x5=0 /\\ 0:x7=1 /\\ x=2)
";

/// The same with an sc.w to another word.
pub const LRSCY: &str = "RISCV LRSCY
{
0:x6=x; 0:x9=y; 1:x6=x;
}
 P0              | P1          ;
 lr.w x5,(x6)    | ori x5,x0,2 ;
 sc.w x7,x8,(x9) | sw x5,0(x6) ;
exists (0:x5=0 /\\ 0:x7=0 /\\ x=1)
";

/// Two AMOs that add to one word.
pub const ADD2: &str = "RISCV ADD2
{
0:x6=x; 1:x6=x;
}
 P0                  | P1                  ;
 ori x5,x0,1         | ori x5,x0,1         ;
 amoadd.w x7,x5,(x6) | amoadd.w x7,x5,(x6) ;
exists (x=1)
";

/// Load buffering with data dependencies.
pub const LBD: &str = "RISCV LBD
{
0:x6=x; 0:x8=y;
1:x6=y; 1:x8=x;
}
 P0          | P1          ;
 lw x5,0(x6) | lw x5,0(x6) ;
 sw x5,0(x8) | sw x5,0(x8) ;
exists (0:x5=1 /\\ 1:x5=1)
";

/// Load buffering with control dependencies.
pub const LBC: &str = "RISCV LBC
{
0:x6=x; 0:x8=y;
1:x6=y; 1:x8=x;
}
 P0             | P1             ;
 lw x5,0(x6)    | lw x5,0(x6)    ;
 bne x5,x0,L    | bne x5,x0,L    ;
 L: ori x7,x0,1 | L: ori x7,x0,1 ;
 sw x7,0(x8)    | sw x7,0(x8)    ;
exists (0:x5=1 /\\ 1:x5=1)
";

/// Store buffering where each hart loads its own store first.
pub const SBF: &str = "RISCV SBF
{
0:x6=x; 0:x8=y;
1:x6=y; 1:x8=x;
}
 P0          | P1          ;
 ori x5,x0,1 | ori x5,x0,1 ;
 sw x5,0(x6) | sw x5,0(x6) ;
 lw x9,0(x6) | lw x9,0(x6) ;
 lw x7,0(x8) | lw x7,0(x8) ;
exists (0:x9=1 /\\ 0:x7=0 /\\ 1:x9=1 /\\ 1:x7=0)
";

/// A load of a store whose word depends on an earlier load.
pub const FORWARDED: &str = "RISCV Forwarded
{ 0:x6=x; 0:x8=y; }
 P0          ;
 lw x5,0(x6) ;
 sw x5,0(x8) ;
 lw x7,0(x8) ;
exists (0:x7=0)
";

/// A load of an address, a load from there, and a store to a third word.
pub const POINTER: &str = "RISCV Pointer
{ 0:x6=x; 0:x8=z; x=y; }
 P0          ;
 lw x5,0(x6) ;
 lw x7,0(x5) ;
 sw x9,0(x8) ;
exists (0:x7=0)
";

/// An AMO with a load of its word behind it, and accesses with each of the bits.
pub const ANNOTATED: &str = "RISCV Annotated
{
0:x6=x; 0:x8=y;
1:x6=y; 1:x8=x;
}
 P0                      | P1                 ;
 amoadd.w x5,x0,(x6)     | lr.w.aq x5,(x6)    ;
 lw x7,0(x6)             | sc.w.rl x7,x5,(x6) ;
 amoswap.w.rl x9,x7,(x8) | lw x9,0(x6)        ;
exists (0:x7=0)
";

/// Fences of the test, one in each hart.
pub const FENCED: &str = "RISCV Fenced
{
0:x6=x; 0:x8=y;
1:x6=y; 1:x8=x;
}
 P0          | P1          ;
 lw x5,0(x6) | sw x5,0(x6) ;
 sw x5,0(x8) | lw x7,0(x6) ;
 fence rw,w  | fence.tso   ;
 sw x0,0(x6) | lw x9,0(x8) ;
 lw x7,0(x6) | sw x9,0(x8) ;
exists (0:x7=0)
";
