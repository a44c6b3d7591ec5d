//! Litmus tests as text.

/// A lock of two harts by amoswap.w, whose outcome is that both have been in and one addition is lost.
pub(crate) const LOCK: &str = "RISCV LOCK
{
0:x6=lock; 0:x8=x;
1:x6=lock; 1:x8=x;
x=0;
}
 P0                   | P1                   ;
 ori x5,x0,1          | ori x5,x0,1          ;
 amoswap.w x7,x5,(x6) | amoswap.w x7,x5,(x6) ;
 bne x7,x0,OUT        | bne x7,x0,OUT        ;
 lw x9,0(x8)          | lw x9,0(x8)          ;
 addi x9,x9,1         | addi x9,x9,1         ;
 sw x9,0(x8)          | sw x9,0(x8)          ;
 ori x14,x0,1         | ori x14,x0,1         ;
 amoswap.w x0,x0,(x6) | amoswap.w x0,x0,(x6) ;
 OUT:                 | OUT:                 ;
exists (0:x14=1 /\\ 1:x14=1 /\\ x=1)
";

/// The same of three harts.
pub(crate) const LOCK3: &str = "RISCV LOCK3
{
0:x6=lock; 0:x8=x;
1:x6=lock; 1:x8=x;
2:x6=lock; 2:x8=x;
x=0;
}
 P0                   | P1                   | P2                   ;
 ori x5,x0,1          | ori x5,x0,1          | ori x5,x0,1          ;
 amoswap.w x7,x5,(x6) | amoswap.w x7,x5,(x6) | amoswap.w x7,x5,(x6) ;
 bne x7,x0,OUT        | bne x7,x0,OUT        | bne x7,x0,OUT        ;
 lw x9,0(x8)          | lw x9,0(x8)          | lw x9,0(x8)          ;
 addi x9,x9,1         | addi x9,x9,1         | addi x9,x9,1         ;
 sw x9,0(x8)          | sw x9,0(x8)          | sw x9,0(x8)          ;
 ori x14,x0,1         | ori x14,x0,1         | ori x14,x0,1         ;
 amoswap.w x0,x0,(x6) | amoswap.w x0,x0,(x6) | amoswap.w x0,x0,(x6) ;
 OUT:                 | OUT:                 | OUT:                 ;
exists (0:x14=1 /\\ 1:x14=1 /\\ 2:x14=1 /\\ ~(x=3))
";

/// Store buffering whose outcome is the denial of a condition.
pub(crate) const ALWAYS: &str = "RISCV ALWAYS
{
0:x6=x; 0:x8=y;
1:x6=y; 1:x8=x;
}
 P0          | P1          ;
 ori x5,x0,1 | ori x5,x0,1 ;
 sw x5,0(x6) | sw x5,0(x6) ;
 lw x7,0(x8) | lw x7,0(x8) ;
forall (0:x7=1 \\/ 1:x7=1)
";

/// Store buffering with cases.
pub(crate) const CASES: &str = "RISCV CASES
{
0:x6=x; 0:x8=y;
1:x6=y; 1:x8=x;
}
 P0          | P1          ;
 ori x5,x0,1 | ori x5,x0,1 ;
 sw x5,0(x6) | sw x5,0(x6) ;
 lw x7,0(x8) | lw x7,0(x8) ;
~exists ((0:x7=0 /\\ 1:x7=0) \\/ ~(0:x7=0 \\/ 0:x7=1 \\/ x=2) \\/ x=0)
";

/// Store buffering with any outcome.
pub(crate) const UNTOLD: &str = "RISCV UNTOLD
{
0:x6=x; 0:x8=y;
1:x6=y; 1:x8=x;
}
 P0          | P1          ;
 ori x5,x0,1 | ori x5,x0,1 ;
 sw x5,0(x6) | sw x5,0(x6) ;
 lw x7,0(x8) | lw x7,0(x8) ;
exists (true)
";

/// Two stores, and a hart that sees one of them.
pub(crate) const SEEN: &str = "RISCV SEEN
{
0:x6=x; 0:x8=y;
1:x6=y; 1:x8=x;
}
 P0          | P1          ;
 ori x5,x0,1 | lw x5,0(x6) ;
 sw x5,0(x6) | lw x7,0(x8) ;
 sw x5,0(x8) |             ;
exists (1:x5=1 \\/ 1:x7=1)
";

/// Two pairs, one of which stores.
pub(crate) const PAIRS: &str = "RISCV PAIRS
{
0:x6=x;
1:x6=x;
}
 P0              | P1              ;
 ori x5,x0,1     | ori x5,x0,1     ;
 lr.w x7,(x6)    | lr.w x7,(x6)    ;
 sc.w x9,x5,(x6) | sc.w x9,x5,(x6) ;
exists (x=1)
";

/// A word that two harts store.
pub(crate) const SOURCES: &str = "RISCV SOURCES
{
0:x6=x;
1:x6=x;
2:x6=x;
}
 P0          | P1          | P2          ;
 ori x5,x0,1 | ori x5,x0,1 | lw x7,0(x6) ;
 sw x5,0(x6) | sw x5,0(x6) |             ;
exists (2:x7=1)
";

/// Three stores to a word, whose last one isn't that of P2.
pub(crate) const THREE: &str = "RISCV THREE
{
0:x6=x;
1:x6=x;
2:x6=x;
}
 P0          | P1          | P2          ;
 ori x5,x0,1 | ori x5,x0,2 | ori x5,x0,3 ;
 sw x5,0(x6) | sw x5,0(x6) | sw x5,0(x6) ;
exists (x=1 \\/ x=2)
";

/// Two stores of each of two harts to a word, whose last one is P0's second.
pub(crate) const LAST: &str = "RISCV LAST
{
0:x6=x;
1:x6=x;
}
 P0          | P1          ;
 ori x5,x0,1 | ori x5,x0,3 ;
 ori x7,x0,2 | ori x7,x0,4 ;
 sw x5,0(x6) | sw x5,0(x6) ;
 sw x7,0(x6) | sw x7,0(x6) ;
exists (x=2)
";

/// Five harts that each add 1 by a pair, all of which store, and one addition is lost.
pub(crate) const ADDERS: &str = "RISCV ADDERS
{
0:x6=x; 1:x6=x; 2:x6=x; 3:x6=x; 4:x6=x;
}
 P0              | P1              | P2              | P3              | P4              ;
 lr.w x5,(x6)    | lr.w x5,(x6)    | lr.w x5,(x6)    | lr.w x5,(x6)    | lr.w x5,(x6)    ;
 addi x5,x5,1    | addi x5,x5,1    | addi x5,x5,1    | addi x5,x5,1    | addi x5,x5,1    ;
 sc.w x9,x5,(x6) | sc.w x9,x5,(x6) | sc.w x9,x5,(x6) | sc.w x9,x5,(x6) | sc.w x9,x5,(x6) ;
exists (x=4 /\\ 0:x9=0 /\\ 1:x9=0 /\\ 2:x9=0 /\\ 3:x9=0 /\\ 4:x9=0)
";

/// Four harts count themselves and then look at a word, which a fifth one clears before it reads the count. The outcome
/// is that the four find the word as it was, and the fifth one misses one of them.
pub(crate) const WAITERS: &str = "RISCV WAITERS
{
0:x5=1; 0:x6=count; 0:x8=word;
1:x5=1; 1:x6=count; 1:x8=word;
2:x5=1; 2:x6=count; 2:x8=word;
3:x5=1; 3:x6=count; 3:x8=word;
4:x6=word; 4:x8=count;
word=1;
}
 P0                  | P1                  | P2                  | P3                  | P4          ;
 amoadd.w x9,x5,(x6) | amoadd.w x9,x5,(x6) | amoadd.w x9,x5,(x6) | amoadd.w x9,x5,(x6) | sw x0,0(x6) ;
 lw x7,0(x8)         | lw x7,0(x8)         | lw x7,0(x8)         | lw x7,0(x8)         | lw x7,0(x8) ;
exists (0:x7=1 /\\ 1:x7=1 /\\ 2:x7=1 /\\ 3:x7=1 /\\ ~(4:x7=4))
";

/// Four harts each leave a message and then find by a swap that a fifth one still runs. This one clears that by a swap
/// before it reads the messages. The outcome is that all four found it running, and it misses a message.
pub(crate) const ACTOR: &str = "RISCV ACTOR
{
0:x5=1; 0:x6=m; 0:x8=runs;
1:x5=1; 1:x6=n; 1:x8=runs;
2:x5=1; 2:x6=o; 2:x8=runs;
3:x5=1; 3:x6=p; 3:x8=runs;
4:x8=runs; 4:x20=m; 4:x21=n; 4:x22=o; 4:x23=p;
runs=1;
}
 P0                   | P1                   | P2                   | P3                   | P4                   ;
 sw x5,0(x6)          | sw x5,0(x6)          | sw x5,0(x6)          | sw x5,0(x6)          | amoswap.w x9,x0,(x8) ;
 amoswap.w x7,x5,(x8) | amoswap.w x7,x5,(x8) | amoswap.w x7,x5,(x8) | amoswap.w x7,x5,(x8) | lw x10,0(x20)        ;
                      |                      |                      |                      | lw x11,0(x21)        ;
                      |                      |                      |                      | lw x12,0(x22)        ;
                      |                      |                      |                      | lw x13,0(x23)        ;
exists (0:x7=1 /\\ 1:x7=1 /\\ 2:x7=1 /\\ 3:x7=1 /\\ (4:x10=0 \\/ 4:x11=0 \\/ 4:x12=0 \\/ 4:x13=0))
";

/// Message passing whose reader jumps over a load where its second load returns 0.
pub(crate) const JUMPS: &str = "RISCV JUMPS
{
0:x6=x; 0:x8=y;
1:x6=x; 1:x8=y; 1:x9=z;
2:x9=z;
}
 P0          | P1           | P2          ;
 ori x5,x0,1 | lw x10,0(x8) | ori x5,x0,1 ;
 sw x5,0(x6) | lw x11,0(x9) | sw x5,0(x9) ;
 sw x5,0(x8) | beq x11,x0,L |             ;
             | lw x12,0(x9) |             ;
             | L:           |             ;
             | lw x13,0(x6) |             ;
exists (1:x10=1 /\\ 1:x13=0)
";
