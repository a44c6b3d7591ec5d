//! Litmus tests as text.

/// Store buffering whose condition names no place.
pub(crate) const TRUE: &str = "RISCV TRUE
{
0:x6=x; 0:x8=y;
1:x6=y; 1:x8=x;
}
 P0          | P1          ;
 ori x5,x0,1 | ori x5,x0,1 ;
 sw x5,0(x6) | sw x5,0(x6) ;
 lw x7,0(x8) | lw x7,0(x8) ;
exists (true)
";

/// A load, a store of another hart, and a condition that names what is loaded twice.
pub(crate) const TWICE: &str = "RISCV TWICE
{ 0:x6=x; 1:x6=x; 1:x5=1; }
 P0          | P1          ;
 lw x7,0(x6) | sw x5,0(x6) ;
forall (0:x7=0 \\/ ~(0:x7=0))
";

/// A hart that stores 2 unless it has loaded something, beside a store of 1.
pub(crate) const BRANCH: &str = "RISCV BRANCH
{ 0:x6=x; 0:x9=2; 1:x6=x; 1:x5=1; }
 P0             | P1          ;
 lw x5,0(x6)    | sw x5,0(x6) ;
 bne x5,x0,OUT  |             ;
 sw x9,0(x6)    |             ;
 OUT:           |             ;
exists (0:x5=1 /\\ x=1)
";

/// Three stores to one word. The last one in program order, hart by hart, is that of 3.
pub(crate) const LAST: &str = "RISCV LAST
{ 0:x6=x; 0:x5=1; 0:x7=2; 1:x6=x; 1:x5=3; }
 P0          | P1          ;
 sw x5,0(x6) | sw x5,0(x6) ;
 sw x7,0(x6) | lw x9,0(x6) ;
exists (1:x9=3 /\\ x=3)
";

/// Two AMOs that add to one word.
pub(crate) const ADDED: &str = "RISCV ADDED
{ 0:x6=x; 0:x5=1; 1:x6=x; 1:x5=2; }
 P0                  | P1                  ;
 amoadd.w x7,x5,(x6) | amoadd.w x7,x5,(x6) ;
exists (0:x7=0 /\\ 1:x7=0 /\\ x=1)
";

/// A load from an address of no location.
pub(crate) const ASTRAY: &str = "RISCV ASTRAY
{ 0:x6=x; }
 P0          ;
 lw x5,0(x0) ;
exists (0:x5=0)
";
