//! The table of worked runs.
//!
//! A record has seven lines: `=== ` and its name; how what comes out was worked out, where p is the instance; the gang's size, the entry, the
//! instance, how many turns each loop may make each time it is entered, and the arguments; how the run ends, which is `gives` and the result,
//! `traps` and the kind, or `cut`; the elements that it stored in, with what it stored, as bits; those that it read; and the source, in which a
//! trap's place stands between `⟦` and `⟧`. Arrays have the names of the entry's parameters.
//!
//! Where the working names an independent implementation, that one gave how the run ends and what it stored; all else is worked out by hand
//! from the rules of the language.

/// How many records there are.
pub(crate) const COUNT: usize = 55;

/// The records.
pub(crate) const ROWS: &str = r##"=== what is before an instance
2 adds a[0] and a[1], 3 + 5, and leaves the loop.
4 f 2 40 {"a":[3,5,7,9,0,0,0,0]}
gives 0
a[6]=8
a[0] a[1]
export void f(uniform int a[]) { int x = 0; for (uniform int k = 0; k < 9; k++) { if (k == programIndex) break; x += a[k]; } a[4 + programIndex] = x; }
=== numbers are dealt out
1 has 1 and then 5.
4 f 1 40 {"a":[0,0,0,0,0,0,0,0]}
gives 0
a[1]=2 a[5]=6

export void f(uniform int a[]) { foreach (i = 0 ... 6) a[i] = i + 1; }
=== rows are dealt out
In both rows 1 has 1; 5 is past the end.
4 f 1 40 {"a":[0,0,0,0,0,0,0,0,0,0]}
gives 0
a[1]=1 a[6]=11

export void f(uniform int a[]) { foreach (j = 0 ... 2, i = 0 ... 5) a[5 * j + i] = 10 * j + i; }
=== an outer range whose start is above its end
No run; what comes behind the loop is done.
4 f 1 40 {"a":[0,0,0,0]}
gives 0
a[3]=1

export void f(uniform int a[]) { foreach (j = 3 ... 1, i = 0 ... 4) a[i] = 9; a[3] = 1; }
=== an inner range whose start is above its end
No run for either j.
4 f 0 40 {"a":[0,0,0,0]}
gives 0
a[3]=1

export void f(uniform int a[]) { foreach (j = 0 ... 2, i = 4 ... -4) a[j] = 9; a[3] = 1; }
=== tiles are rows
The same runs as of `foreach`: 2 has x = 2 in each row, and 6 is past the end.
4 f 2 40 {"a":[0,0,0,0,0,0,0,0,0,0,0,0]}
gives 0
a[2]=2 a[8]=12

export void f(uniform int a[]) { foreach_tiled (y = 0 ... 2, x = 0 ... 6) a[6 * y + x] = 10 * y + x; }
=== three ranges
For z and y 0 and 1 each, 1 has x = 2 of 1, 2 and 3; then x = 5 is past the end.
4 f 1 40 {"a":[0,0,0,0,0,0,0,0,0,0,0,0,0,0,0,0]}
gives 0
a[2]=2 a[6]=12 a[10]=102 a[14]=112

export void f(uniform int a[]) { foreach (z = 0 ... 2, y = 0 ... 2, x = 1 ... 4) a[8 * z + 4 * y + x] = 100 * z + 10 * y + x; }
=== the top of int32
2147483646 is the last number, and 1 has it; no index goes past int32.
4 f 1 40 {"a":[0,0,0,0]}
gives 0
a[1]=2147483646

export void f(uniform int a[]) { foreach (i = 2147483645 ... 2147483647) a[i - 2147483645] = i; }
=== the top of int32, past the end
2 would have 2147483647, which is the end.
4 f 2 40 {"a":[0,0,0,0]}
gives 0


export void f(uniform int a[]) { foreach (i = 2147483645 ... 2147483647) a[i - 2147483645] = i; }
=== bounds are read once
b[0] and b[1] are 1 and 4 when they are found; 0 has 1, and the next would be 5.
4 f 0 40 {"a":[0,0,0,0],"b":[1,4]}
gives 0
a[1]=7 b[1]=9
b[0] b[1]
export void f(uniform int a[], uniform int b[]) { foreach (i = b[0] ... b[1]) { a[i] = 7; b[1] = 9; } }
=== a continue in a foreach
1 has 1 and 5, and continues at 5.
4 f 1 40 {"a":[0,0,0,0,0,0,0,0]}
gives 0
a[1]=1

export void f(uniform int a[]) { foreach (i = 0 ... 8) { if (i > 3) continue; a[i] = 1; } }
=== a foreach in a gang of sixteen
15 has 15; then 31 is past the end.
16 f 15 40 {"a":[0,0,0,0,0,0,0,0,0,0,0,0,0,0,0,0,0,0,0,0]}
gives 0
a[15]=30

export void f(uniform int a[]) { foreach (i = 0 ... 20) a[i] = 2 * i; }
=== an index outside, stored
11 is outside 8; what was stored before stays.
4 f 3 40 {"a":[3,5,7,9,0,0,0,0]}
traps index
a[0]=1

export void f(uniform int a[]) { a[0] = 1; ⟦a[programIndex + 8]⟧ = 1; }
=== an index outside, read
8 is outside 8, so nothing is read there; a[1] was read.
4 f 2 40 {"a":[0,6,0,0,0,0,0,0]}
traps index

a[1]
export void f(uniform int a[]) { int x = a[1]; x += ⟦a[4 * programIndex]⟧; a[programIndex] = x; }
=== the same index inside for another instance
4 is inside: 6 + 2.
4 f 1 40 {"a":[0,6,0,0,2,0,0,0]}
gives 0
a[1]=8
a[1] a[4]
export void f(uniform int a[]) { int x = a[1]; x += a[4 * programIndex]; a[programIndex] = x; }
=== an index below zero
-1 for 0.
4 f 0 40 {"a":[1,2,3,4]}
traps index


export void f(uniform int a[]) { ⟦a[programIndex - 1]⟧++; }
=== the right side goes before the check
a[2] is read before the index of the target is checked.
4 f 1 40 {"a":[0,0,5,0]}
traps index

a[2]
export void f(uniform int a[]) { ⟦a[programIndex + 7]⟧ = a[2]; }
=== a divisor that is zero
1 - 1 is 0; a[2] was read before, and a[0] stored.
4 f 1 40 {"a":[0,0,5,0]}
traps divide
a[0]=5
a[2]
export void f(uniform int a[]) { a[0] = 5; a[programIndex] = ⟦a[2] / (programIndex - 1)⟧; }
=== a divisor that is zero in an update
a[3] is read, and not stored.
4 f 3 40 {"a":[0,0,0,8],"n":0}
traps divide

a[3]
export void f(uniform int a[], uniform int n) { ⟦a[programIndex] %= n⟧; }
=== an assert
It holds in 1 and not in 2.
4 f 2 40 {"a":[0,0,0,0]}
traps assert
a[0]=1

export void f(uniform int a[]) { a[0] = 1; ⟦assert(programIndex < 2)⟧; a[1] = 1; }
=== an assert that holds
1 is below 2.
4 f 1 40 {"a":[0,0,0,0]}
gives 0
a[0]=1 a[1]=1

export void f(uniform int a[]) { a[0] = 1; assert(programIndex < 2); a[1] = 1; }
=== 256 calls, one in the other
f is the first, down(254) the second, down(0) the 256th.
4 f 3 40 {"a":[0,0,0,0]}
gives 254
a[3]=254

uniform int down(uniform int n) { if (n == 0) return 0; return 1 + down(n - 1); } export uniform int f(uniform int a[]) { uniform int d = down(254); a[programIndex] = d; return d; }
=== 257 calls, one in the other
down(0) would be the 257th: down(1) traps, and nothing was stored.
4 f 3 40 {"a":[0,0,0,0]}
traps depth


uniform int down(uniform int n) { if (n == 0) return 0; return 1 + ⟦down(n - 1)⟧; } export uniform int f(uniform int a[]) { uniform int d = down(255); a[programIndex] = d; return d; }
=== a loop without end
Each of 40 turns adds 1 to 3.
4 f 0 40 {"a":[3]}
cut
a[0]=43
a[0]
export void f(uniform int a[]) { while (true) { a[0]++; } }
=== as many turns as there may be
Five turns; the sixth test is false.
4 f 0 5 {"a":[0]}
gives 0
a[0]=5
a[0]
export void f(uniform int a[]) { for (uniform int k = 0; k < 5; k++) a[0]++; }
=== one turn too many
The fifth turn is not there; four were made.
4 f 0 4 {"a":[0]}
cut
a[0]=4
a[0]
export void f(uniform int a[]) { for (uniform int k = 0; k < 5; k++) a[0]++; }
=== no turn at all
The test is false at once, so none is needed.
4 f 0 0 {"a":[0]}
gives 0
a[0]=1

export void f(uniform int a[]) { while (programIndex > 0) a[0] = 9; a[0] = 1; }
=== the first turn of a do
It is needed before any test.
4 f 0 0 {"a":[0]}
cut


export void f(uniform int a[]) { do a[0] = 9; while (false); }
=== an inner loop has its turns anew
Three times three turns.
4 f 1 3 {"a":[0]}
gives 9
a[0]=9
a[0]
export uniform int f(uniform int a[]) { uniform int n = 0; for (uniform int k = 0; k < 3; k++) for (uniform int m = 0; m < 3; m++) { n++; a[0]++; } return n; }
=== an instance needs fewer turns than another
2 leaves after two turns; 3 would need a third.
4 f 2 2 {"a":[0,0,0,0]}
gives 0
a[2]=2

export void f(uniform int a[]) { int x = 0; while (x < programIndex) x++; a[programIndex] = x; }
=== another instance needs more
3 needs a third turn.
4 f 3 2 {"a":[0,0,0,0]}
cut


export void f(uniform int a[]) { int x = 0; while (x < programIndex) x++; a[programIndex] = x; }
=== an array of its own
t is 3 * 2, 5 * 2, 7 * 2.
4 f 2 40 {"a":[3,5,7,9]}
gives 0
a[2]=30
a[0] a[1] a[2]
export void f(uniform int a[]) { int t[3]; for (uniform int k = 0; k < 3; k++) t[k] = a[k] * programIndex; a[programIndex] = t[0] + t[1] + t[2]; }
=== an array of its own is declared again
In each turn t begins with zeros.
4 f 0 40 {"a":[0,0,0,0]}
gives 0
a[0]=1 a[1]=1 a[2]=1

export void f(uniform int a[]) { for (uniform int k = 0; k < 3; k++) { int t[2]; t[1] += 1; a[3 * programIndex + k] = t[1]; } }
=== an array of its own, outside
It has three elements, whoever asks.
4 f 3 40 {"a":[0,0,0,0]}
traps index


export void f(uniform int a[]) { int t[3]; a[programIndex] = ⟦t[programIndex]⟧; }
=== arrays under other names
x is b, and y is a: it is a that is read, and b that is stored in.
4 f 2 40 {"a":[3,5,7,9],"b":[0,0,0,0]}
gives 0
b[2]=8
a[2]
void g(uniform int x[], uniform int y[], int v) { x[v] = y[v] + 1; } export void f(uniform int a[], uniform int b[]) { g(b, a, programIndex); }
=== arrays under other names, two calls deep
x is a, y is b; in h the names change again, so u is b, v is a.
4 f 1 40 {"a":[3,5,7,9],"b":[1,2,3,4]}
gives 0
a[1]=7 b[1]=5
a[1] b[1]
void h(uniform int u[], uniform int v[], int k) { v[k] += u[k]; u[k] = 5; } void g(uniform int x[], uniform int y[], int k) { h(y, x, k); } export void f(uniform int a[], uniform int b[]) { g(a, b, programIndex); }
=== one array under two names
What is stored as x is read as y: 10, and then 11.
4 f 3 40 {"a":[0,0,0,0]}
gives 0
a[2]=11 a[3]=10
a[3]
void g(uniform int x[], uniform int y[], int v) { x[v] = 10; x[v - 1] = y[v] + 1; } export void f(uniform int a[]) { g(a, a, programIndex); }
=== a second array, handed on
The second parameter is b, and only b is touched.
4 f 1 40 {"a":[1,1],"b":[2,2],"n":6}
gives 0
b[1]=8
b[1]
void g(uniform int n, uniform int x[], int v) { x[v] += n; } export void f(uniform int a[], uniform int n, uniform int b[]) { g(n, b, programIndex); }
=== a step reads and writes
a[1] is 5.
4 f 1 40 {"a":[4,5,6,7]}
gives 0
a[1]=6
a[1]
export void f(uniform int a[]) { a[programIndex]++; }
=== an update reads and writes
7 * 3.
4 f 3 40 {"a":[4,5,6,7]}
gives 0
a[3]=21
a[3]
export void f(uniform int a[]) { a[programIndex] *= 3; }
=== an assignment writes
Nothing is read.
4 f 3 40 {"a":[4,5,6,7]}
gives 0
a[3]=3

export void f(uniform int a[]) { a[programIndex] = 3; }
=== what the run itself stored is read
It is read too: 4 + 1.
4 f 0 40 {"a":[9,9,9,9]}
gives 0
a[0]=4 a[1]=5
a[0]
export void f(uniform int a[]) { a[0] = 4; a[1] = a[0] + 1; }
=== an operand that is not needed
1 > 2 is false, so a[0] is not read; a[1] is.
4 f 1 40 {"a":[9,9,9,9]}
gives 0
a[1]=9
a[1]
export void f(uniform int a[]) { if (programIndex > 2 && a[0] == 9) a[2] = 1; a[programIndex] = programIndex > 0 ? a[1] : a[2]; }
=== a select takes both
The library's `select` has its arguments before.
4 f 1 40 {"a":[9,8,7,6]}
gives 0
a[1]=8
a[1] a[2]
export void f(uniform int a[]) { a[programIndex] = select(programIndex > 0, a[1], a[2]); }
=== a uniform is the instance's own
0 is not where u is assigned to others.
4 f 0 40 {"a":[0,0,0,0]}
gives 0
a[0]=1

export void f(uniform int a[]) { uniform int u = 0; if (programIndex == 0) u = 1; a[programIndex] = u; }
=== a narrow element
127 + 1 is -128 in int8, whose bits are 128.
4 f 1 40 {"a":[0,127,0,0]}
gives 0
a[1]=128
a[1]
export void f(uniform int8 a[]) { a[programIndex]++; }
=== a result is 0 again in the next call
g(1) is 9; g(0) has no `return`.
4 f 2 40 {"a":[1,1,1,1]}
gives 0
a[2]=9 a[3]=0

int g(int x) { if (x == 1) return 9; } export void f(uniform int a[]) { a[programIndex] = g(1); a[programIndex + 1] = g(0); }
=== a caller has its variables again
The 7th number of Fibonacci is 13, and m is still 2.
4 f 2 40 {"a":[0,0,0,0]}
gives 15
a[2]=13

uniform int fib(uniform int n) { if (n < 2) return n; uniform int m = fib(n - 1); return m + fib(n - 2); } export uniform int f(uniform int a[]) { uniform int m = 2; uniform int r = fib(7); a[programIndex] = r; return r + m; }
=== a return out of two loops
At k = 1, m = 2 the sum is 3.
4 f 0 40 {"a":[0]}
gives 12
a[0]=3

uniform int g() { for (uniform int k = 0; k < 5; k++) for (uniform int m = 0; m < 5; m++) if (k + m == 3 && k > 0) return 10 * k + m; return 99; } export uniform int f(uniform int a[]) { uniform int r = g(); a[0] = 3; return r; }
=== a do whose body continues
t is 1, 2, 3; the test is asked after a `continue` too.
4 f 0 40 {"a":[0,0,0,0]}
gives 3
a[1]=1 a[3]=3

export uniform int f(uniform int a[]) { uniform int t = 0; do { t++; if (t == 2) continue; a[t] = t; } while (t < 3); return t; }
=== what no independent entry has
`print` takes its values; `unmasked` runs its block; the turn of `foreach_active` is p's own; a sum over the gang gives 0.
4 f 2 40 {"a":[7,7,7,7],"b":[5]}
gives 0
a[0]=0 a[1]=4 a[2]=2
b[0]
export void f(uniform int a[], uniform int b[]) { print("%\n", b[0]); unmasked { a[1] = 4; } foreach_active (i) a[i] = i; a[0] = reduce_add(programIndex); }
=== reads of a tiled loop
Found by an independent implementation, for 1 of 8. It has i2 = 1 in four runs, in which it reads z[1], z[0], z[3], z[2].
8 f 1 40 {"a":[-844676410,-2,-2147483647,2147483646,4,5,-3,-2147483647],"o":[22,0,0,8,2,48,5,254,2],"z":[true,false,true,false,false,false]}
gives 0
a[1]=4294967295
a[1] o[1] z[0] z[1] z[2] z[3]
export void f(uniform signed int a[], uniform unsigned int8 o[], uniform bool z[]) { int x = -(o[programIndex] * z[(programIndex ^ (z[(programIndex ^ (! o[programIndex])) & 3])) & 3]); foreach_tiled (i1 = 0 ... 4, i2 = 0 ... 2) { varying signed v3 = (z[(programIndex ^ (i1)) & 3]); a[programIndex]; } signed int64 v4 = x * x, v5; ; x |= programIndex; a[programIndex] += x; }
=== reads beside a tiled loop
Found by an independent implementation, for 2 of 8. It is in no run of the loop.
8 f 2 40 {"a":[-844676410,-2,-2147483647,2147483646,4,5,-3,-2147483647],"o":[22,0,0,8,2,48,5,254,2],"z":[true,false,true,false,false,false]}
gives 0
a[2]=2147483651
a[2] o[2] z[2] z[3]
export void f(uniform signed int a[], uniform unsigned int8 o[], uniform bool z[]) { int x = -(o[programIndex] * z[(programIndex ^ (z[(programIndex ^ (! o[programIndex])) & 3])) & 3]); foreach_tiled (i1 = 0 ... 4, i2 = 0 ... 2) { varying signed v3 = (z[(programIndex ^ (i1)) & 3]); a[programIndex]; } signed int64 v4 = x * x, v5; ; x |= programIndex; a[programIndex] += x; }
=== a remainder by zero
Found by an independent implementation, for 2 of 4: n is 2, and 2 ^ 2 is 0.
4 f 2 0 {"a":[2147483646,2147483646,1,5,-2147483647,713983588],"o":[-2,-3,63,-128],"n":2}
traps divide


export void f(uniform int a[], uniform int8 o[], uniform int n) { int x = ⟦(!(n)) % (n ^ programIndex)⟧; (programIndex); n &= o[3]; o[programIndex] = x; }
=== a call that adds in an array
Found by an independent implementation, for 1 of 4, which has i7 = 0: one call, in which b3 is a. It reads a[4] and o[1] at first.
4 f 1 0 {"a":[-1016059061,1,1269875222,9,2147483647,-1,9,-1575811916],"o":[-1,-4,76,-72,-9]}
gives 0
a[0]=253816152 o[1]=15
a[0] a[2] a[3] a[4] o[1] o[4]
uniform signed g0(signed p1, uniform uint16 p2, uniform int32 b3[]) { b3[(p1) & 3] += (18446744073709551615 ? b3[2] - b3[3] : p2 || 0b11100u) << (4) / (p2 | 1); ; return p2; } void g1(varying int32 p4, int32 p5) { signed int v6 = (6) % ((((int) p5 <= 1 | 1)) | 1); } export void f(uniform int32 a[], uniform int8 o[]) { int x = (varying signed int) a[4] + o[programIndex] * o[programIndex]; foreach_tiled (i7 = -1 ... 3) { if (g0(programCount, o[4], a)) continue; } ; o[programIndex] = x; }
"##;
