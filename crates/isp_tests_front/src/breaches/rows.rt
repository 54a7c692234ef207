//! The table of sources with their breaches.
//!
//! A record is `=== ` and what it shows, and in the next line or lines the source. In it each breach stands between `⟦` and `⟧`, after
//! its number and a blank. Lists are worked out by hand from the rules of rates, exits and exports in docs/LANGUAGE.md. The sources of
//! records that are found elsewhere, and the first breach of each, are of an independent implementation.

/// How many records there are.
pub(super) const COUNT: usize = 38;

/// The records.
pub(super) const ROWS: &str = r##"=== no function

=== no breach
void f(uniform int a[], uniform int u, int v) { uniform int x = programCount; u = x + a[u]; a[v] = v; v = u; }
=== one breach
void f() { uniform int u = ⟦30 programIndex⟧; }
=== both operands have one, so the sum has none
uniform int g(uniform int x) { return x; } void w(uniform int b[]) { } void f(uniform int a[], uniform int u, int v) { u = g(⟦30 v⟧) + g(⟦30 v + 1⟧); }
=== one operand has one, and the other, which is varying, none
uniform int g(uniform int x) { return x; } void w(uniform int b[]) { } void f(uniform int a[], uniform int u, int v) { u = g(⟦30 v⟧) * v; }
=== no operand has one
uniform int g(uniform int x) { return x; } void w(uniform int b[]) { } void f(uniform int a[], uniform int u, int v) { u = ⟦30 u * v⟧; }
=== each of the three of a choice
uniform int g(uniform int x) { return x; } void w(uniform int b[]) { } void f(uniform int a[], uniform int u, int v) { u = g(⟦30 v⟧) ? g(⟦30 -v⟧) : g(⟦30 ~v⟧); }
=== a call in a call
uniform int g(uniform int x) { return x; } void w(uniform int b[]) { } void f(uniform int a[], uniform int u, int v) { u = g(g(⟦30 v⟧) + v); }
=== brackets and casts
uniform int g(uniform int x) { return x; } void w(uniform int b[]) { } void f(uniform int a[], uniform int u, int v) { uniform bool t = (uniform int8) ⟦30 v⟧; u = (uniform int) ⟦30 (int16) v⟧; u = ⟦30 (v)⟧; v = (uniform int) (uniform int) ⟦30 v⟧; }
=== of several items each
uniform int g(uniform int x) { return x; } void w(uniform int b[]) { } void f(uniform int a[], uniform int u, int v) { uniform int x = ⟦30 v⟧, y = x, z = ⟦30 x + v⟧; }
=== the index of a target and what is assigned
uniform int g(uniform int x) { return x; } void w(uniform int b[]) { } void f(uniform int a[], uniform int u, int v) { a[g(⟦30 v⟧)] = ⟦30 v⟧; a[g(⟦30 v⟧)] += ⟦30 v << 1⟧; a[v + g(⟦30 v⟧)]++; u++; }
=== what is given back
uniform int g(uniform int x) { return x; } void w(uniform int b[]) { } void f(uniform int a[], uniform int u, int v) { return; if (u) u = ⟦30 v⟧; }
=== each result
uniform int f(int v, bool b) { if (b) return ⟦30 v⟧; else return ⟦30 b ? 1 : 2⟧; return programCount; }
=== arrays
uniform int g(uniform int x) { return x; } void w(uniform int b[]) { } void f(uniform int a[], uniform int u, int v) { int t[3]; uniform int s[3]; w(⟦30 t⟧); w(s); u = ⟦30 t[0]⟧; u = s[1]; u = ⟦30 s[v]⟧; }
=== tests of any rate, with their parts
uniform int g(uniform int x) { return x; } void w(uniform int b[]) { } void f(uniform int a[], uniform int u, int v) { if (g(⟦30 v⟧) + v) u = ⟦30 v⟧; else u = ⟦30 v + v⟧; while (g(⟦30 v⟧)) u = ⟦30 -v⟧; do u = ⟦30 v⟧; while (v < g(⟦30 v⟧)); assert(g(⟦30 v⟧) < v); }
=== the parts of a for
uniform int g(uniform int x) { return x; } void w(uniform int b[]) { } void f(uniform int a[], uniform int u, int v) { for (uniform int k = ⟦30 v⟧; k < g(⟦30 v⟧); k += ⟦30 v⟧) u = ⟦30 v⟧; for (u = ⟦30 v⟧; ; ) break; }
=== printed values of any rate, with their parts
uniform int g(uniform int x) { return x; } void w(uniform int b[]) { } void f(uniform int a[], uniform int u, int v) { print("% % %", g(⟦30 v⟧), v, (uniform int) ⟦30 v⟧); }
=== the library's uniform places
uniform int g(uniform int x) { return x; } void w(uniform int b[]) { } void f(uniform int a[], uniform int u, int v) { v = broadcast(v, ⟦30 v⟧); v = rotate(v, ⟦30 v⟧) + shift(g(⟦30 v⟧), ⟦30 v⟧); v = insert(v, ⟦30 v⟧, ⟦30 v - 1⟧); u = extract(v, g(⟦30 v⟧)); v = shuffle(v, v); }
=== packed calls
uniform int g(uniform int x) { return x; } void w(uniform int b[]) { } void f(uniform int a[], uniform int u, int v) { int t[3]; u = packed_store_active(&⟦30 t⟧[⟦30 v⟧], g(⟦30 v⟧)); u = packed_store_active(⟦30 t⟧, v); u = packed_load_active(&a[⟦30 v⟧], &v); u = packed_load_active(&⟦30 t⟧, &v); }
=== the bounds of a foreach
uniform int g(uniform int x) { return x; } void w(uniform int b[]) { } void f(uniform int a[], uniform int u, int v) { foreach (i = ⟦30 v⟧ ... ⟦30 v + 1⟧, j = g(⟦30 v⟧) ... 4) u = ⟦30 i⟧; }
=== exits of a body
void f() { ⟦31 break⟧; { ⟦31 continue⟧; } if (1) ⟦31 break⟧; while (1) { if (1) break; continue; } ⟦31 break⟧; return; }
=== exits of a foreach
void f() { foreach (i = 0 ... 4) { ⟦31 break⟧; continue; ⟦31 return⟧; while (1) { break; continue; ⟦31 return⟧; } for (;;) foreach_active (k) { continue; ⟦31 break⟧; } } return; }
=== exits of a foreach_active and a foreach_unique
void f(int v) { foreach_active (k) { ⟦31 return⟧; do break; while (v); ⟦31 break⟧; } foreach_unique (w in v) { continue; ⟦31 break⟧; ⟦31 return⟧; } }
=== exits of an unmasked
void f() { while (1) { unmasked { ⟦31 break⟧; ⟦31 continue⟧; ⟦31 return⟧; foreach (i = 0 ... 4) continue; do continue; while (1); } break; } }
=== a return that may not stand, with its value
uniform int f(int v) { foreach (i = 0 ... 4) ⟦31 return⟧ ⟦30 v⟧; unmasked { ⟦31 return⟧ 1; } return ⟦30 v⟧; }
=== a foreach in a foreach
void f(int v) { foreach (i = 0 ... ⟦30 v⟧) { ⟦32 foreach⟧ (j = ⟦30 i⟧ ... 4) { ⟦31 break⟧; ⟦32 foreach_tiled⟧ (k = 0 ... ⟦30 j⟧) ; } foreach_active (l) if (v) ⟦32 foreach⟧ (m = 0 ... 1) ; } foreach (n = 0 ... 4) ; }
=== exports
export int ⟦33 f⟧(int ⟦33 n⟧, uniform int a[], uniform int m, bool ⟦33 b⟧) { return n; } int h(int n) { return n; } export void k(int8 ⟦33 n⟧) { } export bool ⟦33 l⟧() { return true; }
=== each function
export void f(int ⟦33 n⟧) { ⟦31 break⟧; } uniform int g() { return ⟦30 programIndex⟧; } export uniform bool k(bool ⟦33 x⟧) { foreach (i = 0 ... 4) ⟦32 foreach⟧ (j = 0 ... ⟦30 x⟧) ; return ⟦30 x⟧; }
=== a function that stands below its call
void f(int v) { h(⟦30 v⟧, v); } void h(uniform int x, int y) { h(⟦30 y⟧, x); }
=== found elsewhere: a rate, then an exit
export void f(uniform signed int a[], uniform signed o[], uniform int16 n) { uniform int uu = ⟦30 programIndex⟧; unmasked { ⟦31 break⟧; } int x = -(n) >= programIndex || n; signed v1; n = (programCount) % (((!(3 && n) | 1)) | 1); o[programIndex] = x; }
=== found elsewhere: an export, then an exit
export void h(int ⟦33 p⟧) { }
export uniform unsigned f(uniform int a[], uniform uint8 o[], uniform int16 n) { int x = !(programIndex); print("\n"); uint8 v1, v2 = ((v1) ^ n ? !(v1) - (v1 ? x : v1) : 0b10000u >> n ^ (int32) a[(programIndex ^ (-(n))) & 3]); o[programIndex] = x; ⟦31 continue⟧; return abs(0x84u) > ! n; }
=== found elsewhere: an export, then a bound
export void h(int ⟦33 p⟧) { }
export void f(uniform signed int a[], uniform signed int64 o[]) { int x = ~(o[programIndex]) | a[programIndex]; x &= (a[programIndex]) / (((x && 3 >> (16ULL) | 1)) | 1); int32 t1[4]; foreach (q = ⟦30 x⟧ ... 2) ; a[(4 && 6) & 15] &= ~((o[9] == a[(4294967295 ^ a[(~ 5) & 15]) & 15])); ; a[programIndex] += x; }
=== found elsewhere: an exit, then a rate
export uniform int f(uniform signed a[], uniform int o[], uniform uint32 z[], uniform int n) { int x = a[(programIndex < programIndex) & 15]; bool v1; foreach_active (q) { ⟦31 break⟧; uniform int uu = 1; uu += ⟦30 x⟧; } foreach (i2 = 0 ... programCount + 1, i3 = 0 ... 6, i4 = 0 ... 2) { ; } o[programIndex] = x; return 6 + n != (n ? a[(7) & 15] : 4294967296); }
=== found elsewhere: two parameters, and an argument in brackets
void g() { } int h(int x) { return x; } export void f(uniform int a[], const uniform int c[], uniform int8 d[], uniform int u, int ⟦33 k⟧, bool ⟦33 l⟧) { int x, y, i2; uniform int w; int t[4]; const int ca[2]; uniform uint ta[3]; const int cv; assert(m(⟦30 (1 ? programIndex : 0xffffffff)⟧, a)); } uniform int m(uniform int x, uniform int b[]) { return x; } void p(const uniform int b[], int x) { } bool q(uniform int8 b[]) { return 1; }
=== found elsewhere: two bounds
void g() { } int h(int x) { return x; } uniform int m(uniform int x, uniform int b[]) { return x; } int f(uniform int a[], const uniform int c[], uniform int8 d[], uniform int u, int k, bool l) { int x, y, i2; uniform int w; int t[4]; const int ca[2]; uniform uint ta[3]; const int cv; foreach_tiled (i2 = ⟦30 l⟧ ... ⟦30 (unsigned int8) (x)⟧) int64 n4 = u & (l); } void p(const uniform int b[], int x) { } bool q(uniform int8 b[]) { return 1; }
=== found elsewhere: a step and a bound
void g() { } int h(int x) { return x; } uniform int f(uniform int a[], const uniform int c[], uniform int8 d[], uniform int u, int k, bool l) { int x, y, i2; uniform int w; int t[4]; const int ca[2]; uniform uint ta[3]; const int cv; for (; ; u += ⟦30 x⟧) foreach_tiled (j2 = 0 ... ~(u), i2 = ⟦30 x⟧ ... (int16) (u)) int n3; } uniform int m(uniform int x, uniform int b[]) { return x; } void p(const uniform int b[], int x) { } bool q(uniform int8 b[]) { return 1; }
=== found elsewhere: an exit and a bound
uniform int f(uniform int a[], const uniform int c[], uniform int8 d[], uniform int u, int k, bool l) { int x, y, i2; uniform int w; int t[4]; const int ca[2]; uniform uint ta[3]; const int cv; { ⟦31 break⟧; foreach (i2 = u ... ⟦30 k⟧) uniform bool n3[programCount], n2[programCount]; } } void g() { } int h(int x) { return x; } uniform int m(uniform int x, uniform int b[]) { return x; } void p(const uniform int b[], int x) { } bool q(uniform int8 b[]) { return 1; }
=== found elsewhere: two places of the library
void f(uniform int a[], const uniform int c[], uniform int8 d[], uniform int u, int k, bool l) { int x, y, i2; uniform int w; int t[4]; const int ca[2]; uniform uint ta[3]; const int cv; ++k; return ; while ((w)) insert(((x ? 1 : l)), ⟦30 i2⟧, ⟦30 t[a[u]]⟧); } void g() { } int h(int x) { return x; } uniform int m(uniform int x, uniform int b[]) { return x; } void p(const uniform int b[], int x) { } bool q(uniform int8 b[]) { return 1; }
"##;
