//! The table of sources with their breaches of names and types.
//!
//! A record is `=== ` and what it shows, and in the next line or lines the source. In it each breach stands between `⟦` and `⟧`, after
//! its number and a blank. Lists are worked out by hand from docs/LANGUAGE.md, Names and types. The sources of records that are found
//! elsewhere, and the first breach of each, are of an independent implementation.

/// How many records there are.
pub(super) const COUNT: usize = 44;

pub(super) const ROWS: &str = r##"=== no function

=== no breach
void f(uniform int a[], int v) { int x = a[v]; x += v; a[0] = x; print("%", x); }
=== names that nothing declares
void f() { int x = ⟦20 y⟧; ⟦20 z⟧ = ⟦20 w⟧[⟦20 k⟧]; ⟦20 h⟧(); ⟦20 x2⟧++; }
=== both operands have one
void f() { int x = ⟦20 y⟧ + ⟦20 z⟧ * -⟦20 y⟧; }
=== each of the three of a choice
void f(int v) { v = ⟦20 x⟧ ? ⟦20 y⟧ : !⟦20 z⟧; }
=== a name twice in its scope
void f(int n) { int ⟦21 n⟧; { int n; int ⟦21 n⟧; } for (int n = 0; ; ) int n; int k, ⟦21 k⟧[2], m; }
=== a value before its name is declared again
void f(uniform int n[]) { int ⟦21 n⟧ = n[0], m = n; }
=== names after their scope
void f(int v) { for (int i = 0; i < 4; i++) ; ⟦20 i⟧ = 1; foreach (j = 0 ... ⟦20 j⟧) ; ⟦20 j⟧; { int k; } ⟦20 k⟧--; if (v) int m; else ⟦20 m⟧; }
=== names of functions
void f() { } void ⟦21 f⟧(int x) { } void ⟦21 min⟧() { } int f2(int f2) { int ⟦21 f2⟧; return f2; } void f3() { } int ⟦21 f⟧() { return ⟦20 y⟧; }
=== words of types that contradict each other, and no more at the uses of what they declare
⟦22 unsigned bool⟧ f(⟦22 const const int⟧ x, ⟦22 void⟧ y) { ⟦22 uniform varying int⟧ z, u = 1; z = x + y; u[z] = 2; return z; }
=== words of casts
void f(int x) { x = (⟦22 signed unsigned int⟧) ⟦20 y⟧; x = (⟦22 void⟧) x; x = (uniform int8) x; }
=== arrays where values are wanted
void f(uniform int a[], int v) { v = ⟦22 a⟧ + v; if (⟦22 a⟧) v = -⟦22 a⟧; while (a[⟦22 a⟧]) v = (int8) (⟦22 a⟧); }
=== elements of what is no array
void f(int v) { ⟦22 v[0]⟧ = ⟦22 v[1]⟧; v[⟦20 y⟧] = 1; v = v[v[⟦20 y⟧]]; v = v[⟦22 v[0]⟧]; ⟦20 w⟧[⟦20 y⟧]++; }
=== targets
void f(int x, const int c, const uniform int a[]) { ⟦22 (x)⟧ = 1; ⟦24 c⟧ = 1; ⟦24 a[0]⟧++; a[⟦20 y⟧] = 1; ⟦22 a⟧ -= ⟦22 a⟧; (⟦20 z⟧) = 1; foreach (i = 0 ... 4) ⟦24 i⟧ += 1; }
=== arguments
int g(int x, uniform int b[]) { return x; } void f(uniform int a[], uniform int8 d[], const uniform int c[], int v) { g(⟦22 a⟧, ⟦22 v⟧); g(v, ⟦22 d⟧); g(v, ⟦24 c⟧); g(⟦22 &v⟧, ⟦22 &a⟧); g(⟦20 y⟧, ⟦20 z⟧); g(v + 1, a); }
=== constant arrays for constant parameters
int g(const uniform int b[]) { return b[0]; } void f(uniform int a[], const uniform int c[], const uniform uint e[]) { g(a); g(c); g(⟦22 e⟧); }
=== calls without a result
int g(int x) { return x; } void w() { } void f(int v) { v = ⟦22 w()⟧; v = g(⟦22 w()⟧) + g(v); w(); if (⟦22 w()⟧) v++; assert(⟦22 w()⟧); (⟦22 w()⟧) = 1; }
=== a wrong number of arguments
int g(int x, int y) { return x; } void f(uniform int a[], int v) { ⟦23 g(v)⟧; ⟦23 g()⟧; g(⟦20 y⟧); g(⟦22 &v⟧); ⟦23 g(a)⟧; g(v, v, ⟦20 y⟧, ⟦22 &a⟧); v = ⟦23 g(v, v, v)⟧ + ⟦20 z⟧; }
=== calls in calls
int g(int x) { return x; } void f(uniform int a[], int v) { g(g(⟦20 y⟧) + ⟦22 a⟧); g(⟦23 g()⟧); g(g(g(⟦22 a⟧))); ⟦23 g(g(v), g(v))⟧; g(⟦23 g(v, g(v))⟧); }
=== functions that nothing declares, with their arguments
void f(uniform int a[], int v) { v = ⟦20 h⟧(⟦20 y⟧, ⟦22 &v⟧, a); ⟦20 h⟧(⟦20 h⟧(⟦20 y⟧)); }
=== a function that stands later
void f(int v) { g(⟦20 y⟧); ⟦23 g(v, v)⟧; } void g(int x) { ⟦20 z⟧; }
=== the library
void f(uniform int a[], int v) { v = min(⟦22 a⟧, v) + abs(⟦20 y⟧); v = ⟦23 max(v)⟧; v = shuffle(v, v, ⟦22 a⟧); min(⟦22 &v⟧); ⟦23 any(v, v)⟧; v = broadcast(⟦22 &v⟧, ⟦20 y⟧); ⟦22 select(v, v, v)⟧ = 1; }
=== packed calls
void f(uniform int a[], const uniform int c[], int v, const int k, int8 b) { ⟦23 packed_store_active(&a[0])⟧; packed_store_active(⟦22 v⟧, v); packed_store_active(⟦24 c⟧, ⟦22 a⟧); packed_store_active(&a[⟦20 y⟧], ⟦22 &v⟧); packed_load_active(&c[0], &v); packed_load_active(&a[0], ⟦22 v⟧); packed_load_active(a, ⟦24 &k⟧); packed_load_active(a, ⟦22 &b⟧); packed_load_active(&⟦20 z⟧[⟦20 y⟧], &⟦20 y⟧); }
=== sizes
void f() { int a[⟦22 0⟧], b[⟦22 65537⟧], c[65536], d[programCount], ⟦21 c⟧[⟦22 0⟧]; a[0] = 1; }
=== array parameters
void f(int ⟦22 a⟧[], uniform int b[], varying int ⟦22 c⟧[], int ⟦21 b⟧, ⟦22 unsigned bool⟧ e[]) { }
=== what is given back
int f() { ⟦22 return⟧; } void g() { ⟦22 return⟧ ⟦20 y⟧; return; } int h(uniform int a[]) { if (a[0]) return ⟦20 y⟧; return ⟦22 a⟧; } ⟦22 const const int⟧ k() { return; }
=== print
void f(uniform int a[], int v) { print(⟦25 "%"⟧); print(⟦25 "% %"⟧, ⟦22 a⟧); print("%", ⟦20 y⟧); print("% %", v, ⟦22 a⟧); print(⟦25 ""⟧, ⟦20 y⟧, ⟦20 z⟧); }
=== the parts of a for
void f(uniform int a[]) { for (int i = ⟦20 x⟧, ⟦21 i⟧; ⟦20 y⟧; ⟦20 z⟧ = ⟦22 a⟧) ⟦20 w⟧++; for (⟦20 p⟧++; ; ) ; for (⟦20 i⟧ = 0; ; ) int i; }
=== tests, bodies and blocks
void f() { if (⟦20 a⟧) ⟦20 b⟧; else ⟦20 c⟧; while (⟦20 d⟧) ⟦20 e⟧; do ⟦20 g⟧; while (⟦20 h⟧); assert(⟦20 k⟧); unmasked { ⟦20 l⟧; } { { ⟦20 m⟧; } } cif (⟦20 n⟧) ⟦20 o⟧; }
=== the indices of a foreach
void f() { int i; foreach (j = ⟦20 a⟧ ... ⟦20 b⟧, ⟦21 j⟧ = i ... ⟦20 j⟧, i = 0 ... i) { ⟦24 i⟧ = 1; int i; i = ⟦20 k⟧; } i = 1; }
=== the index of a foreach_active
void f() { foreach_active (i) { ⟦24 i⟧ = ⟦20 y⟧; } ⟦20 i⟧; }
=== the index of a foreach_unique
void f(int v) { foreach_unique (w in v + 1) { ⟦24 w⟧ = ⟦20 y⟧; } ⟦20 w⟧; foreach_unique (w in ⟦20 w⟧) { v = w; w = 1; } }
=== arguments for a parameter of an unknown type
void g(⟦22 const const int⟧ x) { } void f(int v, uniform int a[]) { g(v); g(a); g(⟦22 &v⟧); ⟦23 g()⟧; }
=== a result of an unknown type
⟦22 const const int⟧ bad() { return 1; } void f(int v) { v = bad(); bad(); ⟦23 bad(1)⟧; bad(⟦20 y⟧); }
=== one of each number
void f(int v) { v = ⟦20 y⟧; int ⟦21 v⟧; ⟦22 v[0]⟧ = 1; ⟦23 min(v)⟧; const int c = 1; ⟦24 c⟧ = 2; print(⟦25 "%"⟧); }
=== brackets are no target, and what is in them is told instead
void f(int x, uniform int a[]) { ⟦22 (x)⟧++; (⟦22 a⟧)++; ++⟦22 ((x))⟧; ⟦22 (a[0])⟧ = 1; }
=== a name that hides a faulty one
void f() { ⟦22 uniform varying int⟧ x; { int x = x; x = ⟦20 y⟧; } x++; }
=== an inner name of another kind
void f(int x) { { int x[2]; x[0] = 1; ⟦22 x⟧ = 1; } x = 1; ⟦22 x[0]⟧ = 1; }
=== found elsewhere: a function's name, a test, a target and a choice
void g() { } int h(int x) { return x; } uniform int m(uniform int x, uniform int b[]) { return x; } void p(const uniform int b[], int x) { } bool q(uniform int8 b[]) { return 1; } void ⟦21 g⟧(int x) { } uniform int f(uniform int a[], const uniform int c[], uniform int8 d[], uniform int u, int k, bool l) { int x, y; uniform int w; int t[4]; const int ca[2]; uniform uint ta[3]; const int cv; if (⟦22 t⟧) { if (u) ⟦22 d⟧ <<= ((uint64) (⟦22 a⟧) ? ⟦20 bad⟧() : (l)); } else uint64 x; }
=== found elsewhere: parameters of unknown types, an argument with a sign, an index
void g() { } int h(int x) { return x; } int f(uniform int a[], const uniform int c[], uniform int8 d[], uniform int u, int k, bool l) { int x, y; uniform int w; int t[4]; const int ca[2]; uniform uint ta[3]; const int cv; { unmasked { (int8) (0xffffffff) % extract(w, ⟦22 &y⟧); } foreach_tiled (j = c[⟦22 t⟧] ... 4) assert(2ll); } ⟦20 zz⟧ <<= -(w); int16 n2, i; } uniform int m(uniform int x, uniform int b[]) { return x; } void p(const uniform int b[], int x) { } bool q(uniform int8 b[]) { return 1; } void badp(⟦22 signed bool⟧ x, ⟦22 uniform void⟧ y[]) { }
=== found elsewhere: two texts and an operand
void g() { } int h(int x) { return x; } uniform int m(uniform int x, uniform int b[]) { return x; } void p(const uniform int b[], int x) { } export void f(uniform int a[], const uniform int c[], uniform int8 d[], uniform int u, int k, bool l) { int x, y; uniform int w; int t[4]; const int ca[2]; uniform uint ta[3]; const int cv; foreach_tiled (i = programCount ... 4) unmasked { print(⟦25 ""⟧, true >> ⟦22 c⟧); } if (a[l]) { print(⟦25 "%"⟧); } else x; } bool q(uniform int8 b[]) { return 1; }
=== found elsewhere: a value of a function without a result
void g() { } export void f(uniform int a[], const uniform int c[], uniform int8 d[], uniform int u, int k, bool l) { int x, y, i2; uniform int w; int t[4]; const int ca[2]; uniform uint ta[3]; const int cv; { foreach (i2 = u ... k) print("%", ⟦22 p(a, true)⟧); } } int h(int x) { return x; } uniform int m(uniform int x, uniform int b[]) { return x; } void p(const uniform int b[], int x) { } bool q(uniform int8 b[]) { return 1; }
=== found elsewhere: arrays and an index that nothing declares
int f(uniform int a[], const uniform int c[], uniform int8 d[], uniform int u, int k, bool l) { int x, y; uniform int w; int t[4]; const int ca[2]; uniform uint ta[3]; const int cv; abs(⟦22 c⟧); for (varying int x = programCount / ⟦22 t⟧; ; ⟦20 i⟧ = ⟦22 w[programCount]⟧) ⟦20 i⟧ = !⟦22 d⟧; } void g() { } int h(int x) { return x; } uniform int m(uniform int x, uniform int b[]) { return x; } void p(const uniform int b[], int x) { } bool q(uniform int8 b[]) { return 1; }
=== found elsewhere: a second name, a test that nothing declares
int f(uniform int a[], const uniform int c[], uniform int8 d[], uniform int u, int k, bool l) { int x, y; uniform int w; int t[4]; const int ca[2]; uniform uint ta[3]; const int cv; uniform uint n1 = 0u, ⟦21 y⟧; for (; ⟦22 c⟧; ⟦22 ta⟧ <<= ⟦20 zz⟧) uint64 i[65536]; } void g() { } int h(int x) { return x; } uniform int m(uniform int x, uniform int b[]) { return x; } void p(const uniform int b[], int x) { } bool q(uniform int8 b[]) { return 1; }
"##;
