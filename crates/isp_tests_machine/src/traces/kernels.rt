//! Code texts, without the first line, which names the gang.

/// The kernel of docs/TOUR.md.
pub const SHARE: &str = "place 109 121
place 101 105
func share export void
par a i32 a
par s i32 n
s i64 i32 i32
v i32 i32 b i32 i64 i32 i32 i32
m 4
index v0 m0
splat v3 s0 m0
lt v2 v0 v3 m0
mtest m3 v2 m0
joff m3 L15
conv v4 v0 m3
const s2 12
splat v5 s2 m3
const s3 3
splat v6 s3 m3
sub v6 v6 v0 m3
div v5 v5 v6 m3 p0
gather v6 a0 v4 m3 p1
add v6 v6 v5 m3
scatter a0 v4 v6 m3 p1
ret -
end
";

/// Of `foreach (i = 0 ... n) { a[i] += 1; }`, in a function `bump` of the parameters a and n.
pub const BUMP: &str = "place 87 91
func bump export void
par a i32 a
par s i32 n
s i32 i64 i64 i64 i32 i64 i64 i32 b i64 i32
v i32 i32 i32 i64 i32 i32 i32
m 12
mfull m9
const s1 1
splat v1 s1 m9
radd s2 v1 m9
index v1 m9
const s3 1
const s5 0
conv s4 s5
conv s6 s0
copy s7 s4
mrange m9 s7 s6
joff m9 L23
conv s8 s7
splat v2 s8 m9
add v0 v2 v1 m9
copy s10 s7
const s11 1
splat v5 s11 m9
vload v6 a0 s10 m9 p0
add v6 v6 v5 m9
vstore a0 s10 v6 m9 p0
add s7 s7 s2
jmp L10
ret -
end
";

/// Of examples/mandelbrot.ispc. It is the same for each gang.
pub const MANDELBROT: &str = "place 883 903
func mandelbrot export void
par s i32 left
par s i32 top
par s i32 step
par s i32 width
par s i32 height
par s i32 limit
par a i32 turns
s i32 i64 i64 i64 i32 i64 i64 i32 i64 i64 i32 b i64 i64 i32 b i32 i32 i32 i32
v i32 i32 i32 i32 i32 i32 i32 i32 i32 i32 i32 i32 i32 i32 b i32 i32 b i32 i32 i64
m 20
mfull m13
const s6 1
splat v8 s6 m13
radd s7 v8 m13
index v8 m13
const s8 1
const s10 0
conv s9 s10
conv s11 s4
const s13 0
conv s12 s13
conv s14 s3
copy s15 s9
lt s17 s15 s11
jz s17 L81
conv s16 s15
copy s19 s12
mrange m13 s19 s14
joff m13 L79
splat v0 s16 m13
conv s20 s19
splat v10 s20 m13
add v1 v10 v8 m13
copy s18 s19
splat v11 s0 m13
splat v13 s2 m13
mul v12 v1 v13 m13
add v2 v11 v12 m13
splat v11 s1 m13
splat v13 s2 m13
mul v12 v0 v13 m13
add v3 v11 v12 m13
const s22 0
splat v4 s22 m13
const s22 0
splat v5 s22 m13
const s22 0
splat v6 s22 m13
mcopy m16 m13
splat v16 s5 m16
lt v14 v6 v16 m16
mtest m19 v14 m16
joff m19 L50
mul v16 v4 v4 m19
mul v18 v5 v5 m19
add v16 v16 v18 m19
const s23 67108864
splat v18 s23 m19
lt v17 v16 v18 m19
copy v14 v17 m19
mtest m16 v14 m16
joff m16 L72
mul v15 v4 v4 m16
mul v16 v5 v5 m16
sub v15 v15 v16 m16
const s24 12
splat v16 s24 m16
shr v15 v15 v16 m16
add v7 v15 v2 m16
const s25 2
splat v15 s25 m16
mul v15 v15 v4 m16
mul v15 v15 v5 m16
const s24 12
splat v16 s24 m16
shr v15 v15 v16 m16
add v5 v15 v3 m16
copy v4 v7 m16
const s25 1
splat v15 s25 m16
add v6 v6 v15 m16
jmp L39
splat v12 s3 m13
mul v11 v0 v12 m13
add v11 v11 v1 m13
conv v20 v11 m13
scatter a0 v20 v6 m13 p0
add s19 s19 s7
jmp L17
add s15 s15 s8
jmp L13
ret -
end
";
