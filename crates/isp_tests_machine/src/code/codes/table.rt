//! Instructions that the verifier takes, and wrong ones, with the rule that each breaks. Written by `tools/code_table.py`.

/// How many there are.
pub(super) const COUNT: usize = 571;

/// Each instruction, and the rule that it breaks, if it is wrong.
pub(super) const LINES: &str = "const s2 0|
const s2 1|
const s2 -1|41 BadKind
const s2 2|41 BadKind
const s0 -2147483648|
const s0 2147483647|
const s0 -2147483649|41 BadKind
const s0 2147483648|41 BadKind
const s3 -9223372036854775808|
const s3 9223372036854775807|
const s3 9223372036854775808|41 BadKind
const s4 0|
const s4 255|
const s4 -1|41 BadKind
const s4 256|41 BadKind
const s9 0|40 BadRegister
const v0 0|41 BadKind
copy s0 s1|
copy s9 s1|40 BadRegister
copy v0 s1|41 BadKind
copy s0 s9|40 BadRegister
copy s0 v0|41 BadKind
copy s0 s3|41 BadKind
copy s0 s2|41 BadKind
conv s0 s3|
conv s9 s3|40 BadRegister
conv v0 s3|41 BadKind
conv s0 s9|40 BadRegister
conv s0 v0|41 BadKind
neg s0 s1|
neg s9 s1|40 BadRegister
neg v0 s1|41 BadKind
neg s2 s1|41 BadKind
neg s0 s9|40 BadRegister
neg s0 v0|41 BadKind
neg s0 s3|41 BadKind
inv s4 s4|
inv s9 s4|40 BadRegister
inv v0 s4|41 BadKind
inv s2 s4|41 BadKind
inv s4 s9|40 BadRegister
inv s4 v0|41 BadKind
inv s4 s0|41 BadKind
abs s3 s3|
abs s9 s3|40 BadRegister
abs v0 s3|41 BadKind
abs s2 s3|41 BadKind
abs s3 s9|40 BadRegister
abs s3 v0|41 BadKind
abs s3 s0|41 BadKind
lnot s2 s2|
lnot s9 s2|40 BadRegister
lnot v0 s2|41 BadKind
lnot s0 s2|41 BadKind
lnot s2 s9|40 BadRegister
lnot s2 v0|41 BadKind
lnot s2 s0|41 BadKind
add s0 s1 s0|
add s9 s1 s0|40 BadRegister
add v0 s1 s0|41 BadKind
add s2 s1 s0|41 BadKind
add s0 s9 s0|40 BadRegister
add s0 v0 s0|41 BadKind
add s0 s3 s0|41 BadKind
add s0 s1 s9|40 BadRegister
add s0 s1 v0|41 BadKind
add s0 s1 s3|41 BadKind
max s4 s4 s4|
max s9 s4 s4|40 BadRegister
max v0 s4 s4|41 BadKind
max s2 s4 s4|41 BadKind
max s4 s9 s4|40 BadRegister
max s4 v0 s4|41 BadKind
max s4 s3 s4|41 BadKind
max s4 s4 s9|40 BadRegister
max s4 s4 v0|41 BadKind
max s4 s4 s3|41 BadKind
eq s2 s0 s1|
eq s9 s0 s1|40 BadRegister
eq v0 s0 s1|41 BadKind
eq s0 s0 s1|41 BadKind
eq s2 s9 s1|40 BadRegister
eq s2 v0 s1|41 BadKind
eq s2 s0 s9|40 BadRegister
eq s2 s0 v0|41 BadKind
eq s2 s0 s3|41 BadKind
lt s2 s2 s2|
lt s9 s2 s2|40 BadRegister
lt v0 s2 s2|41 BadKind
lt s4 s2 s2|41 BadKind
lt s2 s9 s2|40 BadRegister
lt s2 v0 s2|41 BadKind
lt s2 s2 s9|40 BadRegister
lt s2 s2 v0|41 BadKind
lt s2 s2 s3|41 BadKind
sel s0 s2 s1 s0|
sel s9 s2 s1 s0|40 BadRegister
sel v0 s2 s1 s0|41 BadKind
sel s0 s9 s1 s0|40 BadRegister
sel s0 v0 s1 s0|41 BadKind
sel s0 s0 s1 s0|41 BadKind
sel s0 s2 s9 s0|40 BadRegister
sel s0 s2 v0 s0|41 BadKind
sel s0 s2 s3 s0|41 BadKind
sel s0 s2 s1 s9|40 BadRegister
sel s0 s2 s1 v0|41 BadKind
sel s0 s2 s1 s2|41 BadKind
mfirst s3 m1|
mfirst s9 m1|40 BadRegister
mfirst v0 m1|41 BadKind
mfirst s0 m1|41 BadKind
mfirst s3 m9|40 BadRegister
mfirst s3 s0|41 BadKind
load s0 a0 s3 m0 p0|
load s9 a0 s3 m0 p0|40 BadRegister
load v0 a0 s3 m0 p0|41 BadKind
load s0 a9 s3 m0 p0|40 BadRegister
load s0 s0 s3 m0 p0|41 BadKind
load s0 a2 s3 m0 p0|41 BadKind
load s0 a3 s3 m0 p0|41 BadKind
load s0 a0 s9 m0 p0|40 BadRegister
load s0 a0 v0 m0 p0|41 BadKind
load s0 a0 s0 m0 p0|41 BadKind
load s0 a0 s3 m9 p0|40 BadRegister
load s0 a0 s3 s0 p0|41 BadKind
load s0 a0 s3 m0 p9|40 BadRegister
radd s3 v0 m0|
radd s9 v0 m0|40 BadRegister
radd v0 v0 m0|41 BadKind
radd s2 v0 m0|41 BadKind
radd s4 v0 m0|41 BadKind
radd s3 v9 m0|40 BadRegister
radd s3 s0 m0|41 BadKind
radd s3 v2 m0|41 BadKind
radd s3 v4 m0|41 BadKind
radd s3 v0 m9|40 BadRegister
radd s3 v0 s0|41 BadKind
radd s3 v3 m1|
radd s9 v3 m1|40 BadRegister
radd v0 v3 m1|41 BadKind
radd s2 v3 m1|41 BadKind
radd s3 v9 m1|40 BadRegister
radd s3 s0 m1|41 BadKind
radd s3 v2 m1|41 BadKind
radd s3 v3 m9|40 BadRegister
radd s3 v3 s0|41 BadKind
rmin s0 v1 m0|
rmin s9 v1 m0|40 BadRegister
rmin v0 v1 m0|41 BadKind
rmin s2 v1 m0|41 BadKind
rmin s0 v9 m0|40 BadRegister
rmin s0 s0 m0|41 BadKind
rmin s0 v3 m0|41 BadKind
rmin s0 v1 m9|40 BadRegister
rmin s0 v1 s0|41 BadKind
rmax s4 v4 m0|
rmax s9 v4 m0|40 BadRegister
rmax v0 v4 m0|41 BadKind
rmax s2 v4 m0|41 BadKind
rmax s4 v9 m0|40 BadRegister
rmax s4 s0 m0|41 BadKind
rmax s4 v0 m0|41 BadKind
rmax s4 v4 m9|40 BadRegister
rmax s4 v4 s0|41 BadKind
requ s2 v3 m0|
requ s9 v3 m0|40 BadRegister
requ v0 v3 m0|41 BadKind
requ s0 v3 m0|41 BadKind
requ s2 v9 m0|40 BadRegister
requ s2 s0 m0|41 BadKind
requ s2 v2 m0|41 BadKind
requ s2 v3 m9|40 BadRegister
requ s2 v3 s0|41 BadKind
rany s2 v2 m0|
rany s9 v2 m0|40 BadRegister
rany v0 v2 m0|41 BadKind
rany s0 v2 m0|41 BadKind
rany s2 v9 m0|40 BadRegister
rany s2 s0 m0|41 BadKind
rany s2 v0 m0|41 BadKind
rany s2 v2 m9|40 BadRegister
rany s2 v2 s0|41 BadKind
rall s2 v2 m1|
rall s9 v2 m1|40 BadRegister
rall v0 v2 m1|41 BadKind
rall s0 v2 m1|41 BadKind
rall s2 v9 m1|40 BadRegister
rall s2 s0 m1|41 BadKind
rall s2 v4 m1|41 BadKind
rall s2 v2 m9|40 BadRegister
rall s2 v2 s0|41 BadKind
extr s0 v1 s1 m0|
extr s9 v1 s1 m0|40 BadRegister
extr v0 v1 s1 m0|41 BadKind
extr s2 v1 s1 m0|41 BadKind
extr s0 v9 s1 m0|40 BadRegister
extr s0 s0 s1 m0|41 BadKind
extr s0 v3 s1 m0|41 BadKind
extr s0 v1 s9 m0|40 BadRegister
extr s0 v1 v0 m0|41 BadKind
extr s0 v1 s3 m0|41 BadKind
extr s0 v1 s1 m9|40 BadRegister
extr s0 v1 s1 s0|41 BadKind
copy v0 v1 m0|
copy v9 v1 m0|40 BadRegister
copy s0 v1 m0|41 BadKind
copy v0 v9 m0|40 BadRegister
copy v0 s0 m0|41 BadKind
copy v0 v3 m0|41 BadKind
copy v0 v2 m0|41 BadKind
copy v0 v1 m9|40 BadRegister
copy v0 v1 s0|41 BadKind
conv v0 v3 m1|
conv v9 v3 m1|40 BadRegister
conv s0 v3 m1|41 BadKind
conv v0 v9 m1|40 BadRegister
conv v0 s0 m1|41 BadKind
conv v0 v3 m9|40 BadRegister
conv v0 v3 s0|41 BadKind
neg v0 v1 m0|
neg v9 v1 m0|40 BadRegister
neg s0 v1 m0|41 BadKind
neg v2 v1 m0|41 BadKind
neg v0 v9 m0|40 BadRegister
neg v0 s0 m0|41 BadKind
neg v0 v3 m0|41 BadKind
neg v0 v1 m9|40 BadRegister
neg v0 v1 s0|41 BadKind
lnot v2 v2 m0|
lnot v9 v2 m0|40 BadRegister
lnot s0 v2 m0|41 BadKind
lnot v0 v2 m0|41 BadKind
lnot v2 v9 m0|40 BadRegister
lnot v2 s0 m0|41 BadKind
lnot v2 v0 m0|41 BadKind
lnot v2 v2 m9|40 BadRegister
lnot v2 v2 s0|41 BadKind
sub v0 v1 v0 m0|
sub v9 v1 v0 m0|40 BadRegister
sub s0 v1 v0 m0|41 BadKind
sub v2 v1 v0 m0|41 BadKind
sub v0 v9 v0 m0|40 BadRegister
sub v0 s0 v0 m0|41 BadKind
sub v0 v3 v0 m0|41 BadKind
sub v0 v1 v9 m0|40 BadRegister
sub v0 v1 s0 m0|41 BadKind
sub v0 v1 v3 m0|41 BadKind
sub v0 v1 v0 m9|40 BadRegister
sub v0 v1 v0 s0|41 BadKind
ge v2 v0 v1 m0|
ge v9 v0 v1 m0|40 BadRegister
ge s0 v0 v1 m0|41 BadKind
ge v0 v0 v1 m0|41 BadKind
ge v2 v9 v1 m0|40 BadRegister
ge v2 s0 v1 m0|41 BadKind
ge v2 v0 v9 m0|40 BadRegister
ge v2 v0 s0 m0|41 BadKind
ge v2 v0 v3 m0|41 BadKind
ge v2 v0 v1 m9|40 BadRegister
ge v2 v0 v1 s0|41 BadKind
sel v0 v2 v1 v0 m0|
sel v9 v2 v1 v0 m0|40 BadRegister
sel s0 v2 v1 v0 m0|41 BadKind
sel v0 v9 v1 v0 m0|40 BadRegister
sel v0 s0 v1 v0 m0|41 BadKind
sel v0 v0 v1 v0 m0|41 BadKind
sel v0 v2 v9 v0 m0|40 BadRegister
sel v0 v2 s0 v0 m0|41 BadKind
sel v0 v2 v3 v0 m0|41 BadKind
sel v0 v2 v1 v9 m0|40 BadRegister
sel v0 v2 v1 s0 m0|41 BadKind
sel v0 v2 v1 v2 m0|41 BadKind
sel v0 v2 v1 v0 m9|40 BadRegister
sel v0 v2 v1 v0 s0|41 BadKind
splat v0 s1 m0|
splat v9 s1 m0|40 BadRegister
splat s0 s1 m0|41 BadKind
splat v0 s9 m0|40 BadRegister
splat v0 v0 m0|41 BadKind
splat v0 s3 m0|41 BadKind
splat v0 s1 m9|40 BadRegister
splat v0 s1 s0|41 BadKind
index v0 m0|
index v9 m0|40 BadRegister
index s0 m0|41 BadKind
index v3 m0|41 BadKind
index v0 m9|40 BadRegister
index v0 s0|41 BadKind
gather v0 a2 v3 m0 p0|
gather v9 a2 v3 m0 p0|40 BadRegister
gather s0 a2 v3 m0 p0|41 BadKind
gather v0 a9 v3 m0 p0|40 BadRegister
gather v0 s0 v3 m0 p0|41 BadKind
gather v0 a3 v3 m0 p0|41 BadKind
gather v0 a2 v9 m0 p0|40 BadRegister
gather v0 a2 s0 m0 p0|41 BadKind
gather v0 a2 v0 m0 p0|41 BadKind
gather v0 a2 v3 m9 p0|40 BadRegister
gather v0 a2 v3 s0 p0|41 BadKind
gather v0 a2 v3 m0 p9|40 BadRegister
vload v0 a0 s3 m0 p0|
vload v9 a0 s3 m0 p0|40 BadRegister
vload s0 a0 s3 m0 p0|41 BadKind
vload v0 a9 s3 m0 p0|40 BadRegister
vload v0 s0 s3 m0 p0|41 BadKind
vload v0 a2 s3 m0 p0|41 BadKind
vload v0 a3 s3 m0 p0|41 BadKind
vload v0 a0 s9 m0 p0|40 BadRegister
vload v0 a0 v0 m0 p0|41 BadKind
vload v0 a0 s0 m0 p0|41 BadKind
vload v0 a0 s3 m9 p0|40 BadRegister
vload v0 a0 s3 s0 p0|41 BadKind
vload v0 a0 s3 m0 p9|40 BadRegister
sadd v0 v1 m0|
sadd v9 v1 m0|40 BadRegister
sadd s0 v1 m0|41 BadKind
sadd v2 v1 m0|41 BadKind
sadd v0 v9 m0|40 BadRegister
sadd v0 s0 m0|41 BadKind
sadd v0 v3 m0|41 BadKind
sadd v0 v1 m9|40 BadRegister
sadd v0 v1 s0|41 BadKind
sand v4 v4 m0|
sand v9 v4 m0|40 BadRegister
sand s0 v4 m0|41 BadKind
sand v2 v4 m0|41 BadKind
sand v4 v9 m0|40 BadRegister
sand v4 s0 m0|41 BadKind
sand v4 v0 m0|41 BadKind
sand v4 v4 m9|40 BadRegister
sand v4 v4 s0|41 BadKind
sor v3 v3 m1|
sor v9 v3 m1|40 BadRegister
sor s0 v3 m1|41 BadKind
sor v2 v3 m1|41 BadKind
sor v3 v9 m1|40 BadRegister
sor v3 s0 m1|41 BadKind
sor v3 v0 m1|41 BadKind
sor v3 v3 m9|40 BadRegister
sor v3 v3 s0|41 BadKind
bcast v0 v1 s1 m0|
bcast v9 v1 s1 m0|40 BadRegister
bcast s0 v1 s1 m0|41 BadKind
bcast v2 v1 s1 m0|41 BadKind
bcast v0 v9 s1 m0|40 BadRegister
bcast v0 s0 s1 m0|41 BadKind
bcast v0 v3 s1 m0|41 BadKind
bcast v0 v1 s9 m0|40 BadRegister
bcast v0 v1 v0 m0|41 BadKind
bcast v0 v1 s3 m0|41 BadKind
bcast v0 v1 s1 m9|40 BadRegister
bcast v0 v1 s1 s0|41 BadKind
rot v4 v4 s0 m0|
rot v9 v4 s0 m0|40 BadRegister
rot s0 v4 s0 m0|41 BadKind
rot v2 v4 s0 m0|41 BadKind
rot v4 v9 s0 m0|40 BadRegister
rot v4 s0 s0 m0|41 BadKind
rot v4 v0 s0 m0|41 BadKind
rot v4 v4 s9 m0|40 BadRegister
rot v4 v4 v0 m0|41 BadKind
rot v4 v4 s4 m0|41 BadKind
rot v4 v4 s0 m9|40 BadRegister
rot v4 v4 s0 s0|41 BadKind
shf v3 v3 s0 m1|
shf v9 v3 s0 m1|40 BadRegister
shf s0 v3 s0 m1|41 BadKind
shf v2 v3 s0 m1|41 BadKind
shf v3 v9 s0 m1|40 BadRegister
shf v3 s0 s0 m1|41 BadKind
shf v3 v0 s0 m1|41 BadKind
shf v3 v3 s9 m1|40 BadRegister
shf v3 v3 v0 m1|41 BadKind
shf v3 v3 s2 m1|41 BadKind
shf v3 v3 s0 m9|40 BadRegister
shf v3 v3 s0 s0|41 BadKind
shuf v3 v3 v0 m0|
shuf v9 v3 v0 m0|40 BadRegister
shuf s0 v3 v0 m0|41 BadKind
shuf v2 v3 v0 m0|41 BadKind
shuf v3 v9 v0 m0|40 BadRegister
shuf v3 s0 v0 m0|41 BadKind
shuf v3 v0 v0 m0|41 BadKind
shuf v3 v3 v9 m0|40 BadRegister
shuf v3 v3 s0 m0|41 BadKind
shuf v3 v3 v3 m0|41 BadKind
shuf v3 v3 v0 m9|40 BadRegister
shuf v3 v3 v0 s0|41 BadKind
shuf2 v3 v3 v3 v1 m0|
shuf2 v9 v3 v3 v1 m0|40 BadRegister
shuf2 s0 v3 v3 v1 m0|41 BadKind
shuf2 v2 v3 v3 v1 m0|41 BadKind
shuf2 v3 v9 v3 v1 m0|40 BadRegister
shuf2 v3 s0 v3 v1 m0|41 BadKind
shuf2 v3 v0 v3 v1 m0|41 BadKind
shuf2 v3 v3 v9 v1 m0|40 BadRegister
shuf2 v3 v3 s0 v1 m0|41 BadKind
shuf2 v3 v3 v4 v1 m0|41 BadKind
shuf2 v3 v3 v3 v9 m0|40 BadRegister
shuf2 v3 v3 v3 s0 m0|41 BadKind
shuf2 v3 v3 v3 v3 m0|41 BadKind
shuf2 v3 v3 v3 v1 m9|40 BadRegister
shuf2 v3 v3 v3 v1 s0|41 BadKind
ins v0 v1 s1 s0 m0|
ins v9 v1 s1 s0 m0|40 BadRegister
ins s0 v1 s1 s0 m0|41 BadKind
ins v2 v1 s1 s0 m0|41 BadKind
ins v0 v9 s1 s0 m0|40 BadRegister
ins v0 s0 s1 s0 m0|41 BadKind
ins v0 v3 s1 s0 m0|41 BadKind
ins v0 v1 s9 s0 m0|40 BadRegister
ins v0 v1 v0 s0 m0|41 BadKind
ins v0 v1 s3 s0 m0|41 BadKind
ins v0 v1 s1 s9 m0|40 BadRegister
ins v0 v1 s1 v0 m0|41 BadKind
ins v0 v1 s1 s2 m0|41 BadKind
ins v0 v1 s1 s0 m9|40 BadRegister
ins v0 v1 s1 s0 s0|41 BadKind
mcopy m0 m1|
mcopy m9 m1|40 BadRegister
mcopy s0 m1|41 BadKind
mcopy m0 m9|40 BadRegister
mcopy m0 s0|41 BadKind
mand m0 m1 m0|
mand m9 m1 m0|40 BadRegister
mand s0 m1 m0|41 BadKind
mand m0 m9 m0|40 BadRegister
mand m0 s0 m0|41 BadKind
mand m0 m1 m9|40 BadRegister
mand m0 m1 s0|41 BadKind
mor m0 m1 m0|
mor m9 m1 m0|40 BadRegister
mor s0 m1 m0|41 BadKind
mor m0 m9 m0|40 BadRegister
mor m0 s0 m0|41 BadKind
mor m0 m1 m9|40 BadRegister
mor m0 m1 s0|41 BadKind
mandn m0 m1 m0|
mandn m9 m1 m0|40 BadRegister
mandn s0 m1 m0|41 BadKind
mandn m0 m9 m0|40 BadRegister
mandn m0 s0 m0|41 BadKind
mandn m0 m1 m9|40 BadRegister
mandn m0 m1 s0|41 BadKind
mfull m1|
mfull m9|40 BadRegister
mfull s0|41 BadKind
mnone m1|
mnone m9|40 BadRegister
mnone s0|41 BadKind
mtest m1 v2 m0|
mtest m9 v2 m0|40 BadRegister
mtest s0 v2 m0|41 BadKind
mtest m1 v9 m0|40 BadRegister
mtest m1 s0 m0|41 BadKind
mtest m1 v0 m0|41 BadKind
mtest m1 v2 m9|40 BadRegister
mtest m1 v2 s0|41 BadKind
mlow m1 m0|
mlow m9 m0|40 BadRegister
mlow s0 m0|41 BadKind
mlow m1 m9|40 BadRegister
mlow m1 s0|41 BadKind
mrange m1 s3 s3|
mrange m9 s3 s3|40 BadRegister
mrange s0 s3 s3|41 BadKind
mrange m1 s9 s3|40 BadRegister
mrange m1 v0 s3|41 BadKind
mrange m1 s0 s3|41 BadKind
mrange m1 s3 s9|40 BadRegister
mrange m1 s3 v0|41 BadKind
mrange m1 s3 s0|41 BadKind
div s0 s1 s0 m0 p0|
div s9 s1 s0 m0 p0|40 BadRegister
div m0 s1 s0 m0 p0|41 BadKind
div s2 s1 s0 m0 p0|41 BadKind
div s0 s9 s0 m0 p0|40 BadRegister
div s0 v0 s0 m0 p0|41 BadKind
div s0 s3 s0 m0 p0|41 BadKind
div s0 s1 s9 m0 p0|40 BadRegister
div s0 s1 v0 m0 p0|41 BadKind
div s0 s1 s3 m0 p0|41 BadKind
div s0 s1 s0 m9 p0|40 BadRegister
div s0 s1 s0 s0 p0|41 BadKind
div s0 s1 s0 m0 p9|40 BadRegister
div v0 v1 v0 m0 p0|
div v9 v1 v0 m0 p0|40 BadRegister
div m0 v1 v0 m0 p0|41 BadKind
div v2 v1 v0 m0 p0|41 BadKind
div v0 v9 v0 m0 p0|40 BadRegister
div v0 s0 v0 m0 p0|41 BadKind
div v0 v3 v0 m0 p0|41 BadKind
div v0 v1 v9 m0 p0|40 BadRegister
div v0 v1 s0 m0 p0|41 BadKind
div v0 v1 v3 m0 p0|41 BadKind
div v0 v1 v0 m9 p0|40 BadRegister
div v0 v1 v0 s0 p0|41 BadKind
div v0 v1 v0 m0 p9|40 BadRegister
store a0 s3 s1 m0 p0|
store a9 s3 s1 m0 p0|40 BadRegister
store s0 s3 s1 m0 p0|41 BadKind
store a2 s3 s1 m0 p0|41 BadKind
store a0 s9 s1 m0 p0|40 BadRegister
store a0 v0 s1 m0 p0|41 BadKind
store a0 s0 s1 m0 p0|41 BadKind
store a0 s3 s9 m0 p0|40 BadRegister
store a0 s3 v0 m0 p0|41 BadKind
store a0 s3 s3 m0 p0|41 BadKind
store a0 s3 s1 m9 p0|40 BadRegister
store a0 s3 s1 s0 p0|41 BadKind
store a0 s3 s1 m0 p9|40 BadRegister
scatter a2 v3 v1 m0 p0|
scatter a9 v3 v1 m0 p0|40 BadRegister
scatter s0 v3 v1 m0 p0|41 BadKind
scatter a2 v9 v1 m0 p0|40 BadRegister
scatter a2 s0 v1 m0 p0|41 BadKind
scatter a2 v0 v1 m0 p0|41 BadKind
scatter a2 v3 v9 m0 p0|40 BadRegister
scatter a2 v3 s0 m0 p0|41 BadKind
scatter a2 v3 v3 m0 p0|41 BadKind
scatter a2 v3 v1 m9 p0|40 BadRegister
scatter a2 v3 v1 s0 p0|41 BadKind
scatter a2 v3 v1 m0 p9|40 BadRegister
vstore a0 s3 v1 m0 p0|
vstore a9 s3 v1 m0 p0|40 BadRegister
vstore s0 s3 v1 m0 p0|41 BadKind
vstore a2 s3 v1 m0 p0|41 BadKind
vstore a0 s9 v1 m0 p0|40 BadRegister
vstore a0 v0 v1 m0 p0|41 BadKind
vstore a0 s0 v1 m0 p0|41 BadKind
vstore a0 s3 v9 m0 p0|40 BadRegister
vstore a0 s3 s0 m0 p0|41 BadKind
vstore a0 s3 v3 m0 p0|41 BadKind
vstore a0 s3 v1 m9 p0|40 BadRegister
vstore a0 s3 v1 s0 p0|41 BadKind
vstore a0 s3 v1 m0 p9|40 BadRegister
pstore s0 a1 s3 v0 m0 p0|
pstore s9 a1 s3 v0 m0 p0|40 BadRegister
pstore v0 a1 s3 v0 m0 p0|41 BadKind
pstore s3 a1 s3 v0 m0 p0|41 BadKind
pstore s4 a1 s3 v0 m0 p0|41 BadKind
pstore s0 a9 s3 v0 m0 p0|40 BadRegister
pstore s0 s0 s3 v0 m0 p0|41 BadKind
pstore s0 a2 s3 v0 m0 p0|41 BadKind
pstore s0 a3 s3 v0 m0 p0|41 BadKind
pstore s0 a1 s9 v0 m0 p0|40 BadRegister
pstore s0 a1 v0 v0 m0 p0|41 BadKind
pstore s0 a1 s0 v0 m0 p0|41 BadKind
pstore s0 a1 s3 v9 m0 p0|40 BadRegister
pstore s0 a1 s3 s0 m0 p0|41 BadKind
pstore s0 a1 s3 v3 m0 p0|41 BadKind
pstore s0 a1 s3 v0 m9 p0|40 BadRegister
pstore s0 a1 s3 v0 s0 p0|41 BadKind
pstore s0 a1 s3 v0 m0 p9|40 BadRegister
pload s1 a0 s3 v1 m1 p0|
pload s9 a0 s3 v1 m1 p0|40 BadRegister
pload v0 a0 s3 v1 m1 p0|41 BadKind
pload s2 a0 s3 v1 m1 p0|41 BadKind
pload s1 a9 s3 v1 m1 p0|40 BadRegister
pload s1 s0 s3 v1 m1 p0|41 BadKind
pload s1 a2 s3 v1 m1 p0|41 BadKind
pload s1 a3 s3 v1 m1 p0|41 BadKind
pload s1 a0 s9 v1 m1 p0|40 BadRegister
pload s1 a0 v0 v1 m1 p0|41 BadKind
pload s1 a0 s1 v1 m1 p0|41 BadKind
pload s1 a0 s3 v9 m1 p0|40 BadRegister
pload s1 a0 s3 s0 m1 p0|41 BadKind
pload s1 a0 s3 v2 m1 p0|41 BadKind
pload s1 a0 s3 v1 m9 p0|40 BadRegister
pload s1 a0 s3 v1 s0 p0|41 BadKind
pload s1 a0 s3 v1 m1 p9|40 BadRegister
";
