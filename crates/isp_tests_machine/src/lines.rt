//! Each line that computes, moves or stores, once, at each gang.
mod table;

use crate::codes::{filled, verified};
use crate::runs::{Step, go};
use crate::views::View;
use isp_base::{Gang, gang_laws};
use isp_tests_support::parted;
use std::alloc::Global;
use std::process::Abort;
use table::{COUNT, LINES};

// Each gang, in the order of what a row shows.
const GANGS: [Gang; 4] = [Gang::W4, Gang::W8, Gang::W16, Gang::W32];

// What a line reads stands in registers before, and what it wrote is shown.
const CODE: &str = "func f export void
par s i32 n
par s i32 m
par a i32 x
par a i32 y
par a b on
par a b other
s i64 i64 i32 b i64
v b i32 i32 i32 b i64 i8 b i32
m 4
vload v1 a0 s2 m0 p0
vload v2 a1 s2 m0 p0
vload v0 a2 s2 m0 p0
vload v4 a3 s2 m0 p0
mtest m1 v0 m0
mtest m2 v4 m0
conv v5 v2 m0
const s6 6
…
vload v8 a0 s2 m0 p0
…
ret -
end";

// 9 and -4; then of each four lanes x, y, and the lanes of m1 and of m2.
fn given(rt: &impl Abort, alloc: Global, gang: Gang) -> String {
    gang_laws();
    let fours = gang.width() / 4;
    format!(in alloc;
        "i32:9 i32:4294967292 i32[]:3,4294967293,7,200*{fours} i32[]:3,1,2,1*{fours} b[]:1,1,0,1*{fours} b[]:0,1,1,1*{fours}"
    ).expect(rt, "memory")
}

fn try_line(rt: &impl Abort, alloc: Global, gang: Gang, fills: &str, seen: &str) {
    let functions = filled(rt, alloc, CODE, fills);
    let code = verified(rt, alloc, gang, functions.as_str());
    let wanted = format!(in alloc; "ended {seen}").expect(rt, "memory");
    let step = Step {
        budget: 100,
        view: View::Written,
        wanted: wanted.as_str(),
    };
    go(rt, alloc, &code, given(rt, alloc, gang).as_str(), &[step]);
}

// A line of the table, and what shows what it wrote, at each gang.
fn try_each(rt: &impl Abort, alloc: Global, fills: &str, seen: &str) {
    assert_eq!(rt; seen.split(' ').count(), GANGS.len(), "{fills}");
    for (gang, text) in GANGS.iter().zip(seen.split(' ')) {
        try_line(rt, alloc, *gang, fills, text);
    }
}

#[test]
fn each_line(rt: HostRuntime) {
    let mut count = 0usize;
    for line in LINES.lines() {
        let (fills, seen) = parted(line, '|');
        try_each(&rt, rt.alloc(), fills, seen);
        count = count.saturating_add(1);
    }
    assert_eq!(rt; count, COUNT);
}
