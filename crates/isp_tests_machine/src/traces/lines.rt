//! Traces.
use super::runs::{lines, run_of};
use isp_tests_support::{number, parted};
use isp_traces::Window;
use std::alloc::Global;
use std::process::Abort;

/// Each record: its name; how many steps come before the window, how many are in it and whether lanes are shown, with the run after the
/// bar; and the lines.
const TRACES: &str = "=== the whole run of the kernel of docs/TOUR.md, by hand
0 100 lanes|share 4 1000 i32[]:10,20,30 i32:3
0 share L0: index v0 m0 m0=1111 -> v0=[0,1,2,3]
1 share L1: splat v3 s0 m0 m0=1111 -> v3=[3,3,3,3]
2 share L2: lt v2 v0 v3 m0 m0=1111 -> v2=[true,true,true,false]
3 share L3: mtest m3 v2 m0 m0=1111 -> m3=1110
4 share L4: joff m3 L15 m3=1110
5 share L5: conv v4 v0 m3 m3=1110 -> v4=[0,1,2,_]
6 share L6: const s2 12
7 share L7: splat v5 s2 m3 m3=1110 -> v5=[12,12,12,_]
8 share L8: const s3 3
9 share L9: splat v6 s3 m3 m3=1110 -> v6=[3,3,3,_]
10 share L10: sub v6 v6 v0 m3 m3=1110 -> v6=[3,2,1,_]
11 share L11: div v5 v5 v6 m3 p0 m3=1110 -> v5=[4,6,12,_]
12 share L12: gather v6 a0 v4 m3 p1 m3=1110 -> v6=[10,20,30,_]
13 share L13: add v6 v6 v5 m3 m3=1110 -> v6=[14,26,42,_]
14 share L14: scatter a0 v4 v6 m3 p1 m3=1110
15 share L15: ret -
=== the last run of a `foreach`, over the fifth element, where one lane is on; then none is, and it is over
23 16 lanes|bump 4 1000 i32[]:1,2,3,4,5 i32:5
23 bump L10: mrange m9 s7 s6 -> m9=1000
24 bump L11: joff m9 L23 m9=1000
25 bump L12: conv s8 s7
26 bump L13: splat v2 s8 m9 m9=1000 -> v2=[4,_,_,_]
27 bump L14: add v0 v2 v1 m9 m9=1000 -> v0=[4,_,_,_]
28 bump L15: copy s10 s7
29 bump L16: const s11 1
30 bump L17: splat v5 s11 m9 m9=1000 -> v5=[1,_,_,_]
31 bump L18: vload v6 a0 s10 m9 p0 m9=1000 -> v6=[5,_,_,_]
32 bump L19: add v6 v6 v5 m9 m9=1000 -> v6=[6,_,_,_]
33 bump L20: vstore a0 s10 v6 m9 p0 m9=1000
34 bump L21: add s7 s7 s2
35 bump L22: jmp L10
36 bump L10: mrange m9 s7 s6 -> m9=0000
37 bump L11: joff m9 L23 m9=0000
38 bump L23: ret -
=== without lanes, and no further than the budget
3 9 |share 4 6 i32[]:10,20,30 i32:3
3 share L3: mtest m3 v2 m0 m0=1111 -> m3=1110
4 share L4: joff m3 L15 m3=1110
5 share L5: conv v4 v0 m3 m3=1110
=== no line behind the end
16 9 |share 4 1000 i32[]:10,20,30 i32:3
=== a trap writes nothing: instance 3 is on and divides by 0
10 9 lanes|share 4 1000 i32[]:10,20,30,40 i32:4
10 share L10: sub v6 v6 v0 m3 m3=1111 -> v6=[3,2,1,0]
11 share L11: div v5 v5 v6 m3 p0 m3=1111
";

fn window_of(rt: &impl Abort, text: &str) -> Window {
    let (from, rest) = parted(text, ' ');
    let (count, lanes) = parted(rest, ' ');
    Window {
        from: number(from).expect(rt, "no number"),
        count: number(count).expect(rt, "no number"),
        lanes: lanes == "lanes",
    }
}

fn compare(rt: &impl Abort, alloc: Global, record: &str) {
    let (name, rest) = parted(record, '\n');
    let (head, wanted) = parted(rest, '\n');
    let (window, line) = parted(head, '|');
    let told = lines(rt, alloc, run_of(rt, line), window_of(rt, window));
    assert!(rt; told.as_slice() == wanted.as_bytes(), "{name}");
}

#[test]
fn kernels(rt: HostRuntime) {
    let mut records = 0u64;
    for record in TRACES.split("=== ").skip(1) {
        compare(&rt, rt.alloc(), record);
        records = records.saturating_add(1);
    }
    assert_eq!(rt; records, 5);
}
