//! Counts.
use super::runs::{counts, run_of};
use isp_tests_support::parted;

/// Each line: a run, and its counts, or how they begin where `…` stands after it.
///
/// share is the kernel of docs/TOUR.md, counted by hand. Its 16 instructions are 3 under m0, 8 under m3, and 5 without a mask: mtest,
/// joff, two of const, and ret. Of the 4 lanes all are on in m0 and 3 in m3, so 3 * 4 + 8 * 3 = 36 of 11 * 4 = 44. The first 5
/// instructions alone are index, splat and lt under m0, mtest and joff. bump has 5 elements in a gang of 4: a run of 4 lanes, and one of 1.
///
/// mandelbrot is counted by tools/trace.py, a machine in Python, written from docs/MACHINE.md, whose arrays are those of
/// examples/mandelbrot.answer. The points leave the loop after different numbers of turns, so of more lanes a smaller part is on: 59,
/// 41 and 21 of 100.
const COUNTS: &str =
    r##"share 4 1000 i32[]:10,20,30 i32:3|{"instructions":16,"masked":11,"lanes_on":36,"lanes":44,"functions":{"share":{"instructions":16,"masked":11,"lanes_on":36,"lanes":44}},"kinds":{"scalars":{"instructions":2,"masked":0,"lanes_on":0,"lanes":0},"vectors":{"instructions":9,"masked":9,"lanes_on":30,"lanes":36},"memory":{"instructions":2,"masked":2,"lanes_on":6,"lanes":8},"masks":{"instructions":1,"masked":0,"lanes_on":0,"lanes":0},"jumps":{"instructions":1,"masked":0,"lanes_on":0,"lanes":0},"calls":{"instructions":1,"masked":0,"lanes_on":0,"lanes":0},"output":{"instructions":0,"masked":0,"lanes_on":0,"lanes":0},"asserts":{"instructions":0,"masked":0,"lanes_on":0,"lanes":0}}}
share 4 5 i32[]:10,20,30 i32:3|{"instructions":5,"masked":3,"lanes_on":12,"lanes":12,…
bump 4 1000 i32[]:1,2,3,4,5 i32:5|{"instructions":39,"masked":15,"lanes_on":42,"lanes":60,"functions":{"bump":{"instructions":39,"masked":15,"lanes_on":42,"lanes":60}},"kinds":{"scalars":{"instructions":15,"masked":1,"lanes_on":4,"lanes":4},"vectors":{"instructions":10,"masked":10,"lanes_on":28,"lanes":40},"memory":{"instructions":4,"masked":4,"lanes_on":10,"lanes":16},"masks":{"instructions":4,"masked":0,"lanes_on":0,"lanes":0},"jumps":{"instructions":5,"masked":0,"lanes_on":0,"lanes":0},"calls":{"instructions":1,"masked":0,"lanes_on":0,"lanes":0},"output":{"instructions":0,"masked":0,"lanes_on":0,"lanes":0},"asserts":{"instructions":0,"masked":0,"lanes_on":0,"lanes":0}}}
mandelbrot 4 100000 i32:4294959104 i32:4294963200 i32:1536 i32:8 i32:6 i32:40 i32[]:0*48|{"instructions":10195,"masked":7030,"lanes_on":16692,"lanes":28120,"functions":{"mandelbrot":{"instructions":10195,"masked":7030,"lanes_on":16692,"lanes":28120}},"kinds":{"scalars":{"instructions":1578,"masked":1,"lanes_on":4,"lanes":4},"vectors":{"instructions":7017,"masked":7017,"lanes_on":16640,"lanes":28068},"memory":{"instructions":12,"masked":12,"lanes_on":48,"lanes":48},"masks":{"instructions":641,"masked":0,"lanes_on":0,"lanes":0},"jumps":{"instructions":946,"masked":0,"lanes_on":0,"lanes":0},"calls":{"instructions":1,"masked":0,"lanes_on":0,"lanes":0},"output":{"instructions":0,"masked":0,"lanes_on":0,"lanes":0},"asserts":{"instructions":0,"masked":0,"lanes_on":0,"lanes":0}}}
mandelbrot 8 100000 i32:4294959104 i32:4294963200 i32:1536 i32:8 i32:6 i32:40 i32[]:0*48|{"instructions":7310,"masked":5034,"lanes_on":16704,"lanes":40272,"functions":{"mandelbrot":{"instructions":7310,"masked":5034,"lanes_on":16704,"lanes":40272}},"kinds":{"scalars":{"instructions":1137,"masked":1,"lanes_on":8,"lanes":8},"vectors":{"instructions":5027,"masked":5027,"lanes_on":16648,"lanes":40216},"memory":{"instructions":6,"masked":6,"lanes_on":48,"lanes":48},"masks":{"instructions":457,"masked":0,"lanes_on":0,"lanes":0},"jumps":{"instructions":682,"masked":0,"lanes_on":0,"lanes":0},"calls":{"instructions":1,"masked":0,"lanes_on":0,"lanes":0},"output":{"instructions":0,"masked":0,"lanes_on":0,"lanes":0},"asserts":{"instructions":0,"masked":0,"lanes_on":0,"lanes":0}}}
mandelbrot 16 100000 i32:4294959104 i32:4294963200 i32:1536 i32:8 i32:6 i32:40 i32[]:0*48|{"instructions":7310,"masked":5034,"lanes_on":16728,"lanes":80544,"functions":{"mandelbrot":{"instructions":7310,"masked":5034,"lanes_on":16728,"lanes":80544}},"kinds":{"scalars":{"instructions":1137,"masked":1,"lanes_on":16,"lanes":16},"vectors":{"instructions":5027,"masked":5027,"lanes_on":16664,"lanes":80432},"memory":{"instructions":6,"masked":6,"lanes_on":48,"lanes":96},"masks":{"instructions":457,"masked":0,"lanes_on":0,"lanes":0},"jumps":{"instructions":682,"masked":0,"lanes_on":0,"lanes":0},"calls":{"instructions":1,"masked":0,"lanes_on":0,"lanes":0},"output":{"instructions":0,"masked":0,"lanes_on":0,"lanes":0},"asserts":{"instructions":0,"masked":0,"lanes_on":0,"lanes":0}}}
"##;

// Whether a line of counts is as it should be.
fn is_told(told: &[u8], wanted: &str) -> bool {
    match wanted.strip_suffix("…") {
        Some(front) => told.starts_with(front.as_bytes()),
        None => told.strip_suffix(b"\n") == Some(wanted.as_bytes()),
    }
}

#[test]
fn kernels(rt: HostRuntime) {
    let alloc = rt.alloc();
    let mut rows = 0u64;
    for row in COUNTS.lines() {
        let (line, wanted) = parted(row, '|');
        let told = counts(&rt, alloc, run_of(&rt, line));
        assert!(rt; is_told(told.as_slice(), wanted), "{line}");
        rows = rows.saturating_add(1);
    }
    assert_eq!(rt; rows, 6);
}
