//! Sources that are refused on the whole way to code, and the least budget of a run. What is compiled stands in data/covered.rows of isp_tests_cases.
use isp_base::Gang;
use isp_engine::{Ending, Report, compile, execute};
use isp_tests_support::parted;

/// Each line, by hand: the fault, and a source with it, wherever it stands.
const REFUSED: &str = r##"1 BadByte at 11..12|void f() { @ }
2 BadNumber at 26..28|void f() { while (true) ; 08; }
10 Unexpected at 15..16|void f() { f() f(); }
12 LeftOut at 11..16|void f() { float x; }
20 UnknownName at 33..34|export void f() { while (true) ; y = 1; }
21 NameTwice at 47..48|void f() { } export void g() { f(); int x; int x; }
22 Mismatch at 37..40|export void f(uniform int x) { f(x); (x) = 1; }
23 Arguments at 11..15|void f() { f(1); }
24 ConstAssigned at 77..78|export void f(uniform int a[]) { packed_store_active(a, 1); const int c = 1; c = 2; }
25 BadPrint at 66..69|export void f(uniform int a[]) { packed_store_active(a, 1); print("%"); }
30 VaryingToUniform at 76..88|export void f(uniform int a[]) { packed_store_active(a, 1); uniform int u = programIndex; }
31 BadExit at 53..58|export void f() { while (true) ; } export void g() { break; }
32 NestedForeach at 40..47|export void f() { foreach (i = 0 ... 4) foreach (j = 0 ... 4) ; }
33 BadExport at 24..25|void f() { } export int g() { }
"##;

#[test]
fn refusals(rt: HostRuntime) {
    let alloc = rt.alloc();
    let mut count = 0usize;
    for line in REFUSED.lines() {
        let (wanted, source) = parted(line, '|');
        let fault = compile(alloc, source, Gang::W4).err();
        let fault = fault.expect(&rt, "not refused");
        let text = format!(in alloc; "{fault}").expect(&rt, "memory");
        assert!(rt; text.as_str() == wanted, "{line}: {text}");
        count = count.saturating_add(1);
    }
    assert_eq!(rt; count, 14);
}

const DOUBLE: &str =
    "export void f(uniform int a[]) { a[programIndex] = a[programIndex] * 2 + 1; }";

// Whether a run goes on, and there is no answer.
fn goes_on(report: &Report) -> bool {
    report.ending == Ending::Running && report.answer.is_none()
}

// With each budget below some number the run goes on, and with that it ends.
#[test]
fn least_budget(rt: HostRuntime) {
    let alloc = rt.alloc();
    let image = compile(alloc, DOUBLE, Gang::W4).ok().expect(&rt, "no code");
    let mut least = 0u64;
    for budget in 0..100u64 {
        let report = execute(alloc, &image, "f", "{\"a\":[5,6,7,8]}", budget);
        if !goes_on(&report.ok().expect(&rt, "refused")) {
            break;
        }
        least = budget.saturating_add(1);
    }
    assert!(rt; least > 1 && least < 100, "{least}");
    let report = execute(alloc, &image, "f", "{\"a\":[5,6,7,8]}", least);
    let report = report.ok().expect(&rt, "refused");
    assert!(rt; report.ending == Ending::Ended && report.answer.is_some());
}
