//! The exported functions of a source, by their names.
use isp_base::Gang;
use isp_engine::front;
use std::test::Fail;

/// Sources, and which of `f`, `g` and `h` have a signature in each.
const SOURCES: [(&str, [bool; 3]); 2] = [
    ("", [false, false, false]),
    (
        "export void f() { } /* and */ export void g(uniform int x) { }",
        [true, true, false],
    ),
];

#[test]
fn several_functions(rt: HostRuntime) -> Result<(), Fail> {
    for (source, wanted) in &SOURCES {
        let checked = front(rt.alloc(), source, Gang::W4)?;
        for (name, is_there) in ["f", "g", "h"].iter().zip(wanted.iter()) {
            assert!(rt;
                checked.signature(name).is_some() == *is_there,
                "{name} of {source}"
            );
        }
    }
    Ok(())
}
