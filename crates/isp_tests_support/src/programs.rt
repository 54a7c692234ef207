//! Programs whose calls are swept: together they bring each call that takes memory to another answer than a refusal.

/// A program for a gang of four, how its entry is called, and what comes out.
#[derive(Clone, Copy)]
pub struct Program<'a> {
    pub source: &'a str,
    pub entry: &'a str,
    /// The arguments, in JSON.
    pub arguments: &'a str,
    pub answer: &'a str,
    /// What is written.
    pub output: &'a str,
}

/// Each element gains 1.
pub const INC: Program<'static> = Program {
    source: "export void inc(uniform int a[], uniform int n) { foreach (i = 0 ... n) a[i] = a[i] + 1; }",
    entry: "inc",
    arguments: "{\"a\":[1,2,3,4,5],\"n\":5}",
    answer: "{\"arrays\":{\"a\":[2,3,4,5,6]},\"result\":null}",
    output: "",
};

/// A varying local array: t[0] is p in instance p, and 9 where p is even.
pub const LOCAL_ARRAY: Program<'static> = Program {
    source: "export void f(uniform int a[]) { int t[2]; t[0] = programIndex; t[programIndex & 1] = 9; a[programIndex] = t[0]; }",
    entry: "f",
    arguments: "{\"a\":[0,0,0,0]}",
    answer: "{\"arrays\":{\"a\":[9,1,9,3]},\"result\":null}",
    output: "",
};

/// A uniform counter in a varying while: 2 and 3 leave in turn 1, 1 in turn 2, 0 in turn 3.
pub const COUNTER: Program<'static> = Program {
    source: "export uniform int f() { int x = programIndex; uniform int t = 0; while (true) { if (x >= 2) break; x++; t++; } return t; }",
    entry: "f",
    arguments: "{}",
    answer: "{\"arrays\":{},\"result\":2}",
    output: "",
};

/// Each distinct value once, with the instances that hold it.
pub const UNIQUE: Program<'static> = Program {
    source: "export void f(uniform int a[]) { int v = a[programIndex]; foreach_unique (u in v) print(\"% %\\n\", u, v); }",
    entry: "f",
    arguments: "{\"a\":[7,3,7,3]}",
    answer: "{\"arrays\":{\"a\":[7,3,7,3]},\"result\":null}",
    output: "7 [7,_,7,_]\n3 [_,3,_,3]\n",
};

/// Variables, both kinds of local arrays, calls, a foreach and a print. g(x) is x; b is 5 + 0, 6 + 1, 7 + 2; even p print
/// b[0], odd p b[1].
pub const CALLS: Program<'static> = Program {
    source: "int g(int x) { int t[2]; t[x & 1] = x; return t[x & 1]; } export uniform int f(uniform int a[]) { uniform int b[3]; foreach (i = 0 ... 3) b[i] = a[i] + g(i); print(\"%\\n\", b[programIndex & 1]); return b[2]; }",
    entry: "f",
    arguments: "{\"a\":[5,6,7]}",
    answer: "{\"arrays\":{\"a\":[5,6,7]},\"result\":9}",
    output: "[5,7,5,7]\n",
};

/// All of them.
pub const PROGRAMS: [Program<'static>; 5] = [INC, LOCAL_ARRAY, COUNTER, UNIQUE, CALLS];
