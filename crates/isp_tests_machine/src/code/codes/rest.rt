//! What is right and wrong of jumps, texts, what is written, asserted, cleared and given back, of calls, of headers, and of the order of faults.

/// Instructions, each with the rule that it breaks. Of a call all registers are to be there before the mask is to be one, and that before the call is to fit.
pub(super) const INSTRUCTIONS: &str = "jmp L1|
jmp L2|42 BadJump
jz s2 L1|
jz s9 L9|40 BadRegister
jnz s0 L9|41 BadKind
jnz s2 L2|42 BadJump
joff m1 L0|
jon s2 L0|41 BadKind
jall m1 L0|
jall v2 L0|41 BadKind
jall m1 L2|42 BadJump
say t0|
say t1|40 BadRegister
prs v0|41 BadKind
prs s5|40 BadRegister
prv v4 m0|
prv v4 v9|40 BadRegister
fail m1 p0|
fail m1 p1|40 BadRegister
clear a1 m0|
clear a2 m0|
clear a0 m0|41 BadKind
clear a4 m0|40 BadRegister
ret s0|41 BadKind
ret s9|40 BadRegister
call f1 s1 m0 p0 s0 v4 a1|
call f3 s1 m0 p0 s0 v4 a1|43 BadCall
call f2 s1 m0 p0 s0 v4 a1|43 BadCall
call f1 - m0 p0 s0 v4 a1|43 BadCall
call f1 s3 m0 p0 s0 v4 a1|43 BadCall
call f1 v0 m0 p0 s0 v4 a1|43 BadCall
call f1 s9 m0 p0 s0 v4 a1|40 BadRegister
call f1 s1 m2 p0 s0 v4 a1|40 BadRegister
call f1 s1 s0 p0 s0 v4 a1|41 BadKind
call f1 s1 m0 p0 s3 v4 a1|43 BadCall
call f1 s1 m0 p0 v0 v4 a1|43 BadCall
call f1 s1 m0 p0 s0 v0 a1|43 BadCall
call f1 s1 m0 p0 s0 v4 a2|43 BadCall
call f1 s1 m0 p0 s0 v4 a3|43 BadCall
call f1 s1 m0 p0 s0 v4 m0|43 BadCall
call f1 s1 m0 p0 s0 v4 a4|40 BadRegister
call f9 s1 s0 p0 s0 v4 a4|40 BadRegister
call f9 s1 s0 p0 s0 v4 a1|41 BadKind
";

/// Functions, each code in a line, with its first fault: headers, right and wrong; a name that stands twice; of two faults the first in the order of the code,
/// and that control falls off comes last; a jump one past the end; a text that is said for ever.
pub(super) const FUNCTIONS: &str = "func f inner void␤par s i32 x␤par v i32 y␤m 1␤jmp L0␤end␤|
func f inner v i32␤m 1␤jmp L0␤end␤|
func f export s b␤par s i32 x␤m 7␤jmp L0␤end␤|
func f inner void␤m 0␤jmp L0␤end␤|44 BadEntry
func f export void␤par v i32 y␤m 1␤jmp L0␤end␤|44 BadEntry
func f export void␤par s i32 x␤par v i32 y␤m 1␤jmp L0␤end␤|44 BadEntry
func f inner void␤par s i32 x␤par v i32 y␤par a i32 x␤m 1␤jmp L0␤end␤|44 BadEntry
func f export v i32␤m 1␤jmp L0␤end␤|44 BadEntry
func f inner void␤m 1␤ret -␤end␤func g inner void␤m 1␤ret -␤end␤func f inner void␤m 1␤ret -␤end␤|44 BadEntry in function 2, instruction 0
func f inner void␤m 1␤jmp L2␤say t0␤end␤|42 BadJump
func f inner void␤m 1␤say t0␤jmp L2␤end␤|40 BadRegister
func f inner void␤m 1␤jmp L1␤say t0␤end␤|40 BadRegister in function 0, instruction 1
func f inner void␤m 1␤ret -␤mfull m0␤end␤|45 FallsOff in function 0, instruction 1
func f inner void␤m 1␤end␤|45 FallsOff
func f inner void␤m 1␤jmp L1␤end␤|42 BadJump
text 78␤func f inner void␤m 1␤say t0␤jmp L0␤end␤|
";
