//! What docs/FAULTS.md says of each fault. Written by tools/page_rows.py.

/// A section for each fault, from a line feed, `# ` and its words on: the sentence, the fix, and the rows of its table. A row is
/// `@ ` and what may stand at the place, `? ` and what has to hold around it, and its fix.
pub(crate) const PAGE: &str = "
# 1 BadByte
No token begins with this character.
Fix: outside comments and string literals a source is ASCII: write `-` for `–`, and `\"` for `“`.
@ #
Fix: there is no preprocessor: write `const uniform int size = 8;` in the function, and a function
for a macro.
@ .
? after NUMBER
Fix: there are no floats: write `/ 2` for `* 0.5`, or fixed point as in fir
(examples/README.md#fir).
@ .
? after NAME
Fix: write an array for each field: there are no structs.
@ .
? after ]
Fix: write an array for each field, `x[i] = 1;`.
@ '
? after NUMBER
Fix: write the digits alone: `1000`.
@ '
Fix: write the number: 97 for `a`.
# 2 BadNumber
This run of letters, digits and `_` begins with a digit, but is no number, or no type holds it.
Fix: write `1000000` for `1e6`, `4 * 1024` for `4k`, `8` for `010`. The greatest number is
18446744073709551615.
# 3 BadText
A string literal is not closed in its line, or has a `\\` before a character other than `n`, `t`,
`r`, `\\` or `\"`.
Fix: close it in its line, and write `\\\\` for a backslash and `\\\"` for a quote. The span ends before
the first character that cannot stand there.
# 4 OpenComment
A comment that begins with `/*` is not closed.
Fix: write `*/` after it. Comments do not nest: the first `*/` closes them all, and `/*/` closes
none.
# 5 TooLong
The source has more than 1,048,576 bytes. The span is 0..0.
Fix: pass tables as arrays in the arguments.
# 10 Unexpected
No valid program continues with this token. The mistake is often just before it. An empty span is
the end of the source: something is not closed.
Fix: write the `;`, the `)` or the `}` that is missing before the token.
@ =
? after ]
? declared
Fix: assign each element, `k[0] = 1;`, or make the table an array parameter.
@ {
? after =
Fix: assign each element, `k[0] = 1;`.
@ ]
? after [
Fix: write the size, `int k[3];`, and assign each element.
@ NAME
? after [
Fix: write a number, `int t[64];`, or `programCount`: no name is a size, not even a constant's.
@ NUMBER
? after [
Fix: leave the size out: `uniform int a[]`.
@ [
? after ]
Fix: there is one dimension: `int t[16];` and `t[row * 4 + column]`.
@ = [
? outside
Fix: make it a parameter, a table an array parameter, or a constant of the function. No parameter
has a default value.
@ ;
? after )
Fix: leave it out: a function may stand below its call.
@ ;
? outside
Fix: make it a parameter; what lasts is an array of the caller.
@ NAME
? outside
Fix: write a type before it, `uint8` for `uint8_t`, and before a function only `export`, `static` or
`inline`.
@ = += -= *= /= %= &= |= ^= <<= >>=
Fix: write two statements, `y = 0; x = y;`, and `==` to compare.
@ ++ --
Fix: write two statements: `a[k] = v; k++;`.
@ ,
? in assert
Fix: leave the text out, and `print` it before.
@ ,
Fix: write two statements, in a `for` the second at the end of the body.
@ *
Fix: take an array, `uniform int a[]`, and an index: there are no pointers.
@ &
? after TYPE
Fix: return the value, `x = g(x);`. For a uniform one an array of one element will do, `uniform int
x[]`.
@ &
Fix: `&` stands in packed calls alone: there are no pointers.
@ >
? after -
Fix: write an array for each field, and an index.
@ <
? after TYPE
Fix: take a local array, `int v[3];`, or a variable for each part.
@ static
Fix: nothing lasts from call to call: take an array of the caller, `uniform int state[]`.
@ +
Fix: leave the unary `+` out.
@ NAME NUMBER
? after (
? in print
Fix: write a string literal with a `%` for each value: `print(\"%\\n\", n);`.
@ STRING
? after STRING
Fix: write one string literal, `\"ab\"`.
@ STRING
Fix: pass a text as an array of `uint8`: string literals stand in `print` alone.
@ TYPE
? after ,
Fix: write the type once: `int x = 1, y = 2;`.
@ TYPE
? after =
Fix: write a cast as `(int) n`.
@ (
? after TYPE
Fix: take a number, and an `if` on it: there are no function pointers.
@ (
? declared
Fix: move the function out of the other one.
@ TYPE
? after (
Fix: leave the type out: `foreach (i = 0 ... n)`.
@ const uniform varying signed unsigned
? after TYPE
Fix: write it before the type: `const int x`.
@ NAME
? after TYPE
Fix: write `bool`, `int8` to `int64`, or `uint8` to `uint64`: `uint8` for `uint8_t`.
@ NAME
? unknown
Fix: write `bool`, `int8` to `int64`, or `uint8` to `uint64`: `uint8` for `uint8_t`.
@ else
Fix: make the statements before it a block, `{ y = 1; x = 2; }`.
# 11 TooDeep
Blocks, brackets and operators together are nested more than 128 deep. Which token the span is, is
left open.
Fix: keep an inner value in a variable, or move an inner block into a function.
# 12 LeftOut
isp leaves out this word of ISPC, and no valid program continues with it.
Fix: see DIFFERENCES.md (docs/DIFFERENCES.md#left-out-and-what-to-write-instead). It is no name
either.
@ float double float16
Fix: compute in fixed point, as mandelbrot (examples/README.md#mandelbrot): there are no floats.
@ struct soa
Fix: write an array for each field.
@ enum
Fix: write constants: `const uniform int red = 0, green = 1;`.
@ typedef size_t ptrdiff_t intptr_t uintptr_t
Fix: write the type itself; `int64` holds every index.
@ switch case default
Fix: write `if (n == 0) .. else if (n == 1) .. else ..`.
@ goto
Fix: write a loop and `break`, or a function and `return`.
@ new delete NULL
Fix: take a local array, or an array of the arguments.
@ task launch sync
Fix: write one `foreach` over the whole range. As a name take another word, `job`.
@ extern
Fix: write the function in the source, without a prototype.
@ sizeof
Fix: write the number of bytes, or take the size as a parameter.
@ template typename operator
Fix: write a function for each type, each with a name of its own.
@ cbreak ccontinue creturn
Fix: write `break`, `continue` or `return`.
# 20 UnknownName
Nothing declares the name here: it is misspelt, its scope has ended, or there is no such function.
Fix: declare the variable before its use, in the same block or around it: `uniform int i;` before
the `for`. Write a function yourself that the library (docs/LANGUAGE.md#the-library) lacks.
@ popcnt
Fix: count in a loop: `while (x != 0) { x &= x - 1; n++; }`.
@ count_leading_zeros
Fix: count from 32 down: `while (x != 0) { x >>= 1; n--; }` with a `uint x`.
@ count_trailing_zeros
Fix: shift: `while ((x & 1) == 0) { x >>= 1; n++; }`, for an `x` that is not 0.
@ avg_up avg_down
Fix: widen: `((int) x + y + 1) >> 1`, without `+ 1` for `avg_down`.
@ saturating_*
Fix: widen and clamp: `clamp((int) x + y, -128, 127)` for `int8`, by `int64` for `int`.
@ memset memcpy memmove
Fix: write a loop: `foreach (i = 0 ... n) a[i] = 0;`.
@ lanemask packmask
Fix: add up bits: `reduce_add((uint) 1 << programIndex)`, under an `if` for `packmask`.
@ atomic_*
Fix: reduce and assign once: `sum += reduce_add(x);`.
@ prefetch_*
Fix: leave it out.
@ streaming_load* streaming_store*
Fix: access the element: `a[programIndex] = x;`.
@ aos_to_soa* soa_to_aos*
Fix: take each field by its index: `a[3 * i]`, `a[3 * i + 1]`, `a[3 * i + 2]`.
@ packed_store_active2
Fix: write `packed_store_active(&a[n], x)`.
@ assume
Fix: leave it out, or write `assert(n > 0);`.
@ random frandom seed_rng rdrand
Fix: keep a state in each instance: `state ^= state << 13; state ^= state >> 17; state ^= state <<
5;`.
@ clock num_cores
Fix: leave it out: a kernel sees its arguments alone.
@ sqrt rsqrt rcp
Fix: write it for whole numbers, as roots (examples/README.md#roots).
@ sin cos tan exp log pow floor ceil round isnan float* double* half*
Fix: take the values from a table, as lookup (examples/README.md#lookup), or compute in fixed point:
there are no floats.
# 21 NameTwice
The name is declared a second time: a variable in one scope, a function, or a function with a name
of the library.
Fix: give the later one another name. Parameters and the outermost declarations of a body are one
scope. There is one function of each name, whatever it takes.
# 22 Mismatch
An array stands where a value is expected, or a value or another array where an array is. Or the
words of a type contradict each other, or a size, a target or a `return` is not allowed.
Fix: write an element, `a[i]`, where a value is expected, and the name of an array of exactly the
parameter's element type where an array is.
@ &
? in packed_store_active
Fix: take an array of `int` or `uint`, or compute the indices: `o[c + exclusive_scan_add(1)] = v; c
+= reduce_add(1);`.
@ &
? in packed_load_active
Fix: take an array of `int` or `uint`, and `&x` of a varying variable of its type.
@ &
Fix: pass an offset, `g(a, 4)`, and write `a[from + i]` in the function: `&` stands in packed calls
alone.
@ (
Fix: leave the brackets out: they make a value of it.
@ return
Fix: write the result's type before the function's name, or `return;`.
@ NUMBER
? after [
Fix: make a larger array a parameter: a local one has 1 to 65,536 elements.
@ NUMBER
Fix: write a variable or an element as the target, an array's name for an array parameter.
@ TYPE
Fix: write one of `uniform` and `varying`, one of `signed` and `unsigned`, and the latter not before
`bool`, `void` or a `uint` name. `void` is a result's type alone, without a rate.
@ NAME
? outside
Fix: write `uniform` before an array parameter: `uniform int a[]`.
@ NAME
? before (
Fix: give the function a result: write its type before its name. A call is no target and no array.
@ NAME
? before [
Fix: write the name alone, if it is no array or an array is expected.
@ NAME
Fix: write an element, `a[i]`: an array is no value. As an argument write an array of exactly the
parameter's element type.
# 23 Arguments
The number of arguments of the call is not that of the function's parameters.
Fix: write one argument for each parameter, as in `clamp(x, 0, 255)`. There are no default values.
# 24 ConstAssigned
A constant is assigned, or passed to a function that may assign it.
Fix: copy an index of a `foreach`: `int j = i;`. Leave `const` out if the array is meant to change,
or write it before the parameter of a function that only reads: `void show(const uniform int a[])`.
# 25 BadPrint
The number of `%` in the string literal of a `print` is not that of the values after it.
Fix: write one value for each `%`. A `%` takes no letter: `%d` prints the value and a `d`. `%`
itself cannot be printed: write `percent`.
# 30 VaryingToUniform
A varying value, one in each instance, stands where a uniform one is expected.
Fix: declare as `uniform` what is one for the gang: without the word a variable is varying. Or make
it one value: `reduce_add(sum)`, another `reduce_` call, or `extract(x, 0)`. A varying array cannot
be passed: write its loop in place, or declare it `uniform` with a part for each instance, `t[8 *
programIndex + k]`.
@ NAME
? after return
Fix: make one value of it: `return reduce_add(x);`.
@ NAME
? after ...
Fix: declare the bound as `uniform`: without the word a variable is varying.
@ NAME
? after +=
Fix: let each instance have a sum, `int sum = 0;`, and write `reduce_add(sum)` after the loop.
# 31 BadExit
A `break`, `continue` or `return` stands where it may not: a `break` goes to a loop, a `continue` to
a loop or a `foreach` of any kind, and no `return` stands in a `foreach` of any kind or an
`unmasked`.
Fix: `continue`, or a loop: `for (uniform int k = 0; k < n; k += programCount) { int i = k +
programIndex; if (i < n) .. }`. Or note what was seen, `found = true;`, and after the `foreach`
`return any(found);`.
# 32 NestedForeach
A `foreach` stands in the body of another.
Fix: write one with two ranges, `foreach (y = 0 ... 2, x = 0 ... 5)`, or a uniform `for` for one of
them.
# 33 BadExport
An exported function takes or gives a varying value. A type without a word is varying.
Fix: write `uniform` before the parameter or the result: `uniform int n`. Values of each instance go
in and out by arrays, `a[programIndex]`.
# 40 BadRegister
The instruction names a register, array, place or text that does not exist.
Fix: number from 0: `m 1` gives `m0` alone. Declare what is missing: `m 2`, one more type in the
line `s` or `v`, one more line `place` or `text`.
# 41 BadKind
An operand has not the class, type or kind of array that the instruction asks for, a constant does
not fit, or a `ret` gives another result than the function's.
Fix: look the instruction up in the table (docs/MACHINE.md#instructions), and convert a value to its
type with `conv`. An index is `i64`, a test `b`.
# 42 BadJump
A jump goes to a number that is no instruction of the function.
Fix: count the function's instructions from 0: `L0` is the line after `m`.
# 43 BadCall
A call names no function, or its arguments or its result do not fit the function.
Fix: number the functions from 0, in order. Give one register for each parameter, of its class and
type, and `-` if there is no result.
# 44 BadEntry
The head of a function is wrong: a name occurs twice, an exported function takes or gives a vector,
or there is no mask. The instruction is 0.
Fix: give each function, and each of its parameters, its own name. Make a function of vectors
`inner`. Write at least `m 1`.
# 45 FallsOff
The function has no instruction (0), or its last one is neither `jmp` nor `ret`.
Fix: end it in `ret -`, or in `ret s0` if it has a result.
# 46 OverLimit
Code as text cannot have what is added to a `Code`. Only calls of the library answer it
(`add_place`, `add_text`, `add_function` of isp_code).
Fix: keep within what code can hold (docs/MACHINE.md#what-code-can-hold).
# 50 NoEntry
No exported function of the program has the name.
Fix: write the name as the source has it, and `export` before the function. `isp check` lists what a
source exports.
# 60 BadLine
The line begins with a word that may not stand there, has too few or too many words, or does not
end; or the code stops before its `end`.
Fix: write the lines in order (docs/MACHINE.md#code-text), each with a line feed. There are no
comments.
# 61 BadOperand
A word has a wrong form or is out of range, the version does not go with the gang, or a place ends
before it starts.
Fix: types are `b`, `i8`, `u8` to `u64`; registers one of `s v m a` and a number, places `p0`, texts
`t0`, functions `f0`. Line 1 is `isp 2 gang 32`, or `isp 1 gang G` for 4, 8 or 16.
# 62 BadLabel
The target of a jump is not `L` and a number.
Fix: write `L` and the number of the instruction, counted from 0 in its function: `jmp L0`.
# 63 NotCanonical
The line is not in its one form: it has a leading zero, a space too many, a tab, or a character that
is not printed.
Fix: write one space between two words and none elsewhere, `1` for `01`, `0` for `-0`.
# 70 NotJson
The arguments are not JSON.
Fix: write names in quotes `\"`, nothing after the last member or element, and no comments:
`{\"a\":[1,2,3],\"n\":3}`.
# 71 NotObject
The arguments are JSON, but not an object.
Fix: give the arguments by name, `{\"a\":[1,2,3],\"n\":3}`, and `{}` if the function takes none.
# 72 Missing
A parameter has no member.
Fix: give a member for each parameter, also for an array that the function only fills:
`\"a\":[0,0,0]`.
# 73 Extra
A member has no parameter.
Fix: leave the member out, or spell it as the parameter. Capital letters count.
# 74 WrongKind
A member, or an element of it, is not of its parameter's kind: a float, `null`, a string, a number
for a `bool`, a value for an array.
Fix: write whole numbers of at most 64 bits without a point, an exponent or quotes, `true` and
`false`, and `[..]` for an array, of one element too.
# 75 OutOfRange
A whole number is out of the range of its parameter's type.
Fix: declare the parameter wider, `int64`, or unsigned, `uint`. An `int` goes from -2147483648 to
2147483647, an `int8` from -128 to 127.
# 76 TooLong
An array has more than 16,777,216 elements.
Fix: run the entry on parts of the array, or call the library with bytes, which has no such limit.
# 80 NotIndependent
The entry is not independent. Calls of the library name this number (`one_by_one` of isp_solo); the
command names the rule and where.
Fix: that of the rule, below; or use `isp run`.
# rule 1
A call looks across the gang, or an `unmasked`, a `foreach_active` or a `foreach_unique` does.
Fix: nothing is wrong with `isp run`. To be independent: store each instance's value in an array,
and join them in the caller or a second kernel. For `if (any(x))` write `if (x)`.
# rule 2
There is a `print`: the gang does it once, and each instance alone would do it too.
Fix: store in an array what is to be seen.
# rule 3
A local array is uniform: what one instance stores in it another reads.
Fix: leave out `uniform`, so that each instance has its own, `int t[4]`; or make it a parameter.
# rule 4
A uniform variable is assigned in a varying `if`, a `foreach` or a loop that instances leave in
different iterations, but is declared outside of it.
Fix: declare it inside, or make it varying: `int u = 0;`.
# rule 5
A uniform variable is assigned in the body of a loop in which some instances `continue`, but is not
declared in that body.
Fix: make it varying, `int t = 0;`, or declare it in the body. The step of a `for` may assign it.
# rule 6
A `foreach` stands where some instances may not arrive: in a called function, under a varying test,
or after a `return` of some.
Fix: put the test into the body, `foreach (i = 0 ... 4) if (a[i] > 0) a[i] = 1;`, write an `if`
around the rest in place of the `return`, and move the `foreach` into the entry.
# rule 7
A function with a uniform result has a `return` under varying control.
Fix: make the result varying: `int sign(int x)` for `uniform int sign(int x)`.
# 81 WriteFailed
The sink that a run writes to has failed. Calls of the library answer it (`run_to` of isp_engine);
the command prints cannot write (docs/FAULTS.md#cannot-write).
Fix: make room for the output, and run again.
# trap divide
A divisor of `/` or `%` is 0 in an instance that is on.
Fix: divide only where the divisor is not 0, `b[i] != 0 ? a[i] / b[i] : 0` or under an `if`: an
instance that is off does not trap.
# trap index
An element is outside its array in an instance that is on. This access reads and stores nothing.
Fix: pass a count that the array has, and access neighbours under `if (i > 0)`, or by `clamp(i - 1,
0, n - 1)`. `a[programIndex]` needs 16 elements with a gang of 16.
# trap assert
The test of an `assert` is false in an instance that is on.
Fix: `print` before it what its test uses. Use an `if` for what may well happen.
# trap depth
A call is made while 256 calls are running.
Fix: write a loop instead of the recursion, or let a test end it earlier.
# budget used
The run has executed as many instructions as `--budget` allows.
Fix: give a greater `--budget`, or make the loop end: does each instance reach its `break`?
# turns used
With `isp solo`, a loop of this instance would make more iterations than `--turns` allows each time
it is entered.
Fix: give a greater `--turns`, or make the loop end.
# not apart
A race: with `isp solo`, one instance stores in this element, and another reads it or stores in it.
Fix: give each instance elements of its own, `a[programIndex]`, or read from one array and store in
another (an example (docs/INDEPENDENCE.md#a-race)).
# cannot read
A file does not exist, may not be read, is longer than 1,073,741,824 bytes, or is not UTF-8.
Fix: look for the name in the folder of the command, and save the file as UTF-8.
# cannot write
The output cannot be written: the disk is full, say, or the reader of a pipe has gone.
Fix: make room, and run again.
# memory
The system gave no memory.
Fix: end other programs, or use smaller arrays.
# words
The command line is refused, or asks for help. Standard error has clap's message, or one line if a
word is not valid UTF-8.
Fix: write options after the command's name, `isp check --gang 8 s.ispc`.";
