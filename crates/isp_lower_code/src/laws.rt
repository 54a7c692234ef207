//! What holds of all code. No code is run here: each function carries a law in its contract.
ghost use Rattle.isp_lower_code.specs.Asked.{AsksAreFew, CodeIsWritten, OwnIsThere};
ghost use Rattle.isp_lower_code.specs.RowAccess.{RowReads, RowsSound, RowWrites};
ghost use Rattle.isp_lower_code.specs.RowLayout.{KnownRows};
ghost use Rattle.isp_lower_code.specs.Scalar.{ScalarPlaces, ScalarRuns};
ghost use Rattle.isp_lower_code.specs.Laws.{ExprGoesOn, ExprRuns, ExprSound, ItemsRun, ItemsSound, LayoutsAreApart, SimpleGoesOn, SimpleRuns, SimpleSound};

/// The code of an expression gives its value in the lanes of a mask, traps as it traps, and goes on
/// where it is cut, within 32 instructions for each unit of work. Variables, and the registers that
/// code before it uses, are as they were.
pub fn expressions_run()
    ensures { ExprRuns }
{}

/// The code of a value, of an assignment, and of `op=`, `++` and `--`, on variables and elements, writes
/// its place for the lanes of a mask, after its index and the right side, or traps as the assignment
/// traps; nothing is stored where an index is outside.
pub fn assignments_run()
    ensures { SimpleRuns }
{}

/// The code of declared variables and arrays sets each to its value, or to 0, for the lanes of a mask
/// alone; an array that all lanes share is set whole.
pub fn declarations_run()
    ensures { ItemsRun }
{}

/// Where variables are known to be steady or linear, and scalar registers have their scalars, the code of the scalar
/// expression of a steady or linear expression does for the gang what the expression does for each member: it leaves the
/// value that all have, or that from which their values count on, or traps as they trap.
pub fn scalars_run()
    ensures { ScalarRuns }
{}

/// Such code names the places of the source that the code of the expression itself names.
pub fn scalar_places()
    ensures { ScalarPlaces }
{}

/// Where an index counts on from a scalar in a register, twelve instructions after it read the elements that the members'
/// indices mean, or trap as they do: as a run where no lane passes the greatest value of the index's type, and else by
/// each lane's own index.
pub fn rows_read()
    ensures { RowReads }
{}

/// The same of a value that is written into these elements: the highest instance wins in one element.
pub fn rows_written()
    ensures { RowWrites }
{}

/// Each instruction of such an access has its operands, where the registers that it asks for are there.
pub fn rows_sound()
    ensures { RowsSound }
{}

/// A layout in which varying variables are known, and that takes an index as a row where it counts on from a scalar by them
/// and its registers are there: with it a call is as the laws ask, its code has its operands, and it is short. The machine
/// stands for a state where scalar registers have the scalars by which the members of the run are as known.
pub fn rows_by_scalars()
    ensures { KnownRows }
{}

/// Where the value of an expression is cut for each number of turns that a loop may make, its code goes on
/// without end: what each cut has written is the beginning of the output after some number of
/// instructions, and the output after each number of instructions is the beginning of some cut's.
pub fn expressions_go_on()
    ensures { ExprGoesOn }
{}

/// The same of the code of a value, of an assignment, and of `op=`, `++` and `--`.
pub fn assignments_go_on()
    ensures { SimpleGoesOn }
{}

/// A layout from lists of rows, in which a register has the number of the first row of its name, gives
/// each name a register of its own.
pub fn layouts_are_apart()
    ensures { LayoutsAreApart }
{}

/// Each instruction of the code of an expression has registers that are there and of their types, names
/// a place that is there, and jumps to an instruction of the function, wherever the code stands and
/// under whatever mask, if the registers that the expression asks for are there. So is the register of
/// its value, with its type.
pub fn expressions_sound()
    ensures { ExprSound }
{}

/// The same of the code of a value, of an assignment, and of `op=`, `++` and `--`.
pub fn assignments_sound()
    ensures { SimpleSound }
{}

/// The same of the code of declared variables and arrays.
pub fn declarations_sound()
    ensures { ItemsSound }
{}

/// What the code of an expression or an assignment asks for is in step with the nodes of its tree: numbers of slots and
/// masks, registers and masks.
pub fn asks_are_few()
    ensures { AsksAreFew }
{}

/// A function whose registers begin with those of its variables has the variables and the arrays that its trees name.
pub fn own_is_there()
    ensures { OwnIsThere }
{}

/// The text of code can have the code of an expression or an assignment, and its places, where the function has what the
/// code asks for, and each instruction and each place has a number of 32 bits.
pub fn code_is_written()
    ensures { CodeIsWritten }
{}
