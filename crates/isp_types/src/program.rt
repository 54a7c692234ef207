//! Names and types of a program.
ghost use Rattle.std.specs.Prelude.{◌≡◌, IfErr, IfOk, map};
ghost use Rattle.isp_lex.specs.declared.fault.Fault.{Fault};
ghost use Rattle.isp_tree.specs.Views.{function_of as read_function};
ghost use Rattle.isp_typed.specs.Promise.{Accepts, Refuses};
ghost use Rattle.isp_typed.specs.Views.{program_of};
ghost use Rattle.isp_types.specs.Functions.{Breach, IsProgram, heading};

use crate::function::{functions, header};
use isp_base::Gang;
use isp_exprs::{Headers, Setting};
use isp_lex::SourceFault;
use isp_tree::{Function, Tree};
use isp_typed::{Program, Typed};
use std::alloc::{AllocError, Global};

/// The functions as callers see them.
pub fn headers(alloc: Global, all: &[Function]) -> Result<Headers, AllocError>
    ensures { IfOk result (λ h. h ≡ map heading (map read_function all.now)) }
{
    let mut done = Headers::new(alloc);
    for f in all {
        let next = header(alloc, f)?;
        done.push(alloc, next)?;
    }
    Ok(done)
}

/// The typed program of a tree, for a gang of some size. The rules are in docs/LANGUAGE.md, Names and
/// types, and The library.
///
/// Of these faults the one is answered whose span ends first, a tie by the lower number; an expression
/// whose part is faulty has no fault of its own:
/// 20 UnknownName, at a name that nothing declares;
/// 21 NameTwice, at the later name: a variable twice in one scope, two functions of one name, a function
/// with a name of the library;
/// 22 Mismatch, at the expression or the argument: an array, or nothing, where a value is wanted, a value
/// or another array where an array is wanted, `&` outside the packed calls, what a packed call does not
/// take, a target that is no place; at the words of a type that contradict each other; at the size of a
/// local array that is not 1 to 65,536; at the word `return` with a value where the function has no
/// result, or the other way round; at the name of an array parameter that is not uniform;
/// 23 Arguments, at a call with another number of arguments;
/// 24 ConstAssigned, at a target that is constant, or at a constant that is handed to what may assign it;
/// 25 BadPrint, at the text of a `print` that has another number of `%` than there are values.
/// 0: memory was refused, which may come in place of any of them.
pub fn resolve(alloc: Global, tree: &Tree, gang: Gang) -> Result<Typed, SourceFault>
    ensures accepted { IfOk result (λ t.
        Accepts (IsProgram gang (map read_function tree.now)) (Breach gang (map read_function tree.now)) (program_of t)) }
    ensures refused { IfErr result (λ e. (f : Fault) → e ≡ SourceFault.Refused f
        → Refuses (IsProgram gang (map read_function tree.now)) (Breach gang (map read_function tree.now)) f) }
{
    let headers = headers(alloc, tree.functions())?;
    let setting = Setting {
        alloc,
        gang,
        headers: &headers,
    };
    match functions(&setting, tree.functions())? {
        Ok(functions) => Ok(Typed::new(Program { gang, functions })),
        Err(fault) => Err(SourceFault::Refused(fault)),
    }
}
