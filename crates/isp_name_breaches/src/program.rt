//! Functions, and the breaches of a program.
ghost use Rattle.std.specs.Prelude.{◌≡◌, ◌++◌, ◌∷◌, ◌↔◌, [], AllPairs, Contains, IfOk, map, slice_get};
ghost use Rattle.isp_lex.specs.declared.fault.Fault.{Fault};
ghost use Rattle.isp_tree.specs.Views.{function_of as read_function, param_of as read_param};
ghost use Rattle.isp_rates.specs.Breaches.{Least};
ghost use Rattle.isp_breaches.specs.Order.{Before};
ghost use Rattle.isp_types.specs.Functions.{Breach, param_names, param_variable, params_names};
ghost use Rattle.isp_types.specs.reader.Settings.{within};
ghost use Rattle.isp_name_breaches.specs.reader.Programs.{functions_faults, inside_faults, parameter_faults, parameters_faults, params_variables};

use crate::faults::{refused, tell, unless};
use crate::stmt::block;
use crate::walk::{Context, Walk};
use isp_base::Gang;
use isp_breaches::put_in_order;
use isp_exprs::{Setting, answer_said, mismatch, value_said};
use isp_lex::Fault;
use isp_tree::{Function, Param, Tree};
use isp_types::{declare_parameter, headers, name_fault, param_fits, take, twice};
use std::alloc::{AllocError, Global};
use std::collections::BTreeSet;

/// Finds the faults in a parameter, whose name and variable join the others.
fn parameter(walk: &mut Walk, alloc: Global, p: &Param) -> Result<(), AllocError>
    ensures found { IfOk result (λ u. walk.new.found.items ≡ walk.old.found.items ++ parameter_faults walk.old.scope (read_param p.now)) }
    ensures names { IfOk result (λ u. walk.new.scope ≡ param_names walk.old.scope walk.old.variables.items (read_param p.now)) }
    ensures variables { IfOk result (λ u. walk.new.variables.items ≡ walk.old.variables.items ++ param_variable (read_param p.now) ∷ []) }
{
    let seen = twice(&walk.scope, 0, &p.word);
    tell(&mut walk.found, seen)?;
    unless(&mut walk.found, param_fits(p), mismatch(p.word.span))?;
    refused(&mut walk.found, value_said(&p.ty))?;
    let _ = declare_parameter(alloc, &mut walk.scope, &mut walk.variables, p)?;
    Ok(())
}

/// Finds the faults in parameters, which are the first names and variables of a body.
fn parameters(walk: &mut Walk, alloc: Global, all: &[Param]) -> Result<(), AllocError>
    ensures found { IfOk result (λ u. walk.new.found.items
        ≡ walk.old.found.items ++ parameters_faults walk.old.scope walk.old.variables.items (map read_param all.now)) }
    ensures names { IfOk result (λ u. walk.new.scope ≡ params_names walk.old.scope walk.old.variables.items (map read_param all.now)) }
    ensures variables { IfOk result (λ u. walk.new.variables.items ≡ params_variables walk.old.variables.items (map read_param all.now)) }
{
    for p in all {
        parameter(walk, alloc, p)?;
    }
    Ok(())
}

/// Finds the faults in a function but for that of its name.
fn function(walk: &mut Walk, setting: &Setting, f: &Function) -> Result<(), AllocError>
    ensures { IfOk result (λ u. walk.new.found.items ≡ walk.old.found.items ++ within setting.now inside_faults (read_function f.now)) }
{
    walk.begin();
    let answer = answer_said(&f.result);
    refused(&mut walk.found, answer)?;
    parameters(walk, setting.alloc, &f.params)?;
    let context = Context {
        setting: *setting,
        answer,
    };
    block(walk, &context, 0, &f.body)
}

/// Finds the faults in the functions of a program.
fn functions(walk: &mut Walk, setting: &Setting, all: &[Function]) -> Result<(), AllocError>
    ensures { IfOk result (λ u. walk.new.found.items ≡ walk.old.found.items ++ within setting.now functions_faults [] (map read_function all.now)) }
{
    let mut taken = BTreeSet::new(setting.alloc);
    for f in all {
        tell(&mut walk.found, name_fault(&f.word, &taken))?;
        function(walk, setting, f)?;
        take(setting.alloc, &mut taken, &f.word.name)?;
    }
    Ok(())
}

/// Every breach of names and types in a tree, for a gang of some size, each once: the faults 20 UnknownName, 21 NameTwice,
/// 22 Mismatch, 23 Arguments, 24 ConstAssigned and 25 BadPrint, where `resolve` of isp_types answers the first. Their order is
/// that of the bytes where their spans end, a tie by the lower number, and then by where they start. A node whose part
/// is faulty has none of its own. A tree without a breach has an empty list. AllocError: memory was refused.
pub fn name_breaches(alloc: Global, tree: &Tree, gang: Gang) -> Result<Vec<Fault>, AllocError>
    // The faults in the list are the program's breaches.
    ensures listed { IfOk result (λ v. (f : Fault) → Contains v.items f ↔ Breach gang (map read_function tree.now) f) }
    // Each comes before all that follow it, so none is told twice.
    ensures ordered { IfOk result (λ v. AllPairs Before v.items) }
    // The first is what is answered of the program: nothing where it has no breach.
    ensures first { IfOk result (λ v. Least (slice_get v.items 0) (Breach gang (map read_function tree.now))) }
{
    let headers = headers(alloc, tree.functions())?;
    let setting = Setting {
        alloc,
        gang,
        headers: &headers,
    };
    let mut walk = Walk::new(alloc);
    functions(&mut walk, &setting, tree.functions())?;
    let Walk {
        scope: _,
        variables: _,
        mut found,
    } = walk;
    put_in_order(&mut found);
    Ok(found)
}
