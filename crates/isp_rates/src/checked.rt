//! Checked programs.
ghost use Rattle.std.specs.Prelude.{◌≡◌, ◌&&◌, ℕ, IfErr, IsSome, List, OnOk, Option, bytes_eq, filter, find, option_map, slice_get};
ghost use Rattle.std.specs.BTreeMap.{get_by_text};
ghost use Rattle.isp_lex.specs.declared.fault.Fault.{Fault};
ghost use Rattle.isp_typed.specs.Views.{program_of};
ghost use Rattle.isp_independence.specs.declared.dependence.Dependence.{Dependence};
ghost use Rattle.isp_independence.specs.Dependences.{IsFirst};
ghost use Rattle.isp_independence.specs.Independent.{AreDependences, Depends, IsIndependent};
ghost use Rattle.isp_rates.specs.Exports.{at_number, entry_from, exports_from};
ghost use Rattle.isp_rates.specs.Program.{ProgramBreach};
ghost use Rattle.isp_rates.specs.Accepted.{IsAccepted};

use isp_base::Signature;
use isp_independence::Dependence;
use isp_typed::{Program, Typed, TypedFunction};
use std::collections::BTreeMap;
use std::marker::Model;

/// A program that no rule of the language forbids. Contracts see the program.
#[derive(Drop)]
pub struct Checked {
    typed: Typed,
    /// For each function the first breach of it as an independent entry.
    dependences: Vec<Option<Dependence>>,
    /// The numbers of the exported functions, in the order of the text.
    exports: Vec<usize>,
    /// The number of each exported function, by its name.
    entries: BTreeMap<String, usize>,
}

impl Model for Checked {
    ghost use Rattle.isp_lex.specs.declared.fault.Fault.{Fault};
    ghost use Rattle.isp_typed.specs.declared.function.Program.{Program};
    ghost use Rattle.isp_typed.specs.contracts.function.TypedFunction as function_code;
    ghost use Rattle.std.specs.Prelude.{◌≡◌, ℕ, List};
    ghost use Rattle.std.specs.BTreeMap.{get_by_text};
    ghost use Rattle.isp_typed.specs.Views.{program_of};
    ghost use Rattle.isp_independence.specs.Independent.{AreDependences};
    ghost use Rattle.isp_rates.specs.Exports.{entry_from, exports_from};
    ghost use Rattle.isp_rates.specs.Program.{ProgramBreach};
    ghost use Rattle.std.specs.Coded.{codes};

    ghost Value = { Program };

    ghost coded = { Prim.hlevel (codes, function_code.the_row.coded) };

    ghost view = { λ c. c.typed };

    ghost invariant = { λ c. ((f : Fault) → ProgramBreach (program_of c.typed) f → ⊥) × AreDependences (program_of c.typed) c.dependences.items × (c.exports.items ≡ exports_from 0 c.typed.functions.items) × ((w : List ℕ) → get_by_text c.entries w ≡ entry_from w 0 c.typed.functions.items) };
}

/// One of several numbers.
fn number_at(numbers: &[usize], place: usize) -> Option<usize>
    ensures { result ≡ slice_get numbers.now place }
{
    numbers.get(place).copied()
}

/// The breach of a number, if there are both.
fn dependence_at(breaches: &[Option<Dependence>], number: Option<usize>) -> Option<Dependence>
    ensures { (f : ℕ) (o : Option Dependence) → number ≡ Some f → slice_get breaches.now f ≡ Some o → result ≡ o }
{
    match breaches.get(number?) {
        Some(breach) => *breach,
        None => None,
    }
}

/// The function of a number, if there is one.
fn function_at(functions: &[TypedFunction], number: Option<usize>) -> Option<&TypedFunction>
    ensures { option_map (λ f. f.now) result ≡ at_number functions.entry.now number }
{
    match number {
        Some(number) => functions.get(number),
        None => None,
    }
}

impl Checked {
    /// A program in which no breach is.
    pub(crate) fn new(
        typed: Typed,
        dependences: Vec<Option<Dependence>>,
        exports: Vec<usize>,
        entries: BTreeMap<String, usize>,
    ) -> Checked
        requires sound { (f : Fault) → ProgramBreach (program_of typed) f → ⊥ }
        requires dependences { AreDependences (program_of typed) dependences.items }
        requires exports { exports.items ≡ exports_from 0 typed.functions.items }
        requires entries { (w : List ℕ) → get_by_text entries w ≡ entry_from w 0 typed.functions.items }
        ensures { result ≡ typed }
    {
        Checked {
            typed,
            dependences,
            exports,
            entries,
        }
    }

    /// The program: its gang size, and its functions, each known by its number in the order of the text. It is
    /// one that names, types, rates, exits and exports accept.
    pub fn program(&self) -> &Program
        ensures same { result.now ≡ self.now }
        ensures accepted { IsAccepted (program_of self.now) }
    {
        self.typed.program()
    }

    /// The numbers of the exported functions, in the order of the text.
    pub fn exports(&self) -> &[usize]
        ensures { result.now ≡ exports_from 0 self.now.functions.items }
    {
        &self.exports
    }

    /// The number of the exported function of a name. None where there is none.
    pub fn entry(&self, name: &str) -> Option<usize>
        ensures { result ≡ entry_from name.now 0 self.now.functions.items }
    {
        self.entries.get(name).copied()
    }

    /// The exported function of a name. None where there is none.
    pub fn exported(&self, entry: &str) -> Option<&TypedFunction>
        ensures { option_map (λ f. f.now) result ≡ find (λ f. f.exported && bytes_eq f.name entry.now) self.now.functions.items }
    {
        function_at(&self.program().functions, self.entry(entry))
    }

    /// What an exported function takes and gives. None where no exported function has that name.
    pub fn signature(&self, entry: &str) -> Option<&Signature>
        ensures { option_map (λ s. s.now) result ≡ option_map (λ f. f.signature) (find (λ f. f.exported && bytes_eq f.name entry.now) self.now.functions.items) }
    {
        match self.exported(entry) {
            Some(function) => Some(&function.signature),
            None => None,
        }
    }

    /// Whether the instances of an exported function can be thought of one at a time: `Ok` exactly where it is an
    /// independent entry (docs/INDEPENDENCE.md). Else of the breaches of the seven rules, by the function and by
    /// those that calls reach from it, the one whose place starts first, a tie by the lower number of its rule.
    /// `signature` has to know the name. It is looked up, and takes no memory.
    pub fn independent(&self, entry: &str) -> Result<(), Dependence>
        requires { IsSome (find (λ f. f.exported && bytes_eq f.name entry.now) self.now.functions.items) }
        ensures ok { OnOk result ((f : ℕ) → entry_from entry.now 0 self.now.functions.items ≡ Some f → IsIndependent (program_of self.now) f) }
        ensures err { IfErr result (λ d. (f : ℕ) → entry_from entry.now 0 self.now.functions.items ≡ Some f → IsFirst d (Depends (program_of self.now) f)) }
    {
        match dependence_at(&self.dependences, self.entry(entry)) {
            Some(dependence) => Err(dependence),
            None => Ok(()),
        }
    }

    /// The name of an exported function, by its number among them from 0, in the order of the text. None
    /// past the last.
    pub fn export(&self, k: usize) -> Option<&str>
        ensures { option_map (λ s. s.now) result ≡ option_map (λ f. f.name) (slice_get (filter (λ f. f.exported) self.now.functions.items) k) }
    {
        match function_at(&self.program().functions, number_at(&self.exports, k)) {
            Some(function) => Some(function.name.as_str()),
            None => None,
        }
    }
}
