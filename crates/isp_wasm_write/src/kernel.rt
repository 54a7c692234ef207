//! A function that is written, and the numbers of its locals.
ghost use Rattle.std.specs.Prelude.{◌≡◌, ◌<◌, ◌≤◌, ◌^◌, length, map, slice_get, slice_index_or, Some, None, IfSome, IfOk, IfErr, OnOk};
ghost use Rattle.isp_base.specs.Types.{gang_width};
ghost use Rattle.isp_code.specs.Listing.{routine_of};
ghost use Rattle.isp_code.specs.Registers.{elem_of, passed, table_of};
ghost use Rattle.isp_forms.specs.declared.form.Form.TheVariants.{Kept};
ghost use Rattle.isp_wasm.specs.Locals.{name_of, paired, position, own_places};
ghost use Rattle.isp_wasm_write.specs.Limits.{limit_fault, explains};
ghost use Rattle.isp_wasm_write.specs.Places.{place_of};
ghost use Rattle.isp_wasm_write.specs.Settings.{given_places, setting};

use crate::heads::heads_of;
use crate::limits::limit_fault;
use crate::locals;
use crate::refusal::Refusal;
use isp_base::{Elem, Span};
use isp_code::{Class, Code, Function, Instr, Register, Returns};
use isp_forms::Form;
use isp_verify::Registers;
use isp_wasm_binary::Size;
use std::alloc::Global;
use std::marker::Model;

/// Who calls a function: a host, or other functions of the module. For each there is one of its own.
#[derive(Clone, Copy)]
pub enum Caller {
    Host,
    Function,
}

/// What a local is for.
#[derive(Clone, Copy)]
pub enum Place {
    /// The number of the rung to go on with.
    Counter,
    Scalar(u32),
    /// A vector register, and the number of its part.
    Vector(u32, u32),
    /// A mask register, and the number of its part.
    Mask(u32, u32),
    /// Where an array begins.
    Base(u32),
    /// How many elements an array has.
    Count(u32),
    /// A part that an instruction works out.
    Fresh(u32),
    /// A number that an instruction works out.
    Spare(Size, u32),
    /// How many calls wait.
    Depth,
    /// Where the next array lies that a function opens.
    Top,
}

/// The most of a register's number that has a local.
const MOST: u32 = 1 << 28;

/// A function of some code, with its registers, its places in the order of its locals, and where its rungs begin.
#[derive(Drop)]
pub struct Kernel<'a> {
    code: &'a Code,
    function: &'a Function,
    registers: &'a Registers,
    caller: Caller,
    forms: &'a [Form],
    given: Vec<Place>,
    own: Vec<Place>,
    names: Vec<u64>,
    heads: Vec<u64>,
}

impl<'a> Model for Kernel<'a> {
    ghost use Rattle.isp_code.specs.Listing.{routine_of};
    ghost use Rattle.isp_wasm_write.specs.Settings.{Written};
    ghost use Rattle.isp_wasm_write.specs.reader.Tables.{AreTables};

    ghost Value = { Written };

    ghost view = { λ k. record { code = k.code.now; routine = routine_of k.function.now; caller = k.caller; forms = k.forms.now } };

    ghost invariant = { λ k. AreTables (record { code = k.code.now; routine = routine_of k.function.now; caller = k.caller; forms = k.forms.now }) k.registers.now k.given.items k.own.items k.names.items k.heads.items };
}

// A register's number and a part's, in one.
fn pair_of(register: u32, part: u32) -> Option<u64>
    ensures { IfSome result (λ n. (n ≡ paired register part) × (n < 2 ^ 59)) }
{
    if register >= MOST || part >= 64 {
        return None;
    }
    let sum = u64::from(register) + u64::from(part);
    Some(sum * sum + u64::from(part))
}

/// The number that a place has among all.
pub(crate) fn name(place: Place) -> Option<u64>
    ensures { IfSome result (λ n. n ≡ name_of (place_of place)) }
{
    Some(match place {
        Place::Counter => 0,
        Place::Scalar(r) => 9 * u64::from(r) + 1,
        Place::Vector(r, j) => 9 * pair_of(r, j)? + 2,
        Place::Mask(r, j) => 9 * pair_of(r, j)? + 3,
        Place::Base(a) => 9 * u64::from(a) + 4,
        Place::Count(a) => 9 * u64::from(a) + 5,
        Place::Fresh(j) => 9 * u64::from(j) + 6,
        Place::Spare(Size::I32, j) => 9 * u64::from(j) + 7,
        Place::Spare(Size::I64, j) => 9 * u64::from(j) + 8,
        Place::Depth => 9,
        Place::Top => 18,
    })
}

// Where a name stands first.
#[tactic(auto, using(crate::proofs::Positions::found, crate::proofs::Positions::passed))]
fn position(names: &[u64], name: u64) -> Option<usize>
    ensures is { IfSome result (λ n. n ≡ position names.now name) }
    ensures within { IfSome result (λ n. n < length names.now) }
{
    for (number, there) in names.iter().enumerate() {
        if *there == name {
            return Some(number);
        }
    }
    None
}

// The number at a place, or another.
fn head_or(heads: &[u64], place: usize, other: usize) -> usize
    ensures { result ≡ slice_index_or heads.now place other }
{
    match heads.get(place) {
        Some(head) => *head as usize,
        None => other,
    }
}

impl<'a> Kernel<'a> {
    /// A function of accepted code, to be written for those who call it, with its instructions in these forms. Refused where an
    /// engine would not take it (specs/Limits.antt).
    pub fn new(
        alloc: Global,
        code: &'a Code,
        function: &'a Function,
        registers: &'a Registers,
        caller: Caller,
        forms: &'a [Form],
    ) -> Result<Kernel<'a>, Refusal>
        requires { registers.now ≡ table_of (routine_of function.now) }
        ensures made { IfOk result (λ k. k ≡ record { code = code.now; routine = routine_of function.now; caller = caller; forms = forms.now }) }
        ensures fits { OnOk result (limit_fault caller (gang_width code.now.gang) (routine_of function.now) ≡ None) }
        ensures refused { IfErr result (λ e. explains e (limit_fault caller (gang_width code.now.gang) (routine_of function.now))) }
    {
        let lanes = code.gang().width() as u32;
        if let Some(refusal) = limit_fault(caller, lanes, function, registers) {
            return Err(refusal);
        }
        let given = locals::given_places(alloc, caller, lanes, function)?;
        let own = locals::own_places(alloc, lanes, function, registers)?;
        let names = locals::names_of(alloc, &given, &own)?;
        let heads = heads_of(alloc, &function.code)?;
        Ok(Kernel {
            code,
            function,
            registers,
            caller,
            forms,
            given,
            own,
            names,
            heads,
        })
    }

    /// The function itself.
    pub(crate) fn function(&self) -> &Function
        ensures { routine_of result.now ≡ self.now.routine }
    {
        self.function
    }

    /// Who calls it.
    pub fn caller(&self) -> Caller
        ensures { result ≡ self.now.caller }
    {
        self.caller
    }

    /// What it gives back.
    pub fn returns(&self) -> Returns
        ensures { result ≡ self.now.routine.returns }
    {
        self.function.returns
    }

    /// An instruction.
    pub fn instr(&self, number: usize) -> &Instr
        requires { number < length self.now.routine.code }
        ensures { slice_get self.now.routine.code number ≡ Some result.now }
    {
        &self.function.code[number]
    }

    /// The form in which an instruction is written; past those that are given, each keeps its lanes.
    pub fn form(&self, number: usize) -> Form
        ensures { result ≡ slice_index_or self.now.forms number Kept }
    {
        match self.forms.get(number) {
            Some(form) => *form,
            None => Form::Kept,
        }
    }

    /// The code that it is a function of.
    pub fn code(&self) -> &Code
        ensures { result.now ≡ self.now.code }
    {
        self.code
    }

    /// The places of what its caller passes.
    pub fn given(&self) -> &[Place]
        ensures { map place_of result.now ≡ given_places self.now.caller (gang_width self.now.code.gang) self.now.routine }
    {
        self.given.as_slice()
    }

    /// The places of the other locals.
    pub fn own(&self) -> &[Place]
        ensures { map place_of result.now ≡ own_places (gang_width self.now.code.gang) self.now.routine }
    {
        self.own.as_slice()
    }

    /// How many rungs there are.
    pub fn rungs(&self) -> u32
        ensures { result ≡ (setting self.now).rungs }
    {
        self.heads.len() as u32
    }

    /// The instruction where a rung begins; after the last rung, the number of instructions.
    #[tactic(auto, using(crate::proofs::RungHeads::within))]
    pub fn head(&self, rung: u32) -> usize
        ensures is { result ≡ (setting self.now).heads rung }
        ensures within { result ≤ length self.now.routine.code }
    {
        head_or(&self.heads, rung as usize, self.function.code.len())
    }

    /// The rung that begins at an instruction.
    pub(crate) fn rung_at(&self, target: u32) -> Option<u32>
        ensures { IfSome result (λ n. n ≡ (setting self.now).rung_at target) }
    {
        match position(&self.heads, u64::from(target)) {
            Some(number) => Some(number as u32),
            None => None,
        }
    }

    /// The number of a place's local, if it has one.
    pub fn local(&self, place: Place) -> Option<u32>
        ensures { IfSome result (λ n. n ≡ (setting self.now).local (place_of place)) }
    {
        match position(&self.names, name(place)?) {
            Some(number) => Some(number as u32),
            None => None,
        }
    }

    /// The lanes of the gang.
    pub fn width(&self) -> u32
        ensures is { result ≡ gang_width self.now.code.gang }
        ensures low { result ≤ 32 }
    {
        self.code.gang().width() as u32
    }

    /// How many arrays are parameters.
    pub(crate) fn passed(&self) -> usize
        ensures { result ≡ passed self.now.routine }
    {
        self.registers.passed()
    }

    /// The places in the source, by number.
    pub(crate) fn places(&self) -> &[Span]
        ensures { result.now ≡ self.now.code.places }
    {
        self.code.places()
    }

    /// The type of a register; of one that is not there, `bool`.
    pub fn elem(&self, register: Register) -> Elem
        ensures { result ≡ elem_of self.now.routine register }
    {
        let elems: &[Elem] = match register.class {
            Class::Scalar => self.registers.scalars(),
            Class::Vector => self.registers.vectors(),
            Class::Array => self.registers.arrays(),
            Class::Mask => &[],
        };
        match elems.get(register.number as usize) {
            Some(elem) => *elem,
            None => Elem::Bool,
        }
    }
}
