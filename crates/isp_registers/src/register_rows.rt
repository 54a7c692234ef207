//! The registers of one class.
ghost use Rattle.std.specs.Prelude.{◌≡◌, ◌<◌, ◌-◌, ◌++◌, ◌∷◌, [], length, map, max, slice_get, Some, None, IfOk, IfSome, IfNone, OnOk, OnErr};
ghost use Rattle.isp_base.specs.Ranks.{rank};
ghost use Rattle.isp_registers.specs.Lookup.{HasOwnType, IsNamedAt, name_of, row_of};
ghost use Rattle.isp_lower_code.specs.Rows.{Fresh, elem_in, name_number, number_in, with_fresh, with_fresh_from, with_many_fresh};

use crate::copies::push_all;
use crate::numbered::RegisterNumber;
use crate::registers::{RegisterName, RegisterRow};
use isp_base::Elem;
use std::alloc::{AllocError, Global};
use std::collections::BTreeMap;
use std::marker::Model;

/// The registers of a class, in their order. Contracts see their list.
#[derive(Drop)]
pub struct RegisterRows {
    rows: Vec<RegisterRow>,
    /// Of each name that has a row, by the name's number, where the first one stands. A name whose row could not be
    /// added may stand here too.
    places: BTreeMap<u128, usize>,
}

impl Model for RegisterRows {
    ghost use Rattle.std.specs.Prelude.{List, map};
    ghost use Rattle.isp_registers.specs.Lookup.{AreNamedFrom, Tells, row_of};
    ghost use Rattle.isp_registers.specs.declared.registers.RegisterRow.{RegisterRow};

    ghost Value = { List RegisterRow };

    ghost view = { λ r. r.rows.items };

    ghost invariant = { λ r. Tells r.places (map row_of r.rows.items) × AreNamedFrom 0 (map row_of r.rows.items) };
}

/// The place of a type in the order of the types.
fn rank(elem: Elem) -> u128
    ensures { result ≡ rank elem }
{
    match elem {
        Elem::Bool => 0,
        Elem::I8 => 1,
        Elem::U8 => 2,
        Elem::I16 => 3,
        Elem::U16 => 4,
        Elem::I32 => 5,
        Elem::U32 => 6,
        Elem::I64 => 7,
        Elem::U64 => 8,
    }
}

/// The number of a name, which no other has.
fn name_number(name: RegisterName) -> u128
    ensures { result ≡ name_number (name_of name) }
{
    match name {
        RegisterName::Result => 0,
        RegisterName::Variable(number) => 1 + 3 * number as u128,
        RegisterName::Spare(elem, slot) => 2 + 3 * (9 * slot.number as u128 + rank(elem)),
        RegisterName::Place => 3,
        RegisterName::Fresh(number) => 6 + 6 * number as u128,
        RegisterName::Kept(elem, bits) => 9 + 6 * (9 * bits as u128 + rank(elem)),
    }
}

/// The register at a place.
fn row_at(rows: &[RegisterRow], place: usize) -> Option<RegisterRow>
    ensures { result ≡ slice_get rows.now place }
{
    rows.get(place).copied()
}

/// One more register after the others.
fn append(rows: &mut Vec<RegisterRow>, row: RegisterRow) -> Result<(), AllocError>
    ensures ok { OnOk result (rows.new.items ≡ rows.old.items ++ row ∷ []) }
    ensures err { OnErr result (rows.new.items ≡ rows.old.items) }
{
    rows.push(row)?;
    Ok(())
}

impl RegisterRows {
    /// No registers.
    pub fn new(alloc: Global) -> RegisterRows
        ensures { result ≡ [] }
    {
        RegisterRows {
            rows: Vec::new(alloc),
            places: BTreeMap::new(alloc),
        }
    }

    /// The registers.
    pub fn as_slice(&self) -> &[RegisterRow]
        ensures { result.now ≡ self.now }
    {
        self.rows.as_slice()
    }

    /// The same registers.
    pub fn copied(&self, alloc: Global) -> Result<RegisterRows, AllocError>
        ensures { IfOk result (λ r. r ≡ self.now) }
    {
        let mut all = RegisterRows::new(alloc);
        push_all(&mut all, self.rows.as_slice())?;
        Ok(all)
    }

    /// The first register of a name, and its type, if there is one.
    pub fn find(&self, name: RegisterName) -> Option<(usize, Elem)>
        ensures number { IfSome result (λ x. x.0 ≡ number_in (map row_of self.now) (name_of name)) }
        ensures elem { IfSome result (λ x. elem_in (map row_of self.now) (name_of name) ≡ Some x.1) }
        ensures none { IfNone result (elem_in (map row_of self.now) (name_of name) ≡ None) }
        ensures own { IfSome result (λ x. HasOwnType (name_of name) x.1) }
    {
        let number = name_number(name);
        let place = *self.places.get(&number)?;
        match row_at(self.rows.as_slice(), place) {
            Some(row) if name_number(row.name) == number => Some((place, row.elem)),
            _ => None,
        }
    }

    /// One more register. Where memory is refused, they stay as they were.
    pub fn push(&mut self, row: RegisterRow) -> Result<(), AllocError>
        requires named { IsNamedAt (length self.old) (name_of row.name) }
        requires own { HasOwnType (name_of row.name) row.elem }
        ensures ok { OnOk result (self.new ≡ self.old ++ row ∷ []) }
        ensures err { OnErr result (self.new ≡ self.old) }
    {
        if self.find(row.name).is_none() {
            self.places.insert(name_number(row.name), self.rows.len())?;
        }
        append(&mut self.rows, row)?;
        Ok(())
    }

    /// One more register, which no tree asks for, and its number. Where memory is refused, they stay as they were.
    pub fn fresh(&mut self, elem: Elem) -> Result<RegisterNumber, AllocError>
        requires { length self.old < 4294967296 }
        ensures number { IfOk result (λ d. d.number ≡ length self.old) }
        ensures added { OnOk result (map row_of self.new ≡ with_fresh elem (map row_of self.old)) }
        ensures named { IfOk result (λ d. number_in (map row_of self.new) (Fresh d.number) ≡ d.number) }
        ensures refused { OnErr result (self.new ≡ self.old) }
    {
        let number = self.rows.len();
        self.push(RegisterRow {
            name: RegisterName::Fresh(number),
            elem,
        })?;
        Ok(RegisterNumber {
            number: number as u32,
        })
    }

    /// Registers that no tree asks for, until there are so many registers.
    fn fill(&mut self, elem: Elem, end: usize) -> Result<(), AllocError>
        ensures { OnOk result (map row_of self.new ≡ with_many_fresh (end - length self.old) elem (map row_of self.old)) }
    {
        for number in self.rows.len()..end {
            self.push(RegisterRow {
                name: RegisterName::Fresh(number),
                elem,
            })?;
        }
        Ok(())
    }

    /// One more register, which no tree asks for, and its number: this one at least. Where memory is refused, they stay as
    /// they were.
    pub fn fresh_from(
        &mut self,
        alloc: Global,
        number: usize,
        elem: Elem,
    ) -> Result<RegisterNumber, AllocError>
        requires { max (length self.old) number < 4294967296 }
        ensures number { IfOk result (λ d. d.number ≡ max (length self.old) number) }
        ensures added { OnOk result (map row_of self.new ≡ with_fresh_from number elem (map row_of self.old)) }
        ensures named { IfOk result (λ d. number_in (map row_of self.new) (Fresh d.number) ≡ d.number) }
        ensures refused { OnErr result (self.new ≡ self.old) }
    {
        if number <= self.rows.len() {
            return self.fresh(elem);
        }
        let mut all = self.copied(alloc)?;
        all.fill(elem, number)?;
        let given = all.fresh(elem)?;
        *self = all;
        Ok(given)
    }
}
