//! Locals of one type that stand together.
ghost use Rattle.std.specs.Prelude.{◌≡◌, ◌++◌, ◌<◌, ◌^◌, length, map, OnOk, IfOk};
ghost use Rattle.std.specs.List.{flat_map};
ghost use Rattle.isp_wasm_binary.specs.Binary.{is_same, grouped};
ghost use Rattle.isp_wasm_binary.specs.Modules.{group_bytes};
ghost use Rattle.isp_wasm_binary.specs.Numbers.{vector};
ghost use Rattle.isp_wasm_module.specs.reader.Typed.{typed, group_of};

use crate::refusal::Stopped;
use crate::types::{ValueType, push_type};
use isp_wasm_binary::Bytes;
use std::alloc::{AllocError, Global};

/// How many locals have a number of 32 bits.
const TYPES: usize = 1 << 32;

/// So many locals of a type.
#[derive(Clone, Copy)]
struct Group {
    count: u32,
    kind: ValueType,
}

// Whether two types are one.
fn is_same(left: ValueType, right: ValueType) -> bool
    ensures { result ≡ is_same (typed left) (typed right) }
{
    matches!(
        (left, right),
        (ValueType::I32, ValueType::I32)
            | (ValueType::I64, ValueType::I64)
            | (ValueType::V128, ValueType::V128)
    )
}

// Types as groups.
#[tactic(auto, using(crate::proofs::RunGroups::first_is, crate::proofs::RunGroups::same_next, crate::proofs::RunGroups::other_next))]
fn grouped(alloc: Global, types: &[ValueType]) -> Result<Vec<Group>, AllocError>
    requires { length types.now < 2 ^ 32 }
    ensures same { IfOk result (λ v. map group_of v.items ≡ grouped (map typed types.now)) }
    ensures few { IfOk result (λ v. length v.items < 2 ^ 32) }
{
    let mut groups = Vec::new(alloc);
    let Some((first, rest)) = types.split_first() else {
        return Ok(groups);
    };
    let mut group = Group {
        count: 1,
        kind: *first,
    };
    for kind in rest {
        if is_same(*kind, group.kind) {
            group.count += 1;
        } else {
            groups.push(group)?;
            group = Group {
                count: 1,
                kind: *kind,
            };
        }
    }
    groups.push(group)?;
    Ok(groups)
}

fn push_group(out: &mut Bytes, group: Group) -> Result<(), AllocError>
    ensures { OnOk result (out.new ≡ out.old ++ group_bytes (group_of group)) }
{
    out.unsigned(group.count)?;
    push_type(out, group.kind)
}

fn push_each(out: &mut Bytes, groups: &[Group]) -> Result<(), AllocError>
    ensures { OnOk result (out.new ≡ out.old ++ flat_map group_bytes (map group_of groups.now)) }
{
    for group in groups {
        push_group(out, *group)?;
    }
    Ok(())
}

/// Appends the types of locals, in groups.
#[tactic(auto, using(crate::proofs::Vectors::groups_counted))]
pub(crate) fn push_locals(
    alloc: Global,
    out: &mut Bytes,
    types: &[ValueType],
) -> Result<(), Stopped>
    ensures { OnOk result (out.new ≡ out.old ++ vector group_bytes (grouped (map typed types.now))) }
{
    if types.len() >= TYPES {
        return Err(Stopped::TooLong);
    }
    let groups = grouped(alloc, types)?;
    out.unsigned(groups.len() as u32)?;
    push_each(out, groups.as_slice())?;
    Ok(())
}
