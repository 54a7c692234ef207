//! Which lanes are read from each instruction on: the pass that goes backward.
//!
//! A line gets the lanes that its instruction reads, and those that come from the lines where control goes on.
use crate::bound::{Bound, set_of, upper};
use crate::edges::{Edge, edges};
use crate::known::Known;
use crate::reads::{gives_lanes, is_vector, under};
use crate::table::{LaneSet, Line, Reading, Row};
use isp_code::{Call, Function, Instr, MaskInstr, Register, ScalarInstr, VectorInstr};
use std::alloc::{AllocError, Global};

// Adds lanes that are not there by the same name: two edges may bring the same ones.
fn add(read: &mut Vec<Reading>, r: Reading) -> Result<(), AllocError> {
    if !read
        .iter()
        .any(|x| x.vector == r.vector && x.lanes.is(r.lanes))
    {
        read.push(r)?;
    }
    Ok(())
}

// Adds what bounds the value of a mask, for a vector.
fn add_bound(read: &mut Vec<Reading>, vector: u32, bound: Bound) -> Result<(), AllocError> {
    match bound {
        Bound::One(lanes) | Bound::Either(lanes, _) => add(read, Reading { vector, lanes }),
        Bound::Together(left, right) => {
            add(
                read,
                Reading {
                    vector,
                    lanes: left,
                },
            )?;
            add(
                read,
                Reading {
                    vector,
                    lanes: right,
                },
            )
        }
    }
}

// Adds lanes that are read after an instruction, as they are called before it.
fn add_earlier(read: &mut Vec<Reading>, instr: &Instr, r: Reading) -> Result<(), AllocError> {
    match instr {
        Instr::Mask { result, instr } if r.lanes.is(set_of(*result)) => {
            add_bound(read, r.vector, upper(instr))
        }
        _ => add(read, r),
    }
}

// Adds those that come over an edge and are not there yet.
fn add_over(
    read: &mut Vec<Reading>,
    lines: &[Line],
    pc: usize,
    instr: &Instr,
    edge: Edge,
) -> Result<(), AllocError> {
    let known = Known {
        row: Row::at(lines, pc),
        more: edge.more,
    };
    for r in Row::at(lines, edge.to).read {
        if !known.comes(instr, *r) {
            add_earlier(read, instr, *r)?;
        }
    }
    Ok(())
}

// Adds the lanes of vectors under a mask.
fn add_under(
    read: &mut Vec<Reading>,
    mask: Register,
    vectors: &[Register],
) -> Result<(), AllocError> {
    for x in vectors {
        read.push(under(mask, *x))?;
    }
    Ok(())
}

// Adds what an instruction reads that writes a vector.
fn add_vector(read: &mut Vec<Reading>, instr: &VectorInstr) -> Result<(), AllocError> {
    match *instr {
        VectorInstr::Copy { value: x, mask }
        | VectorInstr::Convert { value: x, mask }
        | VectorInstr::Unary { value: x, mask, .. }
        | VectorInstr::Scan { value: x, mask, .. }
        | VectorInstr::Exchange {
            vector: x,
            mask,
            ..
        }
        | VectorInstr::Insert {
            vector: x,
            mask,
            ..
        }
        | VectorInstr::Gather {
            indices: x,
            mask,
            ..
        } => add_under(read, mask, &[x]),
        VectorInstr::Binary {
            left: x,
            right: y,
            mask,
            ..
        }
        | VectorInstr::Compare {
            left: x,
            right: y,
            mask,
            ..
        }
        | VectorInstr::Shuffle {
            vector: x,
            lanes: y,
            mask,
        } => add_under(read, mask, &[x, y]),
        VectorInstr::Select {
            test: x,
            if_true: y,
            if_false: z,
            mask,
        }
        | VectorInstr::ShuffleTwo {
            first: x,
            second: y,
            lanes: z,
            mask,
        } => add_under(read, mask, &[x, y, z]),
        VectorInstr::Splat { .. } | VectorInstr::Index(_) | VectorInstr::LoadRun { .. } => Ok(()),
    }
}

// Adds what a call passes.
fn add_call(read: &mut Vec<Reading>, call: &Call) -> Result<(), AllocError> {
    for x in call.arguments.as_slice() {
        if is_vector(*x) {
            read.push(under(call.mask, *x))?;
        }
    }
    Ok(())
}

// Adds what a function gives back in each lane.
fn add_back(
    read: &mut Vec<Reading>,
    function: &Function,
    back: Option<Register>,
) -> Result<(), AllocError> {
    if let Some(x) = back {
        if gives_lanes(function.returns) {
            read.push(Reading {
                vector: x.number,
                lanes: LaneSet::Call,
            })?;
        }
    }
    Ok(())
}

// Adds what an instruction reads.
fn add_operands(
    read: &mut Vec<Reading>,
    function: &Function,
    instr: &Instr,
) -> Result<(), AllocError> {
    match instr {
        Instr::Scalar { instr, .. } => match *instr {
            ScalarInstr::Reduce { vector, mask, .. } | ScalarInstr::Extract { vector, mask, .. } =>
                { add_under(read, mask, &[vector]) }
            _ => Ok(()),
        },
        Instr::Vector { instr, .. } => add_vector(read, instr),
        Instr::Mask { instr, .. } => match *instr {
            MaskInstr::Test { vector, mask } => add_under(read, mask, &[vector]),
            _ => Ok(()),
        },
        Instr::Divide {
            result,
            dividend,
            divisor,
            mask,
            ..
        } if is_vector(*result) => { add_under(read, *mask, &[*dividend, *divisor]) }
        Instr::Scatter {
            indices,
            value,
            mask,
            ..
        } => add_under(read, *mask, &[*indices, *value]),
        Instr::StoreRun { value, mask, .. } | Instr::PackedStore { value, mask, .. } => {
            add_under(read, *mask, &[*value])
        }
        Instr::PrintVector { vector, mask } => add_under(read, *mask, &[*vector]),
        Instr::Call(call) => add_call(read, call.get()),
        Instr::Return(back) => add_back(read, function, *back),
        _ => Ok(()),
    }
}

// What the line of an instruction lacks of lanes that are read: over its edges, and by itself.
fn missing(
    alloc: Global,
    function: &Function,
    lines: &[Line],
    pc: usize,
    instr: &Instr,
    edges: &[Edge],
) -> Result<Vec<Reading>, AllocError> {
    let mut read = Vec::new(alloc);
    for edge in edges {
        add_over(&mut read, lines, pc, instr, *edge)?;
    }
    let row = Row::at(lines, pc);
    let is_useless = match edges.first() {
        Some(edge) => Row::at(lines, edge.to).lets_go(instr),
        None => false,
    };
    if !is_useless && !row.has_operands(function, instr) {
        add_operands(&mut read, function, instr)?;
    }
    Ok(read)
}

// Adds to a line, and says whether anything was added.
fn widen_line(lines: &mut Vec<Line>, pc: usize, missing: &[Reading]) -> Result<bool, AllocError> {
    match lines.get_mut(pc) {
        None => Ok(false),
        Some(line) => {
            for r in missing {
                line.read.push(*r)?;
            }
            Ok(!missing.is_empty())
        }
    }
}

/// Adds what each line lacks, from the last to the first, and says whether anything was added.
pub(crate) fn widen(
    alloc: Global,
    function: &Function,
    lines: &mut Vec<Line>,
) -> Result<bool, AllocError> {
    let mut more = false;
    for back in 0..function.code.len() {
        let pc = function.code.len() - 1 - back;
        if let Some(instr) = function.code.get(pc) {
            let edges = edges(alloc, instr, pc + 1)?;
            let missing = missing(
                alloc,
                function,
                lines.as_slice(),
                pc,
                instr,
                edges.as_slice(),
            )?;
            if widen_line(lines, pc, missing.as_slice())? {
                more = true;
            }
        }
    }
    Ok(more)
}
