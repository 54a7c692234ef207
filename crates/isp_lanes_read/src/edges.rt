//! Where control goes on after an instruction.
use crate::checker::{if_passed, if_taken};
use crate::table::Inclusion;
use isp_code::Instr;
use std::alloc::{AllocError, Global};

/// Where control goes on after an instruction, and what is known there of a mask besides.
#[derive(Clone, Copy)]
pub(crate) struct Edge {
    pub to: usize,
    pub more: Option<Inclusion>,
}

/// The edges of an instruction before another.
pub(crate) fn edges(alloc: Global, instr: &Instr, next: usize) -> Result<Vec<Edge>, AllocError> {
    let mut edges = Vec::new(alloc);
    match instr {
        Instr::Jump { target } => edges.push(Edge {
            to: *target as usize,
            more: None,
        })?,
        Instr::JumpIf {
            test,
            register,
            target,
        } => {
            edges.push(Edge {
                to: *target as usize,
                more: if_taken(*test, *register),
            })?;
            edges.push(Edge {
                to: next,
                more: if_passed(*test, *register),
            })?;
        }
        Instr::Return(_) => {}
        _ => edges.push(Edge {
            to: next,
            more: None,
        })?,
    }
    Ok(edges)
}
