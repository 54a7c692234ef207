//! What is known of masks before each instruction: the pass that goes forward.
//!
//! A line has the inclusions that follow along each edge that leads to it, but for those that follow from others of the line.
use crate::checker::begins_so;
use crate::edges::{Edge, edges};
use crate::known::{Known, is_plain};
use crate::table::{Inclusion, LaneSet, Line, Row};
use isp_code::{Function, Instr};
use std::alloc::{AllocError, Global};

// Of a function with more masks no inclusions are looked for, since their pairs are too many.
const MOST_MASKS: u32 = 32;

/// How often a function is gone through, at most. Tables that are not right by then are refused by the check.
pub(crate) const MOST_ROUNDS: usize = 64;

// The masks of a function, as sets; none where there are too many.
fn masks_of(alloc: Global, function: &Function) -> Result<Vec<LaneSet>, AllocError> {
    let mut masks = Vec::new(alloc);
    if function.masks <= MOST_MASKS {
        for k in 0..function.masks {
            masks.push(LaneSet::Mask(k))?;
        }
    }
    Ok(masks)
}

// Adds each inclusion of a set in others that is not plain.
fn add_wholes(
    pairs: &mut Vec<Inclusion>,
    part: LaneSet,
    wholes: &[LaneSet],
) -> Result<(), AllocError> {
    for whole in wholes {
        if !is_plain(part, *whole) {
            pairs.push(Inclusion {
                part,
                whole: *whole,
            })?;
        }
    }
    Ok(())
}

// All inclusions that could be known in a function. Those come first from which others follow: that a set is empty, or full.
fn all_pairs(alloc: Global, function: &Function) -> Result<Vec<Inclusion>, AllocError> {
    let masks = masks_of(alloc, function)?;
    let mut pairs = Vec::new(alloc);
    for part in masks.as_slice() {
        add_wholes(&mut pairs, *part, &[LaneSet::Nobody])?;
    }
    add_wholes(&mut pairs, LaneSet::Gang, masks.as_slice())?;
    add_wholes(&mut pairs, LaneSet::Call, masks.as_slice())?;
    for part in masks.as_slice() {
        add_wholes(&mut pairs, *part, masks.as_slice())?;
        add_wholes(&mut pairs, *part, &[LaneSet::Call])?;
    }
    Ok(pairs)
}

// The lines of a function in the making, and which of them control has come to.
#[derive(Drop)]
struct Draft {
    lines: Vec<Line>,
    reached: Vec<bool>,
}

// A line for each instruction, without anything.
fn blank(alloc: Global, function: &Function) -> Result<Draft, AllocError> {
    let mut lines = Vec::new(alloc);
    let mut reached = Vec::new(alloc);
    for _instr in function.code.as_slice() {
        lines.push(Line {
            within: Vec::new(alloc),
            read: Vec::new(alloc),
        })?;
        reached.push(false)?;
    }
    Ok(Draft { lines, reached })
}

// What is known where a call begins, without what follows from it.
fn first_pairs(alloc: Global, pairs: &[Inclusion]) -> Result<Vec<Inclusion>, AllocError> {
    let mut kept = Vec::new(alloc);
    for x in pairs {
        if begins_so(*x) {
            add_new(&mut kept, *x)?;
        }
    }
    Ok(kept)
}

// Adds an inclusion that does not follow from those that are there.
fn add_new(kept: &mut Vec<Inclusion>, x: Inclusion) -> Result<(), AllocError> {
    let row = Row {
        within: kept.as_slice(),
        read: &[],
    };
    if !row.tells(x.part, x.whole) {
        kept.push(x)?;
    }
    Ok(())
}

// What a line becomes along an edge, and whether it loses anything.
#[derive(Drop)]
struct Met {
    within: Vec<Inclusion>,
    is_less: bool,
}

// What follows along an edge, of what was known before. Nothing is lost of a line that control comes to first.
fn meet(
    alloc: Global,
    pairs: &[Inclusion],
    known: Known,
    instr: &Instr,
    before: Option<Row>,
) -> Result<Met, AllocError> {
    let mut within = Vec::new(alloc);
    let mut is_less = before.is_none();
    for x in pairs {
        let was = match before {
            None => true,
            Some(row) => row.tells(x.part, x.whole),
        };
        if was {
            if known.follows(instr, *x) {
                add_new(&mut within, *x)?;
            } else {
                is_less = true;
            }
        }
    }
    Ok(Met { within, is_less })
}

impl Draft {
    fn is_reached(&self, pc: usize) -> bool {
        match self.reached.get(pc) {
            Some(reached) => *reached,
            None => false,
        }
    }

    fn set(&mut self, pc: usize, within: Vec<Inclusion>) {
        if let Some(line) = self.lines.get_mut(pc) {
            line.within = within;
        }
        if let Some(reached) = self.reached.get_mut(pc) {
            *reached = true;
        }
    }

    // Goes along an edge, and says whether the line there has changed.
    fn narrow_edge(
        &mut self,
        alloc: Global,
        pairs: &[Inclusion],
        pc: usize,
        instr: &Instr,
        edge: Edge,
    ) -> Result<bool, AllocError> {
        if edge.to >= self.lines.len() {
            return Ok(false);
        }
        let known = Known {
            row: Row::at(self.lines.as_slice(), pc),
            more: edge.more,
        };
        let before = if self.is_reached(edge.to) {
            Some(Row::at(self.lines.as_slice(), edge.to))
        } else {
            None
        };
        let Met { within, is_less } = meet(alloc, pairs, known, instr, before)?;
        if is_less {
            self.set(edge.to, within);
        }
        Ok(is_less)
    }

    // The same along each edge of an instruction to which control has come.
    fn narrow_at(
        &mut self,
        alloc: Global,
        pairs: &[Inclusion],
        pc: usize,
        instr: &Instr,
        edges: &[Edge],
    ) -> Result<bool, AllocError> {
        let mut changed = false;
        if self.is_reached(pc) {
            for edge in edges {
                if self.narrow_edge(alloc, pairs, pc, instr, *edge)? {
                    changed = true;
                }
            }
        }
        Ok(changed)
    }

    // And of each instruction.
    fn narrow(
        &mut self,
        alloc: Global,
        pairs: &[Inclusion],
        function: &Function,
    ) -> Result<bool, AllocError> {
        let mut changed = false;
        for (pc, instr) in function.code.iter().enumerate() {
            let edges = edges(alloc, instr, pc + 1)?;
            if self.narrow_at(alloc, pairs, pc, instr, edges.as_slice())? {
                changed = true;
            }
        }
        Ok(changed)
    }

    // Until nothing changes any more.
    fn settle(
        &mut self,
        alloc: Global,
        pairs: &[Inclusion],
        function: &Function,
    ) -> Result<(), AllocError> {
        for _round in 0..MOST_ROUNDS {
            if !self.narrow(alloc, pairs, function)? {
                return Ok(());
            }
        }
        Ok(())
    }

    // Control may come to each line.
    fn reach_all(&mut self) {
        for reached in self.reached.iter_mut() {
            *reached = true;
        }
    }
}

/// What is known of masks before each instruction. Where control never comes nothing is known, and so it leads to what follows from
/// nothing.
pub(crate) fn inclusions(alloc: Global, function: &Function) -> Result<Vec<Line>, AllocError> {
    let pairs = all_pairs(alloc, function)?;
    let mut draft = blank(alloc, function)?;
    draft.set(0, first_pairs(alloc, pairs.as_slice())?);
    draft.settle(alloc, pairs.as_slice(), function)?;
    draft.reach_all();
    draft.settle(alloc, pairs.as_slice(), function)?;
    let Draft { lines, reached: _ } = draft;
    Ok(lines)
}
