//! Refuses memory to a test: takes up all that the process can get, and gives a stated number of bytes back.
ghost use Rattle.std.specs.Prelude.{◌≡◌, ◌≤◌, ◌+◌, IfOk, IsErr};

use std::alloc::{AllocError, Global};

/// As many blocks as are ever held.
const MOST: usize = 262_144;

/// The bytes of which a part is given back.
const POOL: usize = 8_388_608;

/// The first block that is asked for: 8 TiB. The later ones halve.
const FIRST: usize = 0x800_0000_0000;

/// The greatest block of those that the C library hands out again without a look at what lies beside them.
const SMALL: usize = 1_040;

/// All memory that the process can get but a part of a pool.
///
/// It rests on the C library, which refuses a block where no address is left for it. No page of a
/// block is touched, so the machine's memory stays free.
#[derive(Drop)]
pub struct Hoard {
    blocks: Vec<Vec<u8>>,
    /// What is held of the pool beside the plug: the gaps between what stands in it.
    gaps: Vec<Vec<u8>>,
    plug: Vec<u8>,
    /// The greatest block that the pool had when bytes of it were last given.
    room: usize,
    alloc: Global,
}

impl Hoard {
    /// Takes all memory, in blocks whose sizes halve down to 2 bytes. Nothing of the pool is given
    /// yet. Refused where the pool itself can't be had.
    pub fn new(alloc: Global) -> Result<Hoard, AllocError>
        ensures { IfOk result (λ h. 8388608 ≤ h.plug.cap) }
    {
        // (the C library serves blocks below the size of the greatest that was freed from its heap)
        drop(Vec::<u8>::with_capacity(alloc, 2 * POOL)?);
        let gaps = Vec::with_capacity(alloc, MOST)?;
        let mut blocks = Vec::with_capacity(alloc, MOST)?;
        let plug = Vec::with_capacity(alloc, POOL)?;
        for shift in 0..43u32 {
            fill(alloc, &mut blocks, FIRST >> shift)?;
        }
        Ok(Hoard {
            blocks,
            gaps,
            plug,
            room: POOL,
            alloc,
        })
    }

    /// Gives all of the pool to what runs next.
    pub fn ample(&mut self) {
        self.gaps.clear();
        self.plug = Vec::new(self.alloc);
    }

    /// Gives `bytes` bytes in one piece to what runs next, beside what stands in the pool by now, and nothing else. Refused
    /// where the greatest piece that is left of the pool is no greater, or it can't be held.
    pub fn beside(&mut self, bytes: usize) -> Result<(), AllocError>
        // Of the greatest piece all else is held.
        ensures held { IfOk result (λ _. self.new.room ≤ bytes + self.new.plug.cap) }
        ensures refused { 8388608 ≤ bytes → IsErr result }
    {
        self.ample();
        self.room = greatest(self.alloc);
        if bytes >= self.room {
            return Err(AllocError);
        }
        let whole = Vec::<u8>::with_capacity(self.alloc, self.room)?;
        fill_gaps(self.alloc, &mut self.gaps)?;
        drop(whole);
        self.plug = Vec::with_capacity(self.alloc, self.room - bytes)?;
        Ok(())
    }
}

// The size of the greatest block of the pool that can be had, by halving.
fn greatest(alloc: Global) -> usize
    ensures { result ≤ 8388608 }
{
    let mut found = 0usize;
    for shift in 0..19u32 {
        let more = found.saturating_add(POOL >> shift);
        if Vec::<u8>::with_capacity(alloc, more).is_ok() {
            found = more;
        }
    }
    found.min(POOL)
}

// Takes all that small blocks can be made of: first the sizes that the C library keeps apart.
fn fill_gaps(alloc: Global, gaps: &mut Vec<Vec<u8>>) -> Result<(), AllocError> {
    for shift in 0..12u32 {
        fill(alloc, gaps, POOL >> shift)?;
    }
    for step in 0..65usize {
        fill(alloc, gaps, SMALL.saturating_sub(16 * step))?;
    }
    Ok(())
}

// Takes blocks of one size until one is refused.
fn fill(alloc: Global, blocks: &mut Vec<Vec<u8>>, size: usize) -> Result<(), AllocError> {
    for _ in 0..MOST {
        if blocks.len() >= MOST {
            break;
        }
        let Ok(block) = Vec::with_capacity(alloc, size) else {
            break;
        };
        blocks.push(block)?;
    }
    Ok(())
}
