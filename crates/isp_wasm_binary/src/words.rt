//! Instructions, one after the other.
ghost use Rattle.std.specs.Prelude.{◌≡◌, ◌++◌, ◌∷◌, [], OnOk, slice_index};
ghost use Rattle.std.specs.List.{flat_map};
ghost use Rattle.isp_wasm_meaning.specs.Digits.{packed};
ghost use Rattle.isp_wasm_meaning.specs.Ladder.{counting};
ghost use Rattle.isp_wasm_meaning.specs.Lists.{evens};
ghost use Rattle.isp_wasm_meaning.specs.Syntax as wasm;
ghost use Rattle.isp_wasm_binary.specs.Instructions as instructions;
ghost use Rattle.isp_wasm_binary.specs.Instructions.{word_bytes};
ghost use Rattle.isp_wasm_binary.specs.Named as named;
ghost use Rattle.isp_wasm_binary.specs.Numbers as numbers;
ghost use Rattle.isp_wasm_binary.specs.Operators as operators;

use crate::bytes::Bytes;
use crate::operators;
use crate::operators::{Binary, Division, Shape, Size, Unary};
use std::alloc::AllocError;

/// How many bytes a load or a store takes.
#[derive(Clone, Copy)]
pub enum Width {
    One,
    Two,
    Four,
    Eight,
    Sixteen,
}

impl Bytes {
    /// An operator on one value.
    pub fn unary(&mut self, op: Unary) -> Result<(), AllocError>
        ensures { OnOk result (self.new ≡ self.old ++ word_bytes (instructions.Unary_word (named.unary op))) }
    {
        match op {
            Unary::Eqz(size) => self.byte(operators::eqz_opcode(size)),
            Unary::Ctz(size) => self.byte(operators::ctz_opcode(size)),
            Unary::Wrap => self.byte(0xA7),
            Unary::ExtendU => self.byte(0xAD),
            Unary::ExtendS => self.byte(0xAC),
            Unary::Extend8S => self.byte(0xC0),
            Unary::Extend16S => self.byte(0xC1),
            Unary::Splat(shape) => self.simd(operators::splat_opcode(shape)),
            Unary::Extract(shape, lane) => self.of_lane(operators::extract_opcode(shape), lane),
            Unary::ExtendLow(shape) => self.simd(operators::extend_low_opcode(shape)),
            Unary::ExtendHigh(shape) => self.simd(operators::extend_high_opcode(shape)),
            Unary::Bitmask(shape) => self.simd(operators::bitmask_opcode(shape)),
        }
    }

    /// An operator on two values.
    pub fn binary(&mut self, op: Binary) -> Result<(), AllocError>
        ensures { OnOk result (self.new ≡ self.old ++ word_bytes (instructions.Binary_word (named.binary op))) }
    {
        match op {
            Binary::Of(size, op) => self.byte(operators::whole_opcode(size, op)),
            Binary::BitsOf(size, op) => self.byte(operators::bitwise_opcode(size, op)),
            Binary::ShiftOf(size, op) => self.byte(operators::shift_opcode(size, op)),
            Binary::Compare(size, op) => self.byte(operators::test_opcode(size, op)),
            Binary::Lanes(shape, op) => self.simd(operators::lanes_opcode(shape, op)),
            Binary::CompareLanes(shape, op) => self.simd(operators::compare_lanes_opcode(
                shape, op,
            )),
            Binary::ShiftLanes(shape, op) => self.simd(operators::shift_lanes_opcode(shape, op)),
            Binary::Bits(op) => self.simd(operators::bits_opcode(op)),
            Binary::Replace(shape, lane) => self.of_lane(operators::replace_opcode(shape), lane),
            Binary::Evens(shape) => self.evens(shape),
        }
    }

    /// A quotient or a remainder.
    pub fn division(&mut self, size: Size, op: Division) -> Result<(), AllocError>
        ensures { OnOk result (self.new ≡ self.old ++ word_bytes (instructions.Division_word (named.size size) (named.division op))) }
    {
        self.byte(operators::division_opcode(size, op))
    }

    // An instruction on v128.
    fn simd(&mut self, number: u32) -> Result<(), AllocError>
        ensures { OnOk result (self.new ≡ self.old ++ operators.simd number) }
    {
        self.byte(0xFD)?;
        self.unsigned(number)
    }

    // One that names a lane.
    fn of_lane(&mut self, number: u32, lane: u8) -> Result<(), AllocError>
        ensures { OnOk result (self.new ≡ self.old ++ (operators.simd number ++ lane ∷ [])) }
    {
        self.simd(number)?;
        self.byte(lane)
    }

    fn evens(&mut self, shape: Shape) -> Result<(), AllocError>
        ensures { OnOk result (self.new ≡ self.old ++ word_bytes (instructions.Binary_word (wasm.Shuffle (evens (named.shape shape))))) }
    {
        self.simd(13)?;
        self.all(operators::evens_bytes(shape))
    }

    /// A constant of 32 bits.
    pub fn const32(&mut self, number: u32) -> Result<(), AllocError>
        ensures { OnOk result (self.new ≡ self.old ++ word_bytes (instructions.Const32_word number)) }
    {
        self.byte(0x41)?;
        self.signed32(number)
    }

    /// A constant of 64 bits.
    pub fn const64(&mut self, number: u64) -> Result<(), AllocError>
        ensures { OnOk result (self.new ≡ self.old ++ word_bytes (instructions.Const64_word number)) }
    {
        self.byte(0x42)?;
        self.signed64(number)
    }

    /// A constant of 16 bytes.
    pub fn const128(&mut self, bytes: &[u8; 16]) -> Result<(), AllocError>
        ensures { OnOk result (self.new ≡ self.old ++ word_bytes (instructions.Const128_word (packed 256 16 (slice_index bytes.now)))) }
    {
        self.simd(12)?;
        self.all(bytes)
    }

    /// The value of a local.
    pub fn get(&mut self, local: u32) -> Result<(), AllocError>
        ensures { OnOk result (self.new ≡ self.old ++ word_bytes (instructions.Get_word local)) }
    {
        self.byte(0x20)?;
        self.unsigned(local)
    }

    /// A value to a local.
    pub fn set(&mut self, local: u32) -> Result<(), AllocError>
        ensures { OnOk result (self.new ≡ self.old ++ word_bytes (instructions.Set_word local)) }
    {
        self.byte(0x21)?;
        self.unsigned(local)
    }

    /// The first of two values where the third is not zero, else the second.
    pub fn select(&mut self) -> Result<(), AllocError>
        ensures { OnOk result (self.new ≡ self.old ++ word_bytes instructions.Select_word) }
    {
        self.byte(0x1B)
    }

    /// The bits of the first of two values where those of the third are 1, else of the second.
    pub fn bitselect(&mut self) -> Result<(), AllocError>
        ensures { OnOk result (self.new ≡ self.old ++ word_bytes instructions.Bitselect_word) }
    {
        self.simd(82)
    }

    /// So many bytes of the memory, from an address and this offset on.
    pub fn load(&mut self, width: Width, offset: u32) -> Result<(), AllocError>
        ensures { OnOk result (self.new ≡ self.old ++ word_bytes (instructions.Load_word (named.access width) offset)) }
    {
        match width {
            Width::One => self.at(0x2D, 0, offset),
            Width::Two => self.at(0x2F, 1, offset),
            Width::Four => self.at(0x28, 2, offset),
            Width::Eight => self.at(0x29, 3, offset),
            Width::Sixteen => self.simd_at(0, offset),
        }
    }

    /// The low bytes of a value to the memory.
    pub fn store(&mut self, width: Width, offset: u32) -> Result<(), AllocError>
        ensures { OnOk result (self.new ≡ self.old ++ word_bytes (instructions.Store_word (named.access width) offset)) }
    {
        match width {
            Width::One => self.at(0x3A, 0, offset),
            Width::Two => self.at(0x3B, 1, offset),
            Width::Four => self.at(0x36, 2, offset),
            Width::Eight => self.at(0x37, 3, offset),
            Width::Sixteen => self.simd_at(11, offset),
        }
    }

    // An opcode, an alignment and an offset.
    fn at(&mut self, opcode: u8, align: u32, offset: u32) -> Result<(), AllocError>
        ensures { OnOk result (self.new ≡ self.old ++ opcode ∷ (numbers.u32 align ++ numbers.u32 offset)) }
    {
        self.byte(opcode)?;
        self.unsigned(align)?;
        self.unsigned(offset)
    }

    // One on v128, an alignment of 16 bytes and an offset.
    fn simd_at(&mut self, number: u32, offset: u32) -> Result<(), AllocError>
        ensures { OnOk result (self.new ≡ self.old ++ (operators.simd number ++ (numbers.u32 4 ++ numbers.u32 offset))) }
    {
        self.simd(number)?;
        self.unsigned(4)?;
        self.unsigned(offset)
    }

    /// The beginning of a block.
    pub fn block(&mut self) -> Result<(), AllocError>
        ensures { OnOk result (self.new ≡ self.old ++ word_bytes instructions.Block_word) }
    {
        self.all(b"\x02\x40")
    }

    /// The beginning of a loop.
    pub fn begin_loop(&mut self) -> Result<(), AllocError>
        ensures { OnOk result (self.new ≡ self.old ++ word_bytes instructions.Loop_word) }
    {
        self.all(b"\x03\x40")
    }

    /// The beginning of what is run where a value is not zero.
    pub fn begin_if(&mut self) -> Result<(), AllocError>
        ensures { OnOk result (self.new ≡ self.old ++ word_bytes instructions.If_word) }
    {
        self.all(b"\x04\x40")
    }

    /// The beginning of what is run where it is.
    pub fn begin_else(&mut self) -> Result<(), AllocError>
        ensures { OnOk result (self.new ≡ self.old ++ word_bytes instructions.Else_word) }
    {
        self.byte(0x05)
    }

    /// The end of a block, a loop, an if or a function.
    pub fn end(&mut self) -> Result<(), AllocError>
        ensures { OnOk result (self.new ≡ self.old ++ word_bytes instructions.End_word) }
    {
        self.byte(0x0B)
    }

    /// To the label of so many blocks around.
    pub fn br(&mut self, label: u32) -> Result<(), AllocError>
        ensures { OnOk result (self.new ≡ self.old ++ word_bytes (instructions.Br_word label)) }
    {
        self.byte(0x0C)?;
        self.unsigned(label)
    }

    /// To the label that a value names, and where there are not so many, to the label after all.
    pub fn br_table(&mut self, count: u32) -> Result<(), AllocError>
        ensures { OnOk result (self.new ≡ self.old ++ word_bytes (instructions.BrTable_word (counting count 0) count)) }
    {
        self.byte(0x0E)?;
        self.unsigned(count)?;
        self.labels(count)?;
        self.unsigned(count)
    }

    // The labels of so many blocks, the innermost first.
    fn labels(&mut self, count: u32) -> Result<(), AllocError>
        ensures { OnOk result (self.new ≡ self.old ++ flat_map numbers.u32 (counting count 0)) }
    {
        for label in 0..count {
            self.unsigned(label)?;
        }
        Ok(())
    }

    /// Out of the function.
    pub fn give_back(&mut self) -> Result<(), AllocError>
        ensures { OnOk result (self.new ≡ self.old ++ word_bytes instructions.Return_word) }
    {
        self.byte(0x0F)
    }

    /// A call of a function, by its number after the host's.
    pub fn call(&mut self, function: u32) -> Result<(), AllocError>
        ensures { OnOk result (self.new ≡ self.old ++ word_bytes (instructions.Call_word function)) }
    {
        self.byte(0x10)?;
        self.unsigned(function)
    }

    /// The value of a global.
    pub fn get_global(&mut self, global: u32) -> Result<(), AllocError>
        ensures { OnOk result (self.new ≡ self.old ++ word_bytes (instructions.GetGlobal_word global)) }
    {
        self.byte(0x23)?;
        self.unsigned(global)
    }

    /// A value to a global.
    pub fn set_global(&mut self, global: u32) -> Result<(), AllocError>
        ensures { OnOk result (self.new ≡ self.old ++ word_bytes (instructions.SetGlobal_word global)) }
    {
        self.byte(0x24)?;
        self.unsigned(global)
    }

    /// One value to so many bytes of the memory: what stands before it is the address, the value and the number of bytes.
    pub fn fill(&mut self) -> Result<(), AllocError>
        ensures { OnOk result (self.new ≡ self.old ++ word_bytes instructions.Fill_word) }
    {
        self.byte(0xFC)?;
        self.byte(0x0B)?;
        self.byte(0x00)
    }

    /// What is never reached.
    pub fn unreachable(&mut self) -> Result<(), AllocError>
        ensures { OnOk result (self.new ≡ self.old ++ word_bytes instructions.Unreachable_word) }
    {
        self.byte(0x00)
    }
}
