//! The operators that are written, and their opcodes.
ghost use Rattle.std.specs.Prelude.{◌≡◌, ◌∷◌, [], slice_index};
ghost use Rattle.isp_wasm_meaning.specs.Lists.{listed, evens};
ghost use Rattle.isp_wasm_binary.specs.Named as named;
ghost use Rattle.isp_wasm_binary.specs.Operators as operators;

/// The size of a number: `i32`, `i64`.
#[derive(Clone, Copy)]
pub enum Size {
    I32,
    I64,
}

/// How a v128 is taken apart into lanes: `i8x16`, `i16x8`, `i32x4`, `i64x2`.
#[derive(Clone, Copy)]
pub enum Shape {
    I8x16,
    I16x8,
    I32x4,
    I64x2,
}

/// `add`, `sub`, `mul`.
#[derive(Clone, Copy)]
pub enum Whole {
    Add,
    Sub,
    Mul,
}

/// `and`, `or`, `xor`.
#[derive(Clone, Copy)]
pub enum Bitwise {
    And,
    Or,
    Xor,
}

/// `shl`, `shr_u`, `shr_s`.
#[derive(Clone, Copy)]
pub enum Shift {
    Shl,
    ShrU,
    ShrS,
}

/// `eq`, `ne`, `lt_u`, `lt_s`.
#[derive(Clone, Copy)]
pub enum Test {
    Eq,
    Ne,
    LtU,
    LtS,
}

/// `div_u`, `rem_u`.
#[derive(Clone, Copy)]
pub enum Division {
    DivU,
    RemU,
}

/// An operator on one value.
#[derive(Clone, Copy)]
pub enum Unary {
    Eqz(Size),
    Ctz(Size),
    /// `i32.wrap_i64`.
    Wrap,
    /// `i64.extend_i32_u`.
    ExtendU,
    /// `i64.extend_i32_s`.
    ExtendS,
    /// `i32.extend8_s`.
    Extend8S,
    /// `i32.extend16_s`.
    Extend16S,
    Splat(Shape),
    /// `extract_lane`, of lanes of 8 and 16 bits `extract_lane_u`, with the lane.
    Extract(Shape, u8),
    /// `extend_low_s`, to this shape.
    ExtendLow(Shape),
    /// `extend_high_s`, to this shape.
    ExtendHigh(Shape),
    Bitmask(Shape),
}

/// An operator on two values.
#[derive(Clone, Copy)]
pub enum Binary {
    Of(Size, Whole),
    BitsOf(Size, Bitwise),
    ShiftOf(Size, Shift),
    Compare(Size, Test),
    Lanes(Shape, Whole),
    CompareLanes(Shape, Test),
    /// Of each lane, by one number of 32 bits.
    ShiftLanes(Shape, Shift),
    /// On all bits of a v128.
    Bits(Bitwise),
    /// `replace_lane`, with the lane.
    Replace(Shape, u8),
    /// `i8x16.shuffle` of the low halves of all lanes of two vectors.
    Evens(Shape),
}

pub(crate) fn eqz_opcode(size: Size) -> u8
    ensures { result ∷ [] ≡ operators.eqz_bytes (named.size size) }
{
    match size {
        Size::I32 => 0x45,
        Size::I64 => 0x50,
    }
}

pub(crate) fn ctz_opcode(size: Size) -> u8
    ensures { result ∷ [] ≡ operators.ctz_bytes (named.size size) }
{
    match size {
        Size::I32 => 0x68,
        Size::I64 => 0x7A,
    }
}

pub(crate) fn splat_opcode(shape: Shape) -> u32
    ensures { operators.simd result ≡ operators.splat_bytes (named.shape shape) }
{
    match shape {
        Shape::I8x16 => 15,
        Shape::I16x8 => 16,
        Shape::I32x4 => 17,
        Shape::I64x2 => 18,
    }
}

pub(crate) fn extract_opcode(shape: Shape) -> u32
    ensures { operators.simd result ≡ operators.extract_bytes (named.shape shape) }
{
    match shape {
        Shape::I8x16 => 22,
        Shape::I16x8 => 25,
        Shape::I32x4 => 27,
        Shape::I64x2 => 29,
    }
}

pub(crate) fn replace_opcode(shape: Shape) -> u32
    ensures { operators.simd result ≡ operators.replace_bytes (named.shape shape) }
{
    match shape {
        Shape::I8x16 => 23,
        Shape::I16x8 => 26,
        Shape::I32x4 => 28,
        Shape::I64x2 => 30,
    }
}

pub(crate) fn extend_low_opcode(shape: Shape) -> u32
    ensures { operators.simd result ≡ operators.extend_low_bytes (named.shape shape) }
{
    match shape {
        Shape::I8x16 => 2000,
        Shape::I16x8 => 135,
        Shape::I32x4 => 167,
        Shape::I64x2 => 199,
    }
}

pub(crate) fn extend_high_opcode(shape: Shape) -> u32
    ensures { operators.simd result ≡ operators.extend_high_bytes (named.shape shape) }
{
    match shape {
        Shape::I8x16 => 2001,
        Shape::I16x8 => 136,
        Shape::I32x4 => 168,
        Shape::I64x2 => 200,
    }
}

pub(crate) fn bitmask_opcode(shape: Shape) -> u32
    ensures { operators.simd result ≡ operators.bitmask_bytes (named.shape shape) }
{
    match shape {
        Shape::I8x16 => 100,
        Shape::I16x8 => 132,
        Shape::I32x4 => 164,
        Shape::I64x2 => 196,
    }
}

pub(crate) fn whole_opcode(size: Size, op: Whole) -> u8
    ensures { result ∷ [] ≡ operators.whole_bytes (named.size size) (named.whole op) }
{
    match (size, op) {
        (Size::I32, Whole::Add) => 0x6A,
        (Size::I32, Whole::Sub) => 0x6B,
        (Size::I32, Whole::Mul) => 0x6C,
        (Size::I64, Whole::Add) => 0x7C,
        (Size::I64, Whole::Sub) => 0x7D,
        (Size::I64, Whole::Mul) => 0x7E,
    }
}

pub(crate) fn bitwise_opcode(size: Size, op: Bitwise) -> u8
    ensures { result ∷ [] ≡ operators.bitwise_bytes (named.size size) (named.bitwise op) }
{
    match (size, op) {
        (Size::I32, Bitwise::And) => 0x71,
        (Size::I32, Bitwise::Or) => 0x72,
        (Size::I32, Bitwise::Xor) => 0x73,
        (Size::I64, Bitwise::And) => 0x83,
        (Size::I64, Bitwise::Or) => 0x84,
        (Size::I64, Bitwise::Xor) => 0x85,
    }
}

pub(crate) fn shift_opcode(size: Size, op: Shift) -> u8
    ensures { result ∷ [] ≡ operators.shift_bytes (named.size size) (named.shift op) }
{
    match (size, op) {
        (Size::I32, Shift::Shl) => 0x74,
        (Size::I32, Shift::ShrS) => 0x75,
        (Size::I32, Shift::ShrU) => 0x76,
        (Size::I64, Shift::Shl) => 0x86,
        (Size::I64, Shift::ShrS) => 0x87,
        (Size::I64, Shift::ShrU) => 0x88,
    }
}

pub(crate) fn test_opcode(size: Size, op: Test) -> u8
    ensures { result ∷ [] ≡ operators.test_bytes (named.size size) (named.test op) }
{
    match (size, op) {
        (Size::I32, Test::Eq) => 0x46,
        (Size::I32, Test::Ne) => 0x47,
        (Size::I32, Test::LtS) => 0x48,
        (Size::I32, Test::LtU) => 0x49,
        (Size::I64, Test::Eq) => 0x51,
        (Size::I64, Test::Ne) => 0x52,
        (Size::I64, Test::LtS) => 0x53,
        (Size::I64, Test::LtU) => 0x54,
    }
}

pub(crate) fn division_opcode(size: Size, op: Division) -> u8
    ensures { result ∷ [] ≡ operators.division_bytes (named.size size) (named.division op) }
{
    match (size, op) {
        (Size::I32, Division::DivU) => 0x6E,
        (Size::I32, Division::RemU) => 0x70,
        (Size::I64, Division::DivU) => 0x80,
        (Size::I64, Division::RemU) => 0x82,
    }
}

pub(crate) fn lanes_opcode(shape: Shape, op: Whole) -> u32
    ensures { operators.simd result ≡ operators.lanes_bytes (named.shape shape) (named.whole op) }
{
    match (shape, op) {
        (Shape::I8x16, Whole::Add) => 110,
        (Shape::I8x16, Whole::Sub) => 113,
        (Shape::I8x16, Whole::Mul) => 2002,
        (Shape::I16x8, Whole::Add) => 142,
        (Shape::I16x8, Whole::Sub) => 145,
        (Shape::I16x8, Whole::Mul) => 149,
        (Shape::I32x4, Whole::Add) => 174,
        (Shape::I32x4, Whole::Sub) => 177,
        (Shape::I32x4, Whole::Mul) => 181,
        (Shape::I64x2, Whole::Add) => 206,
        (Shape::I64x2, Whole::Sub) => 209,
        (Shape::I64x2, Whole::Mul) => 213,
    }
}

pub(crate) fn compare_lanes_opcode(shape: Shape, op: Test) -> u32
    ensures { operators.simd result ≡ operators.compare_bytes (named.shape shape) (named.test op) }
{
    match (shape, op) {
        (Shape::I8x16, Test::Eq) => 35,
        (Shape::I8x16, Test::Ne) => 36,
        (Shape::I8x16, Test::LtS) => 37,
        (Shape::I8x16, Test::LtU) => 38,
        (Shape::I16x8, Test::Eq) => 45,
        (Shape::I16x8, Test::Ne) => 46,
        (Shape::I16x8, Test::LtS) => 47,
        (Shape::I16x8, Test::LtU) => 48,
        (Shape::I32x4, Test::Eq) => 55,
        (Shape::I32x4, Test::Ne) => 56,
        (Shape::I32x4, Test::LtS) => 57,
        (Shape::I32x4, Test::LtU) => 58,
        (Shape::I64x2, Test::Eq) => 214,
        (Shape::I64x2, Test::Ne) => 215,
        (Shape::I64x2, Test::LtS) => 216,
        (Shape::I64x2, Test::LtU) => 2003,
    }
}

pub(crate) fn shift_lanes_opcode(shape: Shape, op: Shift) -> u32
    ensures { operators.simd result ≡ operators.shift_lanes_bytes (named.shape shape) (named.shift op) }
{
    match (shape, op) {
        (Shape::I8x16, Shift::Shl) => 107,
        (Shape::I8x16, Shift::ShrS) => 108,
        (Shape::I8x16, Shift::ShrU) => 109,
        (Shape::I16x8, Shift::Shl) => 139,
        (Shape::I16x8, Shift::ShrS) => 140,
        (Shape::I16x8, Shift::ShrU) => 141,
        (Shape::I32x4, Shift::Shl) => 171,
        (Shape::I32x4, Shift::ShrS) => 172,
        (Shape::I32x4, Shift::ShrU) => 173,
        (Shape::I64x2, Shift::Shl) => 203,
        (Shape::I64x2, Shift::ShrS) => 204,
        (Shape::I64x2, Shift::ShrU) => 205,
    }
}

pub(crate) fn bits_opcode(op: Bitwise) -> u32
    ensures { operators.simd result ≡ operators.bits_bytes (named.bitwise op) }
{
    match op {
        Bitwise::And => 78,
        Bitwise::Or => 80,
        Bitwise::Xor => 81,
    }
}

/// The bytes that a shuffle names which takes the low halves of all lanes of two vectors.
pub(crate) fn evens_bytes(shape: Shape) -> &'static [u8; 16]
    ensures { result.now ≡ listed 16 (slice_index (evens (named.shape shape))) }
{
    match shape {
        Shape::I8x16 | Shape::I16x8 => {
            b"\x00\x02\x04\x06\x08\x0a\x0c\x0e\x10\x12\x14\x16\x18\x1a\x1c\x1e"
        }
        Shape::I32x4 => { b"\x00\x01\x04\x05\x08\x09\x0c\x0d\x10\x11\x14\x15\x18\x19\x1c\x1d" }
        Shape::I64x2 => { b"\x00\x01\x02\x03\x08\x09\x0a\x0b\x10\x11\x12\x13\x18\x19\x1a\x1b" }
    }
}
