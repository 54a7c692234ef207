//! What the first word of a line says.
ghost use Rattle.std.specs.Prelude.{◌≡◌};
ghost use Rattle.isp_asm.specs.Heads as heads;
ghost use Rattle.isp_asm.specs.Order.{kind_of};

use crate::order::Kind;
use isp_base::{Compare, UnaryOp};
use isp_code::{Division, Exchange, JumpTest, MaskOp, Plain, Reduction, Scan};

/// An instruction that is written as registers and an ending: all but the call.
#[derive(Clone, Copy)]
pub enum Op {
    Const,
    Copy,
    Convert,
    Unary(UnaryOp),
    Plain(Plain),
    Compare(Compare),
    Select,
    Divide(Division),
    First,
    Reduce(Reduction),
    Extract,
    Load,
    Store,
    Gather,
    Scatter,
    LoadRun,
    StoreRun,
    PackedLoad,
    PackedStore,
    Splat,
    Index,
    Scan(Scan),
    Exchange(Exchange),
    Shuffle,
    ShuffleTwo,
    Insert,
    MaskCopy,
    MaskBinary(MaskOp),
    Full,
    Off,
    Test,
    Lowest,
    Range,
    Clear,
    Jump,
    JumpIf(JumpTest),
    Say,
    PrintScalar,
    PrintVector,
    Fail,
    Return,
}

/// A kind of line.
#[derive(Clone, Copy)]
pub enum Head {
    Isp,
    Place,
    Text,
    Func,
    Par,
    Loc,
    Scalars,
    Vectors,
    Masks,
    End,
    Call,
    Op(Op),
}

/// All of them.
const HEADS: [Head; 85] = [
    Head::Isp,
    Head::Place,
    Head::Text,
    Head::Func,
    Head::Par,
    Head::Loc,
    Head::Scalars,
    Head::Vectors,
    Head::Masks,
    Head::End,
    Head::Call,
    Head::Op(Op::Const),
    Head::Op(Op::Copy),
    Head::Op(Op::Convert),
    Head::Op(Op::Unary(UnaryOp::Negate)),
    Head::Op(Op::Unary(UnaryOp::Invert)),
    Head::Op(Op::Unary(UnaryOp::Absolute)),
    Head::Op(Op::Unary(UnaryOp::Not)),
    Head::Op(Op::Plain(Plain::Add)),
    Head::Op(Op::Plain(Plain::Sub)),
    Head::Op(Op::Plain(Plain::Mul)),
    Head::Op(Op::Plain(Plain::And)),
    Head::Op(Op::Plain(Plain::Or)),
    Head::Op(Op::Plain(Plain::Xor)),
    Head::Op(Op::Plain(Plain::Shl)),
    Head::Op(Op::Plain(Plain::Shr)),
    Head::Op(Op::Plain(Plain::Min)),
    Head::Op(Op::Plain(Plain::Max)),
    Head::Op(Op::Compare(Compare::Equal)),
    Head::Op(Op::Compare(Compare::NotEqual)),
    Head::Op(Op::Compare(Compare::Less)),
    Head::Op(Op::Compare(Compare::LessOrEqual)),
    Head::Op(Op::Compare(Compare::Greater)),
    Head::Op(Op::Compare(Compare::GreaterOrEqual)),
    Head::Op(Op::Select),
    Head::Op(Op::Divide(Division::Div)),
    Head::Op(Op::Divide(Division::Rem)),
    Head::Op(Op::First),
    Head::Op(Op::Reduce(Reduction::Add)),
    Head::Op(Op::Reduce(Reduction::Min)),
    Head::Op(Op::Reduce(Reduction::Max)),
    Head::Op(Op::Reduce(Reduction::Equal)),
    Head::Op(Op::Reduce(Reduction::Any)),
    Head::Op(Op::Reduce(Reduction::All)),
    Head::Op(Op::Extract),
    Head::Op(Op::Load),
    Head::Op(Op::Store),
    Head::Op(Op::Gather),
    Head::Op(Op::Scatter),
    Head::Op(Op::LoadRun),
    Head::Op(Op::StoreRun),
    Head::Op(Op::PackedLoad),
    Head::Op(Op::PackedStore),
    Head::Op(Op::Splat),
    Head::Op(Op::Index),
    Head::Op(Op::Scan(Scan::Add)),
    Head::Op(Op::Scan(Scan::And)),
    Head::Op(Op::Scan(Scan::Or)),
    Head::Op(Op::Exchange(Exchange::Broadcast)),
    Head::Op(Op::Exchange(Exchange::Rotate)),
    Head::Op(Op::Exchange(Exchange::Shift)),
    Head::Op(Op::Shuffle),
    Head::Op(Op::ShuffleTwo),
    Head::Op(Op::Insert),
    Head::Op(Op::MaskCopy),
    Head::Op(Op::MaskBinary(MaskOp::And)),
    Head::Op(Op::MaskBinary(MaskOp::Or)),
    Head::Op(Op::MaskBinary(MaskOp::AndNot)),
    Head::Op(Op::Full),
    Head::Op(Op::Off),
    Head::Op(Op::Test),
    Head::Op(Op::Lowest),
    Head::Op(Op::Range),
    Head::Op(Op::Clear),
    Head::Op(Op::Jump),
    Head::Op(Op::JumpIf(JumpTest::False)),
    Head::Op(Op::JumpIf(JumpTest::True)),
    Head::Op(Op::JumpIf(JumpTest::Off)),
    Head::Op(Op::JumpIf(JumpTest::On)),
    Head::Op(Op::JumpIf(JumpTest::All)),
    Head::Op(Op::Say),
    Head::Op(Op::PrintScalar),
    Head::Op(Op::PrintVector),
    Head::Op(Op::Fail),
    Head::Op(Op::Return),
];

fn unary_word(op: UnaryOp) -> &'static str
    ensures { result.now ≡ heads.unary_word op }
{
    match op {
        UnaryOp::Negate => "neg",
        UnaryOp::Invert => "inv",
        UnaryOp::Absolute => "abs",
        UnaryOp::Not => "lnot",
    }
}

fn plain_word(op: Plain) -> &'static str
    ensures { result.now ≡ heads.plain_word op }
{
    match op {
        Plain::Add => "add",
        Plain::Sub => "sub",
        Plain::Mul => "mul",
        Plain::And => "and",
        Plain::Or => "or",
        Plain::Xor => "xor",
        Plain::Shl => "shl",
        Plain::Shr => "shr",
        Plain::Min => "min",
        Plain::Max => "max",
    }
}

fn compare_word(op: Compare) -> &'static str
    ensures { result.now ≡ heads.compare_word op }
{
    match op {
        Compare::Equal => "eq",
        Compare::NotEqual => "ne",
        Compare::Less => "lt",
        Compare::LessOrEqual => "le",
        Compare::Greater => "gt",
        Compare::GreaterOrEqual => "ge",
    }
}

fn division_word(op: Division) -> &'static str
    ensures { result.now ≡ heads.division_word op }
{
    match op {
        Division::Div => "div",
        Division::Rem => "rem",
    }
}

fn mask_word(op: MaskOp) -> &'static str
    ensures { result.now ≡ heads.mask_word op }
{
    match op {
        MaskOp::And => "mand",
        MaskOp::Or => "mor",
        MaskOp::AndNot => "mandn",
    }
}

fn jump_word(op: JumpTest) -> &'static str
    ensures { result.now ≡ heads.jump_word op }
{
    match op {
        JumpTest::False => "jz",
        JumpTest::True => "jnz",
        JumpTest::Off => "joff",
        JumpTest::On => "jon",
        JumpTest::All => "jall",
    }
}

fn reduction_word(op: Reduction) -> &'static str
    ensures { result.now ≡ heads.reduction_word op }
{
    match op {
        Reduction::Add => "radd",
        Reduction::Min => "rmin",
        Reduction::Max => "rmax",
        Reduction::Equal => "requ",
        Reduction::Any => "rany",
        Reduction::All => "rall",
    }
}

fn scan_word(op: Scan) -> &'static str
    ensures { result.now ≡ heads.scan_word op }
{
    match op {
        Scan::Add => "sadd",
        Scan::And => "sand",
        Scan::Or => "sor",
    }
}

fn exchange_word(op: Exchange) -> &'static str
    ensures { result.now ≡ heads.exchange_word op }
{
    match op {
        Exchange::Broadcast => "bcast",
        Exchange::Rotate => "rot",
        Exchange::Shift => "shf",
    }
}

// The first of some heads whose word is this one.
fn first_spelled(among: &[Head], word: &str) -> Option<Head>
    ensures { result ≡ heads.first_spelled among.now word.now }
{
    for head in among {
        if word == head.word() {
            return Some(*head);
        }
    }
    None
}

impl Op {
    /// The word of the instruction.
    pub(crate) fn word(self) -> &'static str
        ensures { result.now ≡ heads.op_word self }
    {
        match self {
            Op::Const => "const",
            Op::Copy => "copy",
            Op::Convert => "conv",
            Op::Unary(op) => unary_word(op),
            Op::Plain(op) => plain_word(op),
            Op::Compare(op) => compare_word(op),
            Op::Select => "sel",
            Op::Divide(op) => division_word(op),
            Op::First => "mfirst",
            Op::Reduce(op) => reduction_word(op),
            Op::Extract => "extr",
            Op::Load => "load",
            Op::Store => "store",
            Op::Gather => "gather",
            Op::Scatter => "scatter",
            Op::LoadRun => "vload",
            Op::StoreRun => "vstore",
            Op::PackedLoad => "pload",
            Op::PackedStore => "pstore",
            Op::Splat => "splat",
            Op::Index => "index",
            Op::Scan(op) => scan_word(op),
            Op::Exchange(op) => exchange_word(op),
            Op::Shuffle => "shuf",
            Op::ShuffleTwo => "shuf2",
            Op::Insert => "ins",
            Op::MaskCopy => "mcopy",
            Op::MaskBinary(op) => mask_word(op),
            Op::Full => "mfull",
            Op::Off => "mnone",
            Op::Test => "mtest",
            Op::Lowest => "mlow",
            Op::Range => "mrange",
            Op::Clear => "clear",
            Op::Jump => "jmp",
            Op::JumpIf(test) => jump_word(test),
            Op::Say => "say",
            Op::PrintScalar => "prs",
            Op::PrintVector => "prv",
            Op::Fail => "fail",
            Op::Return => "ret",
        }
    }
}

impl Head {
    /// The first word of such a line.
    pub(crate) fn word(self) -> &'static str
        ensures { result.now ≡ heads.head_word self }
    {
        match self {
            Head::Isp => "isp",
            Head::Place => "place",
            Head::Text => "text",
            Head::Func => "func",
            Head::Par => "par",
            Head::Loc => "loc",
            Head::Scalars => "s",
            Head::Vectors => "v",
            Head::Masks => "m",
            Head::End => "end",
            Head::Call => "call",
            Head::Op(op) => op.word(),
        }
    }

    /// The kind of line that a word begins, if it begins one.
    pub(crate) fn of(word: &str) -> Option<Head>
        ensures { result ≡ heads.head_of word.now }
    {
        first_spelled(HEADS.as_slice(), word)
    }

    /// Where such a line stands.
    pub(crate) fn kind(self) -> Kind
        ensures { result ≡ kind_of self }
    {
        match self {
            Head::Isp => Kind::Isp,
            Head::Place => Kind::Place,
            Head::Text => Kind::Text,
            Head::Func => Kind::Func,
            Head::Par => Kind::Par,
            Head::Loc => Kind::Loc,
            Head::Scalars => Kind::Scalars,
            Head::Vectors => Kind::Vectors,
            Head::Masks => Kind::Masks,
            Head::End => Kind::End,
            Head::Call | Head::Op(_) => Kind::Instr,
        }
    }
}
