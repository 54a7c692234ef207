//! What stands after the word of an instruction, as it is read.
ghost use Rattle.std.specs.Prelude.{◌≡◌, [], ◌∷◌, ◌++◌, length, get_or, map, replicate, true, IfOk, IfErr, OnOk, Some, None};
ghost use Rattle.std.specs.List.{list_all};
ghost use Rattle.isp_code.specs.Writable.{register_fits};
ghost use Rattle.isp_asm.specs.Faults.{words_fault};
ghost use Rattle.isp_asm.specs.Forms.{a_type, ending_forms, register as a_register};
ghost use Rattle.isp_asm.specs.Rows.{tail_words};
ghost use Rattle.isp_asm.specs.Words.{register_word, type_word};
ghost use Rattle.isp_asm.specs.declared.fault.LineFault.TheVariants.{Refused};
ghost use Rattle.isp_asm.specs.declared.fault.Rule.{Rule};
ghost use Rattle.isp_asm.specs.reader.Reading.{ending_of, tail_fits, words_of};

use crate::fault::{LineFault, Rule};
use crate::row::Tail;
use crate::shape::Ending;
use crate::words;
use isp_base::Elem;
use isp_code::Register;
use smallvec::SmallVec;
use std::alloc::Global;

/// Registers, from left to right.
pub(crate) fn registers(alloc: Global, words: &[&str]) -> Result<SmallVec<Register, 4>, LineFault>
    ensures spelled { IfOk result (λ rs. map register_word rs.items ≡ words_of words.now) }
    ensures fits { IfOk result (λ rs. list_all register_fits rs.items ≡ true) }
    ensures ok { OnOk result (words_fault (replicate (length words.now) a_register) (words_of words.now) ≡ None) }
    ensures err { IfErr result (λ e. (r : Rule) → e ≡ Refused r → words_fault (replicate (length words.now) a_register) (words_of words.now) ≡ Some r) }
{
    let mut registers = SmallVec::new(alloc);
    for word in words {
        registers.push(words::register(word)?)?;
    }
    Ok(registers)
}

/// What ends the line.
pub(crate) fn tail(ending: Ending, words: &[&str]) -> Result<Tail, Rule>
    requires { length words.now ≡ length (ending_forms ending) }
    ensures spelled { IfOk result (λ t. tail_words t ≡ words_of words.now) }
    ensures fits { IfOk result (λ t. tail_fits t ≡ true) }
    ensures ending { IfOk result (λ t. ending_of t ≡ ending) }
    ensures ok { OnOk result (words_fault (ending_forms ending) (words_of words.now) ≡ None) }
    ensures err { IfErr result (λ e. words_fault (ending_forms ending) (words_of words.now) ≡ Some e) }
{
    let Some(word) = words.first() else {
        return Ok(Tail::Nothing);
    };
    match ending {
        Ending::Nothing => Ok(Tail::Nothing),
        Ending::Place => Ok(Tail::Place(words::lettered(b'p', Rule::BadOperand, word)?)),
        Ending::Label => Ok(Tail::Label(words::label(word)?)),
        Ending::Text => Ok(Tail::Text(words::lettered(b't', Rule::BadOperand, word)?)),
        Ending::Number => Ok(Tail::Number(words::constant(word)?)),
        Ending::Back => Ok(Tail::Back(words::back(word)?)),
    }
}

/// Types, from left to right.
pub(crate) fn elems(alloc: Global, words: &[&str]) -> Result<Vec<Elem>, LineFault>
    ensures spelled { IfOk result (λ ts. map type_word ts.items ≡ words_of words.now) }
    ensures err { IfErr result (λ e. (r : Rule) → e ≡ Refused r → words_fault (replicate (length words.now) a_type) (words_of words.now) ≡ Some r) }
{
    let mut elems = Vec::new(alloc);
    for word in words {
        elems.push(words::elem(word)?)?;
    }
    Ok(elems)
}
