//! How an instruction is written, by what tables say of it.
ghost use Rattle.std.specs.Prelude.{◌≡◌, ◌+◌, ◌<◌};
ghost use Rattle.isp_lanes_read.specs.Free.{is_call};
ghost use Rattle.isp_lanes_read.specs.Rows.{row_at, rows_of};
ghost use Rattle.isp_native.specs.reader.Forms.{form_by, forms_by};

use isp_code::Instr;
use isp_lanes_read::Tables;

/// How an instruction is written.
#[derive(Clone, Copy)]
pub enum Form {
    /// As it stands: lanes that are off are kept.
    Kept,
    /// With its free word: nobody reads lanes that are off again, and they become anything.
    Free,
    /// As a line that does nothing: nobody reads what it writes.
    Useless,
}

impl Form {
    /// The form of instruction `pc` of function `f`; without tables it is kept.
    pub(crate) fn at(tables: Option<&Tables>, f: usize, pc: usize, instr: &Instr) -> Form
        requires { pc < 18446744073709551615 }
        ensures { result ≡ forms_by tables.entry f pc instr.now }
    {
        match tables {
            Some(tables) => Form::told(tables, f, pc, instr),
            None => Form::Kept,
        }
    }

    // The form that tables tell.
    fn told(tables: &Tables, f: usize, pc: usize, instr: &Instr) -> Form
        requires { pc < 18446744073709551615 }
        ensures { result ≡ form_by (row_at (rows_of tables.now) f pc) (row_at (rows_of tables.now) f (pc + 1)) instr.now }
    {
        if tables.is_useless(f, pc, instr) {
            Form::Useless
        } else if tables.is_free(f, pc, instr) && !is_call(instr) {
            Form::Free
        } else {
            Form::Kept
        }
    }
}

fn is_call(instr: &Instr) -> bool
    ensures { result ≡ is_call instr.now }
{
    matches!(instr, Instr::Call(_))
}
