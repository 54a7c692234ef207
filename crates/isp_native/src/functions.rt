//! How a function is written: its heading, its registers, and its instructions.
ghost use Rattle.std.specs.Prelude.{◌≡◌, ◌++◌, ◌<◌, ◌+◌, ◌^◌, length, codes, OnOk, IfOk};
ghost use Rattle.isp_code.specs.Listing.{routine_of};
ghost use Rattle.isp_code.specs.Registers.{class_of};
ghost use Rattle.isp_native.specs.Forms.{form_line};
ghost use Rattle.isp_native.specs.reader.Forms.{forms_by};
ghost use Rattle.isp_native.specs.Text as says;
ghost use Rattle.isp_native.specs.Text.{below, numbered};
ghost use Rattle.isp_native.specs.declared.form.Form.TheVariants.{Free};
ghost use Rattle.std.specs.Fmt.{decimal};

use crate::counts::Counts;
use crate::form::Form;
use crate::page::Page;
use crate::words;
use isp_base::Elem;
use isp_code::{Class, Function, Instr, Local, Param, ParamKind, Returns, Sharing};
use isp_lanes_read::Tables;
use std::alloc::AllocError;

impl Page {
    /// A function before it is used.
    pub(crate) fn declared(&mut self, number: usize, function: &Function) -> Result<(), AllocError>
        ensures { OnOk result (self.new ≡ self.old ++ says.declared number (routine_of function.now)) }
    {
        self.heading(number, function)?;
        self.text("DECLARED\n")
    }

    /// A function with its body.
    pub(crate) fn defined(
        &mut self,
        number: usize,
        function: &Function,
        tables: Option<&Tables>,
    ) -> Result<(), AllocError>
        ensures { OnOk result (self.new ≡ self.old ++ says.defined (forms_by tables.entry) number (routine_of function.now)) }
    {
        self.begun(number, function)?;
        self.text("START\n")?;
        self.code(number, &function.code, tables)?;
        self.text("END\n")
    }

    fn begun(&mut self, number: usize, function: &Function) -> Result<(), AllocError>
        ensures { OnOk result (self.new ≡ self.old ++ says.begun number (routine_of function.now)) }
    {
        self.heading(number, function)?;
        self.text("BEGIN\n")?;
        let counts = self.params("TAKE(", &function.params)?;
        self.registers(counts, function)
    }

    fn heading(&mut self, number: usize, function: &Function) -> Result<(), AllocError>
        ensures { OnOk result (self.new ≡ self.old ++ says.heading number (routine_of function.now)) }
    {
        self.func(number, function.returns)?;
        let _counts = self.params("PAR(", &function.params)?;
        Ok(())
    }

    fn func(&mut self, number: usize, returns: Returns) -> Result<(), AllocError>
        ensures { OnOk result (self.new ≡ self.old ++ says.func_line number returns) }
    {
        match returns {
            Returns::Nothing => {
                self.number("FUNC(f", number as u64)?;
                self.text(")\n")
            }
            Returns::Scalar(elem) => self.typed("SFUNC(f", number, elem),
            Returns::Vector(elem) => self.typed("VFUNC(f", number, elem),
        }
    }

    fn typed(&mut self, word: &str, number: usize, elem: Elem) -> Result<(), AllocError>
        ensures { OnOk result (self.new ≡ self.old ++ says.typed word.now number elem) }
    {
        self.number(word, number as u64)?;
        self.text(", ")?;
        self.text(words::c_type(elem))?;
        self.text(")\n")
    }

    // The parameters, and how many of each class there are.
    fn params(&mut self, word: &str, params: &[Param]) -> Result<Counts, AllocError>
        ensures written { OnOk result (self.new ≡ self.old ++ says.params_text word.now says.nobody params.now) }
        ensures counted { IfOk result (λ c. c ≡ says.with_all says.nobody params.now) }
        ensures few { IfOk result (λ c. says.AtMost (length params.now) c) }
    {
        let mut counts = Counts::none();
        for param in params {
            self.param(word, counts.of(param.kind), param)?;
            counts = counts.with(param.kind);
        }
        Ok(counts)
    }

    fn param(&mut self, word: &str, number: usize, param: &Param) -> Result<(), AllocError>
        ensures { OnOk result (self.new ≡ self.old ++ says.param_line word.now number param.now) }
    {
        let class = class_of(param.kind);
        self.text(words::capital(class))?;
        self.text(word)?;
        self.text(words::c_type(param.elem))?;
        self.text(", ")?;
        self.number(words::small(class), number as u64)?;
        self.text(")\n")
    }

    fn registers(&mut self, counts: Counts, function: &Function) -> Result<(), AllocError>
        requires { says.AtMost (length function.now.params.items) counts }
        ensures { OnOk result (self.new ≡ self.old ++ says.registers_text counts (routine_of function.now)) }
    {
        self.locals(counts.arrays, &function.locals)?;
        self.elems("SCALAR(", ", s", counts.scalars, &function.scalars)?;
        self.elems("VECTOR(", ", v", counts.vectors, &function.vectors)?;
        self.masks(function.masks)
    }

    fn locals(&mut self, first: usize, locals: &[Local]) -> Result<(), AllocError>
        requires { first + length locals.now < 2 ^ 64 }
        ensures { OnOk result (self.new ≡ self.old ++ numbered says.local_line first locals.now) }
    {
        for (place, local) in locals.iter().enumerate() {
            self.local(first + place, *local)?;
        }
        Ok(())
    }

    fn local(&mut self, number: usize, local: Local) -> Result<(), AllocError>
        ensures { OnOk result (self.new ≡ self.old ++ says.local_line number local) }
    {
        self.text(sharing_word(local.sharing))?;
        self.text(words::c_type(local.elem))?;
        self.number(", a", number as u64)?;
        self.number(", ", u64::from(local.size))?;
        self.text(")\n")
    }

    fn elems(
        &mut self,
        word: &str,
        letter: &str,
        first: usize,
        elems: &[Elem],
    ) -> Result<(), AllocError>
        requires { first + length elems.now < 2 ^ 64 }
        ensures { OnOk result (self.new ≡ self.old ++ numbered (says.register_line word.now letter.now) first elems.now) }
    {
        for (place, elem) in elems.iter().enumerate() {
            self.elem(word, letter, first + place, *elem)?;
        }
        Ok(())
    }

    fn elem(
        &mut self,
        word: &str,
        letter: &str,
        number: usize,
        elem: Elem,
    ) -> Result<(), AllocError>
        ensures { OnOk result (self.new ≡ self.old ++ says.register_line word.now letter.now number elem) }
    {
        self.text(word)?;
        self.text(words::c_type(elem))?;
        self.number(letter, number as u64)?;
        self.text(")\n")
    }

    fn masks(&mut self, count: u32) -> Result<(), AllocError>
        ensures { OnOk result (self.new ≡ self.old ++ below says.mask_line count) }
    {
        for number in 0..count {
            self.number("MASK(m", u64::from(number))?;
            self.text(")\n")?;
        }
        Ok(())
    }

    // The code of function `f`.
    fn code(&mut self, f: usize, code: &[Instr], tables: Option<&Tables>) -> Result<(), AllocError>
        ensures { OnOk result (self.new ≡ self.old ++ numbered (says.code_line (forms_by tables.entry) f) 0 code.now) }
    {
        for (number, instr) in code.iter().enumerate() {
            self.line_of(number, instr, Form::at(tables, f, number, instr))?;
        }
        Ok(())
    }

    fn line_of(&mut self, number: usize, instr: &Instr, form: Form) -> Result<(), AllocError>
        ensures { OnOk result (self.new ≡ self.old ++ ((codes "L" ++ decimal number) ++ (codes ": " ++ (form_line form instr.now ++ codes "\n")))) }
    {
        self.number("L", number as u64)?;
        self.text(": ")?;
        self.formed(instr, form)?;
        self.text("\n")
    }

    // An instruction in its form.
    fn formed(&mut self, instr: &Instr, form: Form) -> Result<(), AllocError>
        ensures { OnOk result (self.new ≡ self.old ++ form_line form instr.now) }
    {
        match form {
            Form::Kept => self.instr(instr),
            Form::Free => self.free(instr),
            Form::Useless => self.text("SKIP();"),
        }
    }

    // An instruction with its free word.
    fn free(&mut self, instr: &Instr) -> Result<(), AllocError>
        ensures { OnOk result (self.new ≡ self.old ++ form_line Free instr.now) }
    {
        self.text("F")?;
        self.instr(instr)
    }
}

fn class_of(kind: ParamKind) -> Class
    ensures { result ≡ class_of kind }
{
    match kind {
        ParamKind::Scalar => Class::Scalar,
        ParamKind::Vector => Class::Vector,
        ParamKind::Array => Class::Array,
    }
}

fn sharing_word(sharing: Sharing) -> &'static str
    ensures { result.now ≡ says.sharing_word sharing }
{
    match sharing {
        Sharing::Shared => "UARRAY(",
        Sharing::PerInstance => "PARRAY(",
    }
}
