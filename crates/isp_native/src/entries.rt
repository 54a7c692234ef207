//! How the exported functions are written: by their names, for whoever calls them from C.
ghost use Rattle.std.specs.Prelude.{◌≡◌, ◌++◌, OnOk};
ghost use Rattle.std.specs.List.{flat_map};
ghost use Rattle.isp_code.specs.Listing.{routine_of};
ghost use Rattle.isp_native.specs.Text as says;

use crate::page::Page;
use crate::words;
use isp_base::Elem;
use isp_code::{Function, Param, ParamKind, Returns};
use std::alloc::AllocError;

impl Page {
    /// An exported function, by its name; of another nothing.
    pub(crate) fn entry(&mut self, number: usize, function: &Function) -> Result<(), AllocError>
        ensures { OnOk result (self.new ≡ self.old ++ says.entry number (routine_of function.now)) }
    {
        if !function.exported {
            return Ok(());
        }
        self.entry_text(number, function)
    }

    fn entry_text(&mut self, number: usize, function: &Function) -> Result<(), AllocError>
        ensures { OnOk result (self.new ≡ self.old ++ says.entry_text number (routine_of function.now)) }
    {
        self.prototype(function)?;
        self.number("\n{\n    return f", number as u64)?;
        self.text(result_word(function.returns))?;
        self.all_given(&function.params)?;
        self.text(");\n}\n")
    }

    /// The prototype of an exported function; of another nothing.
    pub(crate) fn prototype_line(&mut self, function: &Function) -> Result<(), AllocError>
        ensures { OnOk result (self.new ≡ self.old ++ says.prototype_line (routine_of function.now)) }
    {
        if !function.exported {
            return Ok(());
        }
        self.prototype(function)?;
        self.text(";\n")
    }

    fn prototype(&mut self, function: &Function) -> Result<(), AllocError>
        ensures { OnOk result (self.new ≡ self.old ++ says.prototype (routine_of function.now)) }
    {
        self.text("enum isp_end kernel_")?;
        self.text(function.name.as_str())?;
        self.text("(struct isp_run *run")?;
        self.all_taken(&function.params)?;
        self.entry_result(function.returns)
    }

    fn all_taken(&mut self, params: &[Param]) -> Result<(), AllocError>
        ensures { OnOk result (self.new ≡ self.old ++ flat_map says.entry_param params.now) }
    {
        for param in params {
            self.taken(param.kind, param.name.as_str(), param.elem)?;
        }
        Ok(())
    }

    fn taken(&mut self, kind: ParamKind, name: &str, elem: Elem) -> Result<(), AllocError>
        ensures { OnOk result (self.new ≡ self.old ++ says.taken kind name.now elem) }
    {
        self.text(", ")?;
        self.text(words::c_type(elem))?;
        match kind {
            ParamKind::Array => {
                self.text(" *p_")?;
                self.text(name)?;
                self.text(", uint64_t n_")?;
                self.text(name)
            }
            _ => {
                self.text(" p_")?;
                self.text(name)
            }
        }
    }

    fn entry_result(&mut self, returns: Returns) -> Result<(), AllocError>
        ensures { OnOk result (self.new ≡ self.old ++ says.entry_result returns) }
    {
        match returns {
            Returns::Nothing => self.text(")"),
            Returns::Scalar(elem) | Returns::Vector(elem) => {
                self.text(", ")?;
                self.text(words::c_type(elem))?;
                self.text(" *result)")
            }
        }
    }

    fn all_given(&mut self, params: &[Param]) -> Result<(), AllocError>
        ensures { OnOk result (self.new ≡ self.old ++ flat_map says.given params.now) }
    {
        for param in params {
            self.given(param.kind, param.name.as_str())?;
        }
        Ok(())
    }

    fn given(&mut self, kind: ParamKind, name: &str) -> Result<(), AllocError>
        ensures { OnOk result (self.new ≡ self.old ++ says.given_by kind name.now) }
    {
        self.text(", p_")?;
        self.text(name)?;
        match kind {
            ParamKind::Array => {
                self.text(", n_")?;
                self.text(name)
            }
            _ => Ok(()),
        }
    }
}

fn result_word(returns: Returns) -> &'static str
    ensures { result.now ≡ says.result_word returns }
{
    match returns {
        Returns::Nothing => "(ISP_ENTRY(NULL)",
        _ => "(ISP_ENTRY(result)",
    }
}
