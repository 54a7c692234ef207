//! Code: what the machine runs.
ghost use Rattle.std.specs.Prelude.{◌≡◌, ◌<◌, [], ◌∷◌, ◌++◌, length, map, slice_get, true, false, Some, IfOk, IfErr, OnOk, OnErr};
ghost use Rattle.isp_code.specs.Listing.{routine_of};
ghost use Rattle.isp_code.specs.Writable.{place_fits, text_fits, has_byte, routine_fits, parts_fit, table_has_room, IsWritable};
ghost use Rattle.isp_code.specs.declared.limit.CodeLimit.TheVariants.{Memory, OverLimit};

use crate::function::Function;
use crate::limit::CodeLimit;
use crate::writable;
use isp_base::{Gang, Span};
use std::alloc::Global;
use std::marker::Model;

/// The numbers that name a place or a text.
const TABLE_LIMIT: usize = 1 << 32;

/// Code for a gang: its places in the source, its texts and its functions, each by number from 0.
///
/// It holds nothing that the text of code cannot have: places and texts are named by numbers below
/// 4,294,967,296, names are words, local arrays have 1 to 65,536 elements, constants have 64 bits.
#[derive(Drop)]
pub struct Code {
    gang: Gang,
    places: Vec<Span>,
    texts: Vec<Vec<u8>>,
    functions: Vec<Function>,
}

impl Model for Code {
    ghost use Rattle.std.specs.Prelude.{map};
    ghost use Rattle.isp_code.specs.Listing.{Listing, routine_of};
    ghost use Rattle.isp_code.specs.Writable.{IsWritable};

    ghost Value = { Listing };

    ghost view = { λ c. record { gang = c.gang; places = c.places.items; texts = map (λ t. t.items) c.texts.items; routines = map routine_of c.functions.items } };

    ghost invariant = { λ c. IsWritable (record { gang = c.gang; places = c.places.items; texts = map (λ t. t.items) c.texts.items; routines = map routine_of c.functions.items }) };
}

impl Code {
    /// Code without places, texts and functions.
    pub fn new(alloc: Global, gang: Gang) -> Code
        ensures { result ≡ record { gang = gang; places = []; texts = []; routines = [] } }
    {
        Code {
            gang,
            places: Vec::new(alloc),
            texts: Vec::new(alloc),
            functions: Vec::new(alloc),
        }
    }

    /// The gang that the code is for.
    pub fn gang(&self) -> Gang
        ensures { result ≡ self.now.gang }
    {
        self.gang
    }

    /// The places in the source, by number.
    pub fn places(&self) -> &[Span]
        ensures { result.now ≡ self.now.places }
    {
        self.places.as_slice()
    }

    /// How many texts there are.
    pub fn text_count(&self) -> usize
        ensures { result ≡ length self.now.texts }
    {
        self.texts.len()
    }

    /// A text, by number.
    pub fn text(&self, number: usize) -> &[u8]
        requires { number < length self.now.texts }
        ensures { slice_get self.now.texts number ≡ Some result.now }
    {
        self.texts[number].as_slice()
    }

    /// The functions, by number.
    pub fn functions(&self) -> &[Function]
        ensures same { map routine_of result.now ≡ self.now.routines }
        ensures writable { IsWritable self.now }
    {
        self.functions.as_slice()
    }

    /// Adds a place and gives its number. 0 where memory is refused; 46 where the place ends before it starts or
    /// after byte 1,048,576, or there are 4,294,967,296 places. The code is then as before.
    pub fn add_place(&mut self, place: Span) -> Result<u32, CodeLimit>
        ensures number { IfOk result (λ n. n ≡ length self.old.places) }
        ensures added { OnOk result (self.new ≡ record self.old { places = self.old.places ++ place ∷ [] }) }
        ensures fits { OnOk result (table_has_room self.old.places (place_fits place) ≡ true) }
        ensures refused { IfErr result (λ e. e ≡ OverLimit → table_has_room self.old.places (place_fits place) ≡ false) }
        ensures memory { IfErr result (λ e. e ≡ Memory → table_has_room self.old.places (place_fits place) ≡ true) }
        ensures unchanged { OnErr result (self.new ≡ self.old) }
    {
        let number = self.places.len();
        if number >= TABLE_LIMIT || !writable::place_fits(place) {
            return Err(CodeLimit::OverLimit);
        }
        self.places.push(place)?;
        Ok(number as u32)
    }

    /// Adds a text and gives its number. 0 where memory is refused; 46 where the text has no byte, or there are
    /// 4,294,967,296 texts. The code is then as before.
    pub fn add_text(&mut self, text: &[u8]) -> Result<u32, CodeLimit>
        ensures number { IfOk result (λ n. n ≡ length self.old.texts) }
        ensures added { OnOk result (self.new ≡ record self.old { texts = self.old.texts ++ text.now ∷ [] }) }
        ensures fits { OnOk result (table_has_room self.old.texts (text_fits text.now) ≡ true) }
        ensures refused { IfErr result (λ e. e ≡ OverLimit → table_has_room self.old.texts (text_fits text.now) ≡ false) }
        ensures typed { IfErr result (λ e. e ≡ OverLimit → table_has_room self.old.texts (has_byte text.now) ≡ false) }
        ensures memory { IfErr result (λ e. e ≡ Memory → table_has_room self.old.texts (text_fits text.now) ≡ true) }
        ensures unchanged { OnErr result (self.new ≡ self.old) }
    {
        let number = self.texts.len();
        if number >= TABLE_LIMIT || !writable::text_fits(text) {
            return Err(CodeLimit::OverLimit);
        }
        let alloc = *self.texts.allocator();
        self.texts.push(Vec::from_slice(alloc, text)?)?;
        Ok(number as u32)
    }

    /// Adds a function. 0 where memory is refused; 46 where its name or a parameter's is no word, a local array
    /// has no element or more than 65,536, or a constant is no value of 64 bits. The code is then as before, and
    /// the function comes back.
    pub fn add_function(&mut self, function: Function) -> Result<(), (Function, CodeLimit)>
        ensures added { OnOk result (self.new ≡ record self.old { routines = self.old.routines ++ routine_of function ∷ [] }) }
        ensures fits { OnOk result (routine_fits (routine_of function) ≡ true) }
        ensures refused { IfErr result (λ e. e.1 ≡ OverLimit → routine_fits (routine_of function) ≡ false) }
        ensures typed { IfErr result (λ e. e.1 ≡ OverLimit → parts_fit (routine_of function) ≡ false) }
        ensures memory { IfErr result (λ e. e.1 ≡ Memory → routine_fits (routine_of function) ≡ true) }
        ensures unchanged { OnErr result (self.new ≡ self.old) }
        ensures returned { IfErr result (λ e. e.0 ≡ function) }
    {
        if !writable::function_fits(&function) {
            return Err((function, CodeLimit::OverLimit));
        }
        match self.functions.push(function) {
            Ok(()) => Ok(()),
            Err(failed) => Err((failed.value, CodeLimit::Memory)),
        }
    }
}
