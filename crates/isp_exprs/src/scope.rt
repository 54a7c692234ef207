//! The names in scope.
ghost use Rattle.std.specs.Prelude.{◌≡◌, ℕ, List, IsSome, bytes_eq, cond, option_map, slice_get, OnErr, OnOk, ◌++◌, ◌∷◌, [], ◌-◌, length, take};
ghost use Rattle.std.specs.BTreeMap.{get_by_text};
ghost use Rattle.isp_exprs.specs.Scopes.{Meaning, is_new, named, visible, next_known, with_name};

use isp_base::Name;
use isp_lex::{Fault, Rule};
use isp_tree::Word;
use isp_typed::{Variable, Verdict};
use std::alloc::{AllocError, Global};
use std::collections::BTreeMap;
use std::marker::Model;

/// A variable of a function: its number, and what it holds.
#[derive(Clone, Copy)]
pub struct Known {
    pub number: usize,
    pub variable: Variable,
}

/// A name in scope: what it stands for, or the fault of its declaration.
#[derive(Drop)]
pub struct Binding {
    pub name: Name,
    pub meaning: Verdict<Known>,
}

/// The names in scope, the oldest first, and where the last binding of each name stands among them.
#[derive(Drop)]
pub struct Scope {
    names: Vec<Binding>,
    /// Of each binding, where the one stands that it hides.
    hidden: Vec<Option<usize>>,
    places: BTreeMap<String, usize>,
}

impl Model for Scope {
    ghost use Rattle.std.specs.Prelude.{◌≡◌, ℕ, List};
    ghost use Rattle.std.specs.BTreeMap.{get_by_text};
    ghost use Rattle.isp_exprs.specs.reader.Scopes.{last_place, hidden_places};
    ghost use Rattle.isp_exprs.specs.declared.scope.Binding.{Binding};

    ghost Value = { List Binding };

    ghost view = { λ s. s.names.items };

    ghost invariant = { λ s. ((w : List ℕ) → get_by_text s.places w ≡ last_place w s.names.items) × (s.hidden.items ≡ hidden_places s.names.items) };
}

/// What the binding at a place stands for.
fn meaning_at(names: &[Binding], place: usize) -> Option<Verdict<Known>>
    ensures { result ≡ option_map (λ b. b.meaning) (slice_get names.now place) }
{
    match names.get(place) {
        Some(binding) => Some(binding.meaning),
        None => None,
    }
}

/// The binding that a gone one hid is seen again under its name. Where it hid none, the name is gone.
fn seen_again(places: &mut BTreeMap<String, usize>, name: &Name, hidden: Option<usize>)
    ensures { IsSome (get_by_text places.old name.now)
        → (w : List ℕ) → get_by_text places.new w ≡ cond (bytes_eq name.now w) hidden (get_by_text places.old w) }
{
    match hidden {
        Some(place) => {
            if let Some(known) = places.get_mut(name.as_str()) {
                *known = place;
            }
        }
        None => {
            places.remove(name.as_str());
        }
    }
}

impl Scope {
    /// No names.
    pub fn new(alloc: Global) -> Scope
        ensures { result ≡ [] }
    {
        Scope {
            names: Vec::new(alloc),
            hidden: Vec::new(alloc),
            places: BTreeMap::new(alloc),
        }
    }

    /// How many bindings there are.
    pub fn len(&self) -> usize
        ensures { result ≡ length self.now }
    {
        self.names.len()
    }

    /// What the last binding of a name stands for.
    fn find(&self, name: &Name) -> Option<Verdict<Known>>
        ensures { result ≡ visible name.now self.now }
    {
        match self.places.get(name.as_str()) {
            Some(place) => meaning_at(&self.names, *place),
            None => None,
        }
    }

    /// What a word stands for. 20 UnknownName at it where nothing declares it.
    pub fn named(&self, word: &Word) -> Verdict<Known>
        ensures { result ≡ named self.now word.now }
    {
        match self.find(&word.name) {
            Some(meaning) => meaning,
            None => Err(Fault {
                rule: Rule::UnknownName,
                span: word.span,
            }),
        }
    }

    /// Whether no binding from `start` on has this name.
    pub fn is_new(&self, name: &Name, start: usize) -> bool
        ensures { result ≡ is_new name.now start self.now }
    {
        match self.places.get(name.as_str()) {
            Some(place) => *place < start,
            None => true,
        }
    }

    /// One more name, in the innermost scope. Where memory is refused, the names stay as they were.
    pub fn push(
        &mut self,
        alloc: Global,
        name: &Name,
        meaning: Verdict<Known>,
    ) -> Result<(), AllocError>
        ensures ok { OnOk result (self.new ≡ self.old ++ record { name = name.now; meaning = meaning } ∷ []) }
        ensures err { OnErr result (self.new ≡ self.old) }
    {
        let key = String::from_str(alloc, name.as_str())?;
        let name = name.copied()?;
        let place = self.names.len();
        let before = self.places.get(name.as_str()).copied();
        self.hidden.push(before)?;
        match self.names.push(Binding { name, meaning }) {
            Ok(()) => {}
            Err(refused) => {
                self.hidden.pop();
                return Err(refused.into());
            }
        }
        match self.places.insert(key, place) {
            Ok(_) => Ok(()),
            Err(refused) => {
                self.names.pop();
                self.hidden.pop();
                Err(refused.into())
            }
        }
    }

    /// The last name is gone, and what it hid is seen again.
    fn pop(&mut self)
        ensures { self.new ≡ take (length self.old - 1) self.old }
    {
        let hidden = self.hidden.pop();
        let Some(binding) = self.names.pop() else {
            return;
        };
        seen_again(&mut self.places, &binding.name, hidden.flatten());
    }

    /// Leaves a scope: the names from `start` on are gone.
    pub fn leave(&mut self, start: usize)
        ensures { self.new ≡ take start self.old }
    {
        while self.len() > start {
            self.pop();
        }
    }
}
