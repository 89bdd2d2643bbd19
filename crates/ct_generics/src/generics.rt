//! What is declared: sorts and generics, and synonyms.
ghost use Rattle.std.specs.Prelude.{◌≡◌, ◌↔◌, ◌<◌, ℕ, [], length, Some, option_map, slice_get, IfSome, IfNone, IsTrue};
ghost use Rattle.ct_generics.specs.declared.heads.StoredHead.{StoredHead};
ghost use Rattle.ct_generics.specs.Declarations.{Declared, Head};
ghost use Rattle.ct_generics.specs.Resolved.{meaning, params_of};
ghost use Rattle.ct_generics.specs.Names.{IsListed};
ghost use Rattle.ct_generics.specs.Synonyms.{first_of};
ghost use Rattle.ct_generics.specs.Stored.{AreDeclared};

use crate::free::is_listed;
use crate::heads::{StoredHead, StoredSynonym};
use crate::items::Items;
use crate::kind::Kind;
use crate::name::Name;
use crate::names::Names;
use crate::nodes::{ExprId, Expressions, HeadId};
use crate::place::find;
use crate::vertices::stored_head;
use std::alloc::Global;

/// The sorts and generics that are declared, each at the index that is its number, and the synonyms.
#[derive(Drop)]
pub struct Generics {
    /// The sorts and generics.
    pub(crate) heads: Items<StoredHead>,
    /// Their names.
    pub(crate) head_names: Names,
    /// The synonyms.
    pub(crate) synonyms: Items<StoredSynonym>,
    /// Their names.
    pub(crate) synonym_names: Names,
}

impl Generics {
    /// No declarations.
    pub fn new(alloc: Global) -> Generics
        ensures nothing { AreDeclared result (record { heads = []; synonyms = [] }) }
    {
        Generics {
            heads: Items::new(Vec::new(alloc)),
            head_names: Names::new(alloc),
            synonyms: Items::new(Vec::new(alloc)),
            synonym_names: Names::new(alloc),
        }
    }

    /// How many sorts and generics there are.
    pub fn head_count(&self) -> usize
        ensures count { (d : Declared) → AreDeclared self.now d → result ≡ length d.heads }
    {
        self.heads.len()
    }

    /// How many synonyms there are.
    pub fn synonym_count(&self) -> usize
        ensures count { (d : Declared) → AreDeclared self.now d → result ≡ length d.synonyms }
    {
        self.synonyms.len()
    }

    /// The name of a sort or generic.
    pub fn head_name(&self, h: HeadId) -> &[u8]
        requires within { (d : Declared) × AreDeclared self.now d × (h.0 < length d.heads) }
        ensures name { (d : Declared) → AreDeclared self.now d → (head : Head) × (slice_get d.heads h.0 ≡ Some head) × (result.now ≡ head.name) }
    {
        stored_head(self.heads.as_slice(), h.0 as usize)
            .name
            .as_slice()
    }

    /// The kind of a sort or generic.
    pub fn head_kind(&self, h: HeadId) -> Kind
        requires within { (d : Declared) × AreDeclared self.now d × (h.0 < length d.heads) }
        ensures kind { (d : Declared) → AreDeclared self.now d → (head : Head) × (slice_get d.heads h.0 ≡ Some head) × (result ≡ head.kind) }
    {
        stored_head(self.heads.as_slice(), h.0 as usize).kind
    }

    /// How many parameters a sort or generic has.
    pub fn head_params(&self, h: HeadId) -> u64
        requires within { (d : Declared) × AreDeclared self.now d × (h.0 < length d.heads) }
        ensures params { (d : Declared) → AreDeclared self.now d → (head : Head) × (slice_get d.heads h.0 ≡ Some head) × (result ≡ head.params) }
    {
        stored_head(self.heads.as_slice(), h.0 as usize).params
    }

    /// The sorts of the fields of each constructor of a sort or generic, among the expressions of its template.
    pub fn rows(&self, h: HeadId) -> &[Items<ExprId>]
        requires within { (d : Declared) × AreDeclared self.now d × (h.0 < length d.heads) }
        ensures value { option_map (λ (stored : StoredHead). stored.ctors) (slice_get self.now.heads h.0) ≡ Some result.now }
    {
        stored_head(self.heads.as_slice(), h.0 as usize)
            .ctors
            .as_slice()
    }

    /// The expressions to which these sorts belong.
    pub fn template(&self, h: HeadId) -> &Expressions
        requires within { (d : Declared) × AreDeclared self.now d × (h.0 < length d.heads) }
        ensures value { option_map (λ (stored : StoredHead). stored.template) (slice_get self.now.heads h.0) ≡ Some result.now }
    {
        &stored_head(self.heads.as_slice(), h.0 as usize).template
    }

    /// Whether there is a synonym of this name.
    pub fn synonym_named(&self, name: &[u8]) -> bool
        ensures listed { IsTrue result ↔ IsListed self.now.synonym_names name.now }
    {
        match self.synonym_names.find(name) {
            Some(_) => true,
            None => false,
        }
    }

    /// The number of the sort or generic of this name, if there is one.
    pub fn head_named(&self, name: &[u8]) -> Option<HeadId>
        ensures some { IfSome result (λ h. (d : Declared) → AreDeclared self.now d → (head : Head) × (slice_get d.heads h.0 ≡ Some head) × (head.name ≡ name.now)) }
        ensures none { IfNone result ((d : Declared) → AreDeclared self.now d → (h : ℕ) (head : Head) → slice_get d.heads h ≡ Some head → head.name ≡ name.now → ⊥) }
    {
        match self.head_names.find(name) {
            Some(h) => Some(HeadId(h as u64)),
            None => None,
        }
    }

    /// How many parameters the sort, generic or synonym of this name has, if there is one.
    pub fn params_named(&self, name: &[u8]) -> Option<u64>
        ensures value { (d : Declared) → AreDeclared self.now d → result ≡ option_map params_of (meaning d name.now) }
    {
        match find(self, name) {
            Some(place) => Some(place.params()),
            None => None,
        }
    }

    /// Whether a sort or generic has this name.
    pub fn has_head(&self, name: &Name) -> bool
        ensures listed { IsTrue result ↔ IsListed self.now.head_names name.now }
    {
        is_listed(&self.head_names, name)
    }

    /// Whether a synonym has this name.
    pub fn has_synonym(&self, name: &Name) -> bool
        ensures listed { IsTrue result ↔ IsListed self.now.synonym_names name.now }
    {
        is_listed(&self.synonym_names, name)
    }

    /// Removes all sorts and generics, and all synonyms, except the first ones.
    pub fn cut_to(&mut self, heads: usize, synonyms: usize)
        ensures first { (d : Declared) → AreDeclared self.old d → AreDeclared self.new (first_of heads synonyms d) }
    {
        self.heads.truncate(heads);
        self.head_names.truncate(heads);
        self.synonyms.truncate(synonyms);
        self.synonym_names.truncate(synonyms);
    }
}
