//! What is stored for a name.
ghost use Rattle.std.specs.Prelude.{◌≡◌, ◌<◌, ℕ, List, length, Option, Some, None, slice_get, position, option_map, IfSome, IfNone};
ghost use Rattle.std.specs.Str.{bytes_eq};
ghost use Rattle.ct_generics.specs.Declarations.{Declared, Head, Synonym};
ghost use Rattle.ct_generics.specs.Resolved.{Meaning, a_head, a_synonym, meaning, named_head, named_synonym, params_of};
ghost use Rattle.ct_generics.specs.Stored.{AreDeclared, IsFound};

use crate::generics::Generics;
use crate::heads::StoredSynonym;
use crate::nodes::HeadId;
use crate::vertices::at_index;

/// What is stored under a name, and how many arguments it takes.
#[derive(Clone, Copy, Debug)]
pub(crate) enum Place {
    /// The sort or generic with this number.
    Head(HeadId, u64),
    /// The synonym at this index.
    Synonym(usize, u64),
}

impl Place {
    /// How many arguments it takes.
    pub(crate) fn params(self) -> u64
        ensures params { (g : Generics) (m : Meaning) → IsFound g self m → result ≡ params_of m }
    {
        match self {
            Place::Head(_, params) => params,
            Place::Synonym(_, params) => params,
        }
    }
}

/// What is stored under a name.
pub(crate) fn find(g: &Generics, name: &[u8]) -> Option<Place>
    ensures some { IfSome result (λ place. (d : Declared) → AreDeclared g.now d → (m : Meaning) × (meaning d name.now ≡ Some m) × IsFound g.now place m) }
    ensures none { IfNone result ((d : Declared) → AreDeclared g.now d → meaning d name.now ≡ None) }
{
    match find_head(g, name) {
        Some(place) => Some(place),
        None => find_synonym(g, name),
    }
}

// The sort or generic of a name.
fn find_head(g: &Generics, name: &[u8]) -> Option<Place>
    ensures some { IfSome result (λ place. (d : Declared) → AreDeclared g.now d → (m : Meaning) × (named_head d.heads name.now ≡ Some m) × IsFound g.now place m) }
    ensures none { IfNone result ((d : Declared) → AreDeclared g.now d → named_head d.heads name.now ≡ None) }
{
    match g.head_names.find(name) {
        Some(h) => head_place(g, h),
        None => None,
    }
}

// The sort or generic at an index.
fn head_place(g: &Generics, h: usize) -> Option<Place>
    ensures some { IfSome result (λ place. (d : Declared) → AreDeclared g.now d → (hd : Head) × (slice_get d.heads h ≡ Some hd) × IsFound g.now place (a_head h hd.params)) }
    ensures none { IfNone result ((d : Declared) → AreDeclared g.now d → slice_get d.heads h ≡ None) }
{
    match at_index(g.heads.as_slice(), h) {
        Some(stored) => Some(Place::Head(HeadId(h as u64), stored.params)),
        None => None,
    }
}

// The synonym of a name.
fn find_synonym(g: &Generics, name: &[u8]) -> Option<Place>
    ensures some { IfSome result (λ place. (d : Declared) → AreDeclared g.now d → (m : Meaning) × (named_synonym d.synonyms name.now ≡ Some m) × IsFound g.now place m) }
    ensures none { IfNone result ((d : Declared) → AreDeclared g.now d → named_synonym d.synonyms name.now ≡ None) }
{
    match g.synonym_names.find(name) {
        Some(i) => synonym_place(g, i),
        None => None,
    }
}

// The synonym at an index.
fn synonym_place(g: &Generics, i: usize) -> Option<Place>
    ensures some { IfSome result (λ place. (d : Declared) → AreDeclared g.now d → (s : Synonym) × (slice_get d.synonyms i ≡ Some s) × IsFound g.now place (a_synonym s)) }
    ensures none { IfNone result ((d : Declared) → AreDeclared g.now d → slice_get d.synonyms i ≡ None) }
{
    match synonym_at(g.synonyms.as_slice(), i) {
        Some(stored) => Some(Place::Synonym(i, stored.params)),
        None => None,
    }
}

/// The synonym at an index, if it is one.
pub(crate) fn synonym_at(synonyms: &[StoredSynonym], i: usize) -> Option<&StoredSynonym>
    ensures found { IfSome result (λ stored. slice_get synonyms.now i ≡ Some stored.now) }
    ensures none { IfNone result (slice_get synonyms.now i ≡ None) }
{
    if i < synonyms.len() {
        return Some(stored_synonym(synonyms, i));
    }
    None
}

/// The synonym at an index.
pub(crate) fn stored_synonym(synonyms: &[StoredSynonym], i: usize) -> &StoredSynonym
    requires within { i < length synonyms.now }
    ensures value { slice_get synonyms.now i ≡ Some result.now }
{
    &synonyms[i]
}
