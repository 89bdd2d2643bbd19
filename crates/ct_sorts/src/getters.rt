//! What a signature says about names and numbers.
ghost use Rattle.std.specs.Prelude.{◌≡◌, ℕ, Bool, ◌<◌, ◌≤◌, ◌^◌, List, [], length, map, unwrap_or, Some, None, option_map, slice_get, All, IsTrue, ◌↔◌, IfSome, IfNone, MatchOption};
ghost use Rattle.std.specs.List.{AllZip};
ghost use Rattle.ct_generics.specs.Expression.{Expression, named, head_of, args_of};
ghost use Rattle.ct_generics.specs.Declarations.{Head};
ghost use Rattle.ct_generics.specs.Denoted.{declared_of, sorts_of};
ghost use Rattle.ct_generics.specs.Nodes.{StandFor};
ghost use Rattle.ct_generics.specs.SortTable.{AreSorts};
ghost use Rattle.ct_generics.specs.Stored.{AreDeclared};
ghost use Rattle.ct_sorts.specs.declared.ids.SortId.{SortId as Number};
ghost use Rattle.ct_sorts.specs.Availability.{IsListed, IsUnavailable, core_words};
ghost use Rattle.ct_sorts.specs.Consistent.{IsConsistent, IsOverSorts};
ghost use Rattle.ct_sorts.specs.Declarations.{Function, IsSort, IsConstructor, IsSelector, IsFunction, IsDefinition, function_names, definition_names, sort_names, ctor_names, sel_names, most_sorts, most_functions};
ghost use Rattle.ct_sorts.specs.declared.ids.GenId.{GenId as GenNumber};
ghost use Rattle.ct_sorts.specs.Determined.{AreMarked, DetermineArguments, IsCtorAt};
ghost use Rattle.ct_sorts.specs.Instances.{IsOrigin};
ghost use Rattle.ct_sorts.specs.Kinds.{kind_of};
ghost use Rattle.ct_sorts.specs.Lookup.{ResolvesTo, IsSymbol, AreDistinct, names_of, IsPlainSort, NamesSort, IsGeneric, IsGenericHead, IsSpelled};
ghost use Rattle.ct_sorts.specs.SortText.{sort_text};
ghost use Rattle.ct_sorts.specs.Stored.{ctor_name_at, field_name_at, spelling_at};

use crate::entries::{CtorEntry, SelEntry, SortEntry};
use crate::ids::{CtorId, DefId, FunId, GenId, Kind, SelId, SortId, Symbol};
use crate::indexed::item_at;
use crate::numbered::Numbered;
use crate::signature::Signature;
use crate::spelling::{Home, Spelling};
use crate::tables::Tables;
use ct_generics::{ExprId, Expressions, HeadId, Items, Name, Node, denotations};

impl Signature {
    /// The sort that was declared under this name without parameters, or Bool. None for every other name.
    pub fn sort_named(&self, name: &[u8]) -> Option<SortId>
        ensures value { MatchOption result ((s : SortId) → NamesSort self.now name.now s → ⊥) (NamesSort self.now name.now) }
        ensures inside { IfSome result (IsSort self.now) }
    {
        prove!(self.sorts() > 0);
        match self.tables.generics.head_named(name) {
            Some(head) => plain_sort(&self.tables, head),
            None => None,
        }
    }

    /// What the name stands for: `true` and `false` for the constructors 0 and 1; the other words of the core theory
    /// for nothing. The constructors and selectors of instances have no names of their own: the name is that of the
    /// generic's. `None` where the name is not declared.
    pub fn lookup(&self, name: &[u8]) -> Option<Symbol>
        ensures value { ResolvesTo self.now name.now result }
        ensures truths { (n : ℕ) → n < 2 → slice_get core_words n ≡ Some name.now → result ≡ Some (Symbol.Ctor (record { 0 = n })) }
        ensures words { (n : ℕ) → 2 ≤ n → slice_get core_words n ≡ Some name.now → result ≡ None }
        ensures inside { IfSome result (IsSymbol self.now) }
    {
        prove!(self.sorts() > 0);
        self.find_symbol(name)
    }

    // What stands under the name in one of the three maps of symbols.
    fn find_symbol(&self, name: &[u8]) -> Option<Symbol>
        ensures value { ResolvesTo self.now name.now result }
    {
        match symbol_named(&self.tables, name) {
            Some(symbol) => Some(symbol),
            None => self.find_function(name),
        }
    }

    // The function or the definition of this name.
    fn find_function(&self, name: &[u8]) -> Option<Symbol>
        ensures some { IfSome result (λ x. ResolvesTo self.now name.now (Some x)) }
        ensures none { IfNone result ((IsListed (function_names self.now) name.now → ⊥) × (IsListed (definition_names self.now) name.now → ⊥)) }
    {
        match self.functions.index_of(name) {
            Some(index) => Some(Symbol::Fun(FunId(index as u32))),
            None => self.find_definition(name),
        }
    }

    // The definition of this name.
    fn find_definition(&self, name: &[u8]) -> Option<Symbol>
        ensures some { IfSome result (λ x. ResolvesTo self.now name.now (Some x)) }
        ensures none { IfNone result (IsListed (definition_names self.now) name.now → ⊥) }
    {
        match self.definitions.index_of(name) {
            Some(index) => Some(Symbol::Def(DefId(index as u32))),
            None => None,
        }
    }

    /// The number of sorts, at most 4,096.
    pub fn sorts(&self) -> u32
        ensures count { result ≡ length self.now.sorts }
        ensures few { result ≤ most_sorts }
        ensures has_bool { 1 ≤ result }
        ensures consistent { IsConsistent self.now }
    {
        self.tables.sorts.len() as u32
    }

    /// The kind of a sort.
    pub fn kind(&self, s: SortId) -> Kind
        requires inside { IsSort self.now s }
        ensures value { option_map (λ s. s.kind) (slice_get self.now.sorts s.0) ≡ Some result }
    {
        self.tables.sorts.get(s.0 as usize).kind
    }

    /// The name of a sort: that under which it was declared, or the text of an instance.
    pub fn sort_name(&self, s: SortId) -> &[u8]
        requires inside { IsSort self.now s }
        ensures value { slice_get (sort_names self.now) s.0 ≡ Some result.now }
    {
        name_of_entry(&self.tables.sorts, s.0 as usize)
    }

    /// The constructors of a sort, in order. None for an uninterpreted sort.
    pub fn ctors(&self, s: SortId) -> &[CtorId]
        requires inside { IsSort self.now s }
        ensures value { option_map (λ s. s.ctors) (slice_get self.now.sorts s.0) ≡ Some result.now }
        ensures ctors { All (IsConstructor self.now) result.now }
    {
        self.tables.sorts.get(s.0 as usize).ctors.as_slice()
    }

    /// The name of a constructor.
    pub fn ctor_name(&self, c: CtorId) -> &[u8]
        requires inside { IsConstructor self.now c }
        ensures value { slice_get (ctor_names self.now) c.0 ≡ Some result.now }
    {
        ctor_name(
            self.tables.spellings.as_slice(),
            ctor_entry(&self.tables, c).home,
        )
    }

    /// The sort of a constructor.
    pub fn ctor_sort(&self, c: CtorId) -> SortId
        requires inside { IsConstructor self.now c }
        ensures value { option_map (λ c. c.sort) (slice_get self.now.ctors c.0) ≡ Some result }
        ensures sort { IsSort self.now result }
    {
        ctor_entry(&self.tables, c).sort
    }

    /// The selectors of a constructor, one a field, in order.
    pub fn ctor_sels(&self, c: CtorId) -> &[SelId]
        requires inside { IsConstructor self.now c }
        ensures value { option_map (λ c. c.sels) (slice_get self.now.ctors c.0) ≡ Some result.now }
        ensures sels { All (IsSelector self.now) result.now }
    {
        ctor_entry(&self.tables, c).sels.as_slice()
    }

    /// The name of a selector.
    pub fn sel_name(&self, s: SelId) -> &[u8]
        requires inside { IsSelector self.now s }
        ensures value { slice_get (sel_names self.now) s.0 ≡ Some result.now }
    {
        let entry = sel_entry(&self.tables, s);
        field_name(self.tables.spellings.as_slice(), entry.home, entry.place)
    }

    /// The constructor of a selector.
    pub fn sel_ctor(&self, s: SelId) -> CtorId
        requires inside { IsSelector self.now s }
        ensures value { option_map (λ s. s.ctor) (slice_get self.now.sels s.0) ≡ Some result }
        ensures ctor { IsConstructor self.now result }
    {
        sel_entry(&self.tables, s).ctor
    }

    /// The index of a selector's field among the fields of its constructor, from 0.
    pub fn sel_place(&self, s: SelId) -> u32
        requires inside { IsSelector self.now s }
        ensures value { option_map (λ s. s.place) (slice_get self.now.sels s.0) ≡ Some result }
    {
        sel_entry(&self.tables, s).place
    }

    /// The sort of a selector's field.
    pub fn sel_sort(&self, s: SelId) -> SortId
        requires inside { IsSelector self.now s }
        ensures value { option_map (λ s. s.sort) (slice_get self.now.sels s.0) ≡ Some result }
        ensures sort { IsSort self.now result }
    {
        sel_entry(&self.tables, s).sort
    }

    /// The number of functions, at most 65,536.
    pub fn funs(&self) -> u32
        ensures count { result ≡ length self.now.functions }
        ensures few { result ≤ most_functions }
        ensures distinct { AreDistinct (function_names self.now) }
        ensures available { (f : ℕ) (name : List ℕ) → slice_get (function_names self.now) f ≡ Some name → IsUnavailable [] name → ⊥ }
        ensures over_sorts { (f : ℕ) (declared : Function) → slice_get self.now.functions f ≡ Some declared → IsOverSorts self.now declared }
    {
        self.functions.len() as u32
    }

    /// The name of a function of this signature.
    pub fn fun_name(&self, f: FunId) -> &[u8]
        requires inside { IsFunction self.now f }
        ensures value { slice_get (function_names self.now) f.0 ≡ Some result.now }
    {
        self.functions.name(f.0 as usize)
    }

    /// The sorts of a function's arguments.
    pub fn fun_args(&self, f: FunId) -> &[SortId]
        requires inside { IsFunction self.now f }
        ensures value { option_map (λ f. f.args) (slice_get self.now.functions f.0) ≡ Some result.now }
        ensures sorts { All (IsSort self.now) result.now }
    {
        self.functions.get(f.0 as usize).args.as_slice()
    }

    /// The sort of a function's result.
    pub fn fun_result(&self, f: FunId) -> SortId
        requires inside { IsFunction self.now f }
        ensures value { option_map (λ f. f.result) (slice_get self.now.functions f.0) ≡ Some result }
        ensures sort { IsSort self.now result }
    {
        self.functions.get(f.0 as usize).result
    }

    /// The sorts of a definition's parameters.
    pub fn def_args(&self, d: DefId) -> &[SortId]
        requires inside { IsDefinition self.now d }
        ensures value { option_map (λ d. d.args) (slice_get self.now.definitions d.0) ≡ Some result.now }
        ensures sorts { All (IsSort self.now) result.now }
    {
        self.definitions.get(d.0 as usize).args.as_slice()
    }

    /// The sort of a definition's body.
    pub fn def_result(&self, d: DefId) -> SortId
        requires inside { IsDefinition self.now d }
        ensures value { option_map (λ d. d.result) (slice_get self.now.definitions d.0) ≡ Some result }
        ensures sort { IsSort self.now result }
    {
        self.definitions.get(d.0 as usize).result
    }

    /// The generic of which the sort is an instance: none for Bool and the sorts declared without parameters.
    pub fn sort_gen(&self, s: SortId) -> Option<GenId>
        requires inside { IsSort self.now s }
        ensures value { (e : Expression) → IsOrigin self.now s e → MatchOption result (IsPlainSort self.now s) (λ g. (head_of e ≡ Some g.0) × IsGeneric self.now g) }
    {
        gen_of(&self.tables, self.tables.sorts.get(s.0 as usize).head)
    }

    /// The arguments of an instance; none for Bool and the sorts declared without parameters.
    pub fn sort_args(&self, s: SortId) -> &[SortId]
        requires inside { IsSort self.now s }
        ensures value { (e : Expression) → IsOrigin self.now s e → AllZip (IsOrigin self.now) result.now (args_of e) }
    {
        self.tables.sorts.get(s.0 as usize).args.as_slice()
    }

    /// The text of a sort: names are quoted if necessary, and an instance is the list of its generic and its arguments,
    /// with single spaces.
    pub fn sort_text(&self, s: SortId) -> &[u8]
        requires inside { IsSort self.now s }
        ensures value { (e : Expression) → IsOrigin self.now s e → result.now ≡ sort_text self.now.declared.heads e }
    {
        self.tables.sorts.name(s.0 as usize)
    }

    /// The sort with this text, if there is one.
    pub fn sort_with_text(&self, text: &[u8]) -> Option<SortId>
        ensures value { MatchOption result
            ((s : SortId) (e : Expression) → IsOrigin self.now s e → sort_text self.now.declared.heads e ≡ text.now → ⊥)
            (λ s. (e : Expression) × IsOrigin self.now s e × (sort_text self.now.declared.heads e ≡ text.now)) }
    {
        match self.tables.sorts.index_of(text) {
            Some(index) => Some(SortId(index as u32)),
            None => None,
        }
    }

    /// Whether the sorts of its fields determine the constructor's sort: each parameter of its generic occurs in them. So it
    /// is for each constructor of a sort without arguments.
    pub fn determined(&self, c: CtorId) -> bool
        requires inside { IsConstructor self.now c }
        ensures value { (h i : ℕ) (head : Head) → IsCtorAt self.now c h i → slice_get self.now.declared.heads h ≡ Some head → IsTrue result ↔ DetermineArguments head i }
    {
        is_determined(&self.tables, ctor_entry(&self.tables, c).home)
    }

    /// The number of sorts without parameters and generics.
    pub fn heads(&self) -> u32
        ensures count { result ≡ length self.now.declared.heads }
    {
        self.tables.generics.head_count() as u32
    }

    /// The generic of this name, if there is one.
    pub fn generic_named(&self, name: &[u8]) -> Option<GenId>
        ensures value { MatchOption result
            ((g : GenNumber) (head : Head) → IsGenericHead self.now g head → head.name ≡ name.now → ⊥)
            (λ g. (head : Head) × IsGenericHead self.now g head × (head.name ≡ name.now)) }
    {
        match self.tables.generics.head_named(name) {
            Some(head) => gen_of(&self.tables, head.0),
            None => None,
        }
    }

    /// The name of a generic.
    pub fn gen_name(&self, g: GenId) -> &[u8]
        requires generic { IsGeneric self.now g }
        ensures value { (head : Head) → IsGenericHead self.now g head → result.now ≡ head.name }
    {
        self.tables.generics.head_name(HeadId(u64::from(g.0)))
    }

    /// The kind of the instances of a generic.
    pub fn gen_kind(&self, g: GenId) -> Kind
        requires generic { IsGeneric self.now g }
        ensures value { (head : Head) → IsGenericHead self.now g head → result ≡ kind_of head.kind }
    {
        crate::kinds::kind_of(self.tables.generics.head_kind(HeadId(u64::from(g.0))))
    }

    /// How many parameters a generic has.
    pub fn gen_params(&self, g: GenId) -> u64
        requires generic { IsGeneric self.now g }
        ensures value { (head : Head) → IsGenericHead self.now g head → result ≡ head.params }
    {
        self.tables.generics.head_params(HeadId(u64::from(g.0)))
    }

    /// The number of constructors of a generic: none of an uninterpreted one.
    pub fn gen_ctors(&self, g: GenId) -> u32
        requires generic { IsGeneric self.now g }
        ensures count { (head : Head) → IsGenericHead self.now g head → result ≡ length head.ctors }
    {
        denotations();
        self.tables.generics.rows(HeadId(u64::from(g.0))).len() as u32
    }

    /// The sorts of the fields of a generic's constructor, over its parameters, and the expressions to which they
    /// belong. Synonyms are expanded in them.
    pub fn gen_fields(&self, g: GenId, ctor: u32) -> (&Expressions, &[ExprId])
        requires generic { IsGeneric self.now g }
        requires below { (head : Head) → IsGenericHead self.now g head → ctor < length head.ctors }
        ensures value { (head : Head) (row : List Expression) → IsGenericHead self.now g head → slice_get head.ctors ctor ≡ Some row → StandFor result.0.now result.1.now row }
    {
        denotations();
        let head = HeadId(u64::from(g.0));
        let template = self.tables.generics.template(head);
        let rows = self.tables.generics.rows(head);
        (template, row_at(rows, ctor as usize))
    }

    /// Whether the sorts of its fields determine the arguments of a generic's constructor.
    pub fn gen_determined(&self, g: GenId, ctor: u32) -> bool
        requires generic { IsGeneric self.now g }
        ensures value { (head : Head) → IsGenericHead self.now g head → IsTrue result ↔ DetermineArguments head ctor }
    {
        let home = Home {
            head: u64::from(g.0),
            ctor: u64::from(ctor),
        };
        is_determined(&self.tables, home)
    }
}

// The row at an index.
fn row_at(rows: &[Items<ExprId>], index: usize) -> &[ExprId]
    requires within { index < length rows.now }
    ensures value { slice_get rows.now index ≡ Some result.now }
{
    rows[index].as_slice()
}

// The sort that was declared without parameters under this number, if it was.
fn plain_sort(tables: &Tables, head: HeadId) -> Option<SortId>
    requires stand { AreSorts tables.now.table (sorts_of tables.now.table) }
    requires few { length tables.now.table.sorts < 2 ^ 32 }
    ensures some { IfSome result (λ s. slice_get (sorts_of tables.now.table) s.0 ≡ Some (named head.0)) }
    ensures none { IfNone result ((s : ℕ) → slice_get (sorts_of tables.now.table) s ≡ Some (named head.0) → ⊥) }
{
    denotations();
    match tables.table.expressions.find(Node::Head(head)) {
        Some(id) => sort_of(tables, id),
        None => None,
    }
}

// The sort with this number among the expressions, if it is one.
fn sort_of(tables: &Tables, id: ExprId) -> Option<SortId>
    requires few { length tables.now.table.sorts < 2 ^ 32 }
    ensures some { IfSome result (λ s. slice_get tables.now.table.sorts s.0 ≡ Some id) }
    ensures none { IfNone result ((s : ℕ) → slice_get tables.now.table.sorts s ≡ Some id → ⊥) }
{
    match tables.table.sorts.index_of(id) {
        Some(index) => Some(SortId(index as u32)),
        None => None,
    }
}

// The generic with this number, if it is one.
fn gen_of(tables: &Tables, head: u64) -> Option<GenId>
    requires declared { AreDeclared tables.now.generics (declared_of tables.now.generics) }
    requires within { head < length (declared_of tables.now.generics).heads }
    requires few { length (declared_of tables.now.generics).heads < 2 ^ 32 }
    ensures value { (known : Head) → slice_get (declared_of tables.now.generics).heads head ≡ Some known → MatchOption result (known.params ≡ 0) (λ g. (g.0 ≡ head) × (0 < known.params)) }
{
    if tables.generics.head_params(HeadId(head)) == 0 {
        return None;
    }
    Some(GenId(head as u32))
}

// Whether the parameters occur in the fields of the constructor.
fn is_determined(tables: &Tables, home: Home) -> bool
    requires marked { AreMarked (declared_of tables.now.generics).heads tables.now.determined }
    ensures value { (head : Head) → slice_get (declared_of tables.now.generics).heads home.head ≡ Some head → IsTrue result ↔ DetermineArguments head home.ctor }
{
    match item_at(tables.determined.as_slice(), home.head as usize) {
        None => true,
        Some(ctors) => is_marked(ctors.as_slice(), home.ctor as usize),
    }
}

// The mark at an index, true where there is none.
fn is_marked(marks: &[bool], index: usize) -> bool
    ensures some { (mark : Bool) → slice_get marks.now index ≡ Some mark → result ≡ mark }
    ensures none { slice_get marks.now index ≡ None → IsTrue result }
{
    match item_at(marks, index) {
        None => true,
        Some(mark) => *mark,
    }
}

// The name of a sort.
fn name_of_entry(sorts: &Numbered<SortEntry>, index: usize) -> &[u8]
    requires inside { index < length sorts.now }
    ensures name { option_map (λ e. unwrap_or e.1.name e.0) (slice_get sorts.now index) ≡ Some result.now }
{
    match &sorts.get(index).name {
        Some(name) => name.as_slice(),
        None => sorts.name(index),
    }
}

// What stands under the name among the constructors and selectors of sorts without parameters and of generics.
fn symbol_named(tables: &Tables, name: &[u8]) -> Option<Symbol>
    ensures some { IfSome result (λ symbol. (n : ℕ) × (slice_get tables.now.symbols n ≡ Some (name.now, symbol))) }
    ensures none { IfNone result (IsListed (names_of tables.now.symbols) name.now → ⊥) }
{
    match tables.symbols.index_of(name) {
        Some(index) => Some(*tables.symbols.get(index)),
        None => None,
    }
}

// The entry of a constructor.
fn ctor_entry(tables: &Tables, c: CtorId) -> &CtorEntry
    requires inside { c.0 < length tables.now.ctors }
    ensures value { slice_get tables.now.ctors c.0 ≡ Some result.now }
{
    &tables.ctors.as_slice()[c.0 as usize]
}

// The entry of a selector.
fn sel_entry(tables: &Tables, s: SelId) -> &SelEntry
    requires inside { s.0 < length tables.now.sels }
    ensures value { slice_get tables.now.sels s.0 ≡ Some result.now }
{
    &tables.sels.as_slice()[s.0 as usize]
}

// The name of a constructor, empty where there is none.
fn ctor_name(spellings: &[Items<Spelling>], home: Home) -> &[u8]
    ensures value { result.now ≡ ctor_name_at spellings.now home }
{
    match spelling_of(spellings, home) {
        None => &[],
        Some(spelling) => spelling.name.as_slice(),
    }
}

// The name of a field of a constructor, empty where there is none.
fn field_name(spellings: &[Items<Spelling>], home: Home, place: u32) -> &[u8]
    ensures value { result.now ≡ field_name_at spellings.now home place }
{
    match spelling_of(spellings, home) {
        None => &[],
        Some(spelling) => name_at(spelling.fields.as_slice(), place as usize),
    }
}

// The name at an index, empty where there is none.
fn name_at(names: &[Name], index: usize) -> &[u8]
    ensures value { result.now ≡ unwrap_or (slice_get names.now index) [] }
{
    match item_at(names, index) {
        None => &[],
        Some(name) => name.as_slice(),
    }
}

// The names of a constructor and its fields.
fn spelling_of(spellings: &[Items<Spelling>], home: Home) -> Option<&Spelling>
    ensures some { IfSome result (λ s. spelling_at spellings.now home ≡ Some s.now) }
    ensures none { IfNone result (spelling_at spellings.now home ≡ None) }
{
    match item_at(spellings, home.head as usize) {
        None => None,
        Some(ctors) => item_at(ctors.as_slice(), home.ctor as usize),
    }
}
