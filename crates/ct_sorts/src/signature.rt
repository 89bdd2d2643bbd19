//! The signature: all declarations, how they grow and how they are cut back.

ghost use Rattle.std.specs.Prelude.{◌≡◌, ◌||◌, ℕ, List, ◌<◌, ◌≤◌, ◌⊎◌, ◌↔◌, [], length, Some, None, slice_get, All, IsTrue, IfSome, MatchOption, OnOk, OnErr, IfOk, IfErr, IfNone, IsErrOf, Ok};
ghost use Rattle.ct_generics.specs.declared.kind.Kind.TheVariants.{Free as OfFree};
ghost use Rattle.ct_generics.specs.Expression.{Expression};
ghost use Rattle.ct_generics.specs.Resolved.{resolved};
ghost use Rattle.ct_sorts.specs.Availability.{IsListed, IsUnavailable, IsUnavailableSort};
ghost use Rattle.ct_sorts.specs.Consistent.{IsConsistent};
ghost use Rattle.ct_sorts.specs.Declarations.{Declarations, Function, IsSort, start, symbol_names, declared_names, most_sorts, most_functions, most_definitions, with_sort, with_head, with_function, with_definition};
ghost use Rattle.ct_sorts.specs.Limits.{sort_count};
ghost use Rattle.ct_sorts.specs.Refusals.{name_taken, symbol_taken, too_many};
ghost use Rattle.ct_sorts.specs.Block.{IsBlockRefusal, IsWithBlock};
ghost use Rattle.ct_sorts.specs.Synonyms.{IsWithSynonym, IsSynonymRefusal};
ghost use Rattle.ct_sorts.specs.Instances.{IsOrigin, IsWithInstance, IsInstanceRefusal};
ghost use Rattle.ct_sorts.specs.Grown.{Extends};
ghost use Rattle.ct_sorts.specs.Growing.{HaveGrown, IsStanding};
ghost use Rattle.ct_sorts.specs.Marks.{CanCut, cut, lengths};
ghost use Rattle.ct_sorts.specs.Tabled.{of_tables, IsTabled};
ghost use Rattle.ct_sorts.specs.Written.{AreParametersBelow, AreBlockParametersBelow};

use crate::admit::{admit_block, has_no_constructor};
use crate::block::declare_block;
use crate::entries::FunctionEntry;
use crate::error::SigError;
use crate::free::declare_free;
use crate::ids::{Declared, DefId, FunId, GenId, Kind, SortId};
use crate::instances::{add_instance, find_instance};
use crate::limits::{MOST_SORTS, sort_count};
use crate::mark::Mark;
use crate::numbered::Numbered;
use crate::refusals::{NAME_TAKEN, NO_CONSTRUCTOR, SYMBOL_TAKEN, TOO_MANY};
use crate::start::start_tables;
use crate::synonyms::declare_synonym;
use crate::tables::{Tables, copy_tables, cut_tables};
use crate::unavailable::{is_core_word, is_unfit};
use ct_generics::{Items, Name, SortDecl, SortExpr};
use std::alloc::Global;
use std::marker::Model;

/// The most functions that a signature holds.
const MOST_FUNCTIONS: usize = 65_536;

/// The most definitions that a signature holds.
const MOST_DEFINITIONS: usize = 65_536;

/// The sorts and symbols that a script has declared.
#[derive(Drop)]
pub struct Signature {
    pub(crate) alloc: Global,
    pub(crate) tables: Tables,
    // In both maps an index is a number.
    pub(crate) functions: Numbered<FunctionEntry>,
    pub(crate) definitions: Numbered<FunctionEntry>,
}

impl Model for Signature {
    ghost use Rattle.ct_sorts.specs.Declarations.{Declarations};

    ghost Value = { Declarations };

    ghost use Rattle.std.specs.Coded.{codes};
    ghost use Rattle.ct_sorts.specs.ExpressionCode.{coded_expression};

    ghost coded = { Prim.hlevel (codes, coded_expression) };

    ghost use Rattle.ct_sorts.specs.Inside.{declarations, IsKept};

    ghost view = { declarations };

    ghost invariant = { IsKept };
}

impl Signature {
    /// The signature of Bool alone, with its constructors `true` and `false`. Its only error is `NoMemory`.
    pub fn new(alloc: Global) -> Result<Signature, SigError>
        ensures ok { IfOk result (λ s. s ≡ start) }
        ensures err { IfErr result (λ e. e ≡ SigError.NoMemory) }
    {
        let tables = start_tables(alloc)?;
        Ok(Signature {
            alloc,
            tables,
            functions: Numbered::new(alloc),
            definitions: Numbered::new(alloc),
        })
    }

    /// An equal signature. Its only error is `NoMemory`.
    pub fn copy(&self) -> Result<Signature, SigError>
        ensures ok { IfOk result (λ s. s ≡ self.now) }
        ensures err { IfErr result (λ e. e ≡ SigError.NoMemory) }
    {
        let functions = self.functions.copy(self.alloc)?;
        let definitions = self.definitions.copy(self.alloc)?;
        let tables = copy_tables(self.alloc, &self.tables)?;
        Ok(Signature {
            alloc: self.alloc,
            tables,
            functions,
            definitions,
        })
    }

    /// Declares an uninterpreted sort. It is refused with 11 where the name is taken by a sort, a generic or a synonym or
    /// cannot be declared, and else with 16 where there are 4,096 of these. A refusal changes nothing.
    pub fn add_free(&mut self, name: Name) -> Result<SortId, SigError>
        ensures ok { IfOk result (λ s. (s.0 ≡ length self.old.sorts)
            × (self.new ≡ with_sort self.old (record { name = name; kind = Kind.Free; ctors = [] }))) }
        ensures taken { IsErrOf result (SigError.Refused name_taken) ↔ IsUnavailableSort (declared_names self.old) name }
        ensures full { IsErrOf result (SigError.Refused too_many)
            ↔ ((IsUnavailableSort (declared_names self.old) name → ⊥) × (most_sorts ≤ sort_count self.old)) }
        ensures codes { (n : ℕ) → IsErrOf result (SigError.Refused n) → (n ≡ name_taken) ⊎ (n ≡ too_many) }
        ensures refused { OnErr result (self.new ≡ self.old) }
    {
        self.refuse_name(&name)?;
        self.refuse_one_more()?;
        let mark = self.mark();
        let count = self.tables.sorts.len();
        declare_free(self.alloc, &mut self.tables, &mark, &name, 0)?;
        Ok(SortId(count as u32))
    }

    /// Declares an uninterpreted sort with parameters, 1 to 255 of them (SMT-LIB 2.7, section 4.2.3, `declare-sort`). It is
    /// refused as `add_free` is. A refusal changes nothing.
    pub fn add_free_generic(&mut self, name: Name, params: u32) -> Result<GenId, SigError>
        requires some { 1 ≤ params }
        requires few { params ≤ 255 }
        ensures ok { IfOk result (λ g. (g.0 ≡ length self.old.declared.heads)
            × (self.new ≡ with_head self.old (record { name = name; kind = OfFree; params = params; ctors = [] }) [])) }
        ensures taken { IsErrOf result (SigError.Refused name_taken) ↔ IsUnavailableSort (declared_names self.old) name }
        ensures full { IsErrOf result (SigError.Refused too_many)
            ↔ ((IsUnavailableSort (declared_names self.old) name → ⊥) × (most_sorts ≤ sort_count self.old)) }
        ensures codes { (n : ℕ) → IsErrOf result (SigError.Refused n) → (n ≡ name_taken) ⊎ (n ≡ too_many) }
        ensures refused { OnErr result (self.new ≡ self.old) }
    {
        self.refuse_name(&name)?;
        self.refuse_one_more()?;
        let mark = self.mark();
        let count = self.tables.generics.head_count();
        declare_free(self.alloc, &mut self.tables, &mark, &name, params as u64)?;
        Ok(GenId(count as u32))
    }

    /// Declares the sorts and generics of a block, which may name each other, with their constructors and selectors, and
    /// gives their numbers; the sorts of fields come into the list with all that they need. The kind is `Data` or `Codata`.
    /// The block is refused with the first of these that applies, and a refusal changes nothing:
    ///
    /// 1. 11 where a name is taken in its space, repeated in it, or cannot be declared;
    /// 2. 13 where a sort or generic has no constructor;
    /// 3. 12 at an unknown name and 22 at a wrong number of arguments in the sort of a field, by place;
    /// 4. 18 where a name of the block stands at other arguments than the parameters of the declaration;
    /// 5. 16 where one of its sorts or generics, at its own parameters, reaches more than 4,096 sort expressions, or one
    ///    whose text is longer than 65,536 bytes;
    /// 6. 17 where a datatype and a codatatype that one of them reaches reach each other;
    /// 7. 14 where the kind is `Data` and one of them is not well founded;
    /// 8. 16 where there would be more than 4,096 sorts, generics and synonyms, 16,384 constructors or 65,536 selectors, or
    ///    where a sort that comes with a field has a text longer than 65,536 bytes.
    ///
    /// An empty block adds nothing.
    pub fn add_block(&mut self, kind: Kind, decls: Vec<SortDecl>) -> Result<Vec<Declared>, SigError>
        requires kind { (kind ≡ Kind.Data) ⊎ (kind ≡ Kind.Codata) }
        requires parameters { AreBlockParametersBelow decls.items }
        ensures ok { IfOk result (λ given. IsWithBlock self.old kind decls.items given.items self.new) }
        ensures accepted { OnOk result ((n : ℕ) → IsBlockRefusal self.old kind decls.items n → ⊥) }
        ensures refused { (n : ℕ) → IsErrOf result (SigError.Refused n) → IsBlockRefusal self.old kind decls.items n }
        ensures unchanged { OnErr result (self.new ≡ self.old) }
    {
        let block = decls.as_slice();
        admit_block(self.alloc, self, block)?;
        if has_no_constructor(block) {
            return Err(SigError::Refused(NO_CONSTRUCTOR));
        }
        let mark = self.mark();
        declare_block(self.alloc, &mut self.tables, &mark, kind, block)
    }

    /// Declares a synonym of a sort expression with a number of parameters (SMT-LIB 2.7, section 4.2.3, `define-sort`).
    /// It is refused with 11 where the name is taken or cannot be declared; then with 12 at an unknown name and 22 at a
    /// wrong number of arguments in the body, by place; and then with 16 where the text of the body is longer than
    /// 65,536 bytes or where there are 4,096 sorts, generics and synonyms. A refusal changes nothing.
    pub fn add_synonym(&mut self, name: Name, params: u64, body: SortExpr) -> Result<(), SigError>
        requires parameters { AreParametersBelow params body }
        ensures ok { OnOk result (IsWithSynonym self.old name params body self.new) }
        ensures accepted { OnOk result ((n : ℕ) → IsSynonymRefusal self.old name body n → ⊥) }
        ensures refused { (n : ℕ) → IsErrOf result (SigError.Refused n) → IsSynonymRefusal self.old name body n }
        ensures unchanged { OnErr result (self.new ≡ self.old) }
    {
        self.refuse_name(&name)?;
        let mark = self.mark();
        declare_synonym(self.alloc, &mut self.tables, &mark, &name, params, &body)
    }

    /// The number of a written sort; if it is not in the list, it is added: after its arguments, and before the sorts
    /// of its fields. It is refused with 12 at an unknown name and 22 at a wrong number of arguments, by place, and
    /// then with 16 where a sort that would come has a text longer than 65,536 bytes or where there would be more
    /// sorts, constructors or selectors than there may be. A refusal changes nothing.
    pub fn instance(&mut self, expr: &SortExpr) -> Result<SortId, SigError>
        requires closed { AreParametersBelow 0 expr.now }
        ensures ok { IfOk result (λ s. IsWithInstance self.old expr.now self.new s) }
        ensures accepted { OnOk result ((n : ℕ) → IsInstanceRefusal self.old expr.now n → ⊥) }
        ensures refused { (n : ℕ) → IsErrOf result (SigError.Refused n) → IsInstanceRefusal self.old expr.now n }
        ensures unchanged { OnErr result (self.new ≡ self.old) }
    {
        let mark = self.mark();
        add_instance(self.alloc, &mut self.tables, &mark, expr)
    }

    /// The number of a written sort that is in the list; none for any other, and if a name in it is unknown or has the
    /// wrong number of arguments. The only error is `NoMemory`.
    pub fn find_instance(&self, expr: &SortExpr) -> Result<Option<SortId>, SigError>
        requires closed { AreParametersBelow 0 expr.now }
        ensures found { IfOk result (λ found. IfSome found (λ s. (e : Expression) × (resolved self.now.declared expr.now ≡ Ok e) × IsOrigin self.now s e)) }
        ensures none { IfOk result (λ found. IfNone found ((e : Expression) (s : SortId) → resolved self.now.declared expr.now ≡ Ok e → IsOrigin self.now s e → ⊥)) }
        ensures err { IfErr result (λ e. e ≡ SigError.NoMemory) }
    {
        find_instance(self.alloc, &self.tables, expr)
    }

    // Refuses a name that cannot be declared as a sort.
    fn refuse_name(&self, name: &Name) -> Result<(), SigError>
        ensures ok { OnOk result (IsUnavailableSort (declared_names self.now) name.now → ⊥) }
        ensures refused { OnErr result (IsUnavailableSort (declared_names self.now) name.now) }
        ensures code { IfErr result (λ e. e ≡ SigError.Refused name_taken) }
    {
        if self.is_unavailable_sort(name) {
            return Err(SigError::Refused(NAME_TAKEN));
        }
        Ok(())
    }

    // Refuses one sort, generic or synonym more where there are as many as there may be.
    fn refuse_one_more(&self) -> Result<(), SigError>
        ensures ok { OnOk result (sort_count self.now < most_sorts) }
        ensures refused { OnErr result (most_sorts ≤ sort_count self.now) }
        ensures code { IfErr result (λ e. e ≡ SigError.Refused too_many) }
    {
        if sort_count(&self.tables) >= MOST_SORTS {
            return Err(SigError::Refused(TOO_MANY));
        }
        Ok(())
    }

    /// Declares a function over sorts of this signature. It is refused with 29 where the name is taken or
    /// cannot be declared, and else with 16 where there are 65,536 functions. A refusal changes nothing.
    pub fn add_fun(
        &mut self,
        name: Name,
        args: Vec<SortId>,
        sort: SortId,
    ) -> Result<FunId, SigError>
        requires args { All (IsSort self.old) args.items }
        requires sort { IsSort self.old sort }
        ensures ok { IfOk result (λ f. (f.0 ≡ length self.old.functions)
            × (self.new ≡ with_function self.old (record { name = name; args = args.items; result = sort }))) }
        ensures taken { IsErrOf result (SigError.Refused symbol_taken) ↔ IsUnavailable (symbol_names self.old) name }
        ensures full { IsErrOf result (SigError.Refused too_many)
            ↔ ((IsUnavailable (symbol_names self.old) name → ⊥) × (most_functions ≤ length self.old.functions)) }
        ensures codes { (n : ℕ) → IsErrOf result (SigError.Refused n) → (n ≡ symbol_taken) ⊎ (n ≡ too_many) }
        ensures refused { OnErr result (self.new ≡ self.old) }
    {
        if self.is_unavailable_name(&name) {
            return Err(SigError::Refused(SYMBOL_TAKEN));
        }
        let count = self.functions.len();
        if count >= MOST_FUNCTIONS {
            return Err(SigError::Refused(TOO_MANY));
        }
        let args = Items::new(args);
        self.functions
            .push(name, FunctionEntry { args, result: sort })?;
        Ok(FunId(count as u32))
    }

    /// Declares a definition over sorts of this signature. It is refused with 29 where the name is taken or
    /// cannot be declared, and else with 16 where there are 65,536 definitions. A refusal changes nothing.
    pub fn add_def(
        &mut self,
        name: Name,
        args: Vec<SortId>,
        sort: SortId,
    ) -> Result<DefId, SigError>
        requires args { All (IsSort self.old) args.items }
        requires sort { IsSort self.old sort }
        ensures ok { IfOk result (λ f. (f.0 ≡ length self.old.definitions)
            × (self.new ≡ with_definition self.old (record { name = name; args = args.items; result = sort }))) }
        ensures taken { IsErrOf result (SigError.Refused symbol_taken) ↔ IsUnavailable (symbol_names self.old) name }
        ensures full { IsErrOf result (SigError.Refused too_many)
            ↔ ((IsUnavailable (symbol_names self.old) name → ⊥) × (most_definitions ≤ length self.old.definitions)) }
        ensures codes { (n : ℕ) → IsErrOf result (SigError.Refused n) → (n ≡ symbol_taken) ⊎ (n ≡ too_many) }
        ensures refused { OnErr result (self.new ≡ self.old) }
    {
        if self.is_unavailable_name(&name) {
            return Err(SigError::Refused(SYMBOL_TAKEN));
        }
        let count = self.definitions.len();
        if count >= MOST_DEFINITIONS {
            return Err(SigError::Refused(TOO_MANY));
        }
        let args = Items::new(args);
        self.definitions
            .push(name, FunctionEntry { args, result: sort })?;
        Ok(DefId(count as u32))
    }

    /// How much is declared now.
    pub fn mark(&self) -> Mark
        ensures lengths { result ≡ lengths self.now }

        // As long as declarations are only added, they can be cut back to it.
        ensures lasting { (later : Declarations) → Extends later self.now → CanCut later result }
    {
        Mark {
            sorts: self.tables.sorts.len() as u32,
            ctors: self.tables.ctors.len() as u32,
            sels: self.tables.sels.len() as u32,
            funs: self.functions.len() as u32,
            defs: self.definitions.len() as u32,
            heads: self.tables.generics.head_count() as u32,
            synonyms: self.tables.generics.synonym_count() as u32,
            symbols: self.tables.symbols.len() as u64,
        }
    }

    /// Removes what was declared after the mark. The mark's lengths are at most the present ones. The constructors of
    /// the sorts that are left are exactly the constructors that are left, and the selectors of these are exactly the
    /// selectors that are left. No field, function or definition that is left has a sort that goes, and no sort,
    /// generic or synonym that is left names one that goes. A mark that was made of this signature is such a mark, as
    /// long as declarations were only added since.
    pub fn cut_to(&mut self, mark: &Mark)
        requires can_cut { CanCut self.old mark.now }
        ensures cut { self.new ≡ cut self.old mark.now }
    {
        prove!(mark.sorts() >= 1);
        cut_tables(&mut self.tables, mark);
        self.functions.truncate(mark.funs() as usize);
        self.definitions.truncate(mark.defs() as usize);
    }

    // Whether a sort, a generic or a synonym has the name.
    fn is_sort(&self, name: &[u8]) -> bool
        ensures sort { IsTrue result ↔ IsListed (declared_names self.now) name.now }
    {
        match self.tables.generics.head_named(name) {
            Some(_) => true,
            None => self.tables.generics.synonym_named(name),
        }
    }

    // Whether a symbol has the name.
    fn is_symbol(&self, name: &[u8]) -> bool
        ensures symbol { IsTrue result ↔ IsListed (symbol_names self.now) name.now }
    {
        let first = self.tables.symbols.has(name);
        let second = self.functions.has(name);
        let third = self.definitions.has(name);
        any_of(first, second, third)
    }

    /// Whether the name cannot be declared as a symbol here: a symbol has it, it is a word of the core theory, or it
    /// is the solver's own.
    pub fn is_unavailable(&self, name: &[u8]) -> bool
        ensures unavailable { IsTrue result ↔ IsUnavailable (symbol_names self.now) name.now }
    {
        self.is_symbol(name) || is_core_word(name) || is_unfit(name)
    }

    /// Whether the name, already read as one, cannot be declared as a symbol here.
    pub(crate) fn is_unavailable_name(&self, name: &Name) -> bool
        ensures unavailable { IsTrue result ↔ IsUnavailable (symbol_names self.now) name.now }
    {
        self.is_unavailable(name.as_slice())
    }

    /// Whether the name cannot be declared as a sort here.
    pub fn is_unavailable_sort(&self, name: &Name) -> bool
        ensures unavailable { IsTrue result ↔ IsUnavailableSort (declared_names self.now) name.now }
    {
        let text = name.as_slice();
        self.is_sort(text) || is_unfit(text)
    }
}

// Whether one of them holds.
fn any_of(first: bool, second: bool, third: bool) -> bool
    ensures value { result ≡ (first || (second || third)) }
{
    first || second || third
}
