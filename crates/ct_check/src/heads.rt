//! The head of a list: a form, an operator, a symbol or a tester.
ghost use Rattle.std.specs.Prelude.{◌≡◌, ℕ, List, length, None, IfOk};
ghost use Rattle.std.specs.Str.{bytes_eq};
ghost use Rattle.ct_sexpr.specs.Atom.{symbol};
ghost use Rattle.ct_sexpr.specs.Expression.{Expressions};
ghost use Rattle.ct_sexpr.specs.View.{expression_of, expressions_of};
ghost use Rattle.ct_sorts.specs.Declarations.{Declarations, IsSort};
ghost use Rattle.ct_sorts.specs.Grown.{Extends};
ghost use Rattle.ct_sorts.specs.Lookup.{IsSymbol};
ghost use Rattle.ct_sorts.specs.declared.ids.Symbol.TheVariants.{GenCtor};
ghost use Rattle.ct_instances.specs.Among.{IsNamedCtor};
ghost use Rattle.ct_names.specs.Answer.{StopsAt, as_it_is};
ghost use Rattle.ct_names.specs.declared.needs.Needs.{Needs};
ghost use Rattle.ct_names.specs.declared.needs.Needs.TheVariants.{Find};
ghost use Rattle.ct_names.specs.Needs.{Reaches};
ghost use Rattle.ct_names.specs.Elaboration.{part_of, parts_of, list_meaning, reserved, application, qualified, qualified_symbol, tester, headed, is_text_of_name, may_qualify, takes, operated, global, applied_symbol, applied_plain, tested_term, tested_by_name, generic_ctor, of_result, lone_symbol};
ghost use Rattle.ct_names.specs.Parts.{with_part, no_parts, name_of, count};
ghost use Rattle.ct_names.specs.Outcome.{and_then, unless_halted, step};
ghost use Rattle.ct_names.specs.Refusals.{wrong_count};
ghost use Rattle.ct_names.specs.Symbols.{symbol_of, tester_named};
ghost use Rattle.ct_names.specs.Variables.{Variable};
ghost use Rattle.ct_check.specs.GenericTerms.{IsPartDeclared, part as part_term};
ghost use Rattle.ct_check.specs.Heads.{headed_by, HasCount, IsHeadDeclared, LeadsTo};

use crate::callees::{Callee, takes};
use crate::parts::Part;
use ct_formulas::Quantifier;
use ct_instances::{NamedCtor, ctor_among};
use ct_names::{
    CoreOperator, Needs, OUT_OF_SCOPE, Stop, UNDETERMINED, UNKNOWN_SYMBOL, Variables, WRONG_COUNT,
    WRONG_SORT, argument_count, ctor_named, is_of_bool, is_word, name_of, named_sort, operator_of,
    result_sort, symbol_named, tester_named,
};
use ct_sexpr::{Sexpr, is_reserved};
use ct_sorts::{GenId, Signature, SortId, Symbol};
use std::alloc::Global;

/// What stands at the head of a list.
#[derive(Clone, Copy)]
pub(crate) enum Head {
    /// `let`.
    Let,
    /// `match`.
    Match,
    /// `!`.
    Annotation,
    /// `forall` or `exists`.
    Quantified(Quantifier),
    /// The list is `(as f S)`, and f has the sort S.
    Whole(Symbol),
    /// What takes arguments of stated sorts.
    Call(Callee),
    /// A constructor of a generic whose arguments determine its sort.
    GenericCtor(GenId, u32),
    /// What takes one argument, of an instance of a generic.
    Part(Part),
    /// `=` or `distinct`.
    Equation(CoreOperator),
    /// `ite`.
    Choice,
}

/// What the first item of a list with these others says of the list.
#[tactic(auto, using(crate::proofs::HeadCases::reaches_itself))]
pub(crate) fn head_of(
    alloc: Global,
    sig: &mut Signature,
    needs: Needs,
    variables: &Variables,
    head: &Sexpr,
    args: &[Sexpr],
) -> Result<Head, Stop>
    ensures value { LeadsTo needs sig.new (λ d. list_meaning d (with_part (part_of d (expression_of head.now)) (parts_of d (expressions_of args.now))) variables.now)
        (λ d h. headed_by d variables.now h (parts_of d (expressions_of args.now))) result }
    ensures inside { IfOk result (IsHeadDeclared sig.new) }
    ensures counted { IfOk result (λ h. HasCount sig.new h (length args.now)) }
    ensures reaches { Reaches (λ d. list_meaning d (with_part (part_of d (expression_of head.now)) (parts_of d (expressions_of args.now))) variables.now) sig.old sig.new }
    ensures grown { Extends sig.new sig.old }
    ensures kept { needs ≡ Find → sig.new ≡ sig.old }
{
    match head {
        Sexpr::List(items) => list_head(alloc, sig, needs, variables, items.as_slice(), args.len()),
        Sexpr::Symbol(word) => word_head(alloc, sig, needs, variables, word.as_slice(), args),
        Sexpr::Quoted(name) => name_head(sig, variables, name.as_slice(), args.len()),
        Sexpr::Keyword(_)
        | Sexpr::Text(_)
        | Sexpr::Numeral(_)
        | Sexpr::Decimal(_)
        | Sexpr::Binary(_)
        | Sexpr::Hex(_) => Err(Stop::Refused(OUT_OF_SCOPE)),
    }
}

// A simple symbol at the head of a list.
#[tactic(auto, using(crate::proofs::HeadCases::reaches_itself))]
fn word_head(
    alloc: Global,
    sig: &mut Signature,
    needs: Needs,
    variables: &Variables,
    word: &[u8],
    args: &[Sexpr],
) -> Result<Head, Stop>
    ensures value { LeadsTo needs sig.new (λ d. headed d variables.now (symbol word.now) (parts_of d (expressions_of args.now)))
        (λ d h. headed_by d variables.now h (parts_of d (expressions_of args.now))) result }
    ensures inside { IfOk result (IsHeadDeclared sig.new) }
    ensures counted { IfOk result (λ h. HasCount sig.new h (length args.now)) }
    ensures reaches { Reaches (λ d. headed d variables.now (symbol word.now) (parts_of d (expressions_of args.now))) sig.old sig.new }
    ensures grown { Extends sig.new sig.old }
    ensures kept { needs ≡ Find → sig.new ≡ sig.old }
{
    if is_reserved(word) {
        return reserved_head(alloc, sig, needs, variables, word, args);
    }
    name_head(sig, variables, word, args.len())
}

// A reserved word at the head of a list.
#[tactic(auto, using(crate::proofs::HeadCases::reaches_itself))]
fn reserved_head(
    alloc: Global,
    sig: &mut Signature,
    needs: Needs,
    variables: &Variables,
    word: &[u8],
    args: &[Sexpr],
) -> Result<Head, Stop>
    ensures value { LeadsTo needs sig.new (λ d. reserved d variables.now word.now (parts_of d (expressions_of args.now)))
        (λ d h. headed_by d variables.now h (parts_of d (expressions_of args.now))) result }
    ensures inside { IfOk result (IsHeadDeclared sig.new) }
    ensures counted { (n : ℕ) → IfOk result (λ h. HasCount sig.new h n) }
    ensures reaches { Reaches (λ d. reserved d variables.now word.now (parts_of d (expressions_of args.now))) sig.old sig.new }
    ensures grown { Extends sig.new sig.old }
    ensures kept { needs ≡ Find → sig.new ≡ sig.old }
{
    if is_same(word, b"let") {
        return Ok(Head::Let);
    }
    if is_same(word, b"match") {
        return Ok(Head::Match);
    }
    if is_same(word, b"!") {
        return Ok(Head::Annotation);
    }
    if is_same(word, b"as") {
        return whole_head(alloc, sig, needs, variables, args);
    }
    if is_same(word, b"forall") {
        return Ok(Head::Quantified(Quantifier::Forall));
    }
    if is_same(word, b"exists") {
        return Ok(Head::Quantified(Quantifier::Exists));
    }
    Err(Stop::Refused(OUT_OF_SCOPE))
}

// Whether the two words are one.
fn is_same(word: &[u8], other: &[u8]) -> bool
    ensures value { result ≡ bytes_eq word.now other.now }
{
    word == other
}

// A list `(as f S)`, by what follows `as`.
#[tactic(auto, using(crate::proofs::HeadCases::reaches_itself))]
fn whole_head(
    alloc: Global,
    sig: &mut Signature,
    needs: Needs,
    variables: &Variables,
    args: &[Sexpr],
) -> Result<Head, Stop>
    ensures value { LeadsTo needs sig.new (λ d. and_then (qualified_symbol d variables.now (parts_of d (expressions_of args.now))) (lone_symbol d))
        (λ d h. headed_by d variables.now h (parts_of d (expressions_of args.now))) result }
    ensures inside { IfOk result (IsHeadDeclared sig.new) }
    ensures counted { (n : ℕ) → IfOk result (λ h. HasCount sig.new h n) }
    ensures reaches { Reaches (λ d. and_then (qualified_symbol d variables.now (parts_of d (expressions_of args.now))) (lone_symbol d)) sig.old sig.new }
    ensures grown { Extends sig.new sig.old }
    ensures kept { needs ≡ Find → sig.new ≡ sig.old }
{
    let symbol = qualified_symbol(alloc, sig, needs, variables, args)?;
    prove!(sig.sorts() > 0);
    Ok(Head::Whole(symbol))
}

// A name at the head of a list: no variable, but an operator or a symbol.
fn name_head(sig: &Signature, variables: &Variables, name: &[u8], args: usize) -> Result<Head, Stop>
    ensures value { (needs : Needs) (es : Expressions) → count (parts_of sig.now es) ≡ args
        → LeadsTo needs sig.now (λ d. application d variables.now name.now (parts_of d es)) (λ d h. headed_by d variables.now h (parts_of d es)) result }
    ensures inside { IfOk result (IsHeadDeclared sig.now) }
    ensures counted { IfOk result (λ h. HasCount sig.now h args) }
{
    if variables.find(name).is_some() {
        return Err(Stop::Refused(UNKNOWN_SYMBOL));
    }
    match operator_of(name) {
        Some(operator) => operator_head(operator, args),
        None => global_head(sig, name, args),
    }
}

// A name that is no variable and no operator at the head of a list, with so many arguments.
fn global_head(sig: &Signature, name: &[u8], args: usize) -> Result<Head, Stop>
    ensures value { (needs : Needs) (scope : List Variable) (es : Expressions) → count (parts_of sig.now es) ≡ args
        → LeadsTo needs sig.now (λ d. global d scope name.now None (symbol_of d name.now) (parts_of d es)) (λ d h. headed_by d scope h (parts_of d es)) result }
    ensures inside { IfOk result (IsHeadDeclared sig.now) }
    ensures counted { IfOk result (λ h. HasCount sig.now h args) }
{
    prove!(sig.sorts() > 0);
    match symbol_named(sig, name) {
        Some(symbol) => symbol_head(sig, symbol, args),
        None => named_tester_head(sig, name, args),
    }
}

// A name that is no variable, no operator and no symbol at the head of a list, with so many arguments: `is-C`.
fn named_tester_head(sig: &Signature, name: &[u8], args: usize) -> Result<Head, Stop>
    ensures value { (needs : Needs) (scope : List Variable) (es : Expressions) → count (parts_of sig.now es) ≡ args
        → LeadsTo needs sig.now (λ d. tested_by_name d scope (tester_named d name.now) (parts_of d es)) (λ d h. headed_by d scope h (parts_of d es)) result }
    ensures inside { IfOk result (IsHeadDeclared sig.now) }
    ensures counted { IfOk result (λ h. HasCount sig.now h args) }
{
    prove!(sig.sorts() > 0);
    match tester_named(sig, name) {
        Some(ctor) => tester_head(ctor, args),
        None => Err(Stop::Refused(UNKNOWN_SYMBOL)),
    }
}

// An operator at the head of a list, with so many arguments.
fn operator_head(operator: CoreOperator, args: usize) -> Result<Head, Stop>
    ensures value { (needs : Needs) (d : Declarations) (scope : List Variable) (es : Expressions) → count (parts_of d es) ≡ args
        → LeadsTo needs d (λ n. unless_halted (takes operator (count (parts_of n es))) wrong_count (operated n scope operator (parts_of n es)))
        (λ n h. headed_by n scope h (parts_of n es)) result }
    ensures inside { (d : Declarations) → IfOk result (IsHeadDeclared d) }
    ensures counted { (d : Declarations) → IfOk result (λ h. HasCount d h args) }
{
    if !takes(operator, args) {
        return Err(Stop::Refused(WRONG_COUNT));
    }
    match operator {
        CoreOperator::Not => Ok(Head::Call(Callee::Connective(CoreOperator::Not))),
        CoreOperator::And => Ok(Head::Call(Callee::Connective(CoreOperator::And))),
        CoreOperator::Or => Ok(Head::Call(Callee::Connective(CoreOperator::Or))),
        CoreOperator::Xor => Ok(Head::Call(Callee::Connective(CoreOperator::Xor))),
        CoreOperator::Implies => Ok(Head::Call(Callee::Connective(CoreOperator::Implies))),
        CoreOperator::Equal => Ok(Head::Equation(CoreOperator::Equal)),
        CoreOperator::Distinct => Ok(Head::Equation(CoreOperator::Distinct)),
        CoreOperator::Ite => Ok(Head::Choice),
    }
}

// A symbol at the head of a list, with so many arguments: where it takes none, the list has no
// form.
fn symbol_head(sig: &Signature, symbol: Symbol, args: usize) -> Result<Head, Stop>
    requires inside { IsSymbol sig.now symbol }
    ensures value { (needs : Needs) (scope : List Variable) (es : Expressions) → count (parts_of sig.now es) ≡ args
        → LeadsTo needs sig.now (λ d. applied_symbol d scope symbol (parts_of d es)) (λ d h. headed_by d scope h (parts_of d es)) result }
    ensures inside { IfOk result (IsHeadDeclared sig.now) }
    ensures counted { IfOk result (λ h. HasCount sig.now h args) }
{
    match symbol {
        Symbol::GenCtor(g, index) => generic_ctor_head(sig, g, index, args),
        Symbol::GenSel(g, index, place) => part_head(Part::Field(g, index, place), args),
        Symbol::Ctor(_) | Symbol::Sel(_) | Symbol::Fun(_) | Symbol::Def(_) => {
            plain_head(sig, symbol, args)
        }
    }
}

// A symbol of stated sorts at the head of a list, with so many arguments.
fn plain_head(sig: &Signature, symbol: Symbol, args: usize) -> Result<Head, Stop>
    requires inside { IsSymbol sig.now symbol }
    ensures value { (needs : Needs) (scope : List Variable) (es : Expressions) → count (parts_of sig.now es) ≡ args
        → LeadsTo needs sig.now (λ d. applied_plain d scope symbol (parts_of d es)) (λ d h. headed_by d scope h (parts_of d es)) result }
    ensures inside { IfOk result (IsHeadDeclared sig.now) }
    ensures counted { IfOk result (λ h. HasCount sig.now h args) }
{
    prove!(sig.sorts() > 0);
    let wanted = argument_count(sig, symbol);
    if wanted == 0 && args == 0 {
        return Err(Stop::Refused(OUT_OF_SCOPE));
    }
    if wanted != args {
        return Err(Stop::Refused(WRONG_COUNT));
    }
    Ok(Head::Call(Callee::Symbol(symbol)))
}

// A constructor of a generic at the head of a list, with so many arguments: these determine its sort.
fn generic_ctor_head(sig: &Signature, g: GenId, index: u32, args: usize) -> Result<Head, Stop>
    requires ctor { IsSymbol sig.now (GenCtor g index) }
    ensures value { (needs : Needs) (scope : List Variable) (es : Expressions) → count (parts_of sig.now es) ≡ args
        → LeadsTo needs sig.now (λ d. generic_ctor d scope g index (parts_of d es)) (λ d h. headed_by d scope h (parts_of d es)) result }
    ensures inside { IfOk result (IsHeadDeclared sig.now) }
    ensures counted { IfOk result (λ h. HasCount sig.now h args) }
{
    prove!(sig.sorts() > 0);
    if !sig.gen_determined(g, index) {
        return Err(Stop::Refused(UNDETERMINED));
    }
    if sig.gen_fields(g, index).1.len() != args {
        return Err(Stop::Refused(WRONG_COUNT));
    }
    Ok(Head::GenericCtor(g, index))
}

// What takes one argument of an instance, with so many arguments.
fn part_head(part: Part, args: usize) -> Result<Head, Stop>
    ensures value { (needs : Needs) (d : Declarations) (scope : List Variable) (es : Expressions) → count (parts_of d es) ≡ args
        → LeadsTo needs d (λ n. part_term n scope part (parts_of n es)) (λ n h. headed_by n scope h (parts_of n es)) result }
    ensures inside { (d : Declarations) → IsPartDeclared d part → IfOk result (IsHeadDeclared d) }
    ensures counted { (d : Declarations) → IfOk result (λ h. HasCount d h args) }
{
    if args != 1 {
        return Err(Stop::Refused(WRONG_COUNT));
    }
    Ok(Head::Part(part))
}

// A tester at the head of a list, with so many arguments.
fn tester_head(ctor: NamedCtor, args: usize) -> Result<Head, Stop>
    ensures value { (needs : Needs) (d : Declarations) (scope : List Variable) (es : Expressions) → IsNamedCtor d ctor → count (parts_of d es) ≡ args
        → LeadsTo needs d (λ n. tested_term n scope ctor (parts_of n es)) (λ n h. headed_by n scope h (parts_of n es)) result }
    ensures inside { (d : Declarations) → IsNamedCtor d ctor → IfOk result (IsHeadDeclared d) }
    ensures counted { (d : Declarations) → IfOk result (λ h. HasCount d h args) }
{
    match ctor {
        NamedCtor::Generic(g, index) => part_head(Part::Test(g, index), args),
        NamedCtor::Plain(c) => {
            if args != 1 {
                return Err(Stop::Refused(WRONG_COUNT));
            }
            Ok(Head::Call(Callee::Tester(c)))
        }
    }
}

// A list at the head of a list: a tester, or a qualified symbol.
#[tactic(auto, using(crate::proofs::HeadCases::reaches_itself))]
fn list_head(
    alloc: Global,
    sig: &mut Signature,
    needs: Needs,
    variables: &Variables,
    items: &[Sexpr],
    args: usize,
) -> Result<Head, Stop>
    ensures value { (es : Expressions) → count (parts_of sig.new es) ≡ args
        → LeadsTo needs sig.new (λ d. qualified d variables.now (parts_of d (expressions_of items.now)) (parts_of d es)) (λ d h. headed_by d variables.now h (parts_of d es)) result }
    ensures inside { IfOk result (IsHeadDeclared sig.new) }
    ensures counted { IfOk result (λ h. HasCount sig.new h args) }
    ensures reaches { (es : Expressions) → Reaches (λ d. qualified d variables.now (parts_of d (expressions_of items.now)) (parts_of d es)) sig.old sig.new }
    ensures grown { Extends sig.new sig.old }
    ensures kept { needs ≡ Find → sig.new ≡ sig.old }
{
    let [word, others @ ..] = items else {
        return Err(Stop::Refused(OUT_OF_SCOPE));
    };
    if is_word(b"_", word) {
        prove!(sig.sorts() > 0);
        let ctor = tester(sig, others)?;
        return tester_head(ctor, args);
    }
    if is_word(b"as", word) {
        let symbol = qualified_symbol(alloc, sig, needs, variables, others)?;
        prove!(sig.sorts() > 0);
        return symbol_head(sig, symbol, args);
    }
    Err(Stop::Refused(OUT_OF_SCOPE))
}

// The constructor of `(_ is C)`, by its items without `_`.
fn tester(sig: &Signature, items: &[Sexpr]) -> Result<NamedCtor, Stop>
    ensures value { (needs : Needs) → StopsAt needs sig.now as_it_is (step (tester sig.now (parts_of sig.now (expressions_of items.now))))
        result }
    ensures inside { IfOk result (IsNamedCtor sig.now) }
{
    match items {
        [is, ctor] => tester_of(sig, is, ctor),
        [] | [_] | [_, _, _, ..] => Err(Stop::Refused(OUT_OF_SCOPE)),
    }
}

// The constructor of `(_ is C)`, by the word and the constructor.
fn tester_of(sig: &Signature, word: &Sexpr, ctor: &Sexpr) -> Result<NamedCtor, Stop>
    ensures value { (needs : Needs) → StopsAt needs sig.now as_it_is (step (tester sig.now (with_part (part_of sig.now
        (expression_of word.now)) (with_part (part_of sig.now (expression_of ctor.now)) no_parts))))
        result }
    ensures inside { IfOk result (IsNamedCtor sig.now) }
{
    if !is_named(b"is", word) {
        return Err(Stop::Refused(OUT_OF_SCOPE));
    }
    let Some(name) = name_of(ctor) else {
        return Err(Stop::Refused(OUT_OF_SCOPE));
    };
    let Some(ctor) = ctor_named(sig, name) else {
        return Err(Stop::Refused(UNKNOWN_SYMBOL));
    };
    if is_of_bool(ctor) {
        return Err(Stop::Refused(OUT_OF_SCOPE));
    }
    Ok(ctor)
}

// Whether the expression is this name.
fn is_named(wanted: &[u8], expr: &Sexpr) -> bool
    ensures value { (d : Declarations) → result ≡ is_text_of_name wanted.now (name_of (part_of d
        (expression_of expr.now))) }
{
    match name_of(expr) {
        Some(name) => name == wanted,
        None => false,
    }
}

// The symbol of `(as f S)`, by its items without `as`.
#[tactic(auto, using(crate::proofs::HeadCases::reaches_itself))]
fn qualified_symbol(
    alloc: Global,
    sig: &mut Signature,
    needs: Needs,
    variables: &Variables,
    items: &[Sexpr],
) -> Result<Symbol, Stop>
    ensures value { StopsAt needs sig.new as_it_is (qualified_symbol sig.new variables.now
        (parts_of sig.new (expressions_of items.now))) result }
    ensures inside { IfOk result (IsSymbol sig.new) }
    ensures reaches { Reaches (λ d. qualified_symbol d variables.now (parts_of d (expressions_of items.now))) sig.old sig.new }
    ensures grown { Extends sig.new sig.old }
    ensures kept { needs ≡ Find → sig.new ≡ sig.old }
{
    match items {
        [f, sort] => qualified_name(alloc, sig, needs, variables, f, sort),
        [] | [_] | [_, _, _, ..] => Err(Stop::Refused(OUT_OF_SCOPE)),
    }
}

// The symbol of `(as f S)`, by f and S.
#[tactic(auto, using(crate::proofs::HeadCases::reaches_itself))]
fn qualified_name(
    alloc: Global,
    sig: &mut Signature,
    needs: Needs,
    variables: &Variables,
    f: &Sexpr,
    sort: &Sexpr,
) -> Result<Symbol, Stop>
    ensures value { StopsAt needs sig.new as_it_is (qualified_symbol sig.new variables.now (with_part
        (part_of sig.new (expression_of f.now)) (with_part (part_of sig.new
        (expression_of sort.now)) no_parts))) result }
    ensures inside { IfOk result (IsSymbol sig.new) }
    ensures reaches { Reaches (λ d. qualified_symbol d variables.now (with_part (part_of d (expression_of f.now)) (with_part (part_of d (expression_of sort.now)) no_parts))) sig.old sig.new }
    ensures grown { Extends sig.new sig.old }
    ensures kept { needs ≡ Find → sig.new ≡ sig.old }
{
    let Some(name) = name_of(f) else {
        return Err(Stop::Refused(OUT_OF_SCOPE));
    };
    if variables.find(name).is_some() {
        return Err(Stop::Refused(UNKNOWN_SYMBOL));
    }
    prove!(sig.sorts() > 0);
    let symbol = qualifiable(sig, name)?;
    let wanted = named_sort(alloc, sig, needs, sort)?;
    of_result(sig, symbol, wanted)
}

// The symbol whose result has this sort: for a constructor of a generic that of the instance.
fn of_result(sig: &Signature, symbol: Symbol, sort: SortId) -> Result<Symbol, Stop>
    requires symbol { IsSymbol sig.now symbol }
    requires sort { IsSort sig.now sort }
    ensures value { (needs : Needs) → StopsAt needs sig.now as_it_is (step (of_result sig.now symbol sort)) result }
    ensures inside { IfOk result (IsSymbol sig.now) }
{
    match symbol {
        Symbol::GenCtor(g, index) => match ctor_among(sig, NamedCtor::Generic(g, index), sort) {
            Some(c) => Ok(Symbol::Ctor(c)),
            None => Err(Stop::Refused(WRONG_SORT)),
        },
        Symbol::Ctor(_)
        | Symbol::Sel(_)
        | Symbol::Fun(_)
        | Symbol::Def(_)
        | Symbol::GenSel(_, _, _) => {
            if result_sort(sig, symbol) != sort {
                return Err(Stop::Refused(WRONG_SORT));
            }
            Ok(symbol)
        }
    }
}

// The symbol that `as` may qualify: no selector.
fn qualifiable(sig: &Signature, name: &[u8]) -> Result<Symbol, Stop>
    ensures value { (needs : Needs) → StopsAt needs sig.now as_it_is (step (may_qualify (symbol_of sig.now name.now))) result }
    ensures inside { IfOk result (IsSymbol sig.now) }
{
    match symbol_named(sig, name) {
        Some(Symbol::Sel(_) | Symbol::GenSel(_, _, _)) | None => Err(Stop::Refused(UNKNOWN_SYMBOL)),
        Some(symbol) => Ok(symbol),
    }
}
