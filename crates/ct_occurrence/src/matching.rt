//! Which constructor is tested before a case of a `match`.
ghost use Rattle.std.specs.Prelude.{◌≡◌, reverse};
ghost use Rattle.ct_occurrence.specs.Matching.{IsPatternDeclared, tested_by};

use crate::earlier::Earlier;
use crate::fitting::surely_fits;
use ct_formulas::Pattern;
use ct_sorts::{CtorId, Signature};

/// The constructor that is tested before a case, after cases of the constructors `earlier`: none if the case is certain
/// to match or is the last.
pub fn tested(sig: &Signature, earlier: &Earlier, pattern: Pattern, last: bool) -> Option<CtorId>
    requires declared { IsPatternDeclared sig.now pattern }
    ensures value { result ≡ tested_by sig.now (reverse earlier.now) pattern last }
{
    match pattern {
        Pattern::Any => None,
        Pattern::Ctor(c) => tested_constructor(sig, earlier, c, last),
    }
}

// The constructor, unless its case surely fits or is the last.
fn tested_constructor(sig: &Signature, earlier: &Earlier, c: CtorId, last: bool) -> Option<CtorId>
    requires declared { IsPatternDeclared sig.now (Pattern.Ctor c) }
    ensures value { result ≡ tested_by sig.now (reverse earlier.now) (Pattern.Ctor c) last }
{
    if surely_fits(sig, earlier, c) || last {
        return None;
    }
    Some(c)
}
